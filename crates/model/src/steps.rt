//! The steps, each as a list of acts and what becomes of the entry.

use super::sets::{STATIONS, Set};
use super::whole::Model;
use super::words::{AbortLogging, Entry, Holding, Kind, Message, Outcome, Word};
use std::alloc::AllocError;

/// One act of the acting station.
#[derive(Clone, Copy, PartialEq, Eq, Debug)]
pub enum Act {
    Write(Kind, u8),
    Force,
    Post(Word, u8),
    Mark(Outcome),
}

/// What becomes of an entry after the last act. No Option of an Option, whose two kinds of None would not say which is
/// which.
#[derive(Clone, Copy, PartialEq, Eq, Debug)]
pub enum Then {
    Stays,
    Goes,
    Turns(Holding),
}

/// A step of the station that an entry belongs to: its acts, and how the entry changes after them.
#[derive(Drop)]
pub struct Step {
    pub entry: Entry,
    pub acts: Vec<Act>,
    pub then: Then,
}

impl Step {
    /// Adds an act.
    fn act(&mut self, act: Act) -> Result<(), AllocError> {
        self.acts.push(act)?;
        Ok(())
    }

    /// Adds one post for each station of the set, in ascending order.
    fn post_each(&mut self, word: Word, set: Set) -> Result<(), AllocError> {
        let receivers = STATIONS.iter().filter(|station| set.holds(**station));
        self.acts
            .extend(receivers.map(|receiver| Act::Post(word, *receiver)))
    }
}

/// The steps of the coordinator and of the stations, by their names.
impl Model {
    /// Rest.
    fn rest(&self, entry: Entry) -> Step {
        Step {
            entry,
            acts: Vec::new(self.heap),
            then: Then::Stays,
        }
    }

    /// OpenVote.
    pub(crate) fn open_vote(&self, entry: Entry, set: Set) -> Result<Step, AllocError> {
        let mut step = self.rest(entry);
        if self.presumption.opens {
            step.act(Act::Write(Kind::Opening, u8::from(set)))?;
            step.act(Act::Force)?;
        }
        step.post_each(Word::Prepare, set)?;
        step.then = Then::Turns(Holding::Collecting(set, Set::default()));
        Ok(step)
    }

    /// DecideCommit.
    fn decide_commit(&self, entry: Entry, set: Set) -> Result<Step, AllocError> {
        let mut step = self.rest(entry);
        step.act(Act::Write(Kind::Commit, u8::from(set)))?;
        step.act(Act::Force)?;
        step.post_each(Word::Commit, set)?;
        step.then = if self.presumption.handling(Outcome::Commit).acknowledged {
            Then::Turns(Holding::Announcing(Outcome::Commit, set))
        } else {
            Then::Goes
        };
        Ok(step)
    }

    /// DecideAbort, with the whole set and those to be told.
    pub(crate) fn decide_abort(
        &self,
        entry: Entry,
        set: Set,
        told: Set,
    ) -> Result<Step, AllocError> {
        let mut step = self.rest(entry);
        if self.presumption.abort_logging != AbortLogging::NotAtAll {
            step.act(Act::Write(Kind::Abort, u8::from(set)))?;
        }
        if self.presumption.abort_logging == AbortLogging::Forced {
            step.act(Act::Force)?;
        }
        step.post_each(Word::Abort, told)?;
        step.then = Then::Goes;
        if self.presumption.handling(Outcome::Abort).acknowledged {
            if told.size() == 0 {
                step.act(Act::Write(Kind::End, 0))?;
            } else {
                step.then = Then::Turns(Holding::Announcing(Outcome::Abort, told));
            }
        }
        Ok(step)
    }

    /// Chase.
    pub(crate) fn chasing(
        &self,
        entry: Entry,
        outcome: Outcome,
        awaited: Set,
    ) -> Result<Step, AllocError> {
        let mut step = self.rest(entry);
        step.post_each(Word::from(outcome), awaited)?;
        Ok(step)
    }

    /// Inquire.
    pub(crate) fn inquiring(&self, entry: Entry, coordinator: u8) -> Result<Step, AllocError> {
        let mut step = self.rest(entry);
        step.act(Act::Post(Word::Inquiry, coordinator))?;
        Ok(step)
    }

    /// Reject.
    pub(crate) fn rejecting(&self, entry: Entry, coordinator: u8) -> Result<Step, AllocError> {
        self.finishing(entry, Outcome::Abort, coordinator)
    }

    /// Enforce.
    fn enforce(&self, entry: Entry, outcome: Outcome, coordinator: u8) -> Result<Step, AllocError> {
        let mut step = self.finishing(entry, outcome, coordinator)?;
        if self.presumption.handling(outcome).acknowledged {
            step.act(Act::Post(Word::Ack, coordinator))?;
        }
        Ok(step)
    }

    /// What Reject and Enforce have in common: the mark, the record and its force, and the entry gone.
    fn finishing(
        &self,
        entry: Entry,
        outcome: Outcome,
        coordinator: u8,
    ) -> Result<Step, AllocError> {
        let mut step = self.rest(entry);
        step.act(Act::Mark(outcome))?;
        let kind = match outcome {
            Outcome::Commit => Kind::Committed,
            Outcome::Abort => Kind::Aborted,
        };
        step.act(Act::Write(kind, coordinator))?;
        if self.presumption.handling(outcome).forced {
            step.act(Act::Force)?;
        }
        step.then = Then::Goes;
        Ok(step)
    }
}

/// The steps that messages set off, each at the entry that the message meets.
impl Model {
    /// The step that a message sets off at its receiver.
    pub(crate) fn met_by(&self, message: Message) -> Result<Step, AllocError> {
        let entry = message.entry();
        let sender = message.sender;
        match message.word {
            Word::Prepare => self.met_by_prepare(entry, sender),
            Word::Commit => self.met_by_outcome(entry, sender, Outcome::Commit),
            Word::Abort => self.met_by_outcome(entry, sender, Outcome::Abort),
            Word::Yes => self.met_by_yes(entry, sender),
            Word::No => self.met_by_no(entry, sender),
            Word::Ack => self.met_by_ack(entry, sender),
            Word::Inquiry => self.met_by_inquiry(entry, sender),
        }
    }

    /// PREPARE: Prepare, RepeatYes or VoteNo.
    fn met_by_prepare(&self, entry: Entry, sender: u8) -> Result<Step, AllocError> {
        let mut step = self.rest(entry);
        match self.holding(entry) {
            None => step.act(Act::Post(Word::No, sender))?,
            Some(Holding::Active(coordinator)) => {
                step.act(Act::Write(Kind::Prepared, coordinator))?;
                step.act(Act::Force)?;
                step.act(Act::Post(Word::Yes, sender))?;
                step.then = Then::Turns(Holding::Prepared(coordinator));
            }
            Some(_) => step.act(Act::Post(Word::Yes, sender))?,
        }
        Ok(step)
    }

    /// COMMIT and ABORT: Enforce, Acknowledge or Rest.
    fn met_by_outcome(
        &self,
        entry: Entry,
        sender: u8,
        outcome: Outcome,
    ) -> Result<Step, AllocError> {
        match self.holding(entry) {
            None if self.presumption.handling(outcome).acknowledged => {
                let mut step = self.rest(entry);
                step.act(Act::Post(Word::Ack, sender))?;
                Ok(step)
            }
            Some(Holding::Active(coordinator)) if outcome == Outcome::Abort => self.enforce(
                entry,
                outcome,
                coordinator,
            ),
            Some(Holding::Prepared(coordinator)) => self.enforce(entry, outcome, coordinator),
            _ => Ok(self.rest(entry)),
        }
    }

    /// YES: a voter more, and DecideCommit with the last one.
    fn met_by_yes(&self, entry: Entry, sender: u8) -> Result<Step, AllocError> {
        let mut step = self.rest(entry);
        if let Some(Holding::Collecting(set, voters)) = self.holding(entry)
            && set.holds(sender)
        {
            let voters = voters.with(sender);
            if voters == set {
                return self.decide_commit(entry, set);
            }
            step.then = Then::Turns(Holding::Collecting(set, voters));
        }
        Ok(step)
    }

    /// NO: DecideAbort, telling all but the sender.
    fn met_by_no(&self, entry: Entry, sender: u8) -> Result<Step, AllocError> {
        match self.holding(entry) {
            Some(Holding::Collecting(set, _)) if set.holds(sender) => self.decide_abort(
                entry,
                set,
                set.without(sender),
            ),
            _ => Ok(self.rest(entry)),
        }
    }

    /// ACK: one awaited station less, and End with the last one.
    fn met_by_ack(&self, entry: Entry, sender: u8) -> Result<Step, AllocError> {
        let mut step = self.rest(entry);
        if let Some(Holding::Announcing(outcome, awaited)) = self.holding(entry)
            && awaited.holds(sender)
        {
            let left = awaited.without(sender);
            if left.size() == 0 {
                step.act(Act::Write(Kind::End, 0))?;
                step.then = Then::Goes;
            } else {
                step.then = Then::Turns(Holding::Announcing(outcome, left));
            }
        }
        Ok(step)
    }

    /// INQUIRY: Tell, or Rest while nothing is decided.
    fn met_by_inquiry(&self, entry: Entry, sender: u8) -> Result<Step, AllocError> {
        let mut step = self.rest(entry);
        match self.holding(entry) {
            None => step.act(Act::Post(Word::from(self.presumption.presumed), sender))?,
            Some(Holding::Announcing(outcome, _)) => step.act(Act::Post(
                Word::from(outcome),
                sender,
            ))?,
            Some(_) => {}
        }
        Ok(step)
    }
}
