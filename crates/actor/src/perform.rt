//! The steps, act by act. A power cut leaves a step by `?`.
ghost use Rattle.std.specs.Prelude.{◌≡◌, [], ◌∷◌};
ghost use Rattle.actor.specs.Acting.{after, performed};
ghost use Rattle.actor.specs.Actors.{Changes};
ghost use Rattle.station.specs.Acts.{write, force, mark, line, if_so, outcome_kind, logged};
ghost use Rattle.station.specs.Acts.{open_vote, prepare, commit, abort, acknowledge, enforce, acts};

use crate::acts::Acting;
use crate::fuse::PowerCut;
use journal::calls::Journal;
use journal::records::{Kind, Record};
use presumption::Presumption;
use presumption::outcome::{Logging, Outcome};
use station::messages::MessageKind;
use station::sets::StationSet;
use station::steps::Step;

#[tactic(auto, using(crate::proofs::Performed::performing))]
impl<J: Journal, P: Presumption> Acting<'_, J, P> {
    // Writes a record and forces it. `prepare` and `decide_commit` do so openly, for the receipt.
    fn write_forced(&mut self, line: Record) -> Result<(), PowerCut>
        ensures { Changes J.meaning (performed (write line ∷ force ∷ [])) self.old result self.new }
    {
        let debt = self.write_due(line)?;
        let _receipt = self.force(debt)?;
        Ok(())
    }

    // Opens the vote.
    fn open_vote(&mut self, set: StationSet) -> Result<(), PowerCut>
        ensures { Changes J.meaning
            (performed (open_vote (P.answers self.old.presumption.now)
            self.old.station self.old.revision set))
            self.old result self.new }
    {
        if self.presumption.opens() {
            let line = self.line(Kind::Opening, u8::from(set));
            self.write_forced(line)?;
        }
        self.post_each(MessageKind::Prepare, set)
    }

    // Writes p, forces it and votes YES.
    fn prepare(&mut self, coordinator: u8, sender: u8) -> Result<(), PowerCut>
        ensures { Changes J.meaning
            (performed (prepare self.old.station self.old.revision coordinator sender))
            self.old result self.new }
    {
        let line = self.line(Kind::Prepared, coordinator);
        let debt = self.write_due(line)?;
        let receipt = self.force(debt)?;
        self.post_yes(receipt, sender)
    }

    // Writes C, forces it and tells the set.
    fn decide_commit(&mut self, set: StationSet) -> Result<(), PowerCut>
        ensures { Changes J.meaning
            (performed (commit self.old.station self.old.revision set))
            self.old result self.new }
    {
        let line = self.line(Kind::Commit, u8::from(set));
        let debt = self.write_due(line)?;
        let receipt = self.force(debt)?;
        self.post_commits(receipt, set)
    }

    // Logs an abort as the presumption says.
    fn log_abort(&mut self, line: Record) -> Result<(), PowerCut>
        ensures { Changes J.meaning
            (performed (logged (P.answers self.old.presumption.now).abort_logging line))
            self.old result self.new }
    {
        match self.presumption.abort_logging() {
            Logging::NotAtAll => Ok(()),
            Logging::Unforced => self.write(line),
            Logging::Forced => self.write_forced(line),
        }
    }

    // Logs the abort, tells some, and ends at once where nobody is awaited.
    fn decide_abort(&mut self, set: StationSet, told: StationSet) -> Result<(), PowerCut>
        ensures { Changes J.meaning
            (performed (abort (P.answers self.old.presumption.now)
            self.old.station self.old.revision set told))
            self.old result self.new }
    {
        let line = self.line(Kind::Abort, u8::from(set));
        self.log_abort(line)?;
        self.post_each(MessageKind::Abort, told)?;
        if self.presumption.acknowledges(Outcome::Abort) && told.is_empty() {
            self.end()?;
        }
        Ok(())
    }

    // Writes E.
    fn end(&mut self) -> Result<(), PowerCut>
        ensures { Changes J.meaning
            (after (write (line Kind.End self.old.revision 0)))
            self.old result self.new }
    {
        let line = self.line(Kind::End, 0);
        self.write(line)
    }

    // Marks the outcome, then writes its record and forces it if it is forced.
    fn record_outcome(&mut self, outcome: Outcome, coordinator: u8) -> Result<(), PowerCut>
        ensures { Changes J.meaning
            (performed (mark outcome self.old.revision
            ∷ write (line (outcome_kind outcome) self.old.revision coordinator)
            ∷ if_so ((P.answers self.old.presumption.now).forces outcome) (force ∷ [])))
            self.old result self.new }
    {
        self.mark(outcome)?;
        let line = self.line(outcome_record(outcome), coordinator);
        if self.presumption.forces(outcome) {
            self.write_forced(line)
        } else {
            self.write(line)
        }
    }

    // Acknowledges the outcome, if it is acknowledged.
    fn acknowledge(&mut self, outcome: Outcome, receiver: u8) -> Result<(), PowerCut>
        ensures { Changes J.meaning
            (performed (acknowledge (P.answers self.old.presumption.now)
            self.old.station self.old.revision outcome receiver))
            self.old result self.new }
    {
        if self.presumption.acknowledges(outcome) {
            self.post(MessageKind::Ack, receiver)?;
        }
        Ok(())
    }

    // Carries the outcome out: the mark comes before its record.
    fn enforce(&mut self, outcome: Outcome, coordinator: u8) -> Result<(), PowerCut>
        ensures { Changes J.meaning
            (performed (enforce (P.answers self.old.presumption.now)
            self.old.station self.old.revision outcome coordinator))
            self.old result self.new }
    {
        self.record_outcome(outcome, coordinator)?;
        self.acknowledge(outcome, coordinator)
    }

    /// Performs the acts of a step.
    pub(crate) fn perform(&mut self, step: Step) -> Result<(), PowerCut>
        ensures { Changes J.meaning
            (performed (acts (P.answers self.old.presumption.now)
            self.old.station self.old.revision step))
            self.old result self.new }
    {
        match step {
            Step::Rest => Ok(()),
            Step::OpenVote { set } => self.open_vote(set),
            Step::Prepare {
                coordinator,
                sender,
            } => self.prepare(coordinator, sender),
            Step::RepeatYes { vote, sender } => self.repeat_yes(vote, sender),
            Step::VoteNo { sender } => self.post(MessageKind::No, sender),
            Step::DecideCommit { set } => self.decide_commit(set),
            Step::DecideAbort { set, told } => self.decide_abort(set, told),
            Step::Enforce {
                outcome,
                coordinator,
            } => self.enforce(outcome, coordinator),
            Step::Acknowledge { outcome, sender } => self.acknowledge(outcome, sender),
            Step::End => self.end(),
            Step::Tell { known, sender } => self.tell(known, sender),
            Step::Chase { known, awaited } => self.tell_each(known, awaited),
            Step::Inquire { coordinator } => self.post(MessageKind::Inquiry, coordinator),
            Step::Reject { coordinator } => self.record_outcome(Outcome::Abort, coordinator),
        }
    }
}

// The subordinate's record of an outcome. No `From`, since neither type is this crate's.
fn outcome_record(outcome: Outcome) -> Kind
    ensures { result ≡ outcome_kind outcome }
{
    match outcome {
        Outcome::Commit => Kind::Committed,
        Outcome::Abort => Kind::Aborted,
    }
}
