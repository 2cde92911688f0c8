//! The station that acts: its fuse, its debts and receipts, and each act that it can do.
ghost use Rattle.std.specs.Prelude.{◌≡◌, false, IfOk};
ghost use Rattle.actor.specs.Acting.{guarded, begun, burnt, after, performed};
ghost use Rattle.actor.specs.Actors.{store_of, acting, Changes};
ghost use Rattle.station.specs.Acts.{write, force, post, mark, line, letter, post_each, telling};

use crate::actor::Actor;
use crate::fuse::{Fuse, PowerCut};
use journal::calls::Journal;
use journal::records::{Kind, Record};
use presumption::outcome::Outcome;
use station::coordinator::KnownOutcome;
use station::messages::{Message, MessageKind};
use station::sets::StationSet;
use station::subordinate::GivenVote;

// No type can name a station: a token has it as a field, and what spends the token asks that this station is the one
// that acts.

/// A record was written that must be forced. Not `Drop`: only a force or a power cut spends it.
pub(crate) struct Debt {
    station: u8,
    owed: Record,
}

/// That record is stable at that station. Only a force makes one.
#[derive(Drop)]
pub(crate) struct Receipt {
    station: u8,
    paid: Record,
}

/// A station in the middle of a step for a revision, and how many of its acts are done.
#[derive(Drop)]
pub(crate) struct Acting<'a, J, P> {
    actor: &'a mut Actor<J>,
    pub(crate) presumption: &'a P,
    station: u8,
    revision: u16,
    fuse: Fuse,
    done: u8,
}

#[tactic(auto, unfolding(crate::specs::Acting::after, crate::specs::Store::done))]
impl<'a, J: Journal, P> Acting<'a, J, P> {
    /// A step of the station for the revision begins.
    pub(crate) fn new(
        actor: &'a mut Actor<J>,
        presumption: &'a P,
        station: u8,
        revision: u16,
        fuse: Fuse,
    ) -> Acting<'a, J, P>
        ensures state { acting J.meaning false result
            ≡ begun station fuse (store_of J.meaning actor.old) }
        ensures revision { result.revision ≡ revision }
        ensures presumption { result.presumption.now ≡ presumption.now }
        ensures actor { result.actor.ghost_name ≡ actor.entry.ghost_name }
    {
        Acting {
            actor,
            presumption,
            station,
            revision,
            fuse,
            done: 0,
        }
    }

    /// How many acts are done.
    pub(crate) fn done(&self) -> u8
        ensures { result ≡ self.now.done }
    {
        self.done
    }

    /// A record for the revision.
    pub(crate) fn line(&self, kind: Kind, argument: u8) -> Record
        ensures { result ≡ line kind self.now.revision argument }
    {
        Record {
            kind,
            revision: self.revision,
            argument,
        }
    }

    // An act begins, or the power fails where the fuse is burnt.
    #[tactic(auto, unfolding(crate::specs::Acting::burnt))]
    fn burn(&mut self) -> Result<(), PowerCut>
        ensures { Changes J.meaning burnt self.old result self.new }
    {
        if self.done >= self.fuse.acts {
            self.actor.cut(self.station, self.fuse.kept);
            return Err(PowerCut { after: self.done });
        }
        self.done += 1;
        Ok(())
    }

    /// Writes a record that need not be forced.
    pub(crate) fn write(&mut self, line: Record) -> Result<(), PowerCut>
        ensures { Changes J.meaning (after (write line)) self.old result self.new }
    {
        self.burn()?;
        let _ = self.actor.journal.write(self.station, line);
        Ok(())
    }

    /// Writes a record that must be forced, and leaves the debt.
    pub(crate) fn write_due(&mut self, line: Record) -> Result<Debt, PowerCut>
        ensures acts { Changes J.meaning (after (write line)) self.old result self.new }
        ensures owes { IfOk result (λ d. (d.station ≡ self.old.station) × (d.owed ≡ line)) }
    {
        self.write(line)?;
        Ok(Debt {
            station: self.station,
            owed: line,
        })
    }

    /// Forces, which spends the debt; the receipt names the record and its station.
    pub(crate) fn force(&mut self, debt: Debt) -> Result<Receipt, PowerCut>
        requires { debt.station ≡ self.old.station }
        ensures acts { Changes J.meaning (after force) self.old result self.new }
        ensures names { IfOk result (λ p. (p.station ≡ debt.station) × (p.paid ≡ debt.owed)) }
    {
        let Debt { station, owed } = debt;
        self.burn()?;
        let _ = self.actor.journal.force(station);
        Ok(Receipt {
            station,
            paid: owed,
        })
    }

    /// Marks the revision installed or dropped.
    pub(crate) fn mark(&mut self, outcome: Outcome) -> Result<(), PowerCut>
        ensures { Changes J.meaning
            (after (mark outcome self.old.revision))
            self.old result self.new }
    {
        self.burn()?;
        self.actor.log.mark(outcome, self.revision, self.station);
        Ok(())
    }

    // Posts one message of any kind about the revision: the callers below say what each kind costs.
    fn put(&mut self, kind: MessageKind, receiver: u8) -> Result<(), PowerCut>
        ensures { Changes J.meaning
            (after (post (letter kind self.old.revision self.old.station receiver)))
            self.old result self.new }
    {
        self.burn()?;
        self.actor.post.add(Message {
            kind,
            revision: self.revision,
            sender: self.station,
            receiver,
        });
        Ok(())
    }
}

impl<J: Journal, P> Acting<'_, J, P> {
    // Posts messages of any kind to each station of a set, ascending: an act for each. What the kind costs, callers say.
    #[tactic(auto, using(crate::proofs::Performed::dark_performed))]
    fn put_each(&mut self, kind: MessageKind, set: StationSet) -> Result<(), PowerCut>
        ensures { Changes J.meaning
            (performed (post_each kind self.old.revision self.old.station set))
            self.old result self.new }
    {
        for receiver in set {
            self.put(kind, receiver)?;
        }
        Ok(())
    }

    /// Posts a message that needs no receipt.
    pub(crate) fn post(&mut self, kind: MessageKind, receiver: u8) -> Result<(), PowerCut>
        requires { guarded kind ≡ false }
        ensures { Changes J.meaning
            (after (post (letter kind self.old.revision self.old.station receiver)))
            self.old result self.new }
    {
        self.put(kind, receiver)
    }

    /// Posts a message that needs no receipt to each station of a set.
    pub(crate) fn post_each(&mut self, kind: MessageKind, set: StationSet) -> Result<(), PowerCut>
        requires { guarded kind ≡ false }
        ensures { Changes J.meaning
            (performed (post_each kind self.old.revision self.old.station set))
            self.old result self.new }
    {
        self.put_each(kind, set)
    }

    /// Posts YES, which spends the receipt for the prepared record.
    pub(crate) fn post_yes(&mut self, receipt: Receipt, receiver: u8) -> Result<(), PowerCut>
        requires here { receipt.station ≡ self.old.station }
        requires prepared { receipt.paid.kind ≡ Kind.Prepared }
        requires about { receipt.paid.revision ≡ self.old.revision }
        ensures { Changes J.meaning
            (after (post (letter MessageKind.Yes self.old.revision self.old.station receiver)))
            self.old result self.new }
    {
        drop(receipt);
        self.put(MessageKind::Yes, receiver)
    }

    /// Posts YES once more, where the vote was given already.
    pub(crate) fn repeat_yes(&mut self, _vote: GivenVote, receiver: u8) -> Result<(), PowerCut>
        ensures { Changes J.meaning
            (after (post (letter MessageKind.Yes self.old.revision self.old.station receiver)))
            self.old result self.new }
    {
        self.put(MessageKind::Yes, receiver)
    }

    /// Posts a decision's COMMITs, which spend the receipt for the commit record.
    pub(crate) fn post_commits(&mut self, receipt: Receipt, set: StationSet) -> Result<(), PowerCut>
        requires here { receipt.station ≡ self.old.station }
        requires commit { receipt.paid.kind ≡ Kind.Commit }
        requires about { receipt.paid.revision ≡ self.old.revision }
        ensures { Changes J.meaning
            (performed (post_each MessageKind.Commit self.old.revision self.old.station set))
            self.old result self.new }
    {
        drop(receipt);
        self.put_each(MessageKind::Commit, set)
    }

    /// Tells one station an outcome that is known already.
    pub(crate) fn tell(&mut self, known: KnownOutcome, receiver: u8) -> Result<(), PowerCut>
        ensures { Changes J.meaning
            (after (post
            (letter (telling known.outcome) self.old.revision self.old.station receiver)))
            self.old result self.new }
    {
        self.put(MessageKind::from(known.outcome()), receiver)
    }

    /// Tells each station of a set an outcome that is known already.
    pub(crate) fn tell_each(&mut self, known: KnownOutcome, set: StationSet) -> Result<(), PowerCut>
        ensures { Changes J.meaning
            (performed (post_each (telling known.outcome) self.old.revision self.old.station set))
            self.old result self.new }
    {
        self.put_each(MessageKind::from(known.outcome()), set)
    }
}
