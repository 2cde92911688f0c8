//! The calls of a run. Each asks its questions in their order, and the first no refuses it.
ghost use Rattle.std.specs.Prelude.{◌≡◌, cond, [], ◌∷◌, Ok, Err, IfOk};
ghost use Rattle.run.specs.Answers.{answer_of, plain_answer};
ghost use Rattle.run.specs.Calls.{Asks, opened?, opened_questions, coordinator_questions, subordinate_questions, message_questions, coordinator_of, message_at, heard, if_allowed, open_call, close_call, give_up_call, chase_call, reject_call, inquire_call, deliver_call, lose_call, cut_call, restart_call};
ghost use Rattle.run.specs.Runs.{seen, shown, LeadsTo};
ghost use Rattle.actor.specs.Log.{row_at};
ghost use Rattle.station.specs.Moves.{move};
ghost use Rattle.station.specs.Recovery.{stable_records};
ghost use Rattle.std.specs.Option.{option_map};
ghost use Rattle.stations.specs.Stations.{rebuilt};

use crate::refusals::Refusal;
use crate::run::Run;
use actor::{Fuse, Row};
use journal::calls::Journal;
use presumption::Presumption;
use station::coordinator::CoordinatorEntry;
use station::messages::Message;
use station::sets::StationSet;
use station::steps::Step;
use stations::{Station, Turn};

// The answer to one question of a call: a no refuses it.
pub(crate) fn check(yes: bool, refusal: Refusal) -> Result<(), Refusal>
    ensures { result ≡ cond yes (Ok tt) (Err refusal) }
{
    if yes { Ok(()) } else { Err(refusal) }
}

// Arguments stay apart and in the order in which the calls are written: revision and station, coordinator and set.
impl<J: Journal, P: Presumption> Run<J, P> {
    // The row of a revision that was opened.
    fn opened_row(&self, revision: u16) -> Result<Row, Refusal>
        ensures asked { Asks (opened? revision (seen J.meaning self.now) ∷ []) result (seen J.meaning self.now) }
        ensures value { IfOk result (λ x. x ≡ row_at (seen J.meaning self.now).store.log revision) }
    {
        self.actor.row(revision).ok_or(Refusal::NotOpened)
    }

    // The coordinator of a revision that was opened.
    pub(crate) fn opened_by(&self, revision: u16) -> Result<u8, Refusal>
        ensures asked { Asks (opened_questions revision (seen J.meaning self.now)) result (seen J.meaning self.now) }
        ensures value { IfOk result (λ c. c ≡ coordinator_of revision (seen J.meaning self.now)) }
    {
        check(self.fit, Refusal::Unfit)?;
        Ok(self.opened_row(revision)?.coordinator)
    }

    // The coordinator of a revision that was opened, if it has power.
    fn coordinator_of(&self, revision: u16) -> Result<u8, Refusal>
        ensures asked { Asks (coordinator_questions revision (seen J.meaning self.now)) result (seen J.meaning self.now) }
        ensures value { IfOk result (λ c. c ≡ coordinator_of revision (seen J.meaning self.now)) }
    {
        let coordinator = self.opened_by(revision)?;
        check(self.stations.power(coordinator), Refusal::NoPower)?;
        Ok(coordinator)
    }

    // Asks all that a subordinate's call asks: fit, a station, a revision that was opened, power.
    fn check_subordinate(&self, revision: u16, station: u8) -> Result<(), Refusal>
        ensures { Asks (subordinate_questions revision station (seen J.meaning self.now)) result (seen J.meaning self.now) }
    {
        check(self.fit, Refusal::Unfit)?;
        check(station < self.stations.len(), Refusal::NoSuchStation)?;
        self.opened_row(revision)?;
        check(self.stations.power(station), Refusal::NoPower)
    }

    // Takes the step that an entry allows; an entry that allows none refuses the call. Answers the acts done.
    fn take_allowed(
        &mut self,
        station: u8,
        revision: u16,
        step: Option<Step>,
        turn: Turn,
        fuse: Fuse,
    ) -> Result<u8, Refusal>
        ensures { LeadsTo (if_allowed (P.answers self.old.presumption) station revision (option_map (λ x. move x turn) step) fuse.acts fuse.kept)
            (shown J.meaning self.old) (answer_of result) (shown J.meaning self.new) }
    {
        let step = step.ok_or(Refusal::EntryForbids)?;
        Ok(self.take_step(station, revision, step, turn, fuse))
    }

    // close, give_up, chase, reject and inquire are written out up to their step: one function for these three
    // lines would take a closure with a contract of its own, which is longer.

    /// Opens the vote on a revision: PREPARE goes to its set. Answers the acts done.
    pub fn close(&mut self, revision: u16, fuse: Fuse) -> Result<u8, Refusal>
        ensures { LeadsTo (close_call (P.answers self.old.presumption) revision fuse.acts fuse.kept)
            (shown J.meaning self.old) (answer_of result) (shown J.meaning self.new) }
    {
        let station = self.coordinator_of(revision)?;
        let mut entry = self.stations.coordinator(station, revision);
        let step = entry.close();
        self.take_allowed(station, revision, step, Turn::Coordinator(entry), fuse)
    }

    /// Gives a revision up: its set is told ABORT. Answers the acts done.
    pub fn give_up(&mut self, revision: u16, fuse: Fuse) -> Result<u8, Refusal>
        ensures { LeadsTo (give_up_call (P.answers self.old.presumption) revision fuse.acts fuse.kept)
            (shown J.meaning self.old) (answer_of result) (shown J.meaning self.new) }
    {
        let station = self.coordinator_of(revision)?;
        let mut entry = self.stations.coordinator(station, revision);
        let step = entry.give_up(&self.presumption);
        self.take_allowed(station, revision, step, Turn::Coordinator(entry), fuse)
    }

    /// Tells the outcome again to those that have not acknowledged it. Answers the acts done.
    pub fn chase(&mut self, revision: u16, fuse: Fuse) -> Result<u8, Refusal>
        ensures { LeadsTo (chase_call (P.answers self.old.presumption) revision fuse.acts fuse.kept)
            (shown J.meaning self.old) (answer_of result) (shown J.meaning self.new) }
    {
        let station = self.coordinator_of(revision)?;
        let entry = self.stations.coordinator(station, revision);
        let step = entry.chase();
        self.take_allowed(station, revision, step, Turn::Coordinator(entry), fuse)
    }

    /// A station drops a revision before the vote. Answers the acts done.
    pub fn reject(&mut self, revision: u16, station: u8, fuse: Fuse) -> Result<u8, Refusal>
        ensures { LeadsTo (reject_call (P.answers self.old.presumption) revision station fuse.acts fuse.kept)
            (shown J.meaning self.old) (answer_of result) (shown J.meaning self.new) }
    {
        self.check_subordinate(revision, station)?;
        let mut entry = self.stations.subordinate(station, revision);
        let step = entry.reject();
        self.take_allowed(station, revision, step, Turn::Subordinate(entry), fuse)
    }

    /// A station in doubt asks the coordinator for the outcome. Answers the acts done.
    pub fn inquire(&mut self, revision: u16, station: u8, fuse: Fuse) -> Result<u8, Refusal>
        ensures { LeadsTo (inquire_call (P.answers self.old.presumption) revision station fuse.acts fuse.kept)
            (shown J.meaning self.old) (answer_of result) (shown J.meaning self.new) }
    {
        self.check_subordinate(revision, station)?;
        let entry = self.stations.subordinate(station, revision);
        let step = entry.inquire();
        self.take_allowed(station, revision, step, Turn::Subordinate(entry), fuse)
    }

    // The message that waits at a place.
    fn message_at(&self, place: usize) -> Result<Message, Refusal>
        ensures asked { Asks (message_questions place (seen J.meaning self.now)) result (seen J.meaning self.now) }
        ensures value { IfOk result (λ m. m ≡ message_at place (seen J.meaning self.now)) }
    {
        check(self.fit, Refusal::Unfit)?;
        self.actor.message(place).ok_or(Refusal::NoMessage)
    }

    // What the receiver of a message has to do, and how its entry changes.
    fn hear(&self, message: Message) -> (Step, Turn)
        ensures step { result.0
            ≡ (heard (P.answers self.now.presumption) (seen J.meaning self.now).stations message).step }
        ensures turn { result.1
            ≡ (heard (P.answers self.now.presumption) (seen J.meaning self.now).stations message).next }
    {
        let station = message.receiver;
        let revision = message.revision;
        // Written out: the entries are of two types, and only the coordinator's asks the presumption.
        if message.kind.is_for_subordinate() {
            let mut entry = self.stations.subordinate(station, revision);
            let step = entry.hear(message.kind, message.sender);
            (step, Turn::Subordinate(entry))
        } else {
            let mut entry = self.stations.coordinator(station, revision);
            let step = entry.hear(&self.presumption, message.kind, message.sender);
            (step, Turn::Coordinator(entry))
        }
    }

    /// Hands a waiting message to its receiver; with `copy` it waits on as well. Answers the acts done.
    pub fn deliver(&mut self, place: usize, copy: bool, fuse: Fuse) -> Result<u8, Refusal>
        ensures { LeadsTo (deliver_call (P.answers self.old.presumption) place copy fuse.acts fuse.kept)
            (shown J.meaning self.old) (answer_of result) (shown J.meaning self.new) }
    {
        let message = self.message_at(place)?;
        if !copy {
            self.actor.remove(place);
        }
        if !self.stations.power(message.receiver) {
            return Ok(0);
        }
        let (step, turn) = self.hear(message);
        Ok(self.take_step(message.receiver, message.revision, step, turn, fuse))
    }

    /// Loses a waiting message.
    pub fn lose(&mut self, place: usize) -> Result<(), Refusal>
        ensures { LeadsTo (lose_call place)
            (shown J.meaning self.old) (plain_answer result) (shown J.meaning self.new) }
    {
        let _ = self.message_at(place)?;
        self.actor.remove(place);
        Ok(())
    }

    /// The power fails at a station; of its unforced records so many are kept.
    pub fn cut(&mut self, station: u8, kept: u8) -> Result<(), Refusal>
        ensures { LeadsTo (cut_call station kept)
            (shown J.meaning self.old) (plain_answer result) (shown J.meaning self.new) }
    {
        check(self.fit, Refusal::Unfit)?;
        check(station < self.stations.len(), Refusal::NoSuchStation)?;
        check(self.stations.power(station), Refusal::NoPower)?;
        self.actor.cut(station, kept);
        self.stations.cut(station);
        Ok(())
    }

    // The station as its stable records rebuild it.
    fn rebuild(&self, station: u8) -> Station
        ensures { result
            ≡ rebuilt (P.answers self.now.presumption) (stable_records (seen J.meaning self.now).store.journal station) }
    {
        Station::rebuild(self.actor.journal(), &self.presumption, station)
    }

    /// The power returns at a station, and its stable records rebuild its entries.
    pub fn restart(&mut self, station: u8) -> Result<(), Refusal>
        ensures { LeadsTo (restart_call (P.answers self.old.presumption) station)
            (shown J.meaning self.old) (plain_answer result) (shown J.meaning self.new) }
    {
        check(self.fit, Refusal::Unfit)?;
        check(station < self.stations.len(), Refusal::NoSuchStation)?;
        check(!self.stations.power(station), Refusal::NotDark)?;
        let row = self.rebuild(station);
        self.stations.put(station, row);
        Ok(())
    }

    /// Opens a revision: the coordinator's entry becomes Open, each of the set Active. Answers its number.
    pub fn open(&mut self, coordinator: u8, set: StationSet) -> Result<u16, Refusal>
        ensures { LeadsTo (open_call coordinator set)
            (shown J.meaning self.old) (answer_of result) (shown J.meaning self.new) }
    {
        check(self.fit, Refusal::Unfit)?;
        check(
            self.stations.names(coordinator, set),
            Refusal::NoSuchStation,
        )?;
        let lit = self.stations.power(coordinator) && self.stations.have_power(set);
        check(lit, Refusal::NoPower)?;
        let revision = self
            .actor
            .add_row(coordinator, set)
            .ok_or(Refusal::TooManyRevisions)?;
        let entry = Turn::Coordinator(CoordinatorEntry::Open { set });
        self.stations.turn(coordinator, revision, entry);
        self.stations.activate(set, revision, coordinator);
        Ok(revision)
    }
}
