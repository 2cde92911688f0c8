//! Settling: the post is emptied, and each revision is brought to its end. No power fails within it.
ghost use Rattle.std.specs.Prelude.{◌≡◌, ◌≤◌, true, [], IfOk, OnOk};
ghost use Rattle.journal.specs.Limits.{most_stations};
ghost use Rattle.run.specs.Answers.{answer_of, awaited_answer};
ghost use Rattle.run.specs.Calls.{Asks, reply, opened_questions, coordinator_entry, unheard_call};
ghost use Rattle.run.specs.Runs.{seen, shown, LeadsTo};
ghost use Rattle.run.specs.Settling.{Drained, Settles, load, drained, urged, inquired, finished, settled, settle_call};
ghost use Rattle.station.specs.Coordinator.{unheard};
ghost use Rattle.station.specs.Sets.{NamesOne};
ghost use Rattle.stations.specs.Stations.{subordinate_at};

use crate::refusals::Refusal;
use crate::run::Run;
use crate::run::calls::check;
use actor::Fuse;
use journal::calls::Journal;
use presumption::Presumption;
use station::coordinator::CoordinatorEntry;
use station::subordinate::SubordinateEntry;

/// Whom a coordinator has not heard from: one of these stations, if there is one, and how many there are.
#[derive(Clone, Copy, Debug, PartialEq, Eq)]
pub struct Awaited {
    pub station: Option<u8>,
    pub count: u32,
}

impl<J: Journal, P: Presumption> Run<J, P> {
    // The entry of the coordinator of a revision that was opened.
    fn opened_entry(&self, revision: u16) -> Result<CoordinatorEntry, Refusal>
        ensures asked { Asks (opened_questions revision (seen J.meaning self.now)) result (seen J.meaning self.now) }
        ensures value { IfOk result (λ e. e ≡ coordinator_entry revision (seen J.meaning self.now)) }
    {
        let coordinator = self.opened_by(revision)?;
        Ok(self.stations.coordinator(coordinator, revision))
    }

    /// A station that the coordinator of the revision has not heard from, and how many there are.
    pub fn awaited(&self, revision: u16) -> Result<Awaited, Refusal>
        ensures reply { reply (awaited_answer result) (seen J.meaning self.now)
            ≡ unheard_call revision (seen J.meaning self.now) }
        ensures station { IfOk result (λ a. NamesOne a.station (unheard (coordinator_entry revision (seen J.meaning self.now)))) }
    {
        let unheard = self.opened_entry(revision)?.unheard();
        Ok(Awaited {
            station: unheard.first(),
            count: unheard.len(),
        })
    }

    // Delivers the first message until none waits. Answers the deliveries made.
    fn drain(&mut self) -> usize
        requires { self.old.fit ≡ true }
        ensures settles { Settles (drained (P.answers self.old.presumption))
            (shown J.meaning self.old) result (shown J.meaning self.new) }
        ensures few { result ≤ load most_stations (seen J.meaning self.old).store.post }
        ensures bounded { result ≤ 1152 }
    {
        let mut deliveries = 0;
        // A delivery may post more, so there is no list of messages to walk.
        while self.actor.waiting() > 0 {
            let _ = self.deliver(0, false, Fuse::LASTING);
            deliveries += 1;
        }
        deliveries
    }

    // The coordinator of a revision gives up if it is Collecting, and chases if it is Announcing.
    fn urge(&mut self, revision: u16)
        ensures state { seen J.meaning self.new
            ≡ urged (P.answers self.old.presumption) (coordinator_entry revision (seen J.meaning self.old))
            revision (seen J.meaning self.old) }
        ensures presumes { self.new.presumption ≡ self.old.presumption }
    {
        match self.opened_entry(revision) {
            Ok(CoordinatorEntry::Collecting { .. }) => {
                let _ = self.give_up(revision, Fuse::LASTING);
            }
            Ok(CoordinatorEntry::Announcing { .. }) => {
                let _ = self.chase(revision, Fuse::LASTING);
            }
            _ => {}
        }
    }

    // A station that is in doubt about a revision inquires.
    fn resolve(&mut self, revision: u16, station: u8)
        ensures state { seen J.meaning self.new
            ≡ inquired (P.answers self.old.presumption) (subordinate_at (seen J.meaning self.old).stations station revision)
            revision station (seen J.meaning self.old) }
        ensures presumes { self.new.presumption ≡ self.old.presumption }
    {
        if let SubordinateEntry::Prepared { .. } = self.stations.subordinate(station, revision) {
            let _ = self.inquire(revision, station, Fuse::LASTING);
        }
    }

    // Brings a revision to its end: its coordinator is urged, then each station in doubt inquires, ascending.
    // Answers the deliveries made.
    fn finish(&mut self, revision: u16) -> usize
        requires { Drained (seen J.meaning self.old) }
        ensures settles { Settles (finished (P.answers self.old.presumption) revision)
            (shown J.meaning self.old) result (shown J.meaning self.new) }
        ensures few { result ≤ 1024 }
    {
        let stations = self.stations.len();
        self.urge(revision);
        let mut deliveries = self.drain();
        // The calls take a station by its number, and change the run meanwhile.
        for station in 0..stations {
            self.resolve(revision, station);
            deliveries += self.drain();
        }
        deliveries
    }

    // Empties the post and finishes each revision, ascending. Answers the deliveries made.
    fn finish_all(&mut self) -> usize
        requires { self.old.fit ≡ true }
        ensures { Settles (λ x. settled (P.answers self.old.presumption) x.state)
            (shown J.meaning self.old) result (shown J.meaning self.new) }
    {
        // `as` is proved to lose nothing here, where `try_from` would bring in a failure.
        let revisions = self.actor.opened() as u16;
        let mut deliveries = self.drain();
        // The calls take a revision by its number, and change the run meanwhile.
        for revision in 0..revisions {
            deliveries += self.finish(revision);
        }
        deliveries
    }

    /// Empties the post and brings each revision to its end. Answers the number of deliveries.
    pub fn settle(&mut self) -> Result<usize, Refusal>
        ensures call { LeadsTo (settle_call (P.answers self.old.presumption))
            (shown J.meaning self.old) (answer_of result) (shown J.meaning self.new) }
        ensures emptied { OnOk result ((seen J.meaning self.new).store.post ≡ []) }
    {
        check(self.fit, Refusal::Unfit)?;
        check(self.stations.all_have_power(), Refusal::NoPower)?;
        Ok(self.finish_all())
    }
}
