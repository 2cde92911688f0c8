//! The questions before each call, each by the refusal that it gives when it is answered no.

use super::sets::{MOST_STATIONS, Set};
use super::whole::Model;
use super::words::{Call, Entry, Refusal, Side, Verb};

/// What a call asks, in order.
fn asks(verb: Verb) -> &'static [Refusal] {
    match verb {
        Verb::Open => &[
            Refusal::Unfit,
            Refusal::NoSuchStation,
            Refusal::NoPower,
            Refusal::TooManyRevisions,
        ],
        Verb::Close | Verb::GiveUp | Verb::Chase => &[
            Refusal::Unfit,
            Refusal::NotOpened,
            Refusal::NoPower,
            Refusal::EntryForbids,
        ],
        Verb::Reject | Verb::Inquire => &[
            Refusal::Unfit,
            Refusal::NoSuchStation,
            Refusal::NotOpened,
            Refusal::NoPower,
            Refusal::EntryForbids,
        ],
        Verb::Deliver | Verb::Lose => &[Refusal::Unfit, Refusal::NoMessage],
        Verb::Cut => &[Refusal::Unfit, Refusal::NoSuchStation, Refusal::NoPower],
        Verb::Restart => &[Refusal::Unfit, Refusal::NoSuchStation, Refusal::NotDark],
        Verb::Settle => &[Refusal::Unfit, Refusal::NoPower],
        Verb::Awaited => &[Refusal::Unfit, Refusal::NotOpened],
    }
}

impl Model {
    /// Asks the questions of a call, up to the first that is answered no.
    pub(crate) fn ask(&self, call: &Call) -> Result<(), Refusal> {
        for refusal in asks(call.verb) {
            if !self.answers_yes(*refusal, call) {
                return Err(*refusal);
            }
        }
        Ok(())
    }

    /// The answer to the question that a refusal stands for.
    fn answers_yes(&self, refusal: Refusal, call: &Call) -> bool {
        match refusal {
            Refusal::Unfit => self.fit,
            Refusal::NoSuchStation => self.all_there(call),
            Refusal::NotOpened => usize::from(call.revision) < self.rows.len(),
            Refusal::NoPower => !self.needed(call).meets(self.dark),
            Refusal::TooManyRevisions => self.next_revision().is_some(),
            Refusal::EntryForbids => self.allowed(call),
            Refusal::NoMessage => call.place < self.post.len(),
            Refusal::NotDark => self.dark.holds(call.station),
            // A journal asks these itself.
            Refusal::NotServed | Refusal::Full | Refusal::NotARecord => true,
        }
    }

    /// Whether all stations that the call names are there.
    fn all_there(&self, call: &Call) -> bool {
        let served = self.log.served();
        let set = Set::from(call.set);
        let set_there = set.size() > 0
            && (served..MOST_STATIONS).all(|station| !set.holds(station));
        call.station < served && (call.verb != Verb::Open || set_there)
    }

    /// The stations that need power for the call.
    fn needed(&self, call: &Call) -> Set {
        match call.verb {
            Verb::Open => Set::from(call.set).with(call.station),
            Verb::Settle => Set::EVERYBODY,
            Verb::Cut => Set::default().with(call.station),
            _ => self
                .acting(call)
                .map_or(Set::default(), |entry| Set::default().with(entry.station)),
        }
    }

    /// The acting station's entry, for the five calls that start from one.
    pub(crate) fn acting(&self, call: &Call) -> Option<Entry> {
        match call.verb {
            Verb::Reject | Verb::Inquire => {
                Some(Entry::new(call.station, call.revision, Side::Stages))
            }
            _ => self.coordinating(call.revision),
        }
    }

    /// Whether the acting station's entry allows the call.
    fn allowed(&self, call: &Call) -> bool {
        self.acting(call)
            .and_then(|entry| self.holding(entry))
            .is_some_and(|holding| holding.allows(call.verb))
    }
}
