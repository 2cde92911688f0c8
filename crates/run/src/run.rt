//! A run: its stations, over any journal and any presumption.
ghost use Rattle.std.specs.Prelude.{◌≡◌, IfOk};
ghost use Rattle.journal.specs.Meaning.{section};
ghost use Rattle.run.specs.Answers.{answered};
ghost use Rattle.run.specs.Calls.{moved};
ghost use Rattle.run.specs.Runs.{seen, shown, LeadsTo};
ghost use Rattle.run.specs.State.{ready, all_ready, fits, fresh};
ghost use Rattle.station.specs.Moves.{move};

mod calls;
pub mod settling;
mod views;

use actor::{Actor, Fuse};
use journal::MAX_STATIONS;
use journal::calls::Journal;
use presumption::Presumption;
use station::steps::Step;
use stations::{Stations, Turn};
use std::alloc::{AllocError, Global};

/// How many records a section must have room for.
pub const LEAST_CAPACITY: usize = 160;

/// 2 to 8 stations with a journal, the post between them and the as-run log.
// No `Model`: its view would read what J means, and so ask that J is a journal of everything that only holds a run.
// Clauses see a run as `shown`, and its state as `seen`.
#[derive(Drop)]
pub struct Run<J, P> {
    actor: Actor<J>,
    presumption: P,
    // A flag and no Option of the parts: a run that is not fit still shows its stations, its post and its journal.
    fit: bool,
    stations: Stations,
}

// Is the station's section large enough and empty?
fn is_ready<J: Journal>(journal: &J, station: u8) -> bool
    ensures { result ≡ ready (section (J.meaning journal.now) station) }
{
    journal.capacity(station) >= LEAST_CAPACITY
        && journal.stable_len(station) == 0
        && journal.unforced_len(station) == 0
}

// Is every section large enough and empty?
fn are_ready<J: Journal>(journal: &J) -> bool
    ensures { result ≡ all_ready (J.meaning journal.now) }
{
    (0..journal.stations()).all(|station| is_ready(journal, station))
}

impl<J: Journal, P: Presumption> Run<J, P> {
    /// A fresh run. It is fit where the journal serves 2 to 8 stations, each with room for 160 records
    /// and none there yet; a run that is not fit refuses every call.
    pub fn new(heap: Global, journal: J, presumption: P) -> Result<Run<J, P>, AllocError>
    where
        J: Drop,
        P: Drop,
        ensures state { IfOk result (λ x. seen J.meaning x ≡ fresh (J.meaning journal)) }
        ensures presumes { IfOk result (λ x. x.presumption ≡ presumption) }
    {
        let count = journal.stations();
        let fit = (2..=MAX_STATIONS).contains(&count) && are_ready(&journal);
        let stations = Stations::new(heap, count)?;
        let actor = Actor::new(heap, journal)?;
        Ok(Run {
            actor,
            presumption,
            fit,
            stations,
        })
    }

    // A step under a fuse, and then the entry changes; a power cut leaves the station dark. Answers the acts done.
    // Five arguments: a struct of them would be made only to be taken apart at once, as one of the three of `new` would.
    #[tactic(auto, unfolding(crate::specs::State::stepped, actor::specs::Store::answer_under_fuse, actor::specs::Store::done_under_fuse))]
    fn take_step(&mut self, station: u8, revision: u16, step: Step, turn: Turn, fuse: Fuse) -> u8
        ensures { LeadsTo (moved (P.answers self.old.presumption) station revision (move step turn) fuse.acts fuse.kept)
            (shown J.meaning self.old) (answered result) (shown J.meaning self.new) }
    {
        match self
            .actor
            .step(&self.presumption, station, revision, step, fuse)
        {
            Ok(acts) => {
                self.stations.turn(station, revision, turn);
                acts
            }
            Err(cut) => {
                self.stations.cut(station);
                cut.after
            }
        }
    }
}
