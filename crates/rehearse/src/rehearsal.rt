//! A run that is played aloud: each call is made, and then told in a line.
mod scene;
mod telling;

use crate::script::{COORDINATOR, Call, Cue, REVISION, Scenario, set_of};
use crate::words::Done;
use journal::calls::Journal;
use presumption::Presumption;
use run::Fuse;
use run::refusals::Refusal;
use run::run::Run;
use station::sets::StationSet;
use std::io;

/// More deliveries than a post can call for: 18 for each of the 64 messages that can wait. The clause `few` of
/// `Run::waiting` says that there are no more; as a constant the actor keeps the number to itself.
const MOST_DELIVERIES: u16 = 64 * 18;

/// A run, and where it is told.
#[derive(Drop)]
pub struct Rehearsal<'a, R, J, P> {
    rt: &'a R,
    run: Run<J, P>,
}

/// What became of the revision: where it is installed, and where dropped.
#[derive(Clone, Copy, Debug, PartialEq, Eq)]
pub struct Fate {
    pub installed: StationSet,
    pub dropped: StationSet,
}

/// Plays a scenario in a fresh run over a journal. Answers what became of its revision, if it was opened.
pub fn play<R: Print + AllocGlobal, J: Journal + Drop, P: Presumption + Drop>(
    rt: &R,
    scenario: &Scenario,
    name: &str,
    journal: J,
    presumption: P,
) -> io::Result<Option<Fate>> {
    let mut rehearsal = Rehearsal::new(rt, journal, presumption)?;
    rehearsal.play(scenario, name)?;
    Ok(rehearsal.fate())
}

impl<'a, R: Print, J: Journal, P: Presumption> Rehearsal<'a, R, J, P> {
    // A rehearsal of a fresh run over a journal.
    fn new(rt: &'a R, journal: J, presumption: P) -> io::Result<Rehearsal<'a, R, J, P>>
    where
        R: AllocGlobal,
        J: Drop,
        P: Drop,
    {
        let run = Run::new(rt.alloc(), journal, presumption)?;
        Ok(Rehearsal { rt, run })
    }

    // Plays a scenario, from its heading to what became of its revision.
    fn play(&mut self, scenario: &Scenario, name: &str) -> io::Result<()> {
        let title = scenario.title;
        println!(self.rt; "\n== {name}: {title}")?;
        for cue in scenario.cues {
            self.follow(*cue)?;
        }
        self.show_revision()
    }

    // What became of the revision so far, if it was opened.
    fn fate(&self) -> Option<Fate> {
        self.run.as_run(REVISION).map(|row| Fate {
            installed: row.installed,
            dropped: row.dropped,
        })
    }

    // Does what the cue says.
    fn follow(&mut self, cue: Cue) -> io::Result<()> {
        match cue {
            Cue::Make(call) => self.make(call),
            Cue::DeliverAll => self.deliver_all(),
            Cue::Show { station } => self.show_station(station),
        }
    }

    // Makes a call and tells it.
    fn make(&mut self, call: Call) -> io::Result<()> {
        let before = self.scene_before(call);
        self.tell_call(call)?;
        let answer = self.answer(call);
        self.tell_answer(answer, before)
    }

    // Delivers the first message, and so on until none waits. The deliveries are counted, since only of a fit run is it
    // known that they empty the post, and a journal may make a run that is not fit.
    fn deliver_all(&mut self) -> io::Result<()> {
        for _ in 0..MOST_DELIVERIES {
            if self.run.waiting() == 0 {
                break;
            }
            self.make(Call::Deliver(Fuse::LASTING))?;
        }
        Ok(())
    }

    // Makes a call.
    fn answer(&mut self, call: Call) -> Result<Done, Refusal> {
        let run = &mut self.run;
        let fuse = Fuse::LASTING;
        match call {
            Call::Open { stations } => run.open(COORDINATOR, set_of(stations)).map(Done::Revision),
            Call::Close => run.close(REVISION, fuse).map(Done::Acts),
            Call::GiveUp => run.give_up(REVISION, fuse).map(Done::Acts),
            Call::Reject { station } => run.reject(REVISION, station, fuse).map(Done::Acts),
            Call::Inquire { station } => run.inquire(REVISION, station, fuse).map(Done::Acts),
            Call::Deliver(fuse) => run.deliver(0, false, fuse).map(Done::Acts),
            Call::Cut { station, kept } => run.cut(station, kept).map(|()| Done::Nothing),
            Call::Restart { station } => run.restart(station).map(|()| Done::Nothing),
        }
    }
}
