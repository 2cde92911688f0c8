//! Rehearses runs of the commit engine under both presumptions and over three journals, and tells each call.
#![tactic(auto)]

mod journals;
mod rehearsal;
mod scenarios;
mod script;
mod words;

use journal::table::Table;
use presumption::abort::PresumedAbort;
use presumption::commit::PresumedCommit;
use rehearsal::play;
use script::{STATIONS, Scenario};
use std::io;

/// How to read what is printed.
const LEGEND: &str = "Three stations: 0 coordinates revision 0, the only one, and 1 and 2 stage it.
A line is a call, its answer, and what it changed at the station that acted.
Messages: KIND sender -> receiver.
Records of the coordinator: I opening, C commit, A abort, each for its set; E end.
Records of a station: p prepared, c committed, a aborted, each under its coordinator.
fuse F, kept K: in a step of more acts, power fails after F, and K unforced records are kept.
Not told: a mark that was there before, and a record that is lost in the call that wrote it.";

// A scenario under both presumptions, over tables.
fn play_both(rt: &(impl Print + AllocGlobal), scenario: &Scenario) -> io::Result<()> {
    let table = Table::new(rt.alloc(), STATIONS)?;
    let _ = play(rt, scenario, "presumed abort", table, PresumedAbort)?;
    let table = Table::new(rt.alloc(), STATIONS)?;
    let _ = play(rt, scenario, "presumed commit", table, PresumedCommit)?;
    Ok(())
}

// The legend, each scenario under both presumptions, and then one of them over each journal.
fn rehearse(rt: &(impl Print + AllocGlobal)) -> io::Result<()> {
    rt.println(LEGEND)?;
    for scenario in &scenarios::ALL {
        play_both(rt, scenario)?;
    }
    journals::compare(rt)
}

fn main(rt: HostRuntime) -> io::Result<()> {
    rehearse(&rt)
}
