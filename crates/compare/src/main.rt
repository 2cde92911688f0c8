//! Compares the engine with the model (crate `model`) on many lists of calls, after every call, and the journals with
//! the model's on many deeds. The lists come from a fixed seed, so every run of the program makes the same calls.
#![tactic(auto)]

mod dice;
mod drawing;
mod examples;
mod grounds;
mod journals;
mod player;
mod seen;
mod styles;
mod tally;
mod views;
mod wary;

use player::Player;
use seen::Trouble;
use std::io;
use tally::{Tally, Told};

/// All calls and deeds come from this number.
const SEED: u64 = 20_261_118;

// The worked examples, the lists, and then the journals on their own.
fn compare_all(player: &mut Player) -> Result<(), Trouble> {
    player.play_examples()?;
    player.play_lists()?;
    player.play_journals()
}

// The first difference: where it came, and what each side has there.
fn tell_trouble(rt: &HostRuntime, tally: &Tally, trouble: Trouble) -> io::Result<()> {
    let Trouble::Differs(fault) = trouble else {
        return rt.println("no memory");
    };
    println!(rt;
        "DIFFERENCE in list {}, call {}: {}",
        tally.lists,
        tally.number,
        Told(tally.call)
    )?;
    println!(rt; "{fault}")
}

// What was compared.
fn tell_tally(rt: &HostRuntime, tally: &Tally) -> io::Result<()> {
    println!(rt;
        "agreed: {} worked examples, {} lists with {} calls",
        tally.examples, tally.lists, tally.calls
    )?;
    println!(rt;
        "revisions: {} opened, {} installed somewhere, {} dropped somewhere",
        tally.opened, tally.installed, tally.dropped
    )?;
    println!(rt;
        "power failed {} times; at most {} messages waited",
        tally.outages, tally.fullest
    )?;
    println!(rt;
        "agreed: {} calls of journals, {} decodings",
        tally.deeds, tally.decodings
    )?;
    tell_refusals(rt, tally)
}

// How often each refusal came.
fn tell_refusals(rt: &HostRuntime, tally: &Tally) -> io::Result<()> {
    for (refusal, count) in tally.refused {
        let number = u8::from(refusal);
        let note = if count == 0 { " NEVER CAME" } else { "" };
        println!(rt; "refused with {number}: {count}{note}")?;
    }
    Ok(())
}

fn main(rt: HostRuntime) -> io::Result<()> {
    let mut player = Player::new(rt.alloc(), SEED);
    match compare_all(&mut player) {
        Ok(()) => tell_tally(&rt, &player.tally),
        Err(trouble) => tell_trouble(&rt, &player.tally, trouble),
    }
}
