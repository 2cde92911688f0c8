//! One scenario over each of the three journals, which give it one outcome.
ghost use Rattle.rehearse.specs.Sizes.{Enough};

use crate::rehearsal::{Fate, play};
use crate::scenarios::OUTCOME_LOST;
use crate::script::STATIONS;
use join::Join;
use journal::records::RECORD_BYTES;
use journal::table::Table;
use journal_bytes::ByteJournal;
use presumption::commit::PresumedCommit;
use run::run::LEAST_CAPACITY;
use std::io;

/// A section for the records that a run needs takes so many bytes: four of counts, then the records.
const SECTION: usize = 4 + LEAST_CAPACITY * RECORD_BYTES;

/// The bytes of three sections. A length of an array is a name or a number, so the product has a name.
const THREE_SECTIONS: usize = 3 * SECTION;

/// The bytes of two sections.
const TWO_SECTIONS: usize = 2 * SECTION;

/// The section of station 1 begins here, and so much of it is shown: its counts and three records.
const SHOWN: usize = SECTION + 16;

// Over so many bytes a run of eight stations is fit, and over one less it is not.
fn bytes_needed() -> usize
    ensures { Enough result }
{
    8 * SECTION
}

// Over a table.
fn over_table(rt: &(impl Print + AllocGlobal)) -> io::Result<Option<Fate>> {
    let table = Table::new(rt.alloc(), STATIONS)?;
    let name = "presumed commit over a table";
    play(rt, &OUTCOME_LOST, name, table, PresumedCommit)
}

// Over bytes, some of which are then shown.
fn over_bytes(rt: &(impl Print + AllocGlobal)) -> io::Result<Option<Fate>> {
    let mut lent = [0u8; THREE_SECTIONS];
    let journal = ByteJournal::new(&mut lent, STATIONS);
    let name = "presumed commit over bytes";
    let fate = play(rt, &OUTCOME_LOST, name, journal, PresumedCommit)?;
    print!(rt; "the first bytes of station 1:")?;
    for byte in &lent[SECTION..SHOWN] {
        print!(rt; " {byte:02x}")?;
    }
    println!(rt; "")?;
    Ok(fate)
}

// Over a table for station 0, joined to bytes for the others.
fn over_join(rt: &(impl Print + AllocGlobal)) -> io::Result<Option<Fate>> {
    let mut lent = [0u8; TWO_SECTIONS];
    let table = Table::new(rt.alloc(), 1)?;
    let journal = Join::new(table, ByteJournal::new(&mut lent, STATIONS - 1));
    let name = "presumed commit over a table joined to bytes";
    play(rt, &OUTCOME_LOST, name, journal, PresumedCommit)
}

/// Plays one scenario over each journal, and says whether they agree.
pub fn compare(rt: &(impl Print + AllocGlobal)) -> io::Result<()> {
    let needed = bytes_needed();
    println!(rt; "\neight stations over bytes need {needed} of them")?;
    let table = over_table(rt)?;
    let bytes = over_bytes(rt)?;
    let join = over_join(rt)?;
    if table == bytes && table == join {
        rt.println("\nall three journals gave the same outcome")
    } else {
        rt.println("\nthe journals DIFFER in their outcome")
    }
}
