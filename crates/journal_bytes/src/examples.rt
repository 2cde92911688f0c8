//! The journal at work.
ghost use Rattle.std.specs.Prelude.{◌≡◌};
ghost use Rattle.journal_bytes.specs.Changes.{bytes_written};
ghost use Rattle.journal_bytes.specs.Example.{Example};
ghost use Rattle.journal_bytes.specs.Opening.{served_in};

use crate::byte_journal::ByteJournal;
use journal::{Journal, Record};

// What a caller finds in its own bytes once the journal over them is gone.
fn written_once(bytes: &mut [u8], station: u8, line: Record)
    ensures { bytes.new ≡ bytes_written line bytes.old (served_in bytes.old 2) station }
{
    let mut journal = ByteJournal::new(bytes, 2);
    let _ = journal.write(station, line);
}

// The worked example holds of the definitions.
fn example_holds()
    ensures { Example }
{}
