//! What the calls that change a section put into its bytes.
ghost use Rattle.std.specs.Prelude.{◌≡◌, ◌+◌, ◌<◌, ◌≤◌, cond, length, nat_lt};
ghost use Rattle.journal_bytes.specs.Changes.{record_added, first_kept};
ghost use Rattle.journal_bytes.specs.Layout.{counts_bytes, record_start};
ghost use Rattle.journal.specs.Limits.{record_bytes};

use crate::layout::{Counts, put_count, put_record};
use journal::Record;

// Puts a record behind those of a section that has room for it, and counts it.
pub(crate) fn add_record(bytes: &mut [u8], counts: Counts, line: Record)
    requires room { counts.stable + counts.unforced < counts.capacity }
    requires within { record_start counts.start (counts.stable + counts.unforced) + record_bytes ≤ length bytes.old }
    ensures { bytes.new ≡ record_added bytes.old counts.start counts.stable counts.unforced line }
{
    put_record(bytes, counts.record_start(counts.held()), line);
    put_count(bytes, counts.start + 2, counts.unforced + 1);
}

// Counts the first so many records of a section as stable, and no others, if the section has room for any.
pub(crate) fn keep(bytes: &mut [u8], counts: Counts, records: usize)
    requires few { records ≤ counts.capacity }
    requires within { 0 < counts.capacity → counts.start + counts_bytes ≤ length bytes.old }
    ensures { bytes.new ≡ cond (nat_lt 0 counts.capacity) (first_kept bytes.old counts.start records) bytes.old }
{
    if counts.capacity > 0 {
        put_count(bytes, counts.start, records);
        put_count(bytes, counts.start + 2, 0);
    }
}
