//! Looking bytes over before a journal is made of them.
ghost use Rattle.std.specs.Prelude.{◌≡◌, ◌+◌, ◌*◌, ◌<◌, ◌≤◌, length, is_some};
ghost use Rattle.journal_bytes.specs.Layout.{counts_bytes, size_of, start_of};
ghost use Rattle.journal.specs.Bytes.{decoded};
ghost use Rattle.journal.specs.Limits.{record_bytes};
ghost use Rattle.journal_bytes.specs.Opening.{all_decode, counted, accepted, all_accepted, served_in};

use crate::layout::{COUNTS_BYTES, capacity_of, count_at, section_size, section_start};
use journal::records::RECORD_BYTES;
use journal::{MAX_STATIONS, decode};

// Whether the bytes begin with a record.
fn is_record(bytes: &[u8]) -> bool
    ensures { result ≡ is_some (decoded bytes.now) }
{
    decode(bytes).is_ok()
}

// Whether the bytes begin with so many records.
fn all_decode(bytes: &[u8], records: usize) -> bool
    requires { record_bytes * records ≤ length bytes.now }
    ensures { result ≡ all_decode bytes.now records }
{
    bytes
        .chunks_exact(RECORD_BYTES)
        .take(records)
        .all(is_record)
}

// How many records a section counts.
// No Counts yet: these are made of accepted sections alone.
fn counted(bytes: &[u8], start: usize) -> usize
    requires { start + counts_bytes ≤ length bytes.now }
    ensures { result ≡ counted bytes.now start }
{
    count_at(bytes, start) + count_at(bytes, start + 2)
}

// Whether a station's section counts no more than it has room for, and records alone.
fn accepted(bytes: &[u8], stations: u8, station: u8) -> bool
    requires { station < stations }
    ensures { result ≡ accepted bytes.now (start_of bytes.now stations station) (size_of bytes.now stations) }
{
    let size = section_size(bytes.len(), stations);
    if size < COUNTS_BYTES {
        return true;
    }
    let start = section_start(station, size);
    let records = counted(bytes, start);
    records <= capacity_of(size) && all_decode(&bytes[start + COUNTS_BYTES..], records)
}

// Whether all sections are accepted.
// By number and not by chunks_exact, which takes no size 0: sections may be without bytes.
fn all_accepted(bytes: &[u8], stations: u8) -> bool
    ensures { result ≡ all_accepted bytes.now (size_of bytes.now stations) 0 stations }
{
    (0..stations).all(|station| accepted(bytes, stations, station))
}

// How many stations a journal serves that is made of these bytes: all or none.
pub(crate) fn served(bytes: &[u8], stations: u8) -> u8
    ensures { result ≡ served_in bytes.now stations }
{
    if stations <= MAX_STATIONS && all_accepted(bytes, stations) {
        stations
    } else {
        0
    }
}
