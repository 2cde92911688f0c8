//! Where the sections lie in the bytes: counts and records, read and put.
ghost use Rattle.std.specs.Prelude.{◌≡◌, ◌+◌, ◌*◌, ◌^◌, ◌<◌, ◌≤◌, length, IsSome, Some};
ghost use Rattle.journal_bytes.specs.Changes.{put_count, put_record};
ghost use Rattle.journal_bytes.specs.Layout.{most_bytes, section_size, capacity_of, count_from, record_start};
ghost use Rattle.journal.specs.Bytes.{record_from};
ghost use Rattle.journal.specs.Limits.{record_bytes};

use journal::records::RECORD_BYTES;
use journal::{Record, decode};

// Only so many bytes count.
pub(crate) const MOST_BYTES: usize = 65536;

// Both counts of a section together take so many bytes.
pub(crate) const COUNTS_BYTES: usize = 4;

// Where a section starts, how many records it has room for, and how many it holds.
// Places in all the bytes and no slice of the section, since the contracts speak of all the bytes.
#[derive(Clone, Copy, Debug, PartialEq, Eq)]
pub(crate) struct Counts {
    pub(crate) start: usize,
    pub(crate) capacity: usize,
    pub(crate) stable: usize,
    pub(crate) unforced: usize,
    ghost ordered: { stable + unforced ≤ capacity },
    ghost few: { capacity < most_bytes },
    ghost near: { record_start start capacity < 2 ^ 64 },
}

impl Counts {
    ghost use Rattle.std.specs.Prelude.{◌≡◌, ◌+◌, ◌≤◌, length};
    ghost use Rattle.journal_bytes.specs.Found.{CountsOf};
    ghost use Rattle.journal_bytes.specs.Layout.{most_bytes, counts_bytes, capacity_of, record_start};
    ghost use Rattle.journal_bytes.specs.Opening.{counted};

    // The counts of a section that counts no more records than it has room for.
    pub(crate) fn of(bytes: &[u8], start: usize, size: usize) -> Counts
        requires within { start + size ≤ length bytes.now }
        requires small { size ≤ most_bytes }
        requires room { counts_bytes ≤ size → counted bytes.now start ≤ capacity_of size }
        ensures { CountsOf bytes.now start size result }
    {
        if size < COUNTS_BYTES {
            return Counts {
                start,
                capacity: 0,
                stable: 0,
                unforced: 0,
            };
        }
        let stable = count_at(bytes, start);
        let unforced = count_at(bytes, start + 2);
        Counts {
            start,
            capacity: capacity_of(size),
            stable,
            unforced,
        }
    }

    // How many records the section holds.
    pub(crate) fn held(self) -> usize
        ensures { result ≡ self.stable + self.unforced }
    {
        self.stable + self.unforced
    }

    // Where the record at a place begins.
    pub(crate) fn record_start(self, place: usize) -> usize
        requires { place ≤ self.capacity }
        ensures { result ≡ record_start self.start place }
    {
        self.start + COUNTS_BYTES + RECORD_BYTES * place
    }
}

// The number in two bytes, the high one first.
pub(crate) fn count_at(bytes: &[u8], at: usize) -> usize
    requires { at + 2 ≤ length bytes.now }
    ensures { result ≡ count_from bytes.now at }
{
    usize::from(u16::from_be_bytes([bytes[at], bytes[at + 1]]))
}

// Puts a number below 65536 into two bytes, the high one first.
pub(crate) fn put_count(bytes: &mut [u8], at: usize, count: usize)
    requires within { at + 2 ≤ length bytes.old }
    requires few { count < most_bytes }
    ensures { bytes.new ≡ put_count bytes.old at count }
{
    bytes[at..at + 2].copy_from_slice(&(count as u16).to_be_bytes());
}

// Puts a record into four bytes.
pub(crate) fn put_record(bytes: &mut [u8], at: usize, line: Record)
    requires { at + record_bytes ≤ length bytes.old }
    ensures { bytes.new ≡ put_record bytes.old at line }
{
    bytes[at..at + RECORD_BYTES].copy_from_slice(&line.encode());
}

// The record in four bytes that are one.
pub(crate) fn record_from(bytes: &[u8], at: usize) -> Record
    requires within { at + record_bytes ≤ length bytes.now }
    requires record { IsSome (record_from bytes.now at) }
    ensures { record_from bytes.now at ≡ Some result }
{
    decode(&bytes[at..]).unwrap().0
}

// How many bytes each section has.
pub(crate) fn section_size(len: usize, stations: u8) -> usize
    requires { 0 < stations }
    ensures { result ≡ section_size len stations }
{
    len.min(MOST_BYTES) / usize::from(stations)
}

// Where a station's section starts.
pub(crate) fn section_start(station: u8, size: usize) -> usize
    requires { size ≤ most_bytes }
    ensures { result ≡ station * size }
{
    usize::from(station) * size
}

// How many records fit into a section behind its counts.
pub(crate) fn capacity_of(size: usize) -> usize
    ensures { result ≡ capacity_of size }
{
    size.saturating_sub(COUNTS_BYTES) / RECORD_BYTES
}
