//! Records as bytes, and the layout of a byte journal.

use super::sections::{Line, Log};
use super::words::{Kind, Record, Refusal};
use std::alloc::{AllocError, Global};

impl Record {
    /// The four bytes of a record.
    pub fn encode(self) -> [u8; 4] {
        let [high, low] = self.revision.to_be_bytes();
        [u8::from(self.kind), high, low, self.argument]
    }
}

/// The record at the front of some bytes.
pub fn decode(bytes: &[u8]) -> Result<Record, Refusal> {
    let four = bytes.first_chunk::<4>().ok_or(Refusal::NotARecord)?;
    let [letter, high, low, argument] = *four;
    Ok(Record {
        kind: Kind::try_from(letter)?,
        revision: u16::from_be_bytes([high, low]),
        argument,
    })
}

/// The length of each section of a byte journal for `stations` stations; 0 where there are none.
fn span(bytes: &[u8], stations: u8) -> usize {
    bytes
        .len()
        .min(65536)
        .checked_div(usize::from(stations))
        .unwrap_or(0)
}

/// The byte journal that is found in the bytes, for a number of stations. It serves none where the documents say so.
pub fn found(heap: Global, bytes: &[u8], stations: u8) -> Result<Log, AllocError> {
    let long = span(bytes, stations);
    let mut log = Log::even(heap, stations, long.saturating_sub(4) / 4);
    if long == 0 {
        return Ok(log);
    }
    for (station, section) in (0..log.served()).zip(bytes.chunks(long)) {
        match lines_of(heap, station, section)? {
            Some(lines) => log.lines.extend_from_slice(lines.as_slice())?,
            None => return Ok(Log::even(heap, 0, 0)),
        }
    }
    Ok(log)
}

/// How many stable and unforced records a section counts, and the bytes behind the counts, if it has room for counts.
fn counts(section: &[u8]) -> Option<(usize, usize, &[u8])> {
    let (stable, rest) = section.split_first_chunk::<2>()?;
    let (unforced, records) = rest.split_first_chunk::<2>()?;
    Some((
        usize::from(u16::from_be_bytes(*stable)),
        usize::from(u16::from_be_bytes(*unforced)),
        records,
    ))
}

/// The lines of a station's section; none where it is no section of a byte journal.
fn lines_of(heap: Global, station: u8, section: &[u8]) -> Result<Option<Vec<Line>>, AllocError> {
    let mut lines = Vec::new(heap);
    let Some((stable, unforced, records)) = counts(section) else {
        return Ok(Some(lines));
    };
    let counted = stable.wrapping_add(unforced);
    let (places, _) = records.as_chunks::<4>();
    if counted > places.len() {
        return Ok(None);
    }
    for (place, four) in places.iter().take(counted).enumerate() {
        let Ok(what) = decode(four) else {
            return Ok(None);
        };
        lines.push(Line {
            station,
            stable: place < stable,
            what,
        })?;
    }
    Ok(Some(lines))
}

/// Writes counts and counted records into the bytes of a byte journal for `stations` stations, whose station 0 is
/// station `shift` of the log. Bytes that are not counted stay as they are. Since a lost record's bytes stay too, these
/// are the very bytes that the byte journal leaves, call after call.
pub fn imprint(log: &Log, shift: u8, bytes: &mut [u8], stations: u8) {
    let long = span(bytes, stations);
    if long == 0 {
        return;
    }
    let sections = bytes.chunks_mut(long).take(usize::from(stations));
    for (section, station) in sections.zip(shift..log.served()) {
        imprint_section(log, station, section);
    }
}

/// The counts of one station's section, and behind them its records.
fn imprint_section(log: &Log, station: u8, section: &mut [u8]) {
    let Some((stable, rest)) = section.split_first_chunk_mut::<2>() else {
        return;
    };
    let Some((unforced, records)) = rest.split_first_chunk_mut::<2>() else {
        return;
    };
    *stable = two_bytes(log.count(station, true));
    *unforced = two_bytes(log.count(station, false));
    let (places, _) = records.as_chunks_mut::<4>();
    let lines = log.lines.iter().filter(|line| line.station == station);
    for (place, line) in places.iter_mut().zip(lines) {
        *place = line.what.encode();
    }
}

/// A count in two bytes, high byte first; no section counts as many as 65536.
fn two_bytes(count: usize) -> [u8; 2] {
    let [.., high, low] = count.to_be_bytes();
    [high, low]
}
