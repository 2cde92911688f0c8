//! The journals: what each station wrote, in one list.

use super::sets::{MOST_STATIONS, STATIONS};
use super::words::{Failure, Record, Refusal};
use std::alloc::{AllocError, Global};

/// The capacity of each section of a table, and the least of each section of a fit run.
pub(crate) const CAPACITY: usize = 160;

/// One record that a station wrote, and whether it is stable.
#[derive(Clone, Copy, PartialEq, Eq, Debug)]
pub struct Line {
    pub station: u8,
    pub stable: bool,
    pub what: Record,
}

/// A journal of any make: the capacity of each station that it serves, the first ones, and every record of them in the
/// order of writing.
#[derive(Drop)]
pub struct Log {
    room: [Option<usize>; 8],
    pub lines: Vec<Line>,
}

impl Log {
    /// A journal for so many stations, with the same capacity each, all lists empty. It serves none where they are too
    /// many.
    pub fn even(heap: Global, stations: u8, capacity: usize) -> Log {
        let served = if stations > MOST_STATIONS {
            0
        } else {
            stations
        };
        let room = STATIONS.map(|station| (station < served).then_some(capacity));
        let lines = Vec::new(heap);
        Log { room, lines }
    }

    /// The table journal made for a number of stations.
    pub fn table(heap: Global, stations: u8) -> Log {
        Log::even(heap, stations, CAPACITY)
    }

    /// The join: the stations of the first, then those of the second, as far as there are numbers.
    pub fn join(first: Log, second: Log) -> Result<Log, AllocError> {
        let mut both = first;
        let shift = both.served();
        let free = both.room.iter_mut().skip(usize::from(shift));
        for (room, of_second) in free.zip(second.room) {
            *room = of_second;
        }
        let shifted = second.lines.iter().map(|line| Line {
            station: shift.saturating_add(line.station),
            ..*line
        });
        both.lines
            .extend(shifted.filter(|line| line.station < MOST_STATIONS))?;
        Ok(both)
    }

    /// How many stations are served: the number of the first one that is not.
    pub fn served(&self) -> u8 {
        STATIONS
            .into_iter()
            .find(|station| self.section(*station).is_err())
            .unwrap_or(MOST_STATIONS)
    }

    /// The capacity of the section of a station that is served.
    fn section(&self, station: u8) -> Result<usize, Refusal> {
        self.room
            .get(usize::from(station))
            .copied()
            .flatten()
            .ok_or(Refusal::NotServed)
    }

    /// The capacity of a station's section; 0 where it is not served.
    pub fn capacity(&self, station: u8) -> usize {
        self.section(station).unwrap_or(0)
    }

    /// How many stable records, or how many unforced ones, a station has. The flag is that of a line, with which it is
    /// compared.
    pub fn count(&self, station: u8, stable: bool) -> usize {
        self.lines
            .iter()
            .filter(|line| line.station == station && line.stable == stable)
            .count()
    }

    /// The stable record of a station at a place.
    pub fn read(&self, station: u8, place: usize) -> Option<Record> {
        self.lines
            .iter()
            .filter(|line| line.station == station && line.stable)
            .nth(place)
            .map(|line| line.what)
    }

    /// Writes a record, unforced.
    pub fn write(&mut self, station: u8, what: Record) -> Result<(), Failure> {
        let capacity = self.section(station)?;
        let held = self
            .lines
            .iter()
            .filter(|line| line.station == station)
            .count();
        if held >= capacity {
            return Err(Failure::Refused(Refusal::Full));
        }
        self.lines.push(Line {
            station,
            stable: false,
            what,
        })?;
        Ok(())
    }

    /// Makes every record of the station stable.
    pub fn force(&mut self, station: u8) -> Result<(), Refusal> {
        self.section(station)?;
        for line in self.lines.iter_mut() {
            line.stable = line.stable || line.station == station;
        }
        Ok(())
    }

    /// Makes the oldest `kept` unforced records stable and loses the others.
    pub fn cut(&mut self, station: u8, kept: usize) -> Result<(), Refusal> {
        self.section(station)?;
        let unforced = self
            .lines
            .iter_mut()
            .filter(|line| line.station == station && !line.stable);
        for line in unforced.take(kept) {
            line.stable = true;
        }
        self.lines
            .retain(|line| line.station != station || line.stable);
        Ok(())
    }
}
