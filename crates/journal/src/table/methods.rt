//! The calls of a table.
ghost use Rattle.std.specs.Prelude.{◌≡◌, ◌≤◌, [], length, replicate, vec_items, IfOk};
ghost use Rattle.journal.specs.Limits.{table_records};
ghost use Rattle.journal.specs.Meaning.{section_of, section, held, answer_of, room_answer, put_in, force_all, keep_first};
ghost use Rattle.journal.specs.Tables.{table_of, table_room};
ghost use Rattle.std.specs.List.{slice_get};
ghost use Rattle.std.specs.Slice.{IsItemAt};

use crate::MAX_STATIONS;
use crate::calls::Journal;
use crate::records::Record;
use crate::refusals::Refusal;
use crate::table::{StationRecords, TABLE_RECORDS, Table};
use std::alloc::{AllocError, Global};

impl StationRecords {
    // No records, and room for all that there will be.
    fn new(heap: Global) -> Result<StationRecords, AllocError>
        ensures { IfOk result (λ s. s ≡ section_of table_records [] []) }
    {
        let records = Vec::with_capacity(heap, TABLE_RECORDS)?;
        Ok(StationRecords { records, stable: 0 })
    }

    // The same for each of so many stations.
    fn of_each(heap: Global, stations: u8) -> Result<Vec<StationRecords>, AllocError>
        ensures { IfOk result (λ v. vec_items v ≡ replicate stations (section_of table_records [] [])) }
    {
        (0..stations)
            .map(|_station| StationRecords::new(heap))
            .try_collect(heap)
    }

    // How many records there is room for: the same at each station.
    fn capacity(&self) -> usize
        ensures value { result ≡ self.now.capacity }
        ensures fits { held self.now ≤ result }
        ensures room { result ≡ table_records }
    {
        self.records.capacity()
    }

    // How many records are stable.
    fn stable_len(&self) -> usize
        ensures { result ≡ length self.now.stable }
    {
        self.stable
    }

    // How many records are not stable.
    fn unforced_len(&self) -> usize
        ensures { result ≡ length self.now.unforced }
    {
        self.records.len() - self.stable
    }

    // The stable record at a place.
    fn read(&self, place: usize) -> Option<Record>
        ensures { result ≡ slice_get self.now.stable place }
    {
        self.records[..self.stable].get(place).copied()
    }

    // Puts a record at the end, where there is room.
    fn write(&mut self, line: Record) -> Result<(), Refusal>
        ensures answer { answer_of result ≡ room_answer self.old }
        ensures after { self.new ≡ put_in line self.old }
    {
        if self.records.len() == TABLE_RECORDS {
            return Err(Refusal::Full);
        }
        self.records.push_reserved(line);
        Ok(())
    }

    // Makes all records stable.
    fn force(&mut self)
        ensures { self.new ≡ force_all self.old }
    {
        self.stable = self.records.len();
    }

    // Makes the first `kept` records that are not stable so, and drops the rest.
    fn cut(&mut self, kept: usize)
        ensures { self.new ≡ keep_first kept self.old }
    {
        self.stable += kept.min(self.unforced_len());
        self.records.truncate(self.stable);
    }
}

impl Table {
    ghost use Rattle.std.specs.Borrow.{sem};
    ghost use Rattle.std.specs.List.{IsItemAtMut};
    ghost use Rattle.journal.specs.Lending.{LendsSection};

    /// A table for so many stations, each without records; for more than a journal serves it serves none.
    pub fn new(heap: Global, stations: u8) -> Result<Table, AllocError>
        ensures { IfOk result (λ t. t ≡ table_of stations) }
    {
        let served = if stations <= MAX_STATIONS {
            stations
        } else {
            0
        };
        let stations = StationRecords::of_each(heap, served)?;
        Ok(Table { stations })
    }

    // The records of a station, if it is served.
    fn at(&self, station: u8) -> Option<&StationRecords>
        ensures { IsItemAt self.now station result }
    {
        self.stations.get(usize::from(station))
    }

    // The same, to change them.
    fn at_mut(&mut self, station: u8) -> Option<&mut StationRecords>
        ensures* lends { sem 𝓛 (LendsSection self.entry station result) }
        ensures item { IsItemAtMut self.old station result }
    {
        self.stations.get_mut(usize::from(station))
    }
}

impl Journal for Table {
    ghost meaning = { λ t. t };

    ghost lenders = { λ _. [] };

    // They are few enough for a byte.
    fn stations(&self) -> u8 {
        self.stations.len() as u8
    }

    // A caller sees a table as its sections alone, so `room` says how much they have in whatever table it is handed.
    fn capacity(&self, station: u8) -> usize
        ensures value { result ≡ (section self.now station).capacity }
        ensures fits { held (section self.now station) ≤ result }
        ensures room { result ≡ table_room self.now station }
    {
        self.at(station).map_or(0, StationRecords::capacity)
    }

    fn stable_len(&self, station: u8) -> usize {
        self.at(station).map_or(0, StationRecords::stable_len)
    }

    fn unforced_len(&self, station: u8) -> usize {
        self.at(station).map_or(0, StationRecords::unforced_len)
    }

    fn read(&self, station: u8, place: usize) -> Option<Record> {
        self.at(station)?.read(place)
    }

    fn write(&mut self, station: u8, line: Record) -> Result<(), Refusal> {
        let records = self.at_mut(station).ok_or(Refusal::NotServed)?;
        records.write(line)
    }

    fn force(&mut self, station: u8) -> Result<(), Refusal> {
        let records = self.at_mut(station).ok_or(Refusal::NotServed)?;
        records.force();
        Ok(())
    }

    fn cut(&mut self, station: u8, kept: usize) -> Result<(), Refusal> {
        let records = self.at_mut(station).ok_or(Refusal::NotServed)?;
        records.cut(kept);
        Ok(())
    }
}
