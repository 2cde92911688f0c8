//! The byte journal and its calls.
ghost use Rattle.std.specs.Prelude.{◌≡◌};
ghost use Rattle.journal_bytes.specs.Opening.{served_in};

use crate::changes::{add_record, keep};
use crate::layout::{Counts, record_from, section_size, section_start};
use crate::opening::served;
use journal::{Journal, Record, Refusal};

/// A journal that keeps its records in bytes of the caller's.
#[derive(Drop)]
pub struct ByteJournal<'a> {
    bytes: &'a mut [u8],
    stations: u8,
    // A journal made of the bytes as they are would serve all the stations again.
    ghost again: { served_in bytes.now stations ≡ stations },
}

impl<'a> ByteJournal<'a> {
    ghost use Rattle.std.specs.Prelude.{◌≡◌, [], ◌∷◌};
    ghost use Rattle.journal_bytes.specs.Found.{Found};
    ghost use Rattle.journal_bytes.specs.Journals.{journal_bytes, journal_stations, journal_sections, journal_lenders, JournalSound};
    ghost use Rattle.journal_bytes.specs.Opening.{served_in, opened};
    ghost use Rattle.journal_bytes.specs.Sizes.{Sizes};

    /// A journal for so many stations over the bytes as they are found, which changes none of them.
    ///
    /// It serves no station if it is for none or for more than 8, or if the bytes are no journal's.
    pub fn new(bytes: &'a mut [u8], stations: u8) -> ByteJournal<'a>
        ensures bytes { journal_bytes result ≡ bytes.old }
        ensures lent { journal_lenders result ≡ bytes.entry.ghost_name ∷ [] }
        ensures served { journal_stations result ≡ served_in bytes.old stations }
        ensures meaning { journal_sections result ≡ opened bytes.old stations }
        ensures sound { JournalSound result }
        ensures sizes { Sizes }
    {
        let stations = served(bytes, stations);
        ByteJournal { bytes, stations }
    }

    // The counts of a station's section, if the station is served.
    fn counts(&self, station: u8) -> Result<Counts, Refusal>
        ensures { Found (journal_bytes self.now) (journal_stations self.now) station result }
    {
        if station >= self.stations {
            return Err(Refusal::NotServed);
        }
        let size = section_size(self.bytes.len(), self.stations);
        let start = section_start(station, size);
        Ok(Counts::of(self.bytes, start, size))
    }
}

impl<'a> Journal for ByteJournal<'a> {
    ghost use Rattle.std.specs.Prelude.{◌≡◌};
    ghost use Rattle.journal_bytes.specs.Changes.{bytes_written, bytes_forced, bytes_cut};
    ghost use Rattle.journal_bytes.specs.Journals.{journal_bytes, journal_stations, journal_sections, journal_lenders, Rewritten};
    ghost use Rattle.journal.specs.Meaning.{answer_of, write_answer, written, served_answer, forced, cut_to};

    ghost meaning = { journal_sections };

    ghost lenders = { journal_lenders };

    fn stations(&self) -> u8 {
        self.stations
    }

    fn capacity(&self, station: u8) -> usize {
        self.counts(station).map_or(0, |counts| counts.capacity)
    }

    fn stable_len(&self, station: u8) -> usize {
        self.counts(station).map_or(0, |counts| counts.stable)
    }

    fn unforced_len(&self, station: u8) -> usize {
        self.counts(station).map_or(0, |counts| counts.unforced)
    }

    fn read(&self, station: u8, place: usize) -> Option<Record> {
        let counts = self.counts(station).ok()?;
        if place >= counts.stable {
            return None;
        }
        Some(record_from(self.bytes, counts.record_start(place)))
    }

    fn write(&mut self, station: u8, line: Record) -> Result<(), Refusal>
        ensures answer { answer_of result ≡ write_answer (journal_sections self.old) station }
        ensures after { journal_sections self.new ≡ written line (journal_sections self.old) station }
        ensures lent { journal_lenders self.new ≡ journal_lenders self.old }
        ensures bytes { Rewritten self.old self.new (bytes_written line (journal_bytes self.old) (journal_stations self.old) station) }
    {
        let counts = self.counts(station)?;
        if counts.held() == counts.capacity {
            return Err(Refusal::Full);
        }
        add_record(self.bytes, counts, line);
        Ok(())
    }

    fn force(&mut self, station: u8) -> Result<(), Refusal>
        ensures answer { answer_of result ≡ served_answer (journal_sections self.old) station }
        ensures after { journal_sections self.new ≡ forced (journal_sections self.old) station }
        ensures lent { journal_lenders self.new ≡ journal_lenders self.old }
        ensures bytes { Rewritten self.old self.new (bytes_forced (journal_bytes self.old) (journal_stations self.old) station) }
    {
        let counts = self.counts(station)?;
        keep(self.bytes, counts, counts.held());
        Ok(())
    }

    fn cut(&mut self, station: u8, kept: usize) -> Result<(), Refusal>
        ensures answer { answer_of result ≡ served_answer (journal_sections self.old) station }
        ensures after { journal_sections self.new ≡ cut_to kept (journal_sections self.old) station }
        ensures lent { journal_lenders self.new ≡ journal_lenders self.old }
        ensures bytes { Rewritten self.old self.new (bytes_cut kept (journal_bytes self.old) (journal_stations self.old) station) }
    {
        let counts = self.counts(station)?;
        keep(
            self.bytes,
            counts,
            counts.stable + kept.min(counts.unforced),
        );
        Ok(())
    }
}
