//! The journals on their own: writes, forces, cuts and reads, on both sides at once; and records as bytes.
use crate::dice::Dice;
use crate::grounds::agree_on_bytes;
use crate::player::Player;
use crate::seen::{Seen, Spot, Trouble};
use crate::views::agree_on_journal;
use join::Join;
use journal::calls::Journal;
use journal::records::{Kind as EngineKind, Record as EngineRecord, decode as engine_decode};
use journal::table::Table;
use journal_bytes::ByteJournal;
use model::layout::{decode, found, imprint};
use model::sections::Log;
use model::words::{Kind, Record};
use std::alloc::AllocError;

/// The kinds of record, as each side has them.
const KINDS: [(EngineKind, Kind); 7] = [
    (EngineKind::Opening, Kind::Opening),
    (EngineKind::Commit, Kind::Commit),
    (EngineKind::Abort, Kind::Abort),
    (EngineKind::End, Kind::End),
    (EngineKind::Prepared, Kind::Prepared),
    (EngineKind::Committed, Kind::Committed),
    (EngineKind::Aborted, Kind::Aborted),
];

/// A record, as each side has it.
#[derive(Clone, Copy, PartialEq, Eq, Debug)]
struct Pair {
    engine: EngineRecord,
    model: Record,
}

/// What is done to a section.
#[derive(Clone, Copy, PartialEq, Eq, Debug)]
enum Change {
    Write(Pair),
    Force,
    Cut(usize),
}

/// A call that changes a station's section.
#[derive(Clone, Copy, PartialEq, Eq, Debug)]
struct Deed {
    station: u8,
    change: Change,
}

impl Pair {
    // Any record.
    fn draw(dice: &mut Dice) -> Pair {
        let (engine_kind, kind) = dice.pick(&KINDS, (EngineKind::End, Kind::End));
        // The remainder is the number itself, and lets the cast be proved to lose nothing.
        let revision = (dice.below(65536) % 65536) as u16;
        let argument = dice.byte();
        Pair {
            engine: EngineRecord {
                kind: engine_kind,
                revision,
                argument,
            },
            model: Record {
                kind,
                revision,
                argument,
            },
        }
    }
}

// A station, sometimes one that is not served: with other numbers and chances than in lists of calls.
fn draw_station(dice: &mut Dice, served: u8) -> u8 {
    if dice.chance(12) {
        dice.pick(&[served, 7, 8, 9, 200, 255], 200)
    } else {
        dice.byte_below(served)
    }
}

impl Deed {
    // Any deed.
    fn draw(dice: &mut Dice, served: u8) -> Deed {
        let station = draw_station(dice, served);
        let change = match dice.below(10) {
            0 | 1 => Change::Force,
            2 => Change::Cut(dice.pick(&[0, 1, 2, 3, 255, usize::MAX], 0)),
            _ => Change::Write(Pair::draw(dice)),
        };
        Deed { station, change }
    }

    // Does the deed at the engine.
    fn do_at_engine<J: Journal>(&self, journal: &mut J) -> Seen {
        Seen::from(match self.change {
            Change::Write(record) => journal.write(self.station, record.engine),
            Change::Force => journal.force(self.station),
            Change::Cut(kept) => journal.cut(self.station, kept),
        })
    }

    // Does the deed at the model.
    fn do_at_model(&self, log: &mut Log) -> Result<Seen, Trouble> {
        match self.change {
            Change::Write(record) => Seen::of_model(log.write(self.station, record.model)),
            Change::Force => Ok(Seen::from(log.force(self.station))),
            Change::Cut(kept) => Ok(Seen::from(log.cut(self.station, kept))),
        }
    }
}

// All bytes of both sides.
fn agree_on_every_byte(engine: &[u8], model: &[u8]) -> Result<(), Trouble> {
    Spot::of("bytes").agree(engine.len(), model.len())?;
    let spot = Spot::of("byte");
    for (place, (byte, expected)) in engine.iter().zip(model).enumerate() {
        spot.place(place).agree(*byte, *expected)?;
    }
    Ok(())
}

impl Player {
    // Does a deed on both sides, and compares the answers and the journals.
    fn do_both<J: Journal>(
        &mut self,
        journal: &mut J,
        log: &mut Log,
        deed: Deed,
    ) -> Result<(), Trouble> {
        let engine = deed.do_at_engine(journal);
        let expected = deed.do_at_model(log)?;
        let spot = Spot::of("answer of a journal").at(deed.station);
        spot.agree(engine, expected)?;
        agree_on_journal(journal, log)?;
        self.tally.deeds = self.tally.deeds.saturating_add(1);
        self.tally.note_refusal(engine);
        Ok(())
    }

    // Does many deeds on both sides, and between them reads a record at any place.
    fn do_many<J: Journal>(
        &mut self,
        journal: &mut J,
        log: &mut Log,
        deeds: usize,
    ) -> Result<(), Trouble> {
        agree_on_journal(journal, log)?;
        for _deed in 0..deeds {
            let deed = Deed::draw(&mut self.dice, log.served());
            self.do_both(journal, log, deed)?;
            let station = draw_station(&mut self.dice, log.served());
            let place = self.dice.pick(&[0, 1, 5, 17, 100, 159, 160, usize::MAX], 0);
            let spot = Spot::of("stable record").at(station).place(place);
            spot.agree(journal.read(station, place), log.read(station, place))?;
        }
        Ok(())
    }

    // Tables for each number of stations, those that are too many among them.
    fn play_tables(&mut self) -> Result<(), Trouble> {
        for stations in [0, 1, 2, 3, 8, 9, 255] {
            let mut table = Table::new(self.heap, stations)?;
            let mut log = Log::table(self.heap, stations);
            self.do_many(&mut table, &mut log, 500)?;
        }
        Ok(())
    }

    // Bytes with anything behind what is counted; sometimes some bytes of it are spoilt.
    fn draw_bytes(&mut self, length: usize, stations: u8) -> Result<Vec<u8>, Trouble> {
        let mut bytes = vec![in self.heap; 0u8; length]?;
        let mut log = found(self.heap, bytes.as_slice(), stations)?;
        for _deed in 0..self.dice.below(30) {
            let deed = Deed::draw(&mut self.dice, log.served());
            deed.do_at_model(&mut log)?;
        }
        if self.dice.chance(70) && log.served() > 0 {
            bytes.fill_with(|| self.dice.byte());
        }
        imprint(&log, 0, bytes.as_mut_slice(), stations);
        if self.dice.chance(40) {
            for _spoilt in 0..3 {
                if let Some(byte) = bytes.get_mut(self.dice.below(length)) {
                    *byte = self.dice.pick(&[0, 1, 2, b'I', b'p', b'd', 255], 0);
                }
            }
        }
        Ok(bytes)
    }

    // Deeds on a byte journal that is made anew of the same bytes for each, with all bytes compared after each.
    fn play_bytes(&mut self, length: usize, stations: u8) -> Result<(), Trouble> {
        let mut bytes = self.draw_bytes(length, stations)?;
        let mut expected = Vec::from_slice(self.heap, bytes.as_slice())?;
        let mut log = found(self.heap, bytes.as_slice(), stations)?;
        for _deed in 0..25 {
            let deed = Deed::draw(&mut self.dice, log.served());
            let mut journal = ByteJournal::new(bytes.as_mut_slice(), stations);
            agree_on_journal(&journal, &log)?;
            self.do_both(&mut journal, &mut log, deed)?;
            drop(journal);
            imprint(&log, 0, expected.as_mut_slice(), stations);
            agree_on_every_byte(bytes.as_slice(), expected.as_slice())?;
        }
        Ok(())
    }

    // Byte journals of all sizes.
    fn play_all_bytes(&mut self) -> Result<(), Trouble> {
        for _block in 0..400 {
            let length = self.dice.below(150);
            let stations = self
                .dice
                .pick(&[0, 1, 1, 2, 2, 3, 4, 5, 6, 7, 8, 9, 255], 2);
            self.play_bytes(length, stations)?;
        }
        for length in [644, 1288, 5151, 5152, 65_535, 65_536, 65_540, 70_000] {
            for stations in [1, 3, 8] {
                self.play_bytes(length, stations)?;
            }
        }
        Ok(())
    }

    // The two joins are written out, since they are of two types, and the order of draws decides what is printed.

    // A join of bytes and then two tables.
    fn play_bytes_first(&mut self) -> Result<(), Trouble> {
        let heap = self.heap;
        let stations = self.dice.byte_below(10);
        let length = self.dice.below(200);
        let second = self.dice.byte_below(4);
        let third = self.dice.byte_below(10);
        let mut bytes = self.draw_bytes(length, stations)?;
        let first = found(heap, bytes.as_slice(), stations)?;
        let served = first.served();
        let tables = Log::join(Log::table(heap, second), Log::table(heap, third))?;
        let mut log = Log::join(first, tables)?;
        let inner = Join::new(Table::new(heap, second)?, Table::new(heap, third)?);
        let mut journal = Join::new(ByteJournal::new(bytes.as_mut_slice(), stations), inner);
        self.do_many(&mut journal, &mut log, 60)?;
        drop(journal);
        agree_on_bytes(heap, bytes.as_slice(), served, 0, &log)
    }

    // A join of a table and bytes, joined to another table.
    fn play_bytes_between(&mut self) -> Result<(), Trouble> {
        let heap = self.heap;
        let stations = self.dice.byte_below(10);
        let length = self.dice.below(200);
        let first = self.dice.byte_below(6);
        let third = self.dice.byte_below(10);
        let mut bytes = self.draw_bytes(length, stations)?;
        let second = found(heap, bytes.as_slice(), stations)?;
        let served = second.served();
        let two = Log::join(Log::table(heap, first), second)?;
        let mut log = Log::join(two, Log::table(heap, third))?;
        let lent = ByteJournal::new(bytes.as_mut_slice(), stations);
        let inner = Join::new(Table::new(heap, first)?, lent);
        let mut journal = Join::new(inner, Table::new(heap, third)?);
        self.do_many(&mut journal, &mut log, 60)?;
        drop(journal);
        agree_on_bytes(heap, bytes.as_slice(), served, first, &log)
    }

    // Joins with bytes at their front and in their middle.
    fn play_joins(&mut self) -> Result<(), Trouble> {
        for _join in 0..30 {
            self.play_bytes_first()?;
            self.play_bytes_between()?;
        }
        Ok(())
    }

    // Some bytes, of which the first is often a letter.
    fn draw_few(&mut self) -> Result<Vec<u8>, AllocError> {
        let mut bytes = vec![in self.heap; 0u8; self.dice.below(9)]?;
        for (place, byte) in bytes.iter_mut().enumerate() {
            *byte = if place == 0 && self.dice.chance(70) {
                self.dice.pick(b"ICAEpcaiPX", 0)
            } else {
                self.dice.byte()
            };
        }
        Ok(bytes)
    }

    // A record out of bytes on both sides, and the bytes behind it.
    fn play_decoding(&mut self) -> Result<(), Trouble> {
        let bytes = self.draw_few()?;
        let decoded = engine_decode(bytes.as_slice());
        let behind = decoded.map_or(0, |(_, rest)| rest.len());
        let engine = Seen::from(decoded.map(|(line, _)| line));
        let expected = decode(bytes.as_slice());
        let left = expected.map_or(0, |_| bytes.len().saturating_sub(4));
        Spot::of("decoded").agree(engine, expected)?;
        Spot::of("bytes behind the record").agree(behind, left)?;
        self.tally.note_refusal(engine);
        Ok(())
    }

    // Records out of bytes, and into bytes.
    fn play_decodings(&mut self) -> Result<(), Trouble> {
        for _string in 0..3000 {
            self.play_decoding()?;
            let record = Pair::draw(&mut self.dice);
            agree_on_every_byte(&record.engine.encode(), &record.model.encode())?;
            self.tally.decodings = self.tally.decodings.saturating_add(1);
        }
        Ok(())
    }

    /// Everything about the journals on their own.
    pub fn play_journals(&mut self) -> Result<(), Trouble> {
        self.play_tables()?;
        self.play_all_bytes()?;
        self.play_joins()?;
        self.play_decodings()
    }
}
