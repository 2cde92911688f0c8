//! The journals that lists are played over, and all lists.
use crate::player::{Game, Leaning, Plan, Player};
use crate::seen::{Spot, Trouble};
use crate::styles::{STYLES, Style};
use join::Join;
use journal::table::Table;
use journal_bytes::ByteJournal;
use model::layout::found;
use model::sections::Log;
use std::alloc::{AllocError, Global};

/// A list of drawn calls has so many at least.
const CALLS: usize = 160;

/// And fewer than so many more.
const MORE_CALLS: usize = 80;

/// A list over one of the special grounds has so many.
const SPECIAL_CALLS: usize = 40;

/// So many times each style is played over each ground under each presumption.
const ROUNDS: usize = 8;

/// A section for 160 records takes so many bytes: a number of its own, so that no constant of the engine hides an error.
const SECTION: usize = 644;

/// How bytes begin that are used: station 0 has a stable opening record, of revision 0 and the set {1}.
const USED: [u8; 8] = [0, 1, 0, 0, b'I', 0, 0, 2];

/// The presumptions that lists are played under.
const LEANINGS: [Leaning; 3] = [Leaning::Abort, Leaning::Commit, Leaning::Wary];

/// What to make a journal of: a table for some stations, or some bytes, or the join of both.
#[derive(Clone, Copy, PartialEq, Eq, Debug)]
enum Ground {
    Table(u8),
    Bytes(Lent),
    Join(u8, Lent),
}

/// So many bytes for so many stations, all zero but for those at the front.
#[derive(Clone, Copy, PartialEq, Eq, Debug)]
struct Lent {
    length: usize,
    stations: u8,
    front: &'static [u8],
}

impl Lent {
    // Zeros.
    fn zeros(length: usize, stations: u8) -> Lent {
        Lent {
            length,
            stations,
            front: &[],
        }
    }

    // Bytes with a record in them.
    fn used(length: usize, stations: u8) -> Lent {
        Lent {
            front: &USED,
            ..Lent::zeros(length, stations)
        }
    }

    // The bytes.
    fn bytes(&self, heap: Global) -> Result<Vec<u8>, AllocError> {
        let mut bytes = vec![in heap; 0u8; self.length]?;
        for (byte, given) in bytes.iter_mut().zip(self.front) {
            *byte = *given;
        }
        Ok(bytes)
    }
}

// Grounds at the edge of what is fit, on both sides of it.
fn special_grounds() -> [Ground; 22] {
    [
        Ground::Table(0),
        Ground::Table(1),
        Ground::Table(9),
        Ground::Table(255),
        Ground::Bytes(Lent::zeros(5152, 8)),
        Ground::Bytes(Lent::zeros(5151, 8)),
        Ground::Bytes(Lent::zeros(1288, 2)),
        Ground::Bytes(Lent::zeros(1287, 2)),
        Ground::Bytes(Lent::zeros(70_000, 8)),
        Ground::Bytes(Lent::zeros(65_536, 1)),
        Ground::Bytes(Lent::zeros(0, 3)),
        Ground::Bytes(Lent::zeros(5152, 9)),
        Ground::Bytes(Lent::zeros(5152, 0)),
        Ground::Bytes(Lent::used(5152, 8)),
        Ground::Join(1, Lent::used(1288, 2)),
        Ground::Join(1, Lent::zeros(0, 0)),
        Ground::Join(1, Lent::zeros(643, 1)),
        Ground::Join(1, Lent::zeros(644, 1)),
        Ground::Join(9, Lent::zeros(1288, 2)),
        Ground::Join(0, Lent::zeros(1288, 2)),
        Ground::Join(4, Lent::zeros(5152, 8)),
        Ground::Join(8, Lent::zeros(100, 3)),
    ]
}

// Zeros that give so many stations room for 160 records each.
fn roomy(stations: u8) -> Lent {
    Lent::zeros(SECTION.saturating_mul(usize::from(stations)), stations)
}

// The grounds for so many stations: a table, bytes and a join.
fn grounds_for(stations: u8) -> [Ground; 3] {
    [
        Ground::Table(stations),
        Ground::Bytes(roomy(stations)),
        Ground::Join(1, roomy(stations.saturating_sub(1))),
    ]
}

/// The bytes say of each station what the model says of it, unforced records too.
pub fn agree_on_bytes(
    heap: Global,
    bytes: &[u8],
    stations: u8,
    shift: u8,
    log: &Log,
) -> Result<(), Trouble> {
    let read = found(heap, bytes, stations)?;
    for (section, station) in (0..stations).zip(shift..log.served()) {
        let counts = Spot::of("records in bytes").at(station);
        counts.agree(read.count(section, true), log.count(station, true))?;
        counts.agree(read.count(section, false), log.count(station, false))?;
        let found_lines = read.lines.iter().filter(|line| line.station == section);
        let lines = log.lines.iter().filter(|line| line.station == station);
        let spot = Spot::of("record in bytes").at(station);
        for (place, (found_line, line)) in found_lines.zip(lines).enumerate() {
            spot.place(place).agree(found_line.what, line.what)?;
        }
    }
    Ok(())
}

impl Player {
    // Plays a game over a table.
    fn play_on_table(&mut self, stations: u8, game: Game) -> Result<(), Trouble> {
        let table = Table::new(self.heap, stations)?;
        self.play(table, Log::table(self.heap, stations), game)?;
        Ok(())
    }

    // Plays a game over bytes, and reads them afterwards.
    fn play_on_bytes(&mut self, lent: Lent, game: Game) -> Result<(), Trouble> {
        let mut bytes = lent.bytes(self.heap)?;
        let log = found(self.heap, bytes.as_slice(), lent.stations)?;
        let journal = ByteJournal::new(bytes.as_mut_slice(), lent.stations);
        let model = self.play(journal, log, game)?;
        agree_on_bytes(self.heap, bytes.as_slice(), lent.stations, 0, &model.log)
    }

    // Plays a game over a table joined to bytes, and reads these afterwards.
    fn play_on_join(&mut self, stations: u8, lent: Lent, game: Game) -> Result<(), Trouble> {
        let mut bytes = lent.bytes(self.heap)?;
        let first = Log::table(self.heap, stations);
        let shift = first.served();
        let log = Log::join(first, found(self.heap, bytes.as_slice(), lent.stations)?)?;
        let table = Table::new(self.heap, stations)?;
        let journal = Join::new(table, ByteJournal::new(bytes.as_mut_slice(), lent.stations));
        let model = self.play(journal, log, game)?;
        agree_on_bytes(
            self.heap,
            bytes.as_slice(),
            lent.stations,
            shift,
            &model.log,
        )
    }

    // Plays a game over a ground.
    fn play_on(&mut self, ground: Ground, game: Game) -> Result<(), Trouble> {
        match ground {
            Ground::Table(stations) => self.play_on_table(stations, game),
            Ground::Bytes(lent) => self.play_on_bytes(lent, game),
            Ground::Join(stations, lent) => self.play_on_join(stations, lent, game),
        }
    }

    // Each style over each special ground, under each presumption.
    fn play_special(&mut self) -> Result<(), Trouble> {
        for ground in special_grounds() {
            for leaning in LEANINGS {
                for style in STYLES {
                    let plan = Plan::Drawn(style, SPECIAL_CALLS);
                    self.play_on(ground, Game { leaning, plan })?;
                }
            }
        }
        Ok(())
    }

    // A style over each number of stations and each ground, under each presumption.
    fn play_style(&mut self, style: Style) -> Result<(), Trouble> {
        for stations in 2..=8 {
            for ground in grounds_for(stations) {
                for leaning in LEANINGS {
                    let calls = CALLS.saturating_add(self.dice.below(MORE_CALLS));
                    let plan = Plan::Drawn(style, calls);
                    self.play_on(ground, Game { leaning, plan })?;
                }
            }
        }
        Ok(())
    }

    /// All lists.
    pub fn play_lists(&mut self) -> Result<(), Trouble> {
        self.play_special()?;
        for _round in 0..ROUNDS {
            for style in STYLES {
                self.play_style(style)?;
            }
        }
        Ok(())
    }
}
