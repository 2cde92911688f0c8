//! Two journals as one.
#![tactic(auto)]

ghost use Rattle.std.specs.Prelude.{◌≡◌, ◌+◌, ◌<◌, min, ◌++◌};
ghost use Rattle.join.specs.Parts.{part_of, Lies};
ghost use Rattle.join.specs.Together.{together};
ghost use Rattle.journal.specs.Limits.{most_stations};

use journal::{Journal, MAX_STATIONS, Record, Refusal};
use std::marker::Model;

/// A journal made of two: the stations of the first, then those of the second, as far as a journal goes.
#[derive(Drop)]
pub struct Join<X, Y> {
    first: X,
    second: Y,
}

// Clauses see the two journals.
impl<X, Y> Model for Join<X, Y> {
    ghost Value = { X × Y };

    ghost view = { λ j. (j.first, j.second) };
}

// Which journal of a join has a station, and under what number.
#[derive(Clone, Copy, Debug, PartialEq, Eq)]
enum Part {
    First(u8),
    Second(u8),
}

// The journal that has a station of a join, where the first serves so many.
fn part_of(first: u8, station: u8) -> Option<Part>
    ensures { result ≡ part_of first station }
{
    if station < first {
        Some(Part::First(station))
    } else if station < MAX_STATIONS {
        Some(Part::Second(station - first))
    } else {
        None
    }
}

impl<X: Journal, Y: Journal> Join<X, Y> {
    /// The two journals as one.
    pub fn new(first: X, second: Y) -> Join<X, Y>
        ensures { result ≡ (first, second) }
    {
        Join { first, second }
    }

    // The journal that has the station.
    fn part(&self, station: u8) -> Option<Part>
        ensures { Lies (X.meaning self.now.0) (Y.meaning self.now.1) station result }
    {
        part_of(self.first.stations(), station)
    }
}

// The two journals are of two types, so each call names both.
// Closures for them would name both too, and need a contract each.
impl<X: Journal, Y: Journal> Journal for Join<X, Y> {
    ghost meaning = { λ j. together (X.meaning j.0) (Y.meaning j.1) };

    ghost lenders = { λ j. X.lenders j.0 ++ Y.lenders j.1 };

    fn stations(&self) -> u8 {
        (self.first.stations() + self.second.stations()).min(MAX_STATIONS)
    }

    fn capacity(&self, station: u8) -> usize {
        match self.part(station) {
            Some(Part::First(own)) => self.first.capacity(own),
            Some(Part::Second(own)) => self.second.capacity(own),
            None => 0,
        }
    }

    fn stable_len(&self, station: u8) -> usize {
        match self.part(station) {
            Some(Part::First(own)) => self.first.stable_len(own),
            Some(Part::Second(own)) => self.second.stable_len(own),
            None => 0,
        }
    }

    fn unforced_len(&self, station: u8) -> usize {
        match self.part(station) {
            Some(Part::First(own)) => self.first.unforced_len(own),
            Some(Part::Second(own)) => self.second.unforced_len(own),
            None => 0,
        }
    }

    fn read(&self, station: u8, place: usize) -> Option<Record> {
        match self.part(station)? {
            Part::First(own) => self.first.read(own, place),
            Part::Second(own) => self.second.read(own, place),
        }
    }

    fn write(&mut self, station: u8, line: Record) -> Result<(), Refusal> {
        match self.part(station).ok_or(Refusal::NotServed)? {
            Part::First(own) => self.first.write(own, line),
            Part::Second(own) => self.second.write(own, line),
        }
    }

    fn force(&mut self, station: u8) -> Result<(), Refusal> {
        match self.part(station).ok_or(Refusal::NotServed)? {
            Part::First(own) => self.first.force(own),
            Part::Second(own) => self.second.force(own),
        }
    }

    fn cut(&mut self, station: u8, kept: usize) -> Result<(), Refusal> {
        match self.part(station).ok_or(Refusal::NotServed)? {
            Part::First(own) => self.first.cut(own, kept),
            Part::Second(own) => self.second.cut(own, kept),
        }
    }
}
