//! The stations of a set, one after the other.
ghost use Rattle.std.specs.Prelude.{◌≡◌, ℕ, length};
ghost use Rattle.std.specs.Iterator.{at_most};
ghost use Rattle.std.specs.Map.Iter.{TakesFirst, GivesInOrder};
ghost use Rattle.station.specs.Sets.{members};

use crate::sets::StationSet;
use std::marker::Model;

/// Walks a set from its lowest station up. Contracts see the list of those that are left.
#[derive(Debug, Drop)]
pub struct Members {
    rest: StationSet,
}

impl Model for Members {
    ghost use Rattle.std.specs.Prelude.{ℕ, List};
    ghost use Rattle.station.specs.Sets.{members};

    ghost Value = { List ℕ };

    ghost view = { λ a. members a.rest };
}

impl Iterator for Members {
    type Item = u8;

    ghost next_gives = { TakesFirst (λ (s : ℕ). s) };

    ghost remaining = { λ s. at_most (length s) };

    fn next(&mut self) -> Option<u8> {
        let station = self.rest.first()?;
        self.rest = self.rest.remove(station);
        Some(station)
    }
}

impl IntoIterator for StationSet {
    type Item = u8;

    type IntoIter = Members;

    ghost into_iter_gives = { λ x r. (r ≡ members x) × GivesInOrder ℕ };

    fn into_iter(self) -> Members {
        Members { rest: self }
    }
}
