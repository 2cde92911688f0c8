//! Sets of stations.
ghost use Rattle.std.specs.Prelude.{◌≡◌, ◌/◌, ◌^◌, true, false, Some, count_ones};
ghost use Rattle.std.specs.Int.Count.{count_trailing_zeros};
ghost use Rattle.journal.specs.Limits.{most_stations};
ghost use Rattle.station.specs.Sets.{of_bits, bits_of, size, empty, holds, single, with_station, without_station, without_set, first_of, below, NamesOne, LeadsMembers};

use journal::MAX_STATIONS;

mod members;

pub use members::Members;

/// A set of stations: bit s, worth 2 to the power s, stands for station s.
#[derive(Clone, Copy, Debug, Default, PartialEq, Eq)]
pub struct StationSet {
    bits: u8,
}

// The bits of one station's own set; none past the last station.
fn bit_of(station: u8) -> u8
    ensures { result ≡ single station }
{
    1_u8.checked_shl(u32::from(station)).unwrap_or(0)
}

/// The set whose bits these are.
impl From<u8> for StationSet {
    ghost from_gives = { λ n x. x ≡ of_bits n };

    fn from(bits: u8) -> StationSet {
        StationSet { bits }
    }
}

/// The bits of the set, as a record's argument has them.
impl From<StationSet> for u8 {
    ghost from_gives = { λ x n. n ≡ bits_of x };

    fn from(set: StationSet) -> u8 {
        set.bits
    }
}

impl StationSet {
    /// Is nobody in the set?
    pub fn is_empty(self) -> bool
        ensures { result ≡ empty self }
    {
        self.bits == 0
    }

    /// How many stations are in the set?
    pub fn len(self) -> u32
        ensures { result ≡ size self }
    {
        self.bits.count_ones()
    }

    /// The station of the set with the lowest number, if there is one.
    pub fn first(self) -> Option<u8>
        ensures lowest { result ≡ first_of self }
        ensures one { NamesOne result self }
        ensures leads { LeadsMembers result self }
    {
        if self.is_empty() {
            None
        } else {
            // At most 8, so the narrowing loses nothing: no From makes a byte of a u32.
            Some(self.bits.trailing_zeros() as u8)
        }
    }

    /// Is the station in the set?
    #[tactic(auto, using(crate::proofs::Bits::contained))]
    pub fn contains(self, station: u8) -> bool
        ensures { result ≡ holds self station }
    {
        self.bits & bit_of(station) != 0
    }

    /// Are all stations of the set numbered below `stations`?
    pub fn is_below(self, stations: usize) -> bool
        ensures { result ≡ below self stations }
    {
        stations >= usize::from(MAX_STATIONS) || self.bits >> stations == 0
    }

    /// The set with the station in it.
    pub fn insert(self, station: u8) -> StationSet
        ensures { result ≡ with_station self station }
    {
        StationSet {
            bits: self.bits | bit_of(station),
        }
    }

    /// The set without the station.
    #[tactic(auto, using(crate::proofs::Bits::removed))]
    pub fn remove(self, station: u8) -> StationSet
        ensures { result ≡ without_station self station }
    {
        StationSet {
            bits: self.bits & !bit_of(station),
        }
    }

    /// The stations of this set that are not in the other.
    #[tactic(auto, using(crate::proofs::Bits::clear))]
    pub fn difference(self, other: StationSet) -> StationSet
        ensures { result ≡ without_set self other }
    {
        StationSet {
            bits: self.bits & !other.bits,
        }
    }
}
