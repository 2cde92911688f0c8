//! The stations of a run: power and entries.
#![tactic(auto)]

ghost use Rattle.std.specs.Prelude.{◌≡◌, true, false, not, ◌&&◌, length, set, replicate, IfOk, nat_lt};
ghost use Rattle.std.specs.List.{range_with_len};
ghost use Rattle.stations.specs.Stations.{blank, rebuilt, power_at, entries_at, coordinator_at, subordinate_at, turn_station, turn_entry, all_power, activated};
ghost use Rattle.station.specs.Recovery.{stable_records};
ghost use Rattle.station.specs.Sets.{members, empty, below};

use journal::calls::Journal;
use presumption::Presumption;
use station::MAX_REVISIONS;
use station::coordinator::CoordinatorEntry;
use station::recovery::{recover_coordinator, recover_subordinate};
use station::sets::StationSet;
use station::subordinate::SubordinateEntry;
use std::alloc::{AllocError, Global};
use std::marker::Model;

// How many revisions a station has entries for. A constant calls no `usize::from`.
const REVISIONS: usize = MAX_REVISIONS as usize;

// What a station remembers of one revision.
#[derive(Clone, Copy, Debug, PartialEq, Eq)]
struct Entries {
    coordinator: CoordinatorEntry,
    subordinate: SubordinateEntry,
}

// Neither entry.
const NO_ENTRIES: Entries = Entries {
    coordinator: CoordinatorEntry::None,
    subordinate: SubordinateEntry::None,
};

/// One station: whether it has power, and its entries by revision.
// No Option of the entries: those of a dark station are asked for too, and an entry may be put without asking for power.
#[derive(Clone, Copy, Debug, PartialEq, Eq)]
pub struct Station {
    power: bool,
    entries: [Entries; REVISIONS],
}

/// An entry that changes.
#[derive(Clone, Copy, Debug, PartialEq, Eq)]
pub enum Turn {
    Coordinator(CoordinatorEntry),
    Subordinate(SubordinateEntry),
}

/// All stations of a run, by their numbers.
#[derive(Debug, Drop)]
pub struct Stations {
    rows: Vec<Station>,
}

impl Model for Stations {
    ghost use Rattle.std.specs.Prelude.{◌<◌, ◌^◌, List, vec_len};
    ghost use Rattle.stations.specs.declared.Station.{Station};

    ghost Value = { List Station };

    ghost view = { λ x. x.rows.items };

    ghost invariant = { λ x. vec_len x.rows < 2 ^ 8 };
}

impl Station {
    /// A station without entries.
    #[tactic(auto, unfolding(crate::specs::Stations::blank))]
    pub fn new(power: bool) -> Station
        ensures { result ≡ blank power }
    {
        Station {
            power,
            entries: [NO_ENTRIES; REVISIONS],
        }
    }

    // An entry for the revision changes; nothing, where there is no such revision.
    fn turn(&mut self, revision: u16, turn: Turn)
        ensures { self.new ≡ turn_station revision turn self.old }
    {
        // A slice's `get_mut` says nothing of what the slice ends as, so the test comes first.
        let revision = usize::from(revision);
        if revision < self.entries.len() {
            match turn {
                Turn::Coordinator(entry) => self.entries[revision].coordinator = entry,
                Turn::Subordinate(entry) => self.entries[revision].subordinate = entry,
            }
        }
    }

    /// A station with power, as its stable records rebuild it.
    pub fn rebuild<J: Journal, P: Presumption>(journal: &J, presumption: &P, station: u8) -> Station
        ensures { result ≡ rebuilt (P.answers presumption.now) (stable_records (J.meaning journal.now) station) }
    {
        // Counted by `u16`, as records count: with a `usize` cut down to that each search took half as long again.
        let mut entries = [NO_ENTRIES; REVISIONS];
        for revision in 0..MAX_REVISIONS {
            entries[usize::from(revision)] = Entries {
                coordinator: recover_coordinator(journal, presumption, station, revision),
                subordinate: recover_subordinate(journal, station, revision),
            };
        }
        Station {
            power: true,
            entries,
        }
    }
}

// Station and revision stay two numbers: the calls of a run have them so, and some methods take the station alone.
impl Stations {
    /// So many stations with power and without entries.
    pub fn new(heap: Global, count: u8) -> Result<Stations, AllocError>
        ensures { IfOk result (λ x. x ≡ replicate count (blank true)) }
    {
        let rows = vec![in heap; Station::new(true); usize::from(count)]?;
        Ok(Stations { rows })
    }

    /// How many stations there are.
    pub fn len(&self) -> u8
        ensures { result ≡ length self.now }
    {
        // The invariant keeps the number within a `u8`.
        self.rows.len() as u8
    }

    /// Are the coordinator and all stations of the set there, and is there one in the set?
    pub fn names(&self, coordinator: u8, set: StationSet) -> bool
        ensures { result ≡ (nat_lt coordinator (length self.now) && (not (empty set) && below set (length self.now))) }
    {
        usize::from(coordinator) < self.rows.len()
            && !set.is_empty()
            && set.is_below(self.rows.len())
    }

    /// Has the station power? A station that is not there has none.
    pub fn power(&self, station: u8) -> bool
        ensures { result ≡ power_at self.now station }
    {
        self.rows
            .get(usize::from(station))
            .is_some_and(|row| row.power)
    }

    /// Have all stations of the set power?
    pub fn have_power(&self, set: StationSet) -> bool
        ensures { result ≡ all_power self.now (members set) }
    {
        set.into_iter().all(|station| self.power(station))
    }

    /// Have all stations power?
    pub fn all_have_power(&self) -> bool
        ensures { result ≡ all_power self.now (range_with_len 0 (length self.now)) }
    {
        self.rows.iter().all(|row| row.power)
    }

    // The entries of a station for a revision; none, where either is not there.
    fn entries(&self, station: u8, revision: u16) -> Entries
        ensures { result ≡ entries_at self.now station revision }
    {
        self.rows
            .get(usize::from(station))
            .and_then(|row| row.entries.get(usize::from(revision)))
            .copied()
            .unwrap_or(NO_ENTRIES)
    }

    /// The coordinator entry of a station for a revision.
    pub fn coordinator(&self, station: u8, revision: u16) -> CoordinatorEntry
        ensures { result ≡ coordinator_at self.now station revision }
    {
        self.entries(station, revision).coordinator
    }

    /// The subordinate entry of a station for a revision.
    pub fn subordinate(&self, station: u8, revision: u16) -> SubordinateEntry
        ensures { result ≡ subordinate_at self.now station revision }
    {
        self.entries(station, revision).subordinate
    }

    /// An entry of the station for the revision changes.
    pub fn turn(&mut self, station: u8, revision: u16, turn: Turn)
        ensures { self.new ≡ turn_entry station revision turn self.old }
    {
        if let Some(row) = self.rows.get_mut(usize::from(station)) {
            row.turn(revision, turn);
        }
    }

    /// All stations of the set become Active for the revision.
    #[tactic(auto, unfolding(crate::specs::Stations::activated))]
    pub fn activate(&mut self, set: StationSet, revision: u16, coordinator: u8)
        ensures { self.new ≡ activated revision coordinator (members set) self.old }
    {
        let active = Turn::Subordinate(SubordinateEntry::Active { coordinator });
        for station in set {
            self.turn(station, revision, active);
        }
    }

    /// Puts another station in a station's place.
    pub fn put(&mut self, station: u8, row: Station)
        ensures { self.new ≡ set self.old station row }
    {
        if let Some(place) = self.rows.get_mut(usize::from(station)) {
            *place = row;
        }
    }

    /// The power fails at a station: its entries are gone, and it is dark.
    pub fn cut(&mut self, station: u8)
        ensures { self.new ≡ set self.old station (blank false) }
    {
        self.put(station, Station::new(false));
    }
}
