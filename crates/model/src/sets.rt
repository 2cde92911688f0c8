//! Sets of stations, as eight flags.

ghost use Rattle.std.specs.Prelude.{◌≡◌, ◌/◌, ◌%◌, ◌^◌, ◌<◌, ◌==◌, SomeIff};

/// How many stations there are at most.
pub(crate) const MOST_STATIONS: u8 = 8;

/// The numbers that a station can have.
pub const STATIONS: [u8; 8] = [0, 1, 2, 3, 4, 5, 6, 7];

/// Whether the bit worth 2^station is on: how a byte says who is in a set. It divides by what the bit is worth, as the
/// documents have it; the engine shifts.
pub fn member(byte: u8, station: u8) -> bool
    ensures { station < 8 → result ≡ (byte / 2 ^ station % 2 == 1) }
{
    worth(station).is_some_and(|worth| byte / worth % 2 == 1)
}

/// 2^station, for the stations 0 to 7.
fn worth(station: u8) -> Option<u8>
    ensures { SomeIff result (2 ^ station < 2 ^ 8) (2 ^ station) }
{
    2u8.checked_pow(u32::from(station))
}

/// A set of stations: flag s is on if station s is a member.
#[derive(Clone, Copy, PartialEq, Eq, Default, Debug)]
pub struct Set {
    flags: [bool; 8],
}

impl From<u8> for Set {
    fn from(byte: u8) -> Set {
        let flags = STATIONS.map(|station| member(byte, station));
        Set { flags }
    }
}

impl From<Set> for u8 {
    fn from(set: Set) -> u8 {
        STATIONS
            .into_iter()
            .filter(|station| set.holds(*station))
            .filter_map(worth)
            .fold(0, u8::wrapping_add)
    }
}

impl Set {
    /// All stations.
    pub(crate) const EVERYBODY: Set = Set { flags: [true; 8] };

    /// Whether the station is a member.
    pub fn holds(self, station: u8) -> bool {
        self.flags
            .get(usize::from(station))
            .is_some_and(|flag| *flag)
    }

    /// How many members there are.
    pub fn size(self) -> usize {
        self.flags.iter().filter(|flag| **flag).count()
    }

    /// The set with one station's flag on or off.
    fn flagged(mut self, station: u8, on: bool) -> Set {
        if let Some(flag) = self.flags.get_mut(usize::from(station)) {
            *flag = on;
        }
        self
    }

    /// The set with the station too.
    pub fn with(self, station: u8) -> Set {
        self.flagged(station, true)
    }

    /// The set without the station.
    pub fn without(self, station: u8) -> Set {
        self.flagged(station, false)
    }

    /// The members that are not in `others`.
    pub fn beyond(self, others: Set) -> Set {
        let flags = STATIONS.map(|station| self.holds(station) && !others.holds(station));
        Set { flags }
    }

    /// Whether somebody is a member of both sets.
    pub(crate) fn meets(self, others: Set) -> bool {
        STATIONS
            .iter()
            .any(|station| self.holds(*station) && others.holds(*station))
    }
}
