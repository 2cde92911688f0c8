//! Scripts: a scenario is a list of cues, and most cues are a call of the engine.
use run::Fuse;
use station::sets::StationSet;

/// Each run has so many stations.
pub const STATIONS: u8 = 3;

/// Who coordinates the revision of each scenario.
pub const COORDINATOR: u8 = 0;

/// The only revision of each scenario.
pub const REVISION: u16 = 0;

/// A call of the engine.
#[derive(Clone, Copy, Debug, PartialEq, Eq)]
pub enum Call {
    /// The revision goes to these stations.
    Open { stations: &'static [u8] },
    Close,
    GiveUp,
    Reject { station: u8 },
    Inquire { station: u8 },
    /// The first message that waits, under this fuse. Power fails in no other call.
    Deliver(Fuse),
    Cut { station: u8, kept: u8 },
    Restart { station: u8 },
}

/// What to do next.
#[derive(Clone, Copy, Debug, PartialEq, Eq)]
pub enum Cue {
    Make(Call),
    /// Delivers the first message, and so on until none waits.
    DeliverAll,
    /// Shows how the station stands.
    Show { station: u8 },
}

/// A run to rehearse.
#[derive(Clone, Copy, Debug, PartialEq, Eq)]
pub struct Scenario {
    pub title: &'static str,
    pub cues: &'static [Cue],
}

/// The set of these stations. No constant can hold one.
pub fn set_of(stations: &[u8]) -> StationSet {
    stations
        .iter()
        .fold(StationSet::default(), |set, station| set.insert(*station))
}
