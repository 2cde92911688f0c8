//! What a run shows: questions that change nothing.
ghost use Rattle.std.specs.Prelude.{◌≡◌, ◌≤◌, length};
ghost use Rattle.actor.specs.Post.{most_waiting};
ghost use Rattle.run.specs.Runs.{seen};
ghost use Rattle.station.specs.Limits.{most_revisions};
ghost use Rattle.stations.specs.Stations.{power_at, coordinator_at, subordinate_at};
ghost use Rattle.std.specs.List.{slice_get};

use crate::run::Run;
use actor::Row;
use journal::calls::Journal;
use presumption::Presumption;
use station::coordinator::CoordinatorEntry;
use station::messages::Message;
use station::subordinate::SubordinateEntry;
use stations::Stations;

impl<J: Journal, P: Presumption> Run<J, P> {
    /// The stations, with their power and their entries.
    pub fn stations(&self) -> &Stations
        ensures { result.now ≡ (seen J.meaning self.now).stations }
    {
        &self.stations
    }

    // This and the next two spare callers the way over stations().

    /// Has the station power?
    pub fn power(&self, station: u8) -> bool
        ensures { result ≡ power_at (seen J.meaning self.now).stations station }
    {
        self.stations.power(station)
    }

    /// The station's coordinator entry for a revision.
    pub fn coordinator_entry(&self, station: u8, revision: u16) -> CoordinatorEntry
        ensures { result ≡ coordinator_at (seen J.meaning self.now).stations station revision }
    {
        self.stations.coordinator(station, revision)
    }

    /// The station's subordinate entry for a revision.
    pub fn subordinate_entry(&self, station: u8, revision: u16) -> SubordinateEntry
        ensures { result ≡ subordinate_at (seen J.meaning self.now).stations station revision }
    {
        self.stations.subordinate(station, revision)
    }

    /// The revision's row of the as-run log.
    pub fn as_run(&self, revision: u16) -> Option<Row>
        ensures value { result ≡ slice_get (seen J.meaning self.now).store.log revision }
        ensures few { length (seen J.meaning self.now).store.log ≤ most_revisions }
    {
        self.actor.row(revision)
    }

    /// How many messages wait.
    pub fn waiting(&self) -> usize
        ensures count { result ≡ length (seen J.meaning self.now).store.post }
        ensures few { result ≤ most_waiting }
    {
        self.actor.waiting()
    }

    /// The message that waits at a place.
    pub fn message(&self, place: usize) -> Option<Message>
        ensures value { result ≡ slice_get (seen J.meaning self.now).store.post place }
        ensures few { length (seen J.meaning self.now).store.post ≤ most_waiting }
    {
        self.actor.message(place)
    }

    /// The journal, to read.
    pub fn journal(&self) -> &J
        ensures { J.meaning result.now ≡ (seen J.meaning self.now).store.journal }
    {
        self.actor.journal()
    }
}
