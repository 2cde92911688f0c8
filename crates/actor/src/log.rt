//! The as-run log: what became of each revision at each station. It survives power cuts.
ghost use Rattle.std.specs.Prelude.{◌≡◌, ◌<◌, ◌≤◌, [], ◌∷◌, ◌++◌, length, IfOk};
ghost use Rattle.std.specs.List.{slice_get};
ghost use Rattle.actor.specs.Log.{row, mark_row, marked};
ghost use Rattle.station.specs.Limits.{most_revisions};

use presumption::outcome::Outcome;
use station::MAX_REVISIONS;
use station::sets::StationSet;
use std::alloc::{AllocError, Global};
use std::marker::Model;

/// One revision: its coordinator, the stations it names, where it was installed, where dropped.
#[derive(Clone, Copy, Debug, PartialEq, Eq)]
pub struct Row {
    pub coordinator: u8,
    pub set: StationSet,
    pub installed: StationSet,
    pub dropped: StationSet,
}

impl Row {
    // The outcome is carried out at the station.
    fn mark(&mut self, outcome: Outcome, station: u8)
        ensures { self.new ≡ mark_row outcome station self.old }
    {
        match outcome {
            Outcome::Commit => self.installed = self.installed.insert(station),
            Outcome::Abort => self.dropped = self.dropped.insert(station),
        }
    }
}

/// A row for each revision opened, in the order of their numbers.
/// The room is reserved at once, so no act can want memory; an ArrayVec would need a blank row.
#[derive(Drop)]
pub struct Log {
    rows: Vec<Row>,
}

// A clause sees the rows, and not the invariant: callers know that they are few by the clauses `few`.
impl Model for Log {
    ghost use Rattle.std.specs.Prelude.{◌≤◌, List, length, vec_capacity};
    ghost use Rattle.station.specs.Limits.{most_revisions};
    ghost use Rattle.actor.specs.declared.log.Row.{Row};

    ghost Value = { List Row };

    ghost view = { λ l. l.rows.items };

    ghost invariant = { λ l. (most_revisions ≤ vec_capacity l.rows)
        × (length l.rows.items ≤ most_revisions) };
}

impl Log {
    /// No revision is opened yet.
    pub fn new(heap: Global) -> Result<Log, AllocError>
        ensures { IfOk result (λ x. x ≡ []) }
    {
        let rows = Vec::with_capacity(heap, usize::from(MAX_REVISIONS))?;
        Ok(Log { rows })
    }

    /// How many revisions were opened.
    pub fn len(&self) -> usize
        ensures count { result ≡ length self.now }
        ensures few { result ≤ most_revisions }
    {
        self.rows.len()
    }

    /// The revision's row, if it was opened.
    pub fn row(&self, revision: u16) -> Option<Row>
        ensures value { result ≡ slice_get self.now revision }
        ensures few { length self.now ≤ most_revisions }
    {
        self.rows.get(usize::from(revision)).copied()
    }

    /// One revision more.
    pub fn add(&mut self, coordinator: u8, set: StationSet)
        requires { length self.old < most_revisions }
        ensures { self.new ≡ self.old ++ row coordinator set ∷ [] }
    {
        let nobody = StationSet::default();
        self.rows.push_reserved(Row {
            coordinator,
            set,
            installed: nobody,
            dropped: nobody,
        });
    }

    /// Marks the revision installed or dropped at the station.
    pub fn mark(&mut self, outcome: Outcome, revision: u16, station: u8)
        ensures { self.new ≡ marked outcome revision station self.old }
    {
        if let Some(row) = self.rows.get_mut(usize::from(revision)) {
            row.mark(outcome, station);
        }
    }
}
