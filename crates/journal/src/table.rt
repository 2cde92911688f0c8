//! A journal in memory.
use crate::records::Record;
use std::marker::Model;

/// A table has room for so many records at each station.
pub const TABLE_RECORDS: usize = 160;

/// One station's records, in room that is reserved for all of them: the first `stable` are stable.
/// One list with a mark and not two lists, so a force moves no record.
#[derive(Drop)]
struct StationRecords {
    records: Vec<Record>,
    stable: usize,
}

// Clauses see the station's section.
impl Model for StationRecords {
    ghost use Rattle.std.specs.Prelude.{◌≡◌, ◌≤◌, vec_len, vec_capacity};
    ghost use Rattle.journal.specs.Limits.{table_records};
    ghost use Rattle.journal.specs.Meaning.{Section};
    ghost use Rattle.journal.specs.Tables.{split_at};

    ghost Value = { Section };

    ghost view = { λ s. split_at s.stable s.records.items };

    ghost invariant = { λ s. (s.stable ≤ vec_len s.records) × (vec_capacity s.records ≡ table_records) };
}

/// A journal in memory, with the same room for each of its stations.
///
/// The room is reserved when the table is made, so no later call can want memory.
#[derive(Drop)]
pub struct Table {
    stations: Vec<StationRecords>,
}

// Clauses see the sections, in the order of the stations' numbers.
impl Model for Table {
    ghost use Rattle.std.specs.Prelude.{List, ◌≤◌, vec_len};
    ghost use Rattle.journal.specs.Limits.{most_stations};
    ghost use Rattle.journal.specs.Meaning.{Section};

    ghost Value = { List Section };

    ghost view = { λ t. t.stations.items };

    ghost invariant = { λ t. vec_len t.stations ≤ most_stations };
}

mod methods;
