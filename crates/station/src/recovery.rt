//! Recovery: what the stable records of a station say of a revision.
ghost use Rattle.std.specs.Prelude.{◌≡◌, None};
ghost use Rattle.journal.specs.Meaning.{record_at};
ghost use Rattle.station.specs.Recovery.{matching, stable_records, first_record, told_by, decision, resumed_subordinate, resumed_coordinator};

use crate::coordinator::{CoordinatorEntry, announcing_to};
use crate::sets::StationSet;
use crate::subordinate::SubordinateEntry;
use journal::calls::Journal;
use journal::records::{Kind, Record};
use presumption::Presumption;
use presumption::outcome::Outcome;

// Journal, station and revision stay side by side: a struct that borrows the journal makes the file longer, and the
// prover infers nothing of what the closures below answer from it.

// The stable record at a place, if it is of that kind and for that revision.
fn read_of<J: Journal>(
    journal: &J,
    station: u8,
    place: usize,
    kind: Kind,
    revision: u16,
) -> Option<Record>
    ensures { result ≡ matching kind revision (record_at (J.meaning journal.now) station place) }
{
    journal
        .read(station, place)
        .filter(|line| line.kind == kind && line.revision == revision)
}

/// The first stable record of a kind for a revision, if the station has one.
pub fn find<J: Journal>(journal: &J, station: u8, kind: Kind, revision: u16) -> Option<Record>
    ensures { result ≡ first_record kind revision (stable_records (J.meaning journal.now) station) }
{
    (0..journal.stable_len(station)).find_map(|place| read_of(
        journal, station, place, kind, revision,
    ))
}

// An outcome for the whole set of the first record of a kind, which tells it, if there is one.
fn told_by<J: Journal>(
    journal: &J,
    station: u8,
    revision: u16,
    kind: Kind,
    outcome: Outcome,
) -> Option<(Outcome, StationSet)>
    ensures { result ≡ told_by outcome (first_record kind revision (stable_records (J.meaning journal.now) station)) None }
{
    find(journal, station, kind, revision).map(|line| (outcome, StationSet::from(line.argument)))
}

// The decision on record, with the whole set of the record that tells it.
fn decision_on_record<J: Journal>(
    journal: &J,
    station: u8,
    revision: u16,
) -> Option<(Outcome, StationSet)>
    ensures { result ≡ decision revision (stable_records (J.meaning journal.now) station) }
{
    told_by(journal, station, revision, Kind::Commit, Outcome::Commit)
        .or_else(|| told_by(journal, station, revision, Kind::Abort, Outcome::Abort))
        .or_else(|| told_by(journal, station, revision, Kind::Opening, Outcome::Abort))
}

/// The coordinator's entry for a revision, as its stable records rebuild it.
pub fn recover_coordinator<J: Journal, P: Presumption>(
    journal: &J,
    presumption: &P,
    station: u8,
    revision: u16,
) -> CoordinatorEntry
    ensures { result ≡ resumed_coordinator (P.answers presumption.now) revision (stable_records (J.meaning journal.now) station) }
{
    if find(journal, station, Kind::End, revision).is_some() {
        return CoordinatorEntry::None;
    }
    match decision_on_record(journal, station, revision) {
        Some((outcome, awaited)) => announcing_to(presumption, outcome, awaited),
        None => CoordinatorEntry::None,
    }
}

/// The subordinate's entry for a revision, as its stable records rebuild it.
pub fn recover_subordinate<J: Journal>(journal: &J, station: u8, revision: u16) -> SubordinateEntry
    ensures { result ≡ resumed_subordinate revision (stable_records (J.meaning journal.now) station) }
{
    let Some(line) = find(journal, station, Kind::Prepared, revision) else {
        return SubordinateEntry::None;
    };
    if find(journal, station, Kind::Committed, revision).is_some()
        || find(journal, station, Kind::Aborted, revision).is_some()
    {
        return SubordinateEntry::None;
    }
    SubordinateEntry::Prepared {
        coordinator: line.argument,
    }
}
