//! Both sides, compared in everything that a run shows.
use crate::seen::{Seen, Spot, Trouble};
use journal::calls::Journal;
use model::sections::Log;
use model::whole::Model;
use model::words::{Entry, Side};
use presumption::Presumption;
use run::run::Run;
use station::coordinator::CoordinatorEntry;
use station::subordinate::SubordinateEntry;
use stations::Stations;

// Run and model, journal and log stay two parameters each: a comparison has two sides, and names both.

// How many entries of a station the engine has that are not none, for the revisions opened and one past them.
fn entries_of<J: Journal, P: Presumption>(run: &Run<J, P>, station: u8, opened: u16) -> usize {
    let stations = run.stations();
    let coordinating = (0..=opened).filter(|revision| {
        stations.coordinator(station, *revision) != CoordinatorEntry::None
    });
    let staging = (0..=opened).filter(|revision| {
        stations.subordinate(station, *revision) != SubordinateEntry::None
    });
    coordinating.count().saturating_add(staging.count())
}

// An entry of the engine has what the model has there.
fn agree_on_entry(stations: &Stations, entry: Entry, expected: Seen) -> Result<(), Trouble> {
    let Entry {
        station,
        revision,
        side,
    } = entry;
    let (what, engine) = match side {
        Side::Coordinates => (
            "coordinator entry",
            Seen::from(stations.coordinator(station, revision)),
        ),
        Side::Stages => (
            "subordinate entry",
            Seen::from(stations.subordinate(station, revision)),
        ),
    };
    let spot = Spot::of(what).at(station).place(usize::from(revision));
    spot.agree(engine, expected)
}

// Every entry of a station, for the revisions opened and one past them: asked where the number of entries differs, to
// tell which.
fn agree_on_entries<J: Journal, P: Presumption>(
    run: &Run<J, P>,
    model: &Model,
    station: u8,
    opened: u16,
) -> Result<(), Trouble> {
    for revision in 0..=opened {
        for side in [Side::Coordinates, Side::Stages] {
            let entry = Entry {
                station,
                revision,
                side,
            };
            let part = model.parts.iter().find(|part| part.entry == entry);
            let expected = Seen::from(part.map(|part| part.holding));
            agree_on_entry(run.stations(), entry, expected)?;
        }
    }
    Ok(())
}

// Power and entries of each station: every entry of the model is the engine's too, and it has no others.
fn agree_on_stations<J: Journal, P: Presumption>(
    run: &Run<J, P>,
    model: &Model,
) -> Result<(), Trouble> {
    let served = model.log.served();
    let stations = run.stations();
    Spot::of("stations").agree(usize::from(stations.len()), usize::from(served))?;
    for part in model.parts.iter() {
        agree_on_entry(stations, part.entry, Seen::from(part.holding))?;
    }
    // There are no more rows than revisions, so the other value is never taken.
    let opened = u16::try_from(model.rows.len()).unwrap_or(u16::MAX);
    for station in 0..served {
        let power = Spot::of("power").at(station);
        power.agree(
            Seen::Power(stations.power(station)),
            Seen::Power(!model.dark.holds(station)),
        )?;
        let parts = model
            .parts
            .iter()
            .filter(|part| part.entry.station == station);
        let (held, expected) = (entries_of(run, station, opened), parts.count());
        if held != expected {
            agree_on_entries(run, model, station, opened)?;
        }
        Spot::of("entries").at(station).agree(held, expected)?;
    }
    Ok(())
}

// The post, message by message, and nothing behind it.
fn agree_on_post<J: Journal, P: Presumption>(
    run: &Run<J, P>,
    model: &Model,
) -> Result<(), Trouble> {
    Spot::of("messages waiting").agree(run.waiting(), model.post.len())?;
    let spot = Spot::of("message");
    let messages = model.post.iter().copied().map(Seen::from);
    for (place, message) in messages.chain([Seen::Nothing]).enumerate() {
        spot.place(place).agree(run.message(place), message)?;
    }
    Ok(())
}

// The as-run log, row by row, and nothing behind it.
fn agree_on_rows<J: Journal, P: Presumption>(
    run: &Run<J, P>,
    model: &Model,
) -> Result<(), Trouble> {
    let spot = Spot::of("as-run row");
    let rows = model.rows.iter().copied().map(Seen::from);
    // Revisions are u16, so enumerate does not count them.
    for (revision, row) in (0..u16::MAX).zip(rows.chain([Seen::Nothing])) {
        spot.place(usize::from(revision))
            .agree(run.as_run(revision), row)?;
    }
    Ok(())
}

// One section, served or not: its sizes, its stable records, and nothing behind them.
fn agree_on_section<J: Journal>(journal: &J, log: &Log, station: u8) -> Result<(), Trouble> {
    let stable = log.count(station, true);
    let unforced = log.count(station, false);
    let capacity = Spot::of("capacity").at(station);
    capacity.agree(journal.capacity(station), log.capacity(station))?;
    let stable_records = Spot::of("stable records").at(station);
    stable_records.agree(journal.stable_len(station), stable)?;
    let unforced_records = Spot::of("unforced records").at(station);
    unforced_records.agree(journal.unforced_len(station), unforced)?;
    let spot = Spot::of("stable record").at(station);
    let records = log
        .lines
        .iter()
        .filter(|line| line.station == station && line.stable)
        .map(|line| Seen::from(line.what));
    for (place, record) in records.chain([Seen::Nothing]).enumerate() {
        spot.place(place)
            .agree(journal.read(station, place), record)?;
    }
    Ok(())
}

/// A journal: its stations, and the section of each, of some past the last and of one far past it.
pub fn agree_on_journal<J: Journal>(journal: &J, log: &Log) -> Result<(), Trouble> {
    let served = Spot::of("stations served");
    served.agree(usize::from(journal.stations()), usize::from(log.served()))?;
    for station in [0, 1, 2, 3, 4, 5, 6, 7, 8, 200] {
        agree_on_section(journal, log, station)?;
    }
    Ok(())
}

/// Everything that a run shows.
pub fn agree_on_run<J: Journal, P: Presumption>(
    run: &Run<J, P>,
    model: &Model,
) -> Result<(), Trouble> {
    agree_on_stations(run, model)?;
    agree_on_post(run, model)?;
    agree_on_rows(run, model)?;
    agree_on_journal(run.journal(), &model.log)
}
