//! The calls of a run as values.
ghost use Rattle.std.specs.Prelude.{IfOk};
ghost use Rattle.assurance.specs.Lists.{called};
ghost use Rattle.assurance.specs.Values.{reported, Suits};
ghost use Rattle.run.specs.Runs.{seen, shown, LeadsTo};

use journal::calls::Journal;
use presumption::Presumption;
use run::Fuse;
use run::refusals::Refusal;
use run::run::Run;
use run::run::settling::Awaited;
use station::sets::StationSet;

/// A call of a run, with its arguments.
#[derive(Clone, Copy, Debug, PartialEq, Eq)]
pub enum Call {
    Open {
        coordinator: u8,
        set: StationSet,
    },
    Close {
        revision: u16,
        fuse: Fuse,
    },
    GiveUp {
        revision: u16,
        fuse: Fuse,
    },
    Chase {
        revision: u16,
        fuse: Fuse,
    },
    Reject {
        revision: u16,
        station: u8,
        fuse: Fuse,
    },
    Inquire {
        revision: u16,
        station: u8,
        fuse: Fuse,
    },
    Deliver {
        place: usize,
        copy: bool,
        fuse: Fuse,
    },
    Lose {
        place: usize,
    },
    Cut {
        station: u8,
        kept: u8,
    },
    Restart {
        station: u8,
    },
    Settle,
    Awaited {
        revision: u16,
    },
}

/// What a call answered that was not refused.
#[derive(Clone, Copy, Debug, PartialEq, Eq)]
pub enum Value {
    /// The number of the revision that was opened.
    Revision(u16),
    /// How many acts were done.
    Acts(u8),
    /// There is nothing to count.
    Nothing,
    /// How many messages were delivered.
    Deliveries(usize),
    /// Whom the coordinator has not heard from.
    Awaited(Awaited),
}

/// Makes a call of a run.
pub fn perform<J: Journal, P: Presumption>(
    run: &mut Run<J, P>,
    call: Call,
) -> Result<Value, Refusal>
    ensures call { LeadsTo (called (P.answers run.old.presumption) call)
        (shown J.meaning run.old) (reported result) (shown J.meaning run.new) }
    ensures suits { IfOk result (Suits call (seen J.meaning run.old)) }
{
    match call {
        Call::Open { coordinator, set } => run.open(coordinator, set).map(Value::Revision),
        Call::Close { revision, fuse } => run.close(revision, fuse).map(Value::Acts),
        Call::GiveUp { revision, fuse } => run.give_up(revision, fuse).map(Value::Acts),
        Call::Chase { revision, fuse } => run.chase(revision, fuse).map(Value::Acts),
        Call::Reject {
            revision,
            station,
            fuse,
        } => run.reject(revision, station, fuse).map(Value::Acts),
        Call::Inquire {
            revision,
            station,
            fuse,
        } => run.inquire(revision, station, fuse).map(Value::Acts),
        Call::Deliver { place, copy, fuse } => run.deliver(place, copy, fuse).map(Value::Acts),
        Call::Lose { place } => run.lose(place).map(|()| Value::Nothing),
        Call::Cut { station, kept } => run.cut(station, kept).map(|()| Value::Nothing),
        Call::Restart { station } => run.restart(station).map(|()| Value::Nothing),
        Call::Settle => run.settle().map(Value::Deliveries),
        Call::Awaited { revision } => run.awaited(revision).map(Value::Awaited),
    }
}
