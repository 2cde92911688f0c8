//! Worked examples, with the answer that the documents give to the last call of each.
use crate::player::{Game, Leaning, Plan, Player};
use crate::seen::{Seen, Spot, Trouble};
use crate::tally::PLAIN;
use journal::table::Table;
use model::sections::Log;
use model::words::{Call, Outage, Refusal, Verb};

/// Some calls on a run of three stations, and what the last of them answers under presumed abort and presumed commit.
#[derive(Clone, Copy, PartialEq, Eq, Debug)]
struct Example {
    calls: &'static [Call],
    abort: Seen,
    commit: Seen,
}

/// Revision 0 has coordinator 0 and the set {1, 2}.
const OPEN: Call = Call {
    verb: Verb::Open,
    set: 6,
    ..PLAIN
};

const CLOSE: Call = Call {
    verb: Verb::Close,
    ..PLAIN
};

const GIVE_UP: Call = Call {
    verb: Verb::GiveUp,
    ..PLAIN
};

const CHASE: Call = Call {
    verb: Verb::Chase,
    ..PLAIN
};

const SETTLE: Call = PLAIN;

const DELIVER: Call = Call {
    verb: Verb::Deliver,
    ..PLAIN
};

const LOSE: Call = Call {
    verb: Verb::Lose,
    ..PLAIN
};

const AWAITED: Call = Call {
    verb: Verb::Awaited,
    ..PLAIN
};

const INQUIRE_1: Call = Call {
    verb: Verb::Inquire,
    station: 1,
    ..PLAIN
};

const REJECT_1: Call = Call {
    verb: Verb::Reject,
    station: 1,
    ..PLAIN
};

const CUT_0: Call = Call {
    verb: Verb::Cut,
    station: 0,
    ..PLAIN
};

const CUT_1: Call = Call {
    verb: Verb::Cut,
    station: 1,
    ..PLAIN
};

const RESTART_1: Call = Call {
    verb: Verb::Restart,
    station: 1,
    ..PLAIN
};

/// Power for one act.
const DELIVER_1: Call = Call {
    outage: Outage { after: 1, kept: 0 },
    ..DELIVER
};

/// Power for one act, whose record is kept.
const DELIVER_1_KEPT: Call = Call {
    outage: Outage { after: 1, kept: 1 },
    ..DELIVER
};

/// Power for three acts.
const DELIVER_3: Call = Call {
    outage: Outage { after: 3, kept: 0 },
    ..DELIVER
};

// An example with one answer under both presumptions.
fn alike(calls: &'static [Call], answer: Seen) -> Example {
    Example {
        calls,
        abort: answer,
        commit: answer,
    }
}

// An example that is refused under both presumptions.
fn refused(calls: &'static [Call], refusal: Refusal) -> Example {
    alike(calls, Seen::Refused(u8::from(refusal)))
}

// The examples that are refused.
fn refusals() -> [Example; 16] {
    [
        refused(&[Call { set: 0, ..OPEN }], Refusal::NoSuchStation),
        refused(&[Call { set: 8, ..OPEN }], Refusal::NoSuchStation),
        refused(&[Call { station: 3, ..OPEN }], Refusal::NoSuchStation),
        refused(
            &[
                OPEN,
                Call {
                    station: 3,
                    revision: 9,
                    ..REJECT_1
                },
            ],
            Refusal::NoSuchStation,
        ),
        refused(&[CLOSE], Refusal::NotOpened),
        refused(
            &[
                OPEN,
                Call {
                    revision: 1,
                    ..AWAITED
                },
            ],
            Refusal::NotOpened,
        ),
        refused(&[OPEN, CUT_0, GIVE_UP], Refusal::NoPower),
        refused(&[CUT_1, OPEN], Refusal::NoPower),
        refused(&[CUT_1, SETTLE], Refusal::NoPower),
        refused(&[OPEN; 33], Refusal::TooManyRevisions),
        refused(&[OPEN, CLOSE, CLOSE], Refusal::EntryForbids),
        refused(&[OPEN, INQUIRE_1], Refusal::EntryForbids),
        refused(&[OPEN, CHASE], Refusal::EntryForbids),
        refused(&[DELIVER], Refusal::NoMessage),
        refused(
            &[OPEN, CLOSE, Call { place: 2, ..LOSE }],
            Refusal::NoMessage,
        ),
        refused(&[RESTART_1], Refusal::NotDark),
    ]
}

// The marked runs of the protocol, and some more.
fn answered() -> [Example; 14] {
    [
        Example {
            calls: &[OPEN, CLOSE],
            abort: Seen::Acts(2),
            commit: Seen::Acts(4),
        },
        Example {
            calls: &[OPEN, CLOSE, SETTLE],
            abort: Seen::Deliveries(8),
            commit: Seen::Deliveries(6),
        },
        Example {
            calls: &[OPEN, CLOSE, GIVE_UP],
            abort: Seen::Acts(3),
            commit: Seen::Acts(2),
        },
        Example {
            calls: &[OPEN, CLOSE, GIVE_UP, SETTLE],
            abort: Seen::Deliveries(6),
            commit: Seen::Deliveries(8),
        },
        alike(&[OPEN, CLOSE, DELIVER_1], Seen::Acts(1)),
        refused(
            &[OPEN, CLOSE, DELIVER_1, RESTART_1, INQUIRE_1],
            Refusal::EntryForbids,
        ),
        alike(
            &[OPEN, CLOSE, DELIVER_1_KEPT, RESTART_1, INQUIRE_1],
            Seen::Acts(1),
        ),
        alike(&[OPEN, CLOSE, DELIVER_3], Seen::Acts(3)),
        Example {
            calls: &[OPEN, CLOSE, SETTLE, CUT_1, RESTART_1, SETTLE],
            abort: Seen::Deliveries(0),
            commit: Seen::Deliveries(2),
        },
        Example {
            calls: &[OPEN, REJECT_1],
            abort: Seen::Acts(2),
            commit: Seen::Acts(3),
        },
        alike(&[OPEN, CLOSE, CUT_1, DELIVER], Seen::Acts(0)),
        alike(&[OPEN, AWAITED], Seen::Awaited(None, 0)),
        alike(&[OPEN, CLOSE, CUT_0, AWAITED], Seen::Awaited(None, 0)),
        alike(&[OPEN, OPEN], Seen::Revision(1)),
    ]
}

impl Player {
    // Plays an example under one presumption, and compares the last answer with the documents'.
    fn play_example(&mut self, example: Example, leaning: Leaning) -> Result<(), Trouble> {
        let expected = match leaning {
            Leaning::Abort => example.abort,
            Leaning::Commit | Leaning::Wary => example.commit,
        };
        let plan = Plan::Listed(example.calls);
        let table = Table::new(self.heap, 3)?;
        self.play(table, Log::table(self.heap, 3), Game { leaning, plan })?;
        let spot = Spot::of("answer of engine and model, and of the documents");
        spot.agree(self.tally.answer, expected)?;
        self.tally.examples = self.tally.examples.saturating_add(1);
        Ok(())
    }

    /// Plays all examples under both presumptions.
    pub fn play_examples(&mut self) -> Result<(), Trouble> {
        for leaning in [Leaning::Abort, Leaning::Commit] {
            for example in refusals().into_iter().chain(answered()) {
                self.play_example(example, leaning)?;
            }
        }
        Ok(())
    }
}
