//! The scenarios that are rehearsed.
use crate::script::{Call, Cue, Scenario};
use run::Fuse;

const OPEN: Cue = Cue::Make(Call::Open { stations: &[1, 2] });

const CLOSE: Cue = Cue::Make(Call::Close);

const GIVE_UP: Cue = Cue::Make(Call::GiveUp);

const RESTART_1: Cue = Cue::Make(Call::Restart { station: 1 });

const INQUIRE_1: Cue = Cue::Make(Call::Inquire { station: 1 });

const COMMIT: Scenario = Scenario {
    title: "a commit",
    cues: &[OPEN, CLOSE, Cue::DeliverAll],
};

const GIVEN_UP: Scenario = Scenario {
    title: "given up after close",
    cues: &[OPEN, CLOSE, GIVE_UP, Cue::DeliverAll],
};

const REJECTED: Scenario = Scenario {
    title: "rejected by station 2 before close",
    cues: &[
        OPEN,
        Cue::Make(Call::Reject { station: 2 }),
        CLOSE,
        Cue::DeliverAll,
    ],
};

// A vote has three acts.
const FULL_VOTE: Scenario = Scenario {
    title: "station 1 has power for just its vote",
    cues: &[
        OPEN,
        CLOSE,
        Cue::Make(Call::Deliver(Fuse { acts: 3, kept: 0 })),
        Cue::Show { station: 1 },
        Cue::DeliverAll,
    ],
};

// Station 1 comes back with nothing and never votes, so the coordinator gives up.
const VOTE_LOST: Scenario = Scenario {
    title: "station 1 loses power, and its prepared record with it",
    cues: &[
        OPEN,
        CLOSE,
        Cue::Make(Call::Deliver(Fuse { acts: 1, kept: 0 })),
        RESTART_1,
        Cue::Show { station: 1 },
        Cue::DeliverAll,
        Cue::Show { station: 0 },
        GIVE_UP,
        Cue::DeliverAll,
    ],
};

// Station 1 comes back in doubt, but its inquiry has no answer before the coordinator gives up.
const VOTE_KEPT: Scenario = Scenario {
    title: "station 1 loses power, and its prepared record is kept",
    cues: &[
        OPEN,
        CLOSE,
        Cue::Make(Call::Deliver(Fuse { acts: 1, kept: 1 })),
        RESTART_1,
        Cue::Show { station: 1 },
        Cue::DeliverAll,
        Cue::Show { station: 0 },
        INQUIRE_1,
        Cue::DeliverAll,
        GIVE_UP,
        Cue::DeliverAll,
    ],
};

// Station 1 comes back in doubt where its committed record was not forced; else it may not inquire.
pub const OUTCOME_LOST: Scenario = Scenario {
    title: "station 1 loses power after the commit",
    cues: &[
        OPEN,
        CLOSE,
        Cue::DeliverAll,
        Cue::Show { station: 1 },
        Cue::Make(Call::Cut {
            station: 1,
            kept: 0,
        }),
        RESTART_1,
        Cue::Show { station: 1 },
        INQUIRE_1,
        Cue::DeliverAll,
    ],
};

// Every call but three is refused.
const REFUSED: Scenario = Scenario {
    title: "refused calls",
    cues: &[
        Cue::Make(Call::Open { stations: &[] }),
        CLOSE,
        Cue::Make(Call::Deliver(Fuse::LASTING)),
        OPEN,
        CLOSE,
        CLOSE,
        INQUIRE_1,
        RESTART_1,
        Cue::Make(Call::Cut {
            station: 1,
            kept: 0,
        }),
        INQUIRE_1,
    ],
};

/// All scenarios, in the order in which they are rehearsed.
pub const ALL: [Scenario; 8] = [
    COMMIT,
    GIVEN_UP,
    REJECTED,
    FULL_VOTE,
    VOTE_LOST,
    VOTE_KEPT,
    OUTCOME_LOST,
    REFUSED,
];
