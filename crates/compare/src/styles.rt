//! Styles of lists: how often each call comes, and with what arguments.
use model::words::Verb;

/// A call, and how often it comes among the others.
#[derive(Clone, Copy, PartialEq, Eq, Debug)]
pub struct Weight(pub Verb, pub usize);

/// A style. Of a hundred calls `fused` have a fuse that may burn, and of a hundred arguments `absurd` are out of
/// bounds. Each `period` turns all dark stations are restarted and the run is settled. A flood begins by opening as many
/// revisions as there are and two more, each for all stations, and closing them all.
#[derive(Clone, Copy, PartialEq, Eq, Debug)]
pub struct Style {
    pub weights: [Weight; 12],
    pub fused: usize,
    pub absurd: usize,
    pub period: usize,
    pub flood: bool,
}

/// A little of everything.
const MIXED: Style = Style {
    weights: [
        Weight(Verb::Open, 10),
        Weight(Verb::Close, 11),
        Weight(Verb::GiveUp, 3),
        Weight(Verb::Reject, 3),
        Weight(Verb::Chase, 4),
        Weight(Verb::Inquire, 4),
        Weight(Verb::Deliver, 44),
        Weight(Verb::Lose, 4),
        Weight(Verb::Cut, 3),
        Weight(Verb::Restart, 7),
        Weight(Verb::Settle, 1),
        Weight(Verb::Awaited, 6),
    ],
    fused: 25,
    absurd: 6,
    period: 60,
    flood: false,
};

/// Nothing fails; messages come in any order and more than once.
const CALM: Style = Style {
    weights: [
        Weight(Verb::Open, 13),
        Weight(Verb::Close, 17),
        Weight(Verb::GiveUp, 0),
        Weight(Verb::Reject, 0),
        Weight(Verb::Chase, 3),
        Weight(Verb::Inquire, 3),
        Weight(Verb::Deliver, 62),
        Weight(Verb::Lose, 0),
        Weight(Verb::Cut, 0),
        Weight(Verb::Restart, 0),
        Weight(Verb::Settle, 0),
        Weight(Verb::Awaited, 2),
    ],
    fused: 0,
    absurd: 1,
    period: 150,
    flood: false,
};

/// Many revisions at once, and few failures.
const BUSY: Style = Style {
    weights: [
        Weight(Verb::Open, 15),
        Weight(Verb::Close, 15),
        Weight(Verb::GiveUp, 1),
        Weight(Verb::Reject, 1),
        Weight(Verb::Chase, 4),
        Weight(Verb::Inquire, 4),
        Weight(Verb::Deliver, 52),
        Weight(Verb::Lose, 1),
        Weight(Verb::Cut, 1),
        Weight(Verb::Restart, 3),
        Weight(Verb::Settle, 1),
        Weight(Verb::Awaited, 2),
    ],
    fused: 4,
    absurd: 2,
    period: 110,
    flood: false,
};

/// Power fails all the time, and messages are lost.
const STORMY: Style = Style {
    weights: [
        Weight(Verb::Open, 9),
        Weight(Verb::Close, 10),
        Weight(Verb::GiveUp, 3),
        Weight(Verb::Reject, 3),
        Weight(Verb::Chase, 7),
        Weight(Verb::Inquire, 7),
        Weight(Verb::Deliver, 34),
        Weight(Verb::Lose, 5),
        Weight(Verb::Cut, 4),
        Weight(Verb::Restart, 15),
        Weight(Verb::Settle, 1),
        Weight(Verb::Awaited, 2),
    ],
    fused: 60,
    absurd: 3,
    period: 40,
    flood: false,
};

/// More messages than can wait.
const FLOOD: Style = Style {
    weights: [
        Weight(Verb::Open, 1),
        Weight(Verb::Close, 3),
        Weight(Verb::GiveUp, 2),
        Weight(Verb::Reject, 1),
        Weight(Verb::Chase, 14),
        Weight(Verb::Inquire, 12),
        Weight(Verb::Deliver, 58),
        Weight(Verb::Lose, 2),
        Weight(Verb::Cut, 1),
        Weight(Verb::Restart, 4),
        Weight(Verb::Settle, 0),
        Weight(Verb::Awaited, 2),
    ],
    fused: 8,
    absurd: 2,
    period: 200,
    flood: true,
};

/// Every second argument is out of bounds, and each call comes as often as the others.
const ABSURD: Style = Style {
    weights: [
        Weight(Verb::Open, 2),
        Weight(Verb::Close, 2),
        Weight(Verb::GiveUp, 1),
        Weight(Verb::Reject, 1),
        Weight(Verb::Chase, 1),
        Weight(Verb::Inquire, 1),
        Weight(Verb::Deliver, 3),
        Weight(Verb::Lose, 1),
        Weight(Verb::Cut, 1),
        Weight(Verb::Restart, 1),
        Weight(Verb::Settle, 1),
        Weight(Verb::Awaited, 1),
    ],
    fused: 50,
    absurd: 50,
    period: 70,
    flood: false,
};

/// All styles.
pub const STYLES: [Style; 6] = [MIXED, CALM, BUSY, STORMY, FLOOD, ABSURD];
