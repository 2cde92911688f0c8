//! The plain values of the documents: records, messages, entries, presumptions, calls, answers and refusals.

use super::sets::Set;
use std::alloc::{AllocError, AllocFailed};

/// A refusal, with its number.
#[derive(Clone, Copy, PartialEq, Eq, Debug)]
pub enum Refusal {
    Unfit = 1,
    NoSuchStation = 2,
    NotOpened = 3,
    NoPower = 4,
    TooManyRevisions = 5,
    EntryForbids = 6,
    NoMessage = 7,
    NotDark = 8,
    NotServed = 11,
    Full = 12,
    NotARecord = 13,
}

impl From<Refusal> for u8 {
    fn from(refusal: Refusal) -> u8 {
        refusal as u8
    }
}

/// Why a call does not come to its end: it is refused, or there is no memory for it.
#[derive(Clone, Copy, PartialEq, Eq, Debug)]
pub enum Failure {
    Refused(Refusal),
    Memory,
}

impl From<Refusal> for Failure {
    fn from(refusal: Refusal) -> Failure {
        Failure::Refused(refusal)
    }
}

impl From<AllocError> for Failure {
    fn from(_error: AllocError) -> Failure {
        Failure::Memory
    }
}

impl<T: Drop> From<AllocFailed<T>> for Failure {
    fn from(_error: AllocFailed<T>) -> Failure {
        Failure::Memory
    }
}

/// The kind of a record, with its letter: I, C, A and E of a coordinator, p, c and a of a subordinate.
#[derive(Clone, Copy, PartialEq, Eq, Debug)]
pub enum Kind {
    Opening = 0x49,
    Commit = 0x43,
    Abort = 0x41,
    End = 0x45,
    Prepared = 0x70,
    Committed = 0x63,
    Aborted = 0x61,
}

/// All kinds of record.
const KINDS: [Kind; 7] = [
    Kind::Opening,
    Kind::Commit,
    Kind::Abort,
    Kind::End,
    Kind::Prepared,
    Kind::Committed,
    Kind::Aborted,
];

impl From<Kind> for u8 {
    fn from(kind: Kind) -> u8 {
        kind as u8
    }
}

impl TryFrom<u8> for Kind {
    type Error = Refusal;

    fn try_from(letter: u8) -> Result<Kind, Refusal> {
        KINDS
            .into_iter()
            .find(|kind| u8::from(*kind) == letter)
            .ok_or(Refusal::NotARecord)
    }
}

/// One record of a journal.
#[derive(Clone, Copy, PartialEq, Eq, Debug)]
pub struct Record {
    pub kind: Kind,
    pub revision: u16,
    pub argument: u8,
}

/// What a message says.
#[derive(Clone, Copy, PartialEq, Eq, Debug)]
pub enum Word {
    Prepare,
    Yes,
    No,
    Commit,
    Abort,
    Ack,
    Inquiry,
}

/// The message that carries an outcome.
impl From<Outcome> for Word {
    fn from(outcome: Outcome) -> Word {
        match outcome {
            Outcome::Commit => Word::Commit,
            Outcome::Abort => Word::Abort,
        }
    }
}

/// One waiting message.
#[derive(Clone, Copy, PartialEq, Eq, Debug)]
pub struct Message {
    pub word: Word,
    pub revision: u16,
    pub sender: u8,
    pub receiver: u8,
}

impl Message {
    /// The entry of the receiver that the message meets.
    pub(crate) fn entry(&self) -> Entry {
        let side = match self.word {
            Word::Prepare | Word::Commit | Word::Abort => Side::Stages,
            Word::Yes | Word::No | Word::Ack | Word::Inquiry => Side::Coordinates,
        };
        Entry::new(self.receiver, self.revision, side)
    }
}

/// How a revision ends.
#[derive(Clone, Copy, PartialEq, Eq, Debug)]
pub enum Outcome {
    Commit,
    Abort,
}

/// How a coordinator logs A.
#[derive(Clone, Copy, PartialEq, Eq, Debug)]
pub enum AbortLogging {
    NotAtAll,
    Unforced,
    Forced,
}

/// What subordinates do about an outcome: whether they post ACK for it, and whether they force their record of it.
#[derive(Clone, Copy, PartialEq, Eq, Debug)]
pub struct Handling {
    pub acknowledged: bool,
    pub forced: bool,
}

/// The answers of a presumption to its five questions, two of which are asked of each outcome.
#[derive(Clone, Copy, PartialEq, Eq, Debug)]
pub struct Presumption {
    pub presumed: Outcome,
    pub opens: bool,
    pub commit: Handling,
    pub abort: Handling,
    pub abort_logging: AbortLogging,
}

impl Presumption {
    /// Presumed abort.
    pub const ABORT: Presumption = Presumption {
        presumed: Outcome::Abort,
        opens: false,
        commit: Handling {
            acknowledged: true,
            forced: true,
        },
        abort: Handling {
            acknowledged: false,
            forced: false,
        },
        abort_logging: AbortLogging::Unforced,
    };

    /// Presumed commit.
    pub const COMMIT: Presumption = Presumption {
        presumed: Outcome::Commit,
        opens: true,
        commit: Handling {
            acknowledged: false,
            forced: false,
        },
        abort: Handling {
            acknowledged: true,
            forced: true,
        },
        abort_logging: AbortLogging::NotAtAll,
    };

    /// What subordinates do about an outcome.
    pub fn handling(&self, outcome: Outcome) -> Handling {
        match outcome {
            Outcome::Commit => self.commit,
            Outcome::Abort => self.abort,
        }
    }
}

/// Which of its two entries for a revision a station holds something in.
#[derive(Clone, Copy, PartialEq, Eq, Debug)]
pub enum Side {
    Coordinates,
    Stages,
}

/// One of the two entries of a station for a revision.
#[derive(Clone, Copy, PartialEq, Eq, Debug)]
pub struct Entry {
    pub station: u8,
    pub revision: u16,
    pub side: Side,
}

impl Entry {
    /// The entry of a station for a revision, on one of its sides.
    pub(crate) fn new(station: u8, revision: u16, side: Side) -> Entry {
        Entry {
            station,
            revision,
            side,
        }
    }
}

/// What an entry holds that is not none: the first three are a coordinator's, the last two a subordinate's.
#[derive(Clone, Copy, PartialEq, Eq, Debug)]
pub enum Holding {
    Opened(Set),
    Collecting(Set, Set),
    Announcing(Outcome, Set),
    Active(u8),
    Prepared(u8),
}

impl Holding {
    /// Whether the entry allows one of the five calls that start from an entry.
    pub fn allows(&self, verb: Verb) -> bool {
        match self {
            Holding::Opened(_) => verb == Verb::Close || verb == Verb::GiveUp,
            Holding::Collecting(_, _) => verb == Verb::GiveUp,
            Holding::Announcing(_, _) => verb == Verb::Chase,
            Holding::Active(_) => verb == Verb::Reject,
            Holding::Prepared(_) => verb == Verb::Inquire,
        }
    }
}

/// An entry that is not none.
#[derive(Clone, Copy, PartialEq, Eq, Debug)]
pub struct Part {
    pub entry: Entry,
    pub holding: Holding,
}

/// One row of the as-run log.
#[derive(Clone, Copy, PartialEq, Eq, Debug)]
pub struct Row {
    pub coordinator: u8,
    pub set: Set,
    pub installed: Set,
    pub dropped: Set,
}

/// The twelve calls.
#[derive(Clone, Copy, PartialEq, Eq, Debug)]
pub enum Verb {
    Open,
    Close,
    GiveUp,
    Reject,
    Chase,
    Inquire,
    Deliver,
    Lose,
    Cut,
    Restart,
    Settle,
    Awaited,
}

/// When power fails within a step, after so many acts, and how many unforced records are kept then.
#[derive(Clone, Copy, PartialEq, Eq, Debug)]
pub struct Outage {
    pub after: u8,
    pub kept: u8,
}

impl Outage {
    /// Power lasts: no step has so many acts.
    pub const NEVER: Outage = Outage {
        after: 255,
        kept: 0,
    };
}

/// A call with whatever arguments it takes; those that it does not take play no part. `station` is the coordinator
/// of an open, and `outage` says how many records a cut keeps.
///
/// No enum of calls: each question reads one argument of many calls, and compare draws all arguments of whatever call
/// comes.
#[derive(Clone, Copy, PartialEq, Eq, Debug)]
pub struct Call {
    pub verb: Verb,
    pub revision: u16,
    pub station: u8,
    pub set: u8,
    pub place: usize,
    pub copy: bool,
    pub outage: Outage,
}

/// What a call answers. `Zero` is the 0 of lose, cut and restart. `Unheard` has everybody not yet heard from: the call
/// names any one of them, and how many there are.
#[derive(Clone, Copy, PartialEq, Eq, Debug)]
pub enum Answer {
    Revision(u16),
    Acts(usize),
    Zero,
    Deliveries(usize),
    Unheard(Set),
}
