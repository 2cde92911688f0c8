//! What either side shows, in words that both share, and what is wrong where they differ.
use assurance::calls::Value;
use journal::records::{Kind as EngineKind, Record as EngineRecord};
use model::sets::{STATIONS, Set};
use model::words::{Answer, Failure, Holding, Kind, Message, Outcome, Record, Row, Word};
use presumption::outcome::Outcome as EngineOutcome;
use run::Row as EngineRow;
use station::coordinator::CoordinatorEntry;
use station::messages::{Message as EngineMessage, MessageKind};
use station::subordinate::SubordinateEntry;
use std::alloc::{AllocError, AllocFailed};
use std::fmt;

/// One thing that a side shows. Nothing and refusals are variants, so that all that is shown is one type; sets are bytes,
/// since each side has its own type of set.
#[derive(Clone, Copy, PartialEq, Eq, Debug)]
pub enum Seen {
    Nothing,
    Refused(u8),
    Revision(u16),
    Acts(usize),
    Done,
    Deliveries(usize),
    Awaited(Option<u8>, usize),
    Power(bool),
    Opened(u8),
    Collecting(u8, u8),
    Announcing(Outcome, u8),
    Active(u8),
    Prepared(u8),
    Posted(Message),
    Row(u8, u8, u8, u8),
    Written(Record),
    Count(usize),
    Byte(u8),
}

/// What is compared, and at which station and place.
#[derive(Clone, Copy, PartialEq, Eq, Debug)]
pub struct Spot {
    pub what: &'static str,
    pub station: u8,
    pub place: usize,
}

/// A difference: where, and what each side has there.
#[derive(Clone, Copy, PartialEq, Eq, Debug)]
pub struct Fault {
    pub spot: Spot,
    pub engine: Seen,
    pub model: Seen,
}

impl fmt::Display for Fault {
    fn fmt<W: fmt::Write>(&self, f: &mut fmt::Formatter<W>) -> fmt::Result {
        let Spot {
            what,
            station,
            place,
        } = self.spot;
        write!(f, "{what}, station {station}, place {place}: ")?;
        write!(f, "engine {:?}, model {:?}", self.engine, self.model)
    }
}

/// Why the program stops before its end.
#[derive(Debug, Drop)]
pub enum Trouble {
    Memory,
    Differs(Fault),
}

impl From<AllocError> for Trouble {
    fn from(_error: AllocError) -> Trouble {
        Trouble::Memory
    }
}

impl<T: Drop> From<AllocFailed<T>> for Trouble {
    fn from(_error: AllocFailed<T>) -> Trouble {
        Trouble::Memory
    }
}

impl Spot {
    /// What there is once.
    pub fn of(what: &'static str) -> Spot {
        Spot {
            what,
            station: 0,
            place: 0,
        }
    }

    /// The same at a station.
    pub fn at(self, station: u8) -> Spot {
        Spot { station, ..self }
    }

    /// The same at a place: of a record, of a message, or the number of a revision.
    pub fn place(self, place: usize) -> Spot {
        Spot { place, ..self }
    }

    /// Asks that both sides show the same.
    pub fn agree(self, engine: impl Into<Seen>, model: impl Into<Seen>) -> Result<(), Trouble> {
        let engine = engine.into();
        let model = model.into();
        if engine == model {
            return Ok(());
        }
        Err(Trouble::Differs(Fault {
            spot: self,
            engine,
            model,
        }))
    }
}

impl<T: Into<Seen>> From<Option<T>> for Seen {
    fn from(value: Option<T>) -> Seen {
        match value {
            Some(value) => value.into(),
            None => Seen::Nothing,
        }
    }
}

impl<T: Into<Seen>, E: Into<u8>> From<Result<T, E>> for Seen {
    fn from(answer: Result<T, E>) -> Seen {
        match answer {
            Ok(value) => value.into(),
            Err(refusal) => Seen::Refused(refusal.into()),
        }
    }
}

impl From<()> for Seen {
    fn from(_done: ()) -> Seen {
        Seen::Done
    }
}

impl From<usize> for Seen {
    fn from(count: usize) -> Seen {
        Seen::Count(count)
    }
}

impl From<u8> for Seen {
    fn from(byte: u8) -> Seen {
        Seen::Byte(byte)
    }
}

impl From<EngineRecord> for Seen {
    fn from(line: EngineRecord) -> Seen {
        Seen::Written(Record {
            kind: kind_of(line.kind),
            revision: line.revision,
            argument: line.argument,
        })
    }
}

impl From<Record> for Seen {
    fn from(what: Record) -> Seen {
        Seen::Written(what)
    }
}

// No `From` can be written between types of two other crates, so these three are functions.

// The model's word for a kind of record.
fn kind_of(kind: EngineKind) -> Kind {
    match kind {
        EngineKind::Opening => Kind::Opening,
        EngineKind::Commit => Kind::Commit,
        EngineKind::Abort => Kind::Abort,
        EngineKind::End => Kind::End,
        EngineKind::Prepared => Kind::Prepared,
        EngineKind::Committed => Kind::Committed,
        EngineKind::Aborted => Kind::Aborted,
    }
}

// The model's word for an outcome.
fn outcome_of(outcome: EngineOutcome) -> Outcome {
    match outcome {
        EngineOutcome::Commit => Outcome::Commit,
        EngineOutcome::Abort => Outcome::Abort,
    }
}

// The model's word for a kind of message.
fn word_of(kind: MessageKind) -> Word {
    match kind {
        MessageKind::Prepare => Word::Prepare,
        MessageKind::Yes => Word::Yes,
        MessageKind::No => Word::No,
        MessageKind::Commit => Word::Commit,
        MessageKind::Abort => Word::Abort,
        MessageKind::Ack => Word::Ack,
        MessageKind::Inquiry => Word::Inquiry,
    }
}

impl From<EngineMessage> for Seen {
    fn from(message: EngineMessage) -> Seen {
        Seen::Posted(Message {
            word: word_of(message.kind),
            revision: message.revision,
            sender: message.sender,
            receiver: message.receiver,
        })
    }
}

impl From<Message> for Seen {
    fn from(message: Message) -> Seen {
        Seen::Posted(message)
    }
}

impl From<CoordinatorEntry> for Seen {
    fn from(entry: CoordinatorEntry) -> Seen {
        match entry {
            CoordinatorEntry::None => Seen::Nothing,
            CoordinatorEntry::Open { set } => Seen::Opened(u8::from(set)),
            CoordinatorEntry::Collecting { set, voters } => Seen::Collecting(
                u8::from(set),
                u8::from(voters),
            ),
            CoordinatorEntry::Announcing { outcome, awaited } => Seen::Announcing(
                outcome_of(outcome),
                u8::from(awaited),
            ),
        }
    }
}

impl From<SubordinateEntry> for Seen {
    fn from(entry: SubordinateEntry) -> Seen {
        match entry {
            SubordinateEntry::None => Seen::Nothing,
            SubordinateEntry::Active { coordinator } => Seen::Active(coordinator),
            SubordinateEntry::Prepared { coordinator } => Seen::Prepared(coordinator),
        }
    }
}

impl From<Holding> for Seen {
    fn from(holding: Holding) -> Seen {
        match holding {
            Holding::Opened(set) => Seen::Opened(u8::from(set)),
            Holding::Collecting(set, voters) => Seen::Collecting(u8::from(set), u8::from(voters)),
            Holding::Announcing(outcome, awaited) => Seen::Announcing(outcome, u8::from(awaited)),
            Holding::Active(coordinator) => Seen::Active(coordinator),
            Holding::Prepared(coordinator) => Seen::Prepared(coordinator),
        }
    }
}

impl From<EngineRow> for Seen {
    fn from(row: EngineRow) -> Seen {
        Seen::Row(
            row.coordinator,
            u8::from(row.set),
            u8::from(row.installed),
            u8::from(row.dropped),
        )
    }
}

impl From<Row> for Seen {
    fn from(row: Row) -> Seen {
        Seen::Row(
            row.coordinator,
            u8::from(row.set),
            u8::from(row.installed),
            u8::from(row.dropped),
        )
    }
}

impl From<Value> for Seen {
    fn from(value: Value) -> Seen {
        match value {
            Value::Revision(revision) => Seen::Revision(revision),
            Value::Acts(acts) => Seen::Acts(usize::from(acts)),
            Value::Nothing => Seen::Done,
            Value::Deliveries(count) => Seen::Deliveries(count),
            // At most 8; no From makes a usize of a u32.
            Value::Awaited(awaited) => Seen::Awaited(awaited.station, awaited.count as usize),
        }
    }
}

// The station that an answer of the engine names, if the model has it among those not heard from; else the model's
// own choice, so that a wrong name shows as a difference.
fn named(unheard: Set, engine: Seen) -> Option<u8> {
    match engine {
        Seen::Awaited(Some(station), _) if unheard.holds(station) => Some(station),
        _ => STATIONS.into_iter().find(|station| unheard.holds(*station)),
    }
}

impl Seen {
    /// An answer of the model, beside that of the engine, which is free to name any station not heard from.
    pub fn of_answer(answer: Answer, engine: Seen) -> Seen {
        match answer {
            Answer::Revision(revision) => Seen::Revision(revision),
            Answer::Acts(acts) => Seen::Acts(acts),
            Answer::Zero => Seen::Done,
            Answer::Deliveries(count) => Seen::Deliveries(count),
            Answer::Unheard(set) => Seen::Awaited(named(set, engine), set.size()),
        }
    }

    /// What the model did, or its refusal; that it has no memory is trouble.
    pub fn of_model<T: Into<Seen>>(done: Result<T, Failure>) -> Result<Seen, Trouble> {
        match done {
            Ok(value) => Ok(value.into()),
            Err(Failure::Refused(refusal)) => Ok(Seen::Refused(u8::from(refusal))),
            Err(Failure::Memory) => Err(Trouble::Memory),
        }
    }
}
