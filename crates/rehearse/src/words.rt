//! The words in which a rehearsal is told.
use crate::rehearsal::Fate;
use crate::script::{Call, set_of};
use journal::records::{Kind, Record};
use presumption::outcome::Outcome;
use run::Fuse;
use run::refusals::Refusal;
use station::coordinator::CoordinatorEntry;
use station::messages::{Message, MessageKind};
use station::sets::StationSet;
use station::subordinate::SubordinateEntry;
use std::fmt;

/// A value of the engine, to be printed.
#[derive(Clone, Copy, Debug, PartialEq, Eq)]
pub struct Shown<T>(pub T);

/// What a call did that was not refused.
/// Less than assurance's Value: a rehearsal needs nothing of that crate, whose calls no constant can hold.
#[derive(Clone, Copy, Debug, PartialEq, Eq)]
pub enum Done {
    /// It opened this revision.
    Revision(u16),
    /// It did so many acts of a step.
    Acts(u8),
    /// There is nothing to tell.
    Nothing,
}

impl fmt::Display for Call {
    fn fmt<W: fmt::Write>(&self, f: &mut fmt::Formatter<W>) -> fmt::Result {
        match *self {
            Call::Open { stations } => write!(f, "open {}", Shown(set_of(stations))),
            Call::Close => f.write_str("close"),
            Call::GiveUp => f.write_str("give_up"),
            Call::Reject { station } => write!(f, "reject at {station}"),
            Call::Inquire { station } => write!(f, "inquire at {station}"),
            Call::Deliver(_) => f.write_str("deliver"),
            Call::Cut { station, kept } => write!(f, "cut at {station}, kept {kept}"),
            Call::Restart { station } => write!(f, "restart at {station}"),
        }
    }
}

impl fmt::Display for Shown<Fuse> {
    fn fmt<W: fmt::Write>(&self, f: &mut fmt::Formatter<W>) -> fmt::Result {
        if self.0 == Fuse::LASTING {
            return Ok(());
        }
        write!(f, ", fuse {}, kept {}", self.0.acts, self.0.kept)
    }
}

impl fmt::Display for Shown<Result<Done, Refusal>> {
    fn fmt<W: fmt::Write>(&self, f: &mut fmt::Formatter<W>) -> fmt::Result {
        match self.0 {
            Ok(Done::Revision(revision)) => write!(f, "revision {revision}"),
            Ok(Done::Acts(1)) => f.write_str("1 act"),
            Ok(Done::Acts(acts)) => write!(f, "{acts} acts"),
            Ok(Done::Nothing) => f.write_str("done"),
            Err(refusal) => write!(f, "refused with {}", u8::from(refusal)),
        }
    }
}

impl fmt::Display for Shown<Outcome> {
    fn fmt<W: fmt::Write>(&self, f: &mut fmt::Formatter<W>) -> fmt::Result {
        f.write_str(match self.0 {
            Outcome::Commit => "commit",
            Outcome::Abort => "abort",
        })
    }
}

impl fmt::Display for Shown<MessageKind> {
    fn fmt<W: fmt::Write>(&self, f: &mut fmt::Formatter<W>) -> fmt::Result {
        f.write_str(match self.0 {
            MessageKind::Prepare => "PREPARE",
            MessageKind::Yes => "YES",
            MessageKind::No => "NO",
            MessageKind::Commit => "COMMIT",
            MessageKind::Abort => "ABORT",
            MessageKind::Ack => "ACK",
            MessageKind::Inquiry => "INQUIRY",
        })
    }
}

impl fmt::Display for Shown<Message> {
    fn fmt<W: fmt::Write>(&self, f: &mut fmt::Formatter<W>) -> fmt::Result {
        let Message {
            kind,
            sender,
            receiver,
            ..
        } = self.0;
        let kind = Shown(kind);
        write!(f, "{kind} {sender} -> {receiver}")
    }
}

impl fmt::Display for Shown<Record> {
    fn fmt<W: fmt::Write>(&self, f: &mut fmt::Formatter<W>) -> fmt::Result {
        let Record { kind, argument, .. } = self.0;
        let letter = char::from(u8::from(kind));
        match kind {
            Kind::Opening | Kind::Commit | Kind::Abort => {
                write!(f, "{letter} for {}", Shown(StationSet::from(argument)))
            }
            Kind::End => write!(f, "{letter}"),
            Kind::Prepared | Kind::Committed | Kind::Aborted => {
                write!(f, "{letter} under {argument}")
            }
        }
    }
}

impl fmt::Display for Shown<StationSet> {
    fn fmt<W: fmt::Write>(&self, f: &mut fmt::Formatter<W>) -> fmt::Result {
        f.debug_set().entries(self.0).finish()
    }
}

impl fmt::Display for Shown<SubordinateEntry> {
    fn fmt<W: fmt::Write>(&self, f: &mut fmt::Formatter<W>) -> fmt::Result {
        match self.0 {
            SubordinateEntry::None => f.write_str("none"),
            SubordinateEntry::Active { coordinator } => write!(f, "Active under {coordinator}"),
            SubordinateEntry::Prepared { coordinator } => write!(f, "Prepared under {coordinator}"),
        }
    }
}

impl fmt::Display for Shown<CoordinatorEntry> {
    fn fmt<W: fmt::Write>(&self, f: &mut fmt::Formatter<W>) -> fmt::Result {
        match self.0 {
            CoordinatorEntry::None => f.write_str("none"),
            CoordinatorEntry::Open { set } => write!(f, "Open for {}", Shown(set)),
            CoordinatorEntry::Collecting { set, voters } => {
                let (set, voters) = (Shown(set), Shown(voters));
                write!(f, "Collecting from {set}, YES from {voters}")
            }
            CoordinatorEntry::Announcing { outcome, awaited } => {
                let (outcome, awaited) = (Shown(outcome), Shown(awaited));
                write!(f, "Announcing {outcome}, ACK awaited from {awaited}")
            }
        }
    }
}

// Where a revision is marked.
#[derive(Clone, Copy, Debug, PartialEq, Eq)]
struct Places(StationSet);

impl fmt::Display for Places {
    fn fmt<W: fmt::Write>(&self, f: &mut fmt::Formatter<W>) -> fmt::Result {
        if self.0.is_empty() {
            return f.write_str("nowhere");
        }
        write!(f, "at {}", Shown(self.0))
    }
}

impl fmt::Display for Fate {
    fn fmt<W: fmt::Write>(&self, f: &mut fmt::Formatter<W>) -> fmt::Result {
        let (installed, dropped) = (Places(self.installed), Places(self.dropped));
        write!(f, "installed {installed}, dropped {dropped}")
    }
}
