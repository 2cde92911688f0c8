//! What stations post to each other.
ghost use Rattle.std.specs.Prelude.{◌≡◌};
ghost use Rattle.station.specs.Acts.{telling};
ghost use Rattle.station.specs.Messages.{for_subordinate};

use presumption::outcome::Outcome;

/// The kinds of message: four to subordinates or from them about the vote, three about the outcome.
#[derive(Clone, Copy, Debug, PartialEq, Eq)]
pub enum MessageKind {
    Prepare,
    Yes,
    No,
    Commit,
    Abort,
    Ack,
    Inquiry,
}

/// One message about one revision.
#[derive(Clone, Copy, Debug, PartialEq, Eq)]
pub struct Message {
    pub kind: MessageKind,
    pub revision: u16,
    pub sender: u8,
    pub receiver: u8,
}

/// The message that tells an outcome.
impl From<Outcome> for MessageKind {
    ghost from_gives = { λ o k. k ≡ telling o };

    fn from(outcome: Outcome) -> MessageKind {
        match outcome {
            Outcome::Commit => MessageKind::Commit,
            Outcome::Abort => MessageKind::Abort,
        }
    }
}

impl MessageKind {
    /// Does a subordinate hear it, and not the coordinator?
    pub fn is_for_subordinate(self) -> bool
        ensures { result ≡ for_subordinate self }
    {
        match self {
            MessageKind::Prepare | MessageKind::Commit | MessageKind::Abort => true,
            MessageKind::Yes | MessageKind::No | MessageKind::Ack | MessageKind::Inquiry => false,
        }
    }
}
