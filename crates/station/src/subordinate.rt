//! The subordinate's entry for one revision, and its machine.
ghost use Rattle.std.specs.Prelude.{◌≡◌};
ghost use Rattle.station.specs.Moves.{Makes, MakesAllowed, allowed_step};
ghost use Rattle.station.specs.Subordinate.{subordinate_move, reject_move, inquire_move};

use crate::messages::MessageKind;
use crate::steps::Step;
use presumption::outcome::Outcome;

/// What a subordinate remembers of a revision. Prepared means in doubt.
#[derive(Clone, Copy, Debug, PartialEq, Eq)]
pub enum SubordinateEntry {
    /// Nothing. No Option around the entry: the machine matches it beside the message and changes it in place.
    None,
    Active { coordinator: u8 },
    Prepared { coordinator: u8 },
}

/// A vote that was given already: only this module makes one, from an entry that is Prepared.
/// Its coordinator is never read: YES goes to whoever asked again.
#[derive(Clone, Copy, Debug, PartialEq, Eq)]
pub struct GivenVote {
    coordinator: u8,
}

impl SubordinateEntry {
    /// A message came: changes the entry and answers the step that is due.
    pub fn hear(&mut self, kind: MessageKind, sender: u8) -> Step
        ensures { Makes (subordinate_move self.old kind sender) result self.new }
    {
        // Each pair of entry and message has an arm of its own, also where two arms differ in the outcome alone.
        match (*self, kind) {
            (SubordinateEntry::Active { coordinator }, MessageKind::Prepare) => {
                *self = SubordinateEntry::Prepared { coordinator };
                Step::Prepare {
                    coordinator,
                    sender,
                }
            }
            (SubordinateEntry::Prepared { coordinator }, MessageKind::Prepare) => {
                let vote = GivenVote { coordinator };
                Step::RepeatYes { vote, sender }
            }
            (SubordinateEntry::None, MessageKind::Prepare) => Step::VoteNo { sender },
            (SubordinateEntry::Prepared { coordinator }, MessageKind::Commit) => {
                *self = SubordinateEntry::None;
                Step::Enforce {
                    outcome: Outcome::Commit,
                    coordinator,
                }
            }
            (
                SubordinateEntry::Active { coordinator }
                | SubordinateEntry::Prepared { coordinator },
                MessageKind::Abort,
            ) => {
                *self = SubordinateEntry::None;
                Step::Enforce {
                    outcome: Outcome::Abort,
                    coordinator,
                }
            }
            (SubordinateEntry::None, MessageKind::Commit) => Step::Acknowledge {
                outcome: Outcome::Commit,
                sender,
            },
            (SubordinateEntry::None, MessageKind::Abort) => Step::Acknowledge {
                outcome: Outcome::Abort,
                sender,
            },
            _ => Step::Rest,
        }
    }

    /// The revision is to be dropped before the vote: none, where the entry does not allow it.
    pub fn reject(&mut self) -> Option<Step>
        ensures { MakesAllowed (reject_move self.old) self.old result self.new }
    {
        match *self {
            SubordinateEntry::Active { coordinator } => {
                *self = SubordinateEntry::None;
                Some(Step::Reject { coordinator })
            }
            _ => None,
        }
    }

    /// The coordinator is to be asked for the outcome: none, where the entry does not allow it.
    pub fn inquire(&self) -> Option<Step>
        ensures { result ≡ allowed_step (inquire_move self.now) }
    {
        match *self {
            SubordinateEntry::Prepared { coordinator } => Some(Step::Inquire { coordinator }),
            _ => None,
        }
    }
}
