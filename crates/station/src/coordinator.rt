//! The coordinator's entry for one revision, and its machine.
ghost use Rattle.std.specs.Prelude.{◌≡◌};
ghost use Rattle.station.specs.Coordinator.{coordinator_move, close_move, give_up_move, chase_move, announcing, aborting, outcome_of, unheard};
ghost use Rattle.station.specs.Moves.{Makes, MakesAllowed, allowed_step};

use crate::messages::MessageKind;
use crate::sets::StationSet;
use crate::steps::Step;
use presumption::Presumption;
use presumption::outcome::Outcome;

/// What a coordinator remembers of a revision.
#[derive(Clone, Copy, Debug, PartialEq, Eq)]
pub enum CoordinatorEntry {
    /// Nothing. No Option around the entry: the machine matches it beside the message and changes it in place.
    None,
    Open {
        set: StationSet,
    },
    Collecting {
        set: StationSet,
        voters: StationSet,
    },
    Announcing {
        outcome: Outcome,
        awaited: StationSet,
    },
}

/// An outcome that is decided already, or presumed: only this module makes one, from an entry that says so.
#[derive(Clone, Copy, Debug, PartialEq, Eq)]
pub struct KnownOutcome {
    outcome: Outcome,
}

impl KnownOutcome {
    /// Which outcome it is.
    pub fn outcome(self) -> Outcome
        ensures { result ≡ outcome_of self }
    {
        self.outcome
    }
}

// The entry after a decision: awaiting acknowledgements, if the outcome is acknowledged.
pub(crate) fn announcing_to<P: Presumption>(
    presumption: &P,
    outcome: Outcome,
    awaited: StationSet,
) -> CoordinatorEntry
    ensures { result ≡ announcing (P.answers presumption.now) outcome awaited }
{
    if presumption.acknowledges(outcome) {
        CoordinatorEntry::Announcing { outcome, awaited }
    } else {
        CoordinatorEntry::None
    }
}

// The entry after an abort is decided and some are told.
fn aborting<P: Presumption>(presumption: &P, told: StationSet) -> CoordinatorEntry
    ensures { result ≡ aborting (P.answers presumption.now) told }
{
    if told.is_empty() {
        CoordinatorEntry::None
    } else {
        announcing_to(presumption, Outcome::Abort, told)
    }
}

impl CoordinatorEntry {
    /// A message came: changes the entry and answers the step that is due.
    pub fn hear<P: Presumption>(&mut self, presumption: &P, kind: MessageKind, sender: u8) -> Step
        ensures { Makes (coordinator_move (P.answers presumption.now) self.old kind sender) result self.new }
    {
        match (&mut *self, kind) {
            (CoordinatorEntry::Collecting { set, voters }, MessageKind::Yes)
                if set.contains(sender) => {
                *voters = voters.insert(sender);
                if *voters != *set {
                    return Step::Rest;
                }
                let set = *set;
                *self = announcing_to(presumption, Outcome::Commit, set);
                Step::DecideCommit { set }
            }
            (CoordinatorEntry::Collecting { set, .. }, MessageKind::No) if set.contains(sender) => {
                let set = *set;
                let told = set.remove(sender);
                *self = aborting(presumption, told);
                Step::DecideAbort { set, told }
            }
            (CoordinatorEntry::Announcing { awaited, .. }, MessageKind::Ack)
                if awaited.contains(sender) => {
                *awaited = awaited.remove(sender);
                if !awaited.is_empty() {
                    return Step::Rest;
                }
                *self = CoordinatorEntry::None;
                Step::End
            }
            (CoordinatorEntry::Announcing { outcome, .. }, MessageKind::Inquiry) => {
                let known = KnownOutcome { outcome: *outcome };
                Step::Tell { known, sender }
            }
            (CoordinatorEntry::None, MessageKind::Inquiry) => {
                let known = KnownOutcome {
                    outcome: presumption.presumed(),
                };
                Step::Tell { known, sender }
            }
            _ => Step::Rest,
        }
    }

    /// The vote is to be opened: none, where the entry does not allow it.
    pub fn close(&mut self) -> Option<Step>
        ensures { MakesAllowed (close_move self.old) self.old result self.new }
    {
        match *self {
            CoordinatorEntry::Open { set } => {
                let voters = StationSet::default();
                *self = CoordinatorEntry::Collecting { set, voters };
                Some(Step::OpenVote { set })
            }
            _ => None,
        }
    }

    /// The revision is to be given up: none, where the entry does not allow it.
    pub fn give_up<P: Presumption>(&mut self, presumption: &P) -> Option<Step>
        ensures { MakesAllowed (give_up_move (P.answers presumption.now) self.old) self.old result self.new }
    {
        match *self {
            CoordinatorEntry::Open { set } | CoordinatorEntry::Collecting { set, .. } => {
                *self = aborting(presumption, set);
                Some(Step::DecideAbort { set, told: set })
            }
            _ => None,
        }
    }

    /// The outcome is to be told again: none, where the entry does not allow it.
    pub fn chase(&self) -> Option<Step>
        ensures { result ≡ allowed_step (chase_move self.now) }
    {
        match *self {
            CoordinatorEntry::Announcing { outcome, awaited } => {
                let known = KnownOutcome { outcome };
                Some(Step::Chase { known, awaited })
            }
            _ => None,
        }
    }

    /// The stations that have not been heard from: those that have not voted YES, or have not acknowledged.
    pub fn unheard(self) -> StationSet
        ensures { result ≡ unheard self }
    {
        match self {
            CoordinatorEntry::Collecting { set, voters } => set.difference(voters),
            CoordinatorEntry::Announcing { awaited, .. } => awaited,
            CoordinatorEntry::None | CoordinatorEntry::Open { .. } => StationSet::default(),
        }
    }
}
