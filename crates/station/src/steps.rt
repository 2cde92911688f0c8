//! The steps that a station's entries call for.
use crate::coordinator::KnownOutcome;
use crate::sets::StationSet;
use crate::subordinate::GivenVote;
use presumption::outcome::Outcome;

/// What a station has to do. The acts of each step are listed in the specification.
#[derive(Clone, Copy, Debug, PartialEq, Eq)]
pub enum Step {
    /// Nothing.
    Rest,
    /// Open the vote: PREPARE to the set.
    OpenVote {
        set: StationSet,
    },
    /// Become prepared and vote YES.
    Prepare {
        coordinator: u8,
        sender: u8,
    },
    /// Vote YES again.
    RepeatYes {
        vote: GivenVote,
        sender: u8,
    },
    /// Vote NO.
    VoteNo {
        sender: u8,
    },
    /// Decide commit and tell the set.
    DecideCommit {
        set: StationSet,
    },
    /// Decide abort for the set and tell some of it.
    DecideAbort {
        set: StationSet,
        told: StationSet,
    },
    /// Carry the outcome out at this station.
    Enforce {
        outcome: Outcome,
        coordinator: u8,
    },
    /// Acknowledge an outcome that was carried out before.
    Acknowledge {
        outcome: Outcome,
        sender: u8,
    },
    /// The last acknowledgement came: the coordinator may forget.
    End,
    /// Answer an inquiry.
    Tell {
        known: KnownOutcome,
        sender: u8,
    },
    /// Tell the outcome again to those that have not acknowledged it.
    Chase {
        known: KnownOutcome,
        awaited: StationSet,
    },
    /// Ask the coordinator for the outcome.
    Inquire {
        coordinator: u8,
    },
    /// Drop the revision before the vote.
    Reject {
        coordinator: u8,
    },
}
