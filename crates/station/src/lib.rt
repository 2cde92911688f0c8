//! One station's rules: sets of stations, messages, entries, the steps that they call for, and recovery.
#![tactic(auto)]

pub mod coordinator;
pub mod messages;
pub mod recovery;
pub mod sets;
pub mod steps;
pub mod subordinate;

/// The most revisions that a run can open.
pub const MAX_REVISIONS: u16 = 32;
