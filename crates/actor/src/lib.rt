//! The station that acts: the journals, the post and the as-run log, and the steps that change them.
//! Debts and receipts are made and spent in this crate alone.
#![tactic(auto)]

mod actor;
mod acts;
mod fuse;
mod log;
mod perform;
mod post;

pub use actor::Actor;
pub use fuse::{Fuse, PowerCut};
pub use log::Row;
pub use station::MAX_REVISIONS;
