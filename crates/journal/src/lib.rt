//! Records, their bytes, and the journals that keep them.
#![tactic(auto)]

pub mod calls;
pub mod records;
pub mod refusals;
pub mod table;

pub use calls::Journal;
pub use records::{Kind, Record, decode};
pub use refusals::Refusal;
pub use table::Table;

/// A journal serves at most so many stations.
pub const MAX_STATIONS: u8 = 8;
