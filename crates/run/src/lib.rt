//! A run: its calls, each with its questions and refusals, settling, and what a run shows.
#![tactic(auto)]

pub mod refusals;
pub mod run;

pub use actor::{Fuse, Row};
