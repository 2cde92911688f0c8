//! A journal over bytes that the caller lends.
#![tactic(auto)]

mod byte_journal;
mod changes;
mod examples;
mod layout;
mod opening;

pub use byte_journal::ByteJournal;
