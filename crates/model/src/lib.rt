//! A second model of the commit engine, written apart from it.
//!
//! Who reads what: this crate was written from docs/PROTOCOL.md, docs/JOURNALS.md and docs/REFUSALS.md and from nothing
//! else. It depends on no crate of the repository and shares no line, type or definition with the engine. The engine
//! is proved against definitions of its own; this crate is not, and its worth is that it was read off the documents a
//! second time, in another shape, so that a program can compare the two (crate `compare`).
//!
//! The shape: the records of all stations stand in one list in the order of writing, each with a stable flag
//! (`sections`); the entries of both kinds stand in one list of holdings, and none is a holding that is not there
//! (`whole`); the questions before a call are a list for each call (`asked`); a step is first made as a list of acts
//! (`steps`) and then carried out, as far as power lasts, by one loop (`whole`).
#![tactic(auto)]

mod asked;
pub mod layout;
pub mod sections;
pub mod sets;
mod steps;
pub mod whole;
pub mod words;
