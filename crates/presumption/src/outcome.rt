//! The two outcomes of a revision, and how an abort may be logged.

/// What becomes of a revision, at every station alike.
#[derive(Clone, Copy, Debug, PartialEq, Eq)]
pub enum Outcome {
    Commit,
    Abort,
}

/// How a coordinator logs an abort.
#[derive(Clone, Copy, Debug, PartialEq, Eq)]
pub enum Logging {
    NotAtAll,
    Unforced,
    Forced,
}
