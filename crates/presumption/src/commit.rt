//! Presumed commit.
ghost use Rattle.presumption.specs.Answers.{commit_presumed};
ghost use Rattle.std.proofs.Common.{rules};

use crate::Presumption;
use crate::outcome::{Logging, Outcome};

/// A revision that nobody remembers was committed.
#[derive(Clone, Copy, Debug, PartialEq, Eq)]
pub struct PresumedCommit;

impl Presumption for PresumedCommit {
    ghost answers = { λ _. commit_presumed };

    ghost lawful = { Prim.search rules };

    fn presumed(&self) -> Outcome {
        Outcome::Commit
    }

    fn opens(&self) -> bool {
        true
    }

    fn acknowledges(&self, outcome: Outcome) -> bool {
        outcome == Outcome::Abort
    }

    // What is acknowledged is forced, and nothing else.
    // No default of the trait, which would have to hold of every presumption.
    fn forces(&self, outcome: Outcome) -> bool {
        self.acknowledges(outcome)
    }

    fn abort_logging(&self) -> Logging {
        Logging::NotAtAll
    }
}
