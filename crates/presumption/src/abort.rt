//! Presumed abort.
ghost use Rattle.presumption.specs.Answers.{abort_presumed};
ghost use Rattle.std.proofs.Common.{rules};

use crate::Presumption;
use crate::outcome::{Logging, Outcome};

/// A revision that nobody remembers was aborted.
#[derive(Clone, Copy, Debug, PartialEq, Eq)]
pub struct PresumedAbort;

impl Presumption for PresumedAbort {
    ghost answers = { λ _. abort_presumed };

    ghost lawful = { Prim.search rules };

    fn presumed(&self) -> Outcome {
        Outcome::Abort
    }

    fn opens(&self) -> bool {
        false
    }

    fn acknowledges(&self, outcome: Outcome) -> bool {
        outcome == Outcome::Commit
    }

    // What is acknowledged is forced, and nothing else.
    // No default of the trait, which would have to hold of every presumption.
    fn forces(&self, outcome: Outcome) -> bool {
        self.acknowledges(outcome)
    }

    fn abort_logging(&self) -> Logging {
        Logging::Unforced
    }
}
