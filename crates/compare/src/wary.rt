//! A third presumption, which keeps the three laws and takes each road that the other two leave out: both outcomes are
//! acknowledged and forced, the vote is opened by a forced record though abort is presumed, and A is forced.
ghost use Rattle.compare.specs.Wary.{wary};
ghost use Rattle.std.proofs.Common.{rules};

use model::words::{
    AbortLogging, Handling, Outcome as ModelOutcome, Presumption as ModelPresumption,
};
use presumption::Presumption;
use presumption::outcome::{Logging, Outcome};

/// Nothing is taken for granted that a record can say.
#[derive(Clone, Copy, Debug, PartialEq, Eq)]
pub struct Wary;

impl Presumption for Wary {
    ghost answers = { λ _. wary };

    ghost lawful = { Prim.search rules };

    fn presumed(&self) -> Outcome {
        Outcome::Abort
    }

    fn opens(&self) -> bool {
        true
    }

    fn acknowledges(&self, _outcome: Outcome) -> bool {
        true
    }

    fn forces(&self, _outcome: Outcome) -> bool {
        true
    }

    fn abort_logging(&self) -> Logging {
        Logging::Forced
    }
}

/// Every outcome is acknowledged and forced.
const HANDLING: Handling = Handling {
    acknowledged: true,
    forced: true,
};

/// The same answers for the model.
pub const WARY_ANSWERS: ModelPresumption = ModelPresumption {
    presumed: ModelOutcome::Abort,
    opens: true,
    commit: HANDLING,
    abort: HANDLING,
    abort_logging: AbortLogging::Forced,
};
