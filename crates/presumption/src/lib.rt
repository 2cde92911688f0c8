//! Presumptions: what stations take for granted of a revision that nobody remembers.
#![tactic(auto)]

ghost use Rattle.std.specs.Prelude.{◌≡◌};
ghost use Rattle.presumption.specs.Answers.{Answers, Lawful};

pub mod abort;
pub mod commit;
pub mod outcome;

use outcome::{Logging, Outcome};

/// Five questions, to which a presumption always gives the same answers.
pub trait Presumption {
    ghost answers: { Self → Answers };

    /// Which outcome does a coordinator without an entry answer?
    fn presumed(&self) -> Outcome
        ensures { result ≡ (answers self.now).presumed };

    /// Is an opening record written and forced before the vote?
    fn opens(&self) -> bool
        ensures { result ≡ (answers self.now).opens };

    /// Do subordinates acknowledge the outcome?
    fn acknowledges(&self, outcome: Outcome) -> bool
        ensures { result ≡ (answers self.now).acknowledges outcome };

    /// Do subordinates force their record of the outcome?
    fn forces(&self, outcome: Outcome) -> bool
        ensures { result ≡ (answers self.now).forces outcome };

    /// How does the coordinator log an abort?
    fn abort_logging(&self) -> Logging
        ensures { result ≡ (answers self.now).abort_logging };

    ghost lawful: { (p : Self) → Lawful (answers p) };
}
