//! Lists of calls on a fresh run, and what holds after every such list.
#![tactic(auto)]

ghost use Rattle.std.specs.Prelude.{◌≡◌, true, IfOk};
ghost use Rattle.assurance.specs.Marked.{AllAsMarked};
ghost use Rattle.assurance.specs.Outcomes.{Sound, OneOutcome};
ghost use Rattle.assurance.specs.Played.{AllPerformed, new_run};
ghost use Rattle.run.specs.Runs.{seen, shown};
ghost use Rattle.run.specs.State.{fits};

pub mod calls;

use calls::{Call, Value, perform};
use journal::calls::Journal;
use presumption::Presumption;
use run::refusals::Refusal;
use run::run::Run;
use std::alloc::{AllocError, Global};

/// A run that was played, and what each call answered.
#[derive(Drop)]
pub struct Played<J, P> {
    pub run: Run<J, P>,
    pub answers: Vec<Result<Value, Refusal>>,
}

// Makes each call of a list, and keeps what it answers.
fn perform_all<J: Journal, P: Presumption>(
    heap: Global,
    run: &mut Run<J, P>,
    calls: &[Call],
) -> Result<Vec<Result<Value, Refusal>>, AllocError>
    ensures { IfOk result (λ xs. AllPerformed P.answers calls.now
        (shown J.meaning run.old) (shown J.meaning run.new) xs.items) }
{
    // Pushed one by one: the contract of collect does not say how it leaves a run that its closure borrows.
    let mut answers = Vec::new(heap);
    for call in calls {
        answers.push(perform(run, *call))?;
    }
    Ok(answers)
}

/// Makes a run over a journal and performs a list of calls on it. If the journal fits, the run that is left is sound;
/// the last two clauses say what holds of every run.
#[tactic(auto, using(crate::proofs::Holds::one_outcome, crate::proofs::Marked::all_as_marked))]
pub fn play<J: Journal + Drop, P: Presumption + Drop>(
    heap: Global,
    journal: J,
    presumption: P,
    calls: &[Call],
) -> Result<Played<J, P>, AllocError>
    ensures performed { IfOk result (λ x. AllPerformed P.answers calls.now (new_run presumption (J.meaning journal))
        (shown J.meaning x.run) x.answers.items) }
    ensures sound { IfOk result (λ x. fits (J.meaning journal) ≡ true → Sound (P.answers presumption) (seen J.meaning x.run)) }
    ensures outcome { OneOutcome }
    ensures marked { AllAsMarked }
{
    let mut run = Run::new(heap, journal, presumption)?;
    let answers = perform_all(heap, &mut run, calls)?;
    Ok(Played { run, answers })
}
