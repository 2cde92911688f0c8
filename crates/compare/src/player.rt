//! Lists of calls, played on both sides at once.
use crate::dice::Dice;
use crate::drawing::Drawing;
use crate::seen::{Seen, Spot, Trouble};
use crate::styles::Style;
use crate::tally::{PLAIN, Tally};
use crate::views::agree_on_run;
use crate::wary::{WARY_ANSWERS, Wary};
use assurance::calls::{Call as EngineCall, perform};
use journal::calls::Journal;
use model::sections::Log;
use model::whole::Model;
use model::words::{Call, Outage, Presumption as ModelPresumption, Verb};
use presumption::Presumption;
use presumption::abort::PresumedAbort;
use presumption::commit::PresumedCommit;
use run::Fuse;
use run::run::Run;
use station::sets::StationSet;
use std::alloc::Global;

/// Which presumption a list is played under.
#[derive(Clone, Copy, PartialEq, Eq, Debug)]
pub enum Leaning {
    Abort,
    Commit,
    Wary,
}

/// What to play: calls drawn in a style, or a list as it stands.
#[derive(Clone, Copy, PartialEq, Eq, Debug)]
pub enum Plan {
    Drawn(Style, usize),
    Listed(&'static [Call]),
}

/// A plan, and the presumption that it is played under.
#[derive(Clone, Copy, PartialEq, Eq, Debug)]
pub struct Game {
    pub leaning: Leaning,
    pub plan: Plan,
}

impl Plan {
    // How many calls there are.
    fn calls(&self) -> usize {
        match self {
            Plan::Drawn(_, calls) => *calls,
            Plan::Listed(calls) => calls.len(),
        }
    }

    // The call at a turn.
    fn call(&self, turn: usize, dice: &mut Dice, model: &Model) -> Call {
        match self {
            Plan::Drawn(style, _) => Drawing { dice, style, model }.call(turn),
            Plan::Listed(calls) => calls.get(turn).copied().unwrap_or(PLAIN),
        }
    }
}

// A call as the engine takes it. A function, since no From can be written between types of two other crates.
fn engine_call(call: &Call) -> EngineCall {
    let Call {
        verb,
        revision,
        station,
        set,
        place,
        copy,
        outage: Outage { after, kept },
    } = *call;
    let set = StationSet::from(set);
    let fuse = Fuse { acts: after, kept };
    match verb {
        Verb::Open => EngineCall::Open {
            coordinator: station,
            set,
        },
        Verb::Close => EngineCall::Close { revision, fuse },
        Verb::GiveUp => EngineCall::GiveUp { revision, fuse },
        Verb::Reject => EngineCall::Reject {
            revision,
            station,
            fuse,
        },
        Verb::Chase => EngineCall::Chase { revision, fuse },
        Verb::Inquire => EngineCall::Inquire {
            revision,
            station,
            fuse,
        },
        Verb::Deliver => EngineCall::Deliver { place, copy, fuse },
        Verb::Lose => EngineCall::Lose { place },
        Verb::Cut => EngineCall::Cut { station, kept },
        Verb::Restart => EngineCall::Restart { station },
        Verb::Settle => EngineCall::Settle,
        Verb::Awaited => EngineCall::Awaited { revision },
    }
}

// Makes a call on both sides, and compares the answers and everything that can be seen.
fn make<J: Journal, P: Presumption>(
    run: &mut Run<J, P>,
    model: &mut Model,
    call: &Call,
) -> Result<Seen, Trouble> {
    let engine = Seen::from(perform(run, engine_call(call)));
    let answer = model.perform(call);
    let expected = Seen::of_model(answer.map(|answer| Seen::of_answer(answer, engine)))?;
    Spot::of("answer").agree(engine, expected)?;
    agree_on_run(run, model)?;
    Ok(engine)
}

/// Who plays: where memory comes from, the dice, and what was compared so far.
#[derive(Drop)]
pub struct Player {
    pub heap: Global,
    pub dice: Dice,
    pub tally: Tally,
}

impl Player {
    /// Nothing played yet.
    pub fn new(heap: Global, seed: u64) -> Player {
        Player {
            heap,
            dice: Dice::new(seed),
            tally: Tally::new(),
        }
    }

    /// Plays a game over a journal and the model's picture of it. Gives the model as it was left.
    pub fn play<J: Journal + Drop>(
        &mut self,
        journal: J,
        log: Log,
        game: Game,
    ) -> Result<Model, Trouble> {
        let plan = game.plan;
        match game.leaning {
            Leaning::Abort => self.play_under(
                PresumedAbort,
                ModelPresumption::ABORT,
                journal,
                log,
                plan,
            ),
            Leaning::Commit => {
                self.play_under(PresumedCommit, ModelPresumption::COMMIT, journal, log, plan)
            }
            Leaning::Wary => self.play_under(Wary, WARY_ANSWERS, journal, log, plan),
        }
    }

    // Plays a plan under a presumption, as each side has it, on a fresh run and on the model.
    fn play_under<J: Journal + Drop, P: Presumption + Drop>(
        &mut self,
        presumption: P,
        answers: ModelPresumption,
        journal: J,
        log: Log,
        plan: Plan,
    ) -> Result<Model, Trouble> {
        let mut run = Run::new(self.heap, journal, presumption)?;
        let mut model = Model::new(self.heap, answers, log);
        self.tally.begin();
        agree_on_run(&run, &model)?;
        // Turn by turn: what is drawn depends on the model as the last call left it.
        for turn in 0..plan.calls() {
            let call = plan.call(turn, &mut self.dice, &model);
            self.tally.note_call(&call);
            let dark = model.dark.size();
            let answer = make(&mut run, &mut model, &call)?;
            self.tally.note_answer(answer, dark, &model);
        }
        self.tally.end(&model);
        Ok(model)
    }
}
