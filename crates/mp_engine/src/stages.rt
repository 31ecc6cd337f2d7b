ghost use Rattle.std.specs.Prelude.{◌≡◌, ◌++◌, ◌∷◌, [], false, IfOk, OnOk};
ghost use Rattle.mp_store.specs.Held.{labelled_of};
ghost use Rattle.mp_script.specs.Grammar.{IsStageInRange};
ghost use Rattle.t_probe.specs.Oracles.{IsSound};
ghost use Rattle.mp_engine.specs.Rests.{AreRested};
ghost use Rattle.mp_engine.specs.Stages.{counts_of};
ghost use Rattle.mp_engine.specs.Stores.{RunsStage};

use crate::done::{StageLine, StageLines};
use crate::letters::{Step, run_letter};
use crate::rests::Rests;
use core_solver::{Query, Verdict};
use mp_logic::NoMemory;
use mp_script::Stage;
use mp_store::Store;
use std::alloc::Global;
use t_probe::Oracle;

/// Runs one stage, and puts its line last.
pub fn run_stage<F: Fn(Global, &Query) -> Result<Verdict, NoMemory>>(
    alloc: Global,
    store: &mut Store,
    stage: Stage,
    oracle: &Oracle<F>,
    rests: &mut Rests,
    lines: &mut StageLines,
) -> Result<Step, NoMemory>
    requires oracle { IsSound F.pre F.post oracle.now }
    requires unrefuted { store.old.refuted ≡ false }
    requires budget { IsStageInRange stage }
    requires rested { AreRested rests.old store.old }
    ensures rested { OnOk result (AreRested rests.new store.new) }
    ensures step { IfOk result (λ step. RunsStage stage store.old store.new step.ending step.changed) }
    ensures line { IfOk result (λ step. lines.new ≡ lines.old ++ record { letter = stage.letter; ending = step.ending; counts = counts_of (labelled_of store.new) } ∷ []) }
{
    // what holds of each store says that an empty clause refutes it
    let _ = store.vars();
    let step = run_letter(alloc, store, stage, oracle, rests)?;
    let _ = store.vars();
    let counts = store.counts();
    lines.push(StageLine {
        letter: stage.letter,
        ending: step.ending,
        counts,
    })?;
    Ok(step)
}
