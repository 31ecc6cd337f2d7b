ghost use Rattle.std.specs.Prelude.{◌≡◌, ◌+◌, ◌≤◌, ℕ, Some, false, IfOk, OnOk};
ghost use Rattle.mp_script.specs.Grammar.{IsStageInRange};
ghost use Rattle.mp_store.specs.Held.{labelled_of};
ghost use Rattle.t_probe.specs.Hardening.{IsHardened};
ghost use Rattle.t_probe.specs.Oracles.{IsSound};
ghost use Rattle.mp_engine.specs.Letters.{kind_of};
ghost use Rattle.mp_engine.specs.Rests.{AreRested};
ghost use Rattle.mp_engine.specs.Stages.{learning_budget};
ghost use Rattle.mp_engine.specs.Stores.{asked_ending_of, ending_of, HasStepped};

use crate::done::StageEnding;
use crate::rests::Rests;
use core_solver::{Query, Verdict};
use mp_logic::{NoMemory, Weight};
use mp_script::{Letter, Stage};
use mp_store::{Ending, Ran, Store};
use std::alloc::Global;
use t_amo::at_most_ones;
use t_blocked::blocked_again;
use t_elim::eliminate_again;
use t_equiv::equivalences;
use t_failed::{failed, pairs};
use t_labels::{covered, group_covered};
use t_matching::{binary_cores, matched};
use t_probe::{Oracle, ProbeEnding, Probed, harden, pair_cores, trim};
use t_subsume::{strengthen_again, subsume_again};
use t_units::units_again;

/// How a stage ended, and whether it changed anything.
#[derive(Clone, Copy, Debug)]
pub struct Step {
    pub ending: StageEnding,
    pub changed: bool,
}

/// What a technique that rewrites by turns answered.
fn turned(ran: Ran) -> Step
    ensures ending { result.ending ≡ ending_of ran.ending }
    ensures changed { result.changed ≡ ran.changed }
{
    let ending = match ran.ending {
        Ending::Finished => StageEnding::Finished,
        Ending::Spent => StageEnding::Spent,
        Ending::NoRoom => StageEnding::NoRoom,
    };
    Step {
        ending,
        changed: ran.changed,
    }
}

/// What a model costs that costs so much without the offset.
fn with_offset(cost: Weight, store: &Store) -> Weight
    requires { IsHardened cost (labelled_of store.now) }
    ensures { result ≡ (labelled_of store.now).offset + cost }
{
    // what holds of each store says that the offset with all weights is in range
    let _ = store.vars();
    store.offset() + cost
}

/// What a technique that asks a solver answered.
fn asked(probed: Probed, store: &Store) -> Step
    requires { (u : ℕ) → probed.ending ≡ ProbeEnding.Bound u → IsHardened u (labelled_of store.now) }
    ensures ending { result.ending ≡ asked_ending_of (labelled_of store.now).offset probed.ending }
    ensures changed { result.changed ≡ probed.changed }
{
    let ending = match probed.ending {
        ProbeEnding::Finished => StageEnding::Finished,
        ProbeEnding::Spent { .. } => StageEnding::Spent,
        ProbeEnding::Bound(cost) => StageEnding::Bound(with_offset(cost, store)),
    };
    Step {
        ending,
        changed: probed.changed,
    }
}

/// How many clauses a solver may learn for one question: 1,000 where the script gives no number.
fn learning_budget(budget: Option<u64>) -> u32
    requires { (n : ℕ) → budget ≡ Some n → n ≤ 1000000 }
    ensures { result ≡ learning_budget budget }
{
    match budget {
        Some(clauses) => clauses as u32,
        None => 1_000,
    }
}

/// Calls the technique of the stage's letter.
pub fn run_letter<F: Fn(Global, &Query) -> Result<Verdict, NoMemory>>(
    alloc: Global,
    store: &mut Store,
    stage: Stage,
    oracle: &Oracle<F>,
    rests: &mut Rests,
) -> Result<Step, NoMemory>
    requires oracle { IsSound F.pre F.post oracle.now }
    requires unrefuted { store.old.refuted ≡ false }
    requires budget { IsStageInRange stage }
    requires rested { AreRested rests.old store.old }
    ensures rested { OnOk result (AreRested rests.new store.new) }
    ensures step { IfOk result (λ step. HasStepped (kind_of stage.letter) stage.budget store.old store.new step.ending step.changed) }
{
    match stage.letter {
        Letter::U => Ok(turned(units_again(alloc, store, stage.budget, &mut rests.propagated)?)),
        Letter::F => Ok(turned(failed(alloc, store, stage.budget)?)),
        Letter::P => Ok(turned(pairs(alloc, store, stage.budget)?)),
        Letter::B => Ok(turned(blocked_again(alloc, store, stage.budget, &mut rests.blocked)?)),
        Letter::S => Ok(turned(subsume_again(alloc, store, stage.budget, &mut rests.subsumed)?)),
        Letter::R => Ok(turned(strengthen_again(
            alloc,
            store,
            stage.budget,
            &mut rests.strengthened,
        )?)),
        Letter::V => Ok(turned(eliminate_again(
            alloc,
            store,
            stage.budget,
            &mut rests.eliminated,
        )?)),
        Letter::E => Ok(turned(equivalences(alloc, store, stage.budget)?)),
        Letter::L => Ok(turned(covered(alloc, store, stage.budget)?)),
        Letter::Gr => Ok(turned(group_covered(alloc, store, stage.budget)?)),
        Letter::M => Ok(turned(matched(alloc, store, stage.budget)?)),
        Letter::C => Ok(turned(binary_cores(alloc, store, stage.budget)?)),
        Letter::Amo => Ok(turned(at_most_ones(alloc, store, stage.budget)?)),
        Letter::T => {
            let probed = trim(alloc, store, oracle, learning_budget(stage.budget))?;
            Ok(asked(probed, store))
        }
        Letter::K => {
            let probed = pair_cores(alloc, store, oracle, learning_budget(stage.budget))?;
            Ok(asked(probed, store))
        }
        Letter::H => {
            let probed = harden(alloc, store, oracle, learning_budget(stage.budget))?;
            Ok(asked(probed, store))
        }
    }
}
