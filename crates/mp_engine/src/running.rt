ghost use Rattle.std.specs.Prelude.{◌≡◌, ◌≤◌, All, IfOk, if◌then◌else◌};
ghost use Rattle.mp_logic.specs.Keeping.{Keeps};
ghost use Rattle.mp_logic.specs.Labelled.{IsProper};
ghost use Rattle.mp_store.specs.Held.{labelled_of};
ghost use Rattle.mp_clauses.specs.Slots.{has_empty};
ghost use Rattle.t_probe.specs.Oracles.{IsSound};
ghost use Rattle.mp_engine.specs.Runs.{IsDone};
ghost use Rattle.mp_engine.specs.Stores.{CanRun};
ghost use Rattle.mp_engine.specs.declared.done.Close.TheVariants.{Refuted};

use crate::done::{Close, Done, StageLines};
use crate::groups::run_group;
use crate::rests::Rests;
use core_solver::{Query, Verdict};
use mp_labels::Labelled;
use mp_logic::{Copied, Limits, ListOf, NoMemory};
use mp_script::Script;
use mp_store::Store;
use std::alloc::Global;
use t_probe::Oracle;

/// Runs a script on a labelled state: what is left of it, the repairs that bring models back, and what each stage did. The
/// state may have at most `limits.inner` variables. The budgets and numbers of rounds of the script are in their ranges, as
/// those of a script that `parse` answers are. Trimming, pair cores and hardening put their questions to the oracle. Its one
/// error is want of memory.
pub fn run<F: Fn(Global, &Query) -> Result<Verdict, NoMemory>>(
    alloc: Global,
    labelled: &Labelled,
    limits: &Limits,
    script: &Script,
    oracle: &Oracle<F>,
) -> Result<Done, NoMemory>
    requires oracle { IsSound F.pre F.post oracle.now }
    requires room { labelled.now.vars ≤ limits.now.inner }
    requires script { CanRun script.now }
    ensures run { IfOk result (λ done. IsDone limits.now.inner script.now labelled.now done) }
    ensures keeps { IfOk result (λ done. Keeps labelled.now done.labelled done.repairs) }
    ensures vars { IfOk result (λ done. done.labelled.vars ≤ limits.now.inner) }
    ensures proper { IfOk result (λ done. All (IsProper done.labelled.vars) done.repairs) }
{
    run_from_labelled(alloc, labelled.copy(alloc)?, limits, script, oracle)
}

/// The same; it lets go of the state as it takes it in.
pub fn run_from_labelled<F: Fn(Global, &Query) -> Result<Verdict, NoMemory>>(
    alloc: Global,
    labelled: Labelled,
    limits: &Limits,
    script: &Script,
    oracle: &Oracle<F>,
) -> Result<Done, NoMemory>
    requires oracle { IsSound F.pre F.post oracle.now }
    requires room { labelled.vars ≤ limits.now.inner }
    requires script { CanRun script.now }
    ensures run { IfOk result (λ done. IsDone limits.now.inner script.now labelled done) }
    ensures keeps { IfOk result (λ done. Keeps labelled done.labelled done.repairs) }
    ensures vars { IfOk result (λ done. done.labelled.vars ≤ limits.now.inner) }
    ensures proper { IfOk result (λ done. All (IsProper done.labelled.vars) done.repairs) }
{
    // what holds of each labelled state begins the chain of what the run keeps
    let _vars = labelled.vars;
    let mut store = Store::from_labelled(alloc, labelled, limits)?;
    let mut rests = Rests::new(alloc);
    let mut lines = ListOf::new(alloc);
    let mut close = Close::Single;
    for group in script.items() {
        close = run_group(alloc, &mut store, group, oracle, &mut rests, &mut lines)?;
    }
    finish(alloc, store, lines, close)
}

/// What the store holds at the end.
fn finish(alloc: Global, store: Store, stages: StageLines, close: Close) -> Result<Done, NoMemory>
    ensures labelled { IfOk result (λ done. done.labelled ≡ labelled_of store) }
    ensures repairs { IfOk result (λ done. done.repairs ≡ store.repairs) }
    ensures stages { IfOk result (λ done. done.stages ≡ stages) }
    ensures vars { IfOk result (λ done. done.labelled.vars ≤ store.inner) }
    ensures proper { IfOk result (λ done. All (IsProper done.labelled.vars) done.repairs) }
    ensures close { IfOk result (λ done. done.close ≡ (if has_empty (labelled_of store).hard then Refuted else close)) }
{
    let refuted = store.refuted();
    let (labelled, repairs) = store.into_labelled(alloc)?;
    Ok(Done {
        labelled,
        repairs,
        stages,
        close: if refuted { Close::Refuted } else { close },
    })
}
