//! Hardening (Ansótegui, Bonet, Gabàs and Levy, 2012; Morgado, Heras and Marques-Silva, 2012). A model that costs U without
//! what is always paid bounds what any best model costs: no best model need make a label true that weighs at least U and is
//! false in the model found, so all these labels are made false together. What it leaves has the model found, so the bound
//! stays.
//!
//! A call asks one question. It costs one walk over the labels, and what the occurrence lists of those made false hold.
ghost use Rattle.std.specs.Prelude.{◌≡◌, ◌<◌, ℕ, [], IfOk, OnOk, sum_by, false};
ghost use Rattle.mp_logic.specs.Keeping.{charged};
ghost use Rattle.mp_logic.specs.Truth.{IsSatisfied};
ghost use Rattle.mp_logic.specs.Weights.{weight_bound};
ghost use Rattle.mp_clauses.specs.Slots.{live_clauses};
ghost use Rattle.mp_clauses.specs.Weighing.{costs_of};
ghost use Rattle.mp_store.specs.Held.{labelled_of, IsUntouched};
ghost use Rattle.mp_store.specs.Techniques.{IsRun, IsChange};
ghost use Rattle.t_probe.specs.Asking.{IsProbed};
ghost use Rattle.t_probe.specs.Oracles.{IsSound, MayAnswer};
ghost use Rattle.t_probe.specs.Hardening.{hardening, hardened_by, fixed_together, IsHardened, IsHardening, is_too_dear};
ghost use Rattle.t_probe.specs.declared.probed.ProbeEnding.TheVariants.{Bound};

use crate::changes::refute;
use crate::oracle::Oracle;
use crate::probed::{ProbeEnding, Probed};
use crate::questions::query_for;
use core_solver::{Query, Verdict};
use mp_logic::{Assignment, Clause, Cost, Costs, NoMemory, Weight, holds};
use mp_store::{Rewrite, Store};
use std::alloc::Global;

/// Asks for a model, and makes false all labels that it makes false and that weigh at least as much as it costs; `budget` is
/// how many clauses the oracle may learn. The bound is what the model costs without what is always paid. Finished exactly
/// where the hard clauses are refuted, Spent where the oracle cannot answer. Its one error is want of memory.
pub fn harden<F: Fn(Global, &Query) -> Result<Verdict, NoMemory>>(
    alloc: Global,
    store: &mut Store,
    oracle: &Oracle<F>,
    budget: u32,
) -> Result<Probed, NoMemory>
    requires unrefuted { store.old.refuted ≡ false }
    requires sound { IsSound F.pre F.post oracle.now }
    ensures run { IsRun hardening.LeavesAlone store.old store.new }
    ensures answer { IfOk result (λ p. IsProbed hardening (MayAnswer F.post oracle.now) budget store.old store.new p) }
    ensures bound { IfOk result (λ p. (u : ℕ) → p.ending ≡ Bound u → IsHardening u store.old store.new) }
{
    // what holds of each store makes the query valid
    let _ = store.vars();
    let begun = query_for(alloc, store, budget)?;
    let verdict = oracle.ask(alloc, &begun.query)?;
    match verdict {
        Verdict::Model(model) => {
            let bound = cost_of(&begun.costs, &model);
            let changed = make_false(alloc, store, &begun.costs, &model, bound)?;
            Ok(Probed {
                ending: ProbeEnding::Bound(bound),
                changed,
            })
        }
        Verdict::Core(_core) => {
            refute(alloc, store)?;
            Ok(Probed {
                ending: ProbeEnding::Finished,
                changed: true,
            })
        }
        Verdict::Unknown(learnt) => Ok(Probed {
            ending: ProbeEnding::Spent {
                query: begun.query,
                learnt,
            },
            changed: false,
        }),
    }
}

/// What the model pays.
fn cost_of(costs: &Costs, model: &Assignment) -> Weight
    requires { sum_by (λ p. p.weight) costs.now < weight_bound }
    ensures { result ≡ sum_by (charged model.now) costs.now }
{
    let mut total = 0;
    for cost in costs.items() {
        if holds(cost.lit, model) {
            total += cost.weight;
        }
    }
    total
}

/// The negations of the labels that are false and weigh at least so much.
fn too_dear(
    alloc: Global,
    costs: &Costs,
    model: &Assignment,
    bound: Weight,
) -> Result<Clause, NoMemory>
    ensures { IfOk result (λ made. made ≡ hardened_by model.now bound costs.now) }
{
    let mut made = Clause::new(alloc);
    for cost in costs.items() {
        if is_too_dear(cost, model, bound) {
            made.push(cost.lit.negated())?;
        }
    }
    Ok(made)
}

fn is_too_dear(cost: &Cost, model: &Assignment, bound: Weight) -> bool
    ensures { result ≡ is_too_dear model.now bound cost.now }
{
    !holds(cost.lit, model) && cost.weight >= bound
}

/// Makes the labels false that are too dear, together, and says whether there are any.
fn make_false(
    alloc: Global,
    store: &mut Store,
    costs: &Costs,
    model: &Assignment,
    bound: Weight,
) -> Result<bool, NoMemory>
    requires unrefuted { store.old.refuted ≡ false }
    requires costs { costs.now ≡ costs_of store.old.weights }
    requires model { IsSatisfied model.now (live_clauses store.old.slots) }
    requires bound { bound ≡ sum_by (charged model.now) costs.now }
    ensures run { IsRun hardening.LeavesAlone store.old store.new }
    ensures change { IfOk result (λ changed. IsChange changed store.old store.new) }
    ensures hardened { OnOk result (IsHardened bound (labelled_of store.new)) }
    ensures fixed { OnOk result (IsUntouched (fixed_together (hardened_by model.now bound costs.now) store.old) store.new) }
{
    // what holds of each store makes the literals fit for one rewrite
    let _ = store.vars();
    let lits = too_dear(alloc, costs, model, bound)?;
    if lits.items().is_empty() {
        return Ok(false);
    }
    let fixing = Rewrite::fixing(alloc, store, &lits)?;
    store.rewrite(fixing)?;
    Ok(true)
}
