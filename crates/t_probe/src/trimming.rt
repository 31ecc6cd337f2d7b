//! Trimming, after TrimMaxSAT (Paxian, Raiola and Becker, 2021). A label that no model makes false is paid for in each of
//! them, so it is made true and its weight is paid for good. For each label an oracle is asked for a model that makes it
//! false; each model found spares the questions about all other labels that it makes false, so that mostly a few models
//! answer for nearly all labels. No model is lost and no cost changes.
//!
//! The hard clauses of the query are made once a call and kept up. A label costs a question, and where the answer is a core
//! what its literal's two occurrence lists hold.
ghost use Rattle.std.specs.Prelude.{◌≡◌, ◌≢◌, [], ◌∷◌, IfOk, OnOk, MatchBool, false};
ghost use Rattle.mp_clauses.specs.Weighing.{weight_in};
ghost use Rattle.mp_store.specs.Techniques.{IsRun};
ghost use Rattle.t_probe.specs.Asking.{IsProbed};
ghost use Rattle.t_probe.specs.Oracles.{IsSound, MayAnswer};
ghost use Rattle.t_probe.specs.Trimming.{trimming};
ghost use Rattle.t_probe.specs.Underway.{IsAbout, IsTrimTurn, IsTrimStep};
ghost use Rattle.mp_logic.specs.Sets.{Implies};
ghost use Rattle.mp_clauses.specs.Slots.{live_clauses};

use crate::changes::{fix, refute};
use crate::oracle::Oracle;
use crate::probed::{ProbeEnding, Probed};
use crate::questions::{
    Asked, assume_false, hard_of, keep_true, labels_of, query_for, take_last, turned,
};
use core_solver::{Query, Verdict};
use mp_logic::{Clause, Lit, NoMemory};
use mp_store::Store;
use std::alloc::Global;

/// Makes each label true that no model makes false, in order; `budget` is how many clauses the oracle may learn for one
/// question. Finished where each label left is false in some model, or the hard clauses are refuted, Spent at the first
/// question that the oracle cannot answer. Its one error is want of memory.
pub fn trim<F: Fn(Global, &Query) -> Result<Verdict, NoMemory>>(
    alloc: Global,
    store: &mut Store,
    oracle: &Oracle<F>,
    budget: u32,
) -> Result<Probed, NoMemory>
    requires unrefuted { store.old.refuted ≡ false }
    requires sound { IsSound F.pre F.post oracle.now }
    ensures run { IsRun trimming.LeavesAlone store.old store.new }
    ensures answer { IfOk result (λ p. IsProbed trimming (MayAnswer F.post oracle.now) budget store.old store.new p) }
{
    // what holds of each store
    let _ = store.vars();
    let begun = query_for(alloc, store, budget)?;
    let labels = labels_of(alloc, &begun.costs)?;
    let mut waiting = turned(alloc, &labels)?;
    let mut query = begun.query;
    let mut changed = false;
    'labels: while let Some(lit) = take_last(&mut waiting) {
        if !is_label(store, lit) {
            continue;
        }
        let asked = trim_label(alloc, store, oracle, &mut query, lit)?;
        match asked {
            Asked::Found(model) => keep_true(&mut waiting, &model),
            Asked::Changed => {
                changed = true;
                if store.refuted() {
                    return Ok(Probed {
                        ending: ProbeEnding::Finished,
                        changed,
                    });
                }
            }
            Asked::Unknown(learnt) => {
                return Ok(Probed {
                    ending: ProbeEnding::Spent { query, learnt },
                    changed,
                });
            }
        }
    }
    Ok(Probed {
        ending: ProbeEnding::Finished,
        changed,
    })
}

/// Whether the literal costs; one that was paid for no longer does.
fn is_label(store: &Store, lit: Lit) -> bool
    ensures { MatchBool result (weight_in store.now.weights lit ≢ 0) (weight_in store.now.weights lit ≡ 0) }
{
    store.weight(lit) != 0
}

/// Asks whether a label can be false, and makes it true where it can't.
fn trim_label<F: Fn(Global, &Query) -> Result<Verdict, NoMemory>>(
    alloc: Global,
    store: &mut Store,
    oracle: &Oracle<F>,
    query: &mut Query,
    lit: Lit,
) -> Result<Asked, NoMemory>
    requires unrefuted { store.old.refuted ≡ false }
    requires sound { IsSound F.pre F.post oracle.now }
    requires about { IsAbout store.old query.old }
    requires label { weight_in store.old.weights lit ≢ 0 }
    ensures run { IsRun trimming.LeavesAlone store.old store.new }
    ensures turned { IfOk result (λ asked. IsTrimTurn (MayAnswer F.post oracle.now) lit store.old store.new query.new asked) }
    ensures budget { query.new.budget ≡ query.old.budget }
{
    // what holds of each store puts the literal within its variables
    let _ = store.vars();
    assume_false(query, &[lit])?;
    let verdict = oracle.ask(alloc, query)?;
    match verdict {
        Verdict::Model(model) => Ok(Asked::Found(model)),
        Verdict::Core(core) => {
            pay(alloc, store, query, lit, &core)?;
            Ok(Asked::Changed)
        }
        Verdict::Unknown(learnt) => Ok(Asked::Unknown(learnt)),
    }
}

/// Pays for a label that no model makes false; an empty core refutes the store.
fn pay(
    alloc: Global,
    store: &mut Store,
    query: &mut Query,
    lit: Lit,
    core: &Clause,
) -> Result<(), NoMemory>
    requires unrefuted { store.old.refuted ≡ false }
    requires label { weight_in store.old.weights lit ≢ 0 }
    requires about { IsAbout store.old query.old }
    requires implied { Implies (live_clauses store.old.slots) (lit ∷ []) }
    requires core { core.now ≡ [] → Implies (live_clauses store.old.slots) [] }
    ensures run { IsRun trimming.LeavesAlone store.old store.new }
    ensures step { OnOk result (IsTrimStep lit store.old store.new) }
    ensures about { OnOk result (store.new.refuted ≡ false → IsAbout store.new query.new) }
    ensures budget { query.new.budget ≡ query.old.budget }
{
    let _ = store.vars();
    if core.items().is_empty() {
        refute(alloc, store)?;
        return Ok(());
    }
    fix(alloc, store, lit)?;
    let hard = hard_of(alloc, store)?;
    query.hard = hard;
    Ok(())
}
