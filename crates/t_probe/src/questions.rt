//! The query of a call, which is made once and kept up as the store changes, and the labels that still wait for an answer.
ghost use Rattle.std.specs.Prelude.{◌≡◌, ◌++◌, ◌∷◌, [], IfOk, OnOk, MatchOption, map};
ghost use Rattle.std.specs.List.{filter};
ghost use Rattle.mp_logic.specs.Literal.{negation};
ghost use Rattle.mp_logic.specs.Truth.{literal_value};
ghost use Rattle.mp_logic.specs.Sets.{Among};
ghost use Rattle.mp_clauses.specs.Slots.{live_clauses};
ghost use Rattle.mp_clauses.specs.Weighing.{costs_of};
ghost use Rattle.t_probe.specs.Underway.{IsAbout, literals_of};

use core_solver::Query;
use mp_labels::Labelled;
use mp_logic::{Assignment, Clause, Clauses, Costs, Lit, NoMemory, holds};
use mp_store::Store;
use std::alloc::Global;

/// A query about a store that assumes nothing, and the store's costs.
#[derive(Drop)]
pub struct Questions {
    pub query: Query,
    pub costs: Costs,
}

/// What a question came to: a model that answers it, a change of the store, or no answer within the budget.
#[derive(Drop)]
pub enum Asked {
    Found(Assignment),
    Changed,
    Unknown(Clauses),
}

/// Makes the query of a call, and lists the costs in order.
pub fn query_for(alloc: Global, store: &Store, budget: u32) -> Result<Questions, NoMemory>
    ensures about { IfOk result (λ made. IsAbout store.now made.query) }
    ensures given { IfOk result (λ made. made.query.budget ≡ budget) }
    ensures none { IfOk result (λ made. made.query.assumptions ≡ []) }
    ensures costs { IfOk result (λ made. made.costs ≡ costs_of store.now.weights) }
{
    let Labelled {
        vars,
        hard,
        costs,
        ..
    } = store.labelled(alloc)?;
    let query = Query {
        vars,
        hard,
        assumptions: Clause::new(alloc),
        budget,
    };
    Ok(Questions { query, costs })
}

/// The hard clauses, in order of id.
pub fn hard_of(alloc: Global, store: &Store) -> Result<Clauses, NoMemory>
    ensures { IfOk result (λ made. made ≡ live_clauses store.now.slots) }
{
    let Labelled { hard, .. } = store.labelled(alloc)?;
    Ok(hard)
}

/// Assumes that the literals are false, and nothing else.
pub fn assume_false(query: &mut Query, lits: &[Lit]) -> Result<(), NoMemory>
    ensures vars { query.new.vars ≡ query.old.vars }
    ensures hard { query.new.hard ≡ query.old.hard }
    ensures budget { query.new.budget ≡ query.old.budget }
    ensures ok { OnOk result (query.new.assumptions ≡ map negation lits.now) }
{
    query.assumptions.cut(0);
    for lit in lits {
        query.assumptions.push(lit.negated())?;
    }
    Ok(())
}

/// The literals of costs, in their order.
pub fn labels_of(alloc: Global, costs: &Costs) -> Result<Vec<Lit>, NoMemory>
    ensures { IfOk result (λ made. made.items ≡ literals_of costs.now) }
{
    let mut made = Vec::with_capacity(alloc, costs.len())?;
    for cost in costs.items() {
        made.push(cost.lit)?;
    }
    Ok(made)
}

/// The literals in the opposite order: the first one is taken first, from the end.
pub fn turned(alloc: Global, lits: &[Lit]) -> Result<Vec<Lit>, NoMemory>
    ensures from { IfOk result (λ made. Among made.items lits.now) }
    ensures all { IfOk result (λ made. Among lits.now made.items) }
{
    let mut made = Vec::from_slice(alloc, lits)?;
    made.reverse();
    Ok(made)
}

/// Takes the literal that waits last.
pub fn take_last(waiting: &mut Vec<Lit>) -> Option<Lit>
    ensures { MatchOption result (waiting.old.items ≡ []) (λ l. waiting.old.items ≡ waiting.new.items ++ l ∷ []) }
{
    waiting.pop()
}

/// Keeps those of the literals that are true.
pub fn keep_true(lits: &mut Vec<Lit>, model: &Assignment)
    ensures { lits.new.items ≡ filter (literal_value model.now) lits.old.items }
{
    lits.retain(|lit| holds(*lit, model));
}
