//! Verdicts checked by evaluation.

use core_solver::{Query, Verdict};
use mp_logic::{Assignment, Clause, Clauses, ListOf, Lit, NoMemory, holds, satisfies};
use std::alloc::Global;

// With more variables, not all assignments are tried.
const FEW: u32 = 10;

/// Whether a model has as many values as there are variables, and makes clauses and assumptions true; whether a core has
/// assumptions alone, and no model makes them all true; whether as many clauses were learnt as the budget allows, each true in
/// every model. What speaks of all models is looked at where there are few variables.
pub fn is_right(alloc: Global, query: &Query, verdict: &Verdict) -> Result<bool, NoMemory> {
    match verdict {
        Verdict::Model(a) => Ok(
            a.len() == query.vars as usize && is_model(query, &query.assumptions, a),
        ),
        Verdict::Core(core) => Ok(
            is_among(core, &query.assumptions) && !has_model(alloc, query, core)?,
        ),
        Verdict::Unknown(learnt) => Ok(
            learnt.len() == query.budget as usize && are_implied(alloc, query, learnt)?,
        ),
    }
}

fn is_model(query: &Query, lits: &Clause, a: &Assignment) -> bool {
    query.hard.items().iter().all(|clause| satisfies(clause, a))
        && lits.items().iter().all(|lit| holds(*lit, a))
}

fn is_among(core: &Clause, assumptions: &Clause) -> bool {
    core.items()
        .iter()
        .all(|lit| assumptions.items().contains(lit))
}

fn are_implied(alloc: Global, query: &Query, clauses: &Clauses) -> Result<bool, NoMemory> {
    for clause in clauses.items() {
        let mut negations = Clause::new(alloc);
        for lit in clause.items() {
            negations.push(lit.negated())?;
        }
        if has_model(alloc, query, &negations)? {
            return Ok(false);
        }
    }
    Ok(true)
}

/// Whether some model makes the literals true, as far as that is looked at.
fn has_model(alloc: Global, query: &Query, lits: &Clause) -> Result<bool, NoMemory> {
    if query.vars > FEW {
        return Ok(false);
    }
    for bits in 0..1_u32 << query.vars {
        if is_model(query, lits, &assignment(alloc, query.vars, bits)?) {
            return Ok(true);
        }
    }
    Ok(false)
}

fn assignment(alloc: Global, vars: u32, bits: u32) -> Result<Assignment, NoMemory> {
    let mut values: ListOf<bool> = ListOf::new(alloc);
    let mut rest = bits;
    for _ in 0..vars {
        values.push(rest % 2 == 1)?;
        rest /= 2;
    }
    Ok(values)
}
