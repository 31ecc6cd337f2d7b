ghost use Rattle.std.specs.Prelude.{◌≡◌, ◌∷◌, [], All, IfOk, replicate, if◌then◌else◌};
ghost use Rattle.mp_logic.specs.Literal.{IsUpTo};
ghost use Rattle.mp_clauses.specs.Places.{width};
ghost use Rattle.mp_clauses.specs.Slots.{has_empty};
ghost use Rattle.mp_clauses.specs.Weighing.{weighted};

use mp_clauses::CostTable;
use mp_logic::{Clause, Clauses, Costs, ListOf, NoMemory};
use std::alloc::Global;

/// Whether a clause is empty.
pub fn has_empty_clause(clauses: &[Clause]) -> bool
    ensures { result ≡ has_empty clauses.now }
{
    clauses.iter().any(|clause| clause.len() == 0)
}

/// The clauses with which a store begins: the empty one alone where there is one.
pub fn first_clauses(alloc: Global, hard: Clauses) -> Result<Clauses, NoMemory>
    ensures { IfOk result (λ made. made ≡ (if has_empty hard then ([] ∷ []) else hard)) }
{
    if has_empty_clause(hard.items()) {
        let mut clauses: Clauses = ListOf::new(alloc);
        clauses.push(Clause::new(alloc))?;
        return Ok(clauses);
    }
    Ok(hard)
}

/// The costs with which a store begins: none where a clause is empty.
pub fn first_costs(
    alloc: Global,
    vars: u32,
    hard: &Clauses,
    costs: &Costs,
) -> Result<CostTable, NoMemory>
    requires { All (λ c. IsUpTo vars c.lit) costs.now }
    ensures { IfOk result (λ made. made.weights ≡ weighted (if has_empty hard.now then [] else costs.now) (replicate (width vars) 0)) }
{
    let mut table = CostTable::new(alloc, 2 * vars as usize + 2)?;
    if has_empty_clause(hard.items()) {
        return Ok(table);
    }
    table.reserve(0, costs.len())?;
    table.change(costs.items(), 0);
    Ok(table)
}
