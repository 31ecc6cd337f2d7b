//! Numbers for the literals of a store (the strongly connected components of its binary implication graph; Aspvall, Plass
//! and Tarjan, 1979). A clause of two literals, a or b, leads from the negation of a to b and from the negation of b to a. One
//! pass over the ids makes the graph; the rest is linear in variables and clauses of two literals.
ghost use Rattle.std.specs.Prelude.{◌≡◌, ◌<◌, ◌≤◌, ◌+◌, ◌*◌, ◌^◌, length, All, IfOk, OnOk, ◌++◌, ◌∷◌, []};
ghost use Rattle.mp_logic.specs.Literal.{IsUpTo, negation};
ghost use Rattle.mp_clauses.specs.Slots.{live_clauses};
ghost use Rattle.mp_store.specs.Soundness.{IsStore};
ghost use Rattle.t_equiv.specs.Implications.{number_place, AreNumbers};
ghost use Rattle.t_equiv.specs.StepsById.{AreStepsOf};

use mp_logic::{ListOf, Lit, NoMemory};
use mp_store::{ClauseId, Store};
use std::alloc::Global;

/// Two numbers for each variable, that of its positive literal first.
pub type Numbers = ListOf<u64>;

/// The numbers of the literals: the same exactly where literals are equal or reach each other by clauses of two literals,
/// and no step leads to a higher one. Its one error is want of memory, which is also answered where there are 2^31 variables
/// or clauses of two literals.
pub fn components(alloc: Global, store: &Store) -> Result<Numbers, NoMemory>
    ensures { IfOk result (λ numbers. AreNumbers store.now.vars (live_clauses store.now.slots) numbers) }
{
    // what holds of each store puts its literals within the graph
    let vars = store.vars();
    if vars >= 2147483648 {
        return Err(NoMemory);
    }
    let mut from: Vec<u32> = Vec::new(alloc);
    let mut to: Vec<u32> = Vec::new(alloc);
    for id in 0..store.next_id() {
        add_clause(&mut from, &mut to, store, id)?;
    }
    if from.len() >= 4294967296 {
        return Err(NoMemory);
    }
    let numbers = t_equiv_graph::components(
        alloc,
        2 * vars as usize,
        from.as_slice(),
        to.as_slice(),
    )?;
    Ok(ListOf::from_vec(numbers))
}

/// Adds the steps of the clause of an id, if it has two literals.
fn add_clause(
    from: &mut Vec<u32>,
    to: &mut Vec<u32>,
    store: &Store,
    id: ClauseId,
) -> Result<(), NoMemory>
    requires small { store.now.vars < 2 ^ 31 }
    requires sound { IsStore store.now }
    requires steps { AreStepsOf store.now.vars store.now.slots id from.old.items to.old.items }
    ensures { OnOk result (AreStepsOf store.now.vars store.now.slots (id + 1) from.new.items to.new.items) }
{
    if !store.live(id) {
        return Ok(());
    }
    let clause = store.clause(id);
    if clause.len() != 2 {
        return Ok(());
    }
    let a = clause[0];
    let b = clause[1];
    add_step(from, to, a.negated(), b)?;
    add_step(from, to, b.negated(), a)?;
    Ok(())
}

/// Adds a step.
fn add_step(from: &mut Vec<u32>, to: &mut Vec<u32>, start: Lit, end: Lit) -> Result<(), NoMemory>
    requires small { start.variable < 2 ^ 31 }
    requires small_too { end.variable < 2 ^ 31 }
    ensures starts { OnOk result (from.new.items ≡ from.old.items ++ number_place start ∷ []) }
    ensures ends { OnOk result (to.new.items ≡ to.old.items ++ number_place end ∷ []) }
{
    from.push(number_at(start) as u32)?;
    to.push(number_at(end) as u32)?;
    Ok(())
}

/// Where the number of a literal stands.
pub fn number_at(lit: Lit) -> usize
    ensures { result ≡ number_place lit }
{
    let base = 2 * (lit.variable as usize - 1);
    if lit.negative { base + 1 } else { base }
}
