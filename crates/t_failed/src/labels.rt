//! The cost literals, which probing of pairs takes in turn.
ghost use Rattle.std.specs.Prelude.{◌≡◌, ◌≢◌, ◌++◌, IfOk, OnOk, MatchOption, map};
ghost use Rattle.mp_clauses.specs.Places.{place_of, literal_at};
ghost use Rattle.mp_clauses.specs.Weighing.{weight_in};
ghost use Rattle.t_failed.specs.Partners.{AreLabels, places_beside};

use mp_logic::{ListOf, Lit, NoMemory};
use mp_store::{Store, place};
use mp_turns::Items;
use std::alloc::Global;

/// The cost literals, in order.
pub fn labels(alloc: Global, store: &Store) -> Result<Vec<Lit>, NoMemory>
    ensures { IfOk result (λ made. AreLabels store.now made.items) }
{
    let mut made = Vec::new(alloc);
    let end = 2 * store.vars() as u64 + 2;
    for item in 0..end {
        let Some(lit) = label_at(store, item) else {
            continue;
        };
        made.push(lit)?;
    }
    Ok(made)
}

/// The places of literals.
pub fn places(alloc: Global, lits: &[Lit]) -> Result<Items, NoMemory>
    ensures { IfOk result (λ made. made ≡ map place_of lits.now) }
{
    let mut made = ListOf::new(alloc);
    for lit in lits {
        made.push(place(*lit) as u64)?;
    }
    Ok(made)
}

/// Puts the places of the literals last, but for one.
pub fn put_others(lits: &[Lit], item: u64, again: &mut Items) -> Result<(), NoMemory>
    ensures { OnOk result (again.new ≡ again.old ++ places_beside item lits.now) }
{
    for lit in lits {
        let place = place(*lit) as u64;
        if place != item {
            again.push(place)?;
        }
    }
    Ok(())
}

/// The literal of the place, where it has a cost.
pub fn label_at(store: &Store, item: u64) -> Option<Lit>
    ensures { MatchOption result (weight_in store.now.weights (literal_at item) ≡ 0) (λ l. (l ≡ literal_at item) × (weight_in store.now.weights l ≢ 0)) }
{
    let variable = item / 2;
    // what holds of each store: no other number is the place of a cost
    if (store.vars() as u64) < variable {
        return None;
    }
    if variable == 0 {
        return None;
    }
    let lit = Lit::new(variable as u32, item % 2 == 1);
    if store.weight(lit) == 0 {
        return None;
    }
    Some(lit)
}
