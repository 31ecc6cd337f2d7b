//! Labels as candidates.
ghost use Rattle.std.specs.Prelude.{◌≡◌, ◌≢◌, ◌++◌, IfOk, OnOk, MatchOption, Contains};
ghost use Rattle.mp_logic.specs.declared.instances.Cost.{Cost};
ghost use Rattle.mp_clauses.specs.Places.{place_of};
ghost use Rattle.mp_clauses.specs.Weighing.{costs_of, weight_in};
ghost use Rattle.mp_store.specs.Held.{labelled_of};
ghost use Rattle.t_amo.specs.Labels.{label_places, place_in};

use mp_logic::{ListOf, Lit, NoMemory};
use mp_store::{Store, place};
use mp_turns::Items;
use std::alloc::Global;

/// The places of the labels, rising.
pub fn label_places(alloc: Global, store: &Store) -> Result<Items, NoMemory>
    ensures { IfOk result (λ made. made ≡ label_places (labelled_of store.now)) }
{
    let mut made = Vec::new(alloc);
    for below in 0..store.vars() {
        let variable = below + 1;
        note(store, Lit::new(variable, false), &mut made)?;
        note(store, Lit::new(variable, true), &mut made)?;
    }
    Ok(ListOf::from_vec(made))
}

/// Puts the place of the literal last if it is a label.
fn note(store: &Store, lit: Lit, made: &mut Vec<u64>) -> Result<(), NoMemory>
    ensures { OnOk result (made.new.items ≡ made.old.items ++ place_in store.now.weights lit) }
{
    if store.weight(lit) != 0 {
        made.push(place(lit) as u64)?;
    }
    Ok(())
}

/// The label of a place, if there is one.
pub fn label_at(store: &Store, item: u64) -> Option<Lit>
    ensures { MatchOption result ((p : Cost) → Contains (costs_of store.now.weights) p → place_of p.lit ≢ item) (λ l. (place_of l ≡ item) × (weight_in store.now.weights l ≢ 0)) }
{
    // what holds of each store gives only its variables a cost
    let vars = store.vars() as u64;
    let variable = item / 2;
    if variable == 0 {
        return None;
    }
    if vars < variable {
        return None;
    }
    let lit = Lit::new(variable as u32, item % 2 == 1);
    if store.weight(lit) == 0 {
        return None;
    }
    Some(lit)
}
