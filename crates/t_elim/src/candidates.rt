ghost use Rattle.std.specs.Prelude.{◌≡◌, ◌≤◌, ◌==◌, ◌&&◌, IfOk};
ghost use Rattle.mp_logic.specs.Literal.{IsUpTo};
ghost use Rattle.mp_clauses.specs.Slots.{live_clauses};
ghost use Rattle.mp_clauses.specs.Weighing.{weight_in};
ghost use Rattle.mp_store.specs.Held.{labelled_of};
ghost use Rattle.mp_store.specs.Measures.{occurs};
ghost use Rattle.t_elim.specs.Eliminating.{positive, negative_of, occurring_variables};
ghost use Rattle.t_elim.specs.Resolved.{is_candidate};

use mp_logic::{ListOf, Lit, NoMemory};
use mp_store::Store;
use mp_turns::Items;
use std::alloc::Global;

/// The variables that occur, rising.
pub fn occurring_variables(alloc: Global, store: &Store) -> Result<Items, NoMemory>
    ensures { IfOk result (λ made. made ≡ occurring_variables (labelled_of store.now)) }
{
    let mut made = ListOf::new(alloc);
    for below in 0..store.vars() {
        let variable = below + 1;
        if does_occur(store, variable) {
            made.push(variable as u64)?;
        }
    }
    Ok(made)
}

/// Whether the variable is one of the store, has no cost and occurs.
#[tactic(auto, unfolding(crate::specs::Resolved::is_candidate))]
pub fn is_candidate(store: &Store, variable: u32) -> bool
    ensures { result ≡ is_candidate store.now variable }
{
    if variable == 0 || store.vars() < variable {
        return false;
    }
    is_free(store, variable) && does_occur(store, variable)
}

fn is_free(store: &Store, variable: u32) -> bool
    requires { 1 ≤ variable }
    ensures { result ≡ (weight_in store.now.weights (positive variable) == 0) && (weight_in store.now.weights (negative_of variable) == 0) }
{
    let positive = Lit::new(variable, false);
    let negative = Lit::new(variable, true);
    store.weight(positive) == 0 && store.weight(negative) == 0
}

fn does_occur(store: &Store, variable: u32) -> bool
    requires { IsUpTo store.now.vars (positive variable) }
    ensures { result ≡ occurs variable (live_clauses store.now.slots) }
{
    let positive = Lit::new(variable, false);
    let negative = Lit::new(variable, true);
    store.occurrences(positive).len() != 0 || store.occurrences(negative).len() != 0
}
