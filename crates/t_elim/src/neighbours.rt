ghost use Rattle.std.specs.Prelude.{◌≡◌, ◌++◌, OnOk, All, map, true};
ghost use Rattle.std.specs.List.{filter};
ghost use Rattle.mp_logic.specs.Literal.{IsUpTo};
ghost use Rattle.mp_clauses.specs.Slots.{is_live};
ghost use Rattle.mp_clauses.specs.Places.{place_of};
ghost use Rattle.mp_clauses.specs.Occurrences.{ids_with};
ghost use Rattle.t_elim.specs.Resolving.{variables_at};
ghost use Rattle.t_elim.specs.Eliminating.{positive, negative_of};
ghost use Rattle.t_elim.specs.Resolved.{is_candidate, AreBeside};

use crate::candidates::is_candidate;
use mp_logic::{Lit, NoMemory};
use mp_store::{ClauseId, Store};
use mp_turns::Items;

/// Finds the variables of the clauses with the variable, rising.
pub fn find_neighbours(store: &Store, variable: u32, near: &mut Vec<u32>) -> Result<(), NoMemory>
    requires { IsUpTo store.now.vars (positive variable) }
    ensures { OnOk result (AreBeside variable store.now.slots near.new.items) }
{
    gather_variables(store, variable, near)?;
    near.sort_unstable();
    near.dedup();
    Ok(())
}

/// The same variables, clause by clause.
fn gather_variables(store: &Store, variable: u32, near: &mut Vec<u32>) -> Result<(), NoMemory>
    requires { IsUpTo store.now.vars (positive variable) }
    ensures { OnOk result (near.new.items ≡ variables_at store.now.slots (ids_with (place_of (positive variable)) store.now.slots) ++ variables_at store.now.slots (ids_with (place_of (negative_of variable)) store.now.slots)) }
{
    let positive = Lit::new(variable, false);
    let negative = Lit::new(variable, true);
    near.clear();
    note_all(store, store.occurrences(positive), near)?;
    note_all(store, store.occurrences(negative), near)
}

fn note_all(store: &Store, ids: &[ClauseId], near: &mut Vec<u32>) -> Result<(), NoMemory>
    requires { All (λ id. is_live store.now.slots id ≡ true) ids.now }
    ensures { OnOk result (near.new.items ≡ near.old.items ++ variables_at store.now.slots ids.now) }
{
    for id in ids {
        note(store.clause(*id), near)?;
    }
    Ok(())
}

fn note(clause: &[Lit], near: &mut Vec<u32>) -> Result<(), NoMemory>
    ensures { OnOk result (near.new.items ≡ near.old.items ++ map (λ l. l.variable) clause.now) }
{
    for lit in clause {
        near.push(lit.variable)?;
    }
    Ok(())
}

/// Puts those last that are candidates.
pub fn queue_again(store: &Store, near: &[u32], again: &mut Items) -> Result<(), NoMemory>
    ensures { OnOk result (again.new ≡ again.old ++ filter (is_candidate store.now) near.now) }
{
    for variable in near {
        if is_candidate(store, *variable) {
            again.push(*variable as u64)?;
        }
    }
    Ok(())
}
