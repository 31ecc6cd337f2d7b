ghost use Rattle.std.specs.Prelude.{◌≡◌, ◌≤◌, ◌++◌, OnOk, All, true};
ghost use Rattle.std.specs.List.{filter};
ghost use Rattle.mp_logic.specs.Literal.{negation};
ghost use Rattle.mp_clauses.specs.Places.{place_of};
ghost use Rattle.mp_clauses.specs.Occurrences.{ids_with};
ghost use Rattle.mp_clauses.specs.Slots.{is_live};
ghost use Rattle.mp_turns.specs.Waiting.{all_queued};
ghost use Rattle.t_matching.specs.Labels.{cost_place, places_on, places_at};
ghost use Rattle.t_matching.specs.Cores.{AreNear, labels_left};

use crate::costs::label_at;
use mp_logic::{Lit, NoMemory};
use mp_store::{ClauseId, Store, WorkQueue, place};

/// Finds the labels whose variables stand in a clause with one of two literals, by their places, rising.
pub fn find_near(
    store: &Store,
    first: Lit,
    second: Lit,
    near: &mut Vec<u64>,
) -> Result<(), NoMemory>
    requires first { first.variable ≤ store.now.vars }
    requires second { second.variable ≤ store.now.vars }
    ensures { OnOk result (AreNear first second store.now near.new.items) }
{
    gather(store, first, second, near)?;
    near.sort_unstable();
    near.dedup();
    Ok(())
}

/// The same places, clause by clause.
fn gather(store: &Store, first: Lit, second: Lit, near: &mut Vec<u64>) -> Result<(), NoMemory>
    requires first { first.variable ≤ store.now.vars }
    requires second { second.variable ≤ store.now.vars }
    ensures { OnOk result (near.new.items ≡ places_at store.now.weights store.now.slots (ids_with (place_of first) store.now.slots) ++ places_at store.now.weights store.now.slots (ids_with (place_of second) store.now.slots)) }
{
    near.clear();
    note_all(store, store.occurrences(first), near)?;
    note_all(store, store.occurrences(second), near)
}

fn note_all(store: &Store, ids: &[ClauseId], near: &mut Vec<u64>) -> Result<(), NoMemory>
    requires { All (λ id. is_live store.now.slots id ≡ true) ids.now }
    ensures { OnOk result (near.new.items ≡ near.old.items ++ places_at store.now.weights store.now.slots ids.now) }
{
    for id in ids {
        note_clause(store, store.clause(*id), near)?;
    }
    Ok(())
}

fn note_clause(store: &Store, clause: &[Lit], near: &mut Vec<u64>) -> Result<(), NoMemory>
    ensures { OnOk result (near.new.items ≡ near.old.items ++ places_on store.now.weights clause.now) }
{
    for lit in clause {
        note_variable(store, *lit, near)?;
    }
    Ok(())
}

fn note_variable(store: &Store, lit: Lit, near: &mut Vec<u64>) -> Result<(), NoMemory>
    ensures { OnOk result (near.new.items ≡ near.old.items ++ (cost_place store.now.weights lit ++ cost_place store.now.weights (negation lit))) }
{
    note_cost(store, lit, near)?;
    note_cost(store, lit.negated(), near)
}

fn note_cost(store: &Store, lit: Lit, near: &mut Vec<u64>) -> Result<(), NoMemory>
    ensures { OnOk result (near.new.items ≡ near.old.items ++ cost_place store.now.weights lit) }
{
    if store.weight(lit) != 0 {
        near.push(place(lit) as u64)?;
    }
    Ok(())
}

/// Puts those last that still have a cost.
pub fn queue_again(store: &Store, near: &[u64], queue: &mut WorkQueue) -> Result<(), NoMemory>
    ensures { OnOk result (queue.new ≡ all_queued queue.old (labels_left store.now.weights near.now)) }
{
    for item in near {
        if label_at(store, *item).is_some() {
            queue.push(*item)?;
        }
    }
    Ok(())
}
