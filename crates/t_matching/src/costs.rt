ghost use Rattle.std.specs.Prelude.{◌≡◌, ◌==◌, [], ◌≢◌, ◌↔◌, ◌≤◌, ◌++◌, IsTrue, IfOk, OnOk, MatchOption};
ghost use Rattle.mp_logic.specs.SubsumedLabels.{IsPlain};
ghost use Rattle.mp_clauses.specs.Places.{place_of, literal_at, has};
ghost use Rattle.mp_clauses.specs.Slots.{live_clauses};
ghost use Rattle.mp_clauses.specs.Weighing.{weight_in};
ghost use Rattle.mp_store.specs.Held.{labelled_of};
ghost use Rattle.mp_turns.specs.Waiting.{all_queued};
ghost use Rattle.t_matching.specs.LabelPairs.{label_places};
ghost use Rattle.t_matching.specs.Labels.{labels_of};

use mp_logic::{Clause, ListOf, Lit, NoMemory, Weight};
use mp_store::{Store, WorkQueue, place};
use mp_turns::Items;
use std::alloc::Global;

/// The queue of all cost literals, by their places.
pub fn label_queue(alloc: Global, store: &Store) -> Result<WorkQueue, NoMemory>
    ensures { IfOk result (λ queue. queue ≡ all_queued [] (label_places (labelled_of store.now))) }
{
    let mut queue = WorkQueue::new(alloc);
    let items = label_items(alloc, store)?;
    for item in items.items() {
        queue.push(*item)?;
    }
    Ok(queue)
}

/// The places of the cost literals, rising.
pub fn label_items(alloc: Global, store: &Store) -> Result<Items, NoMemory>
    ensures { IfOk result (λ made. made ≡ label_places (labelled_of store.now)) }
{
    let mut made = ListOf::new(alloc);
    let end = 2 * store.vars() as u64 + 2;
    for item in 0..end {
        if label_at(store, item).is_some() {
            made.push(item)?;
        }
    }
    Ok(made)
}

/// The literal of the place, where it has a cost.
pub fn label_at(store: &Store, item: u64) -> Option<Lit>
    ensures { MatchOption result (weight_in store.now.weights (literal_at item) ≡ 0) (λ l. (l ≡ literal_at item) × (weight_in store.now.weights l ≢ 0)) }
{
    let variable = item / 2;
    // what holds of each store: no other number is the place of a cost
    if (store.vars() as u64) < variable {
        return None;
    }
    if variable == 0 {
        return None;
    }
    let lit = Lit::new(variable as u32, item % 2 == 1);
    if store.weight(lit) == 0 {
        return None;
    }
    Some(lit)
}

/// Whether no clause has the negation of the literal.
pub fn is_plain(store: &Store, lit: Lit) -> bool
    requires { lit.variable ≤ store.now.vars }
    ensures { IsTrue result ↔ IsPlain lit (live_clauses store.now.slots) }
{
    store.occurrences(lit.negated()).is_empty()
}

/// Whether two literals are the same.
pub fn is_same(a: Lit, b: Lit) -> bool
    ensures { result ≡ (place_of a == place_of b) }
{
    place(a) == place(b)
}

/// Whether the clause has the literal.
pub fn has(clause: &[Lit], lit: Lit) -> bool
    ensures { result ≡ has (place_of lit) clause.now }
{
    clause.iter().any(|other| is_same(*other, lit))
}

/// Puts the literals of the weight in a clause last.
pub fn note(
    store: &Store,
    clause: &[Lit],
    weight: Weight,
    found: &mut Clause,
) -> Result<(), NoMemory>
    ensures { OnOk result (found.new ≡ found.old ++ labels_of store.now.weights weight clause.now) }
{
    for lit in clause {
        if store.weight(*lit) == weight {
            found.push(*lit)?;
        }
    }
    Ok(())
}
