//! The literals that failed-literal probing takes in turn.
ghost use Rattle.std.specs.Prelude.{◌≡◌, ◌≤◌, ◌+◌, ◌*◌, ◌/◌, [], ℕ, OnOk, IfOk, MatchOption, Contains, length, true, false};
ghost use Rattle.std.specs.List.{filter, range_with_len};
ghost use Rattle.mp_logic.specs.Literal.{IsUpTo};
ghost use Rattle.mp_clauses.specs.Places.{literal_at};
ghost use Rattle.mp_clauses.specs.Slots.{live_clauses};
ghost use Rattle.mp_store.specs.Measures.{occurs};
ghost use Rattle.mp_turns.specs.Waiting.{all_queued};
ghost use Rattle.t_failed.specs.Failed.{positive, probing};

use mp_logic::{ListOf, Lit, NoMemory};
use mp_store::{Store, WorkQueue};
use mp_turns::Items;
use std::alloc::Global;

/// The queue of the literals whose variables occur, rising.
pub fn first_queue(alloc: Global, store: &Store) -> Result<WorkQueue, NoMemory>
    ensures { IfOk result (λ queue. queue ≡ all_queued [] (probing.candidates store.now)) }
{
    let mut first = ListOf::new(alloc);
    put_literals(store, &mut first)?;
    let mut queue = WorkQueue::new(alloc);
    wait(&mut queue, first.items())?;
    Ok(queue)
}

/// Puts the places of the literals last whose variables occur, rising.
fn put_literals(store: &Store, made: &mut Items) -> Result<(), NoMemory>
    requires { made.old ≡ [] }
    ensures { OnOk result (made.new ≡ filter (λ p. occurs (p / 2) (live_clauses store.now.slots)) (range_with_len 2 (2 * store.now.vars))) }
{
    for below in 0..2 * store.vars() as u64 {
        let item = below + 2;
        if !does_occur(store, (item / 2) as u32) {
            continue;
        }
        made.push(item)?;
    }
    Ok(())
}

/// Puts the items last, in order.
fn wait(queue: &mut WorkQueue, items: &[u64]) -> Result<(), NoMemory>
    ensures { OnOk result (queue.new ≡ all_queued queue.old items.now) }
{
    for item in items {
        queue.push(*item)?;
    }
    Ok(())
}

/// Puts those of the places taken last, rising, whose variables occur still, and lets go of all of them. The others of the
/// literals that occur wait already, so that it costs what was taken, and not what there is.
pub fn wait_again(
    store: &Store,
    queue: &mut WorkQueue,
    taken: &mut Vec<u64>,
) -> Result<(), NoMemory>
    ensures waits { OnOk result ((i : ℕ) → Contains queue.old i → Contains queue.new i) }
    ensures again { OnOk result ((i : ℕ) → Contains taken.old.items i → occurs (i / 2) (live_clauses store.now.slots) ≡ true → Contains queue.new i) }
    ensures few { OnOk result (length queue.new + length taken.new.items ≤ length queue.old + length taken.old.items) }
    ensures none { OnOk result (taken.new.items ≡ []) }
{
    taken.sort_unstable();
    put_occurring(store, queue, taken)?;
    taken.clear();
    Ok(())
}

/// Puts those of the places last whose variables occur.
fn put_occurring(store: &Store, queue: &mut WorkQueue, items: &[u64]) -> Result<(), NoMemory>
    ensures waits { OnOk result ((i : ℕ) → Contains queue.old i → Contains queue.new i) }
    ensures own { OnOk result ((i : ℕ) → Contains items.now i → occurs (i / 2) (live_clauses store.now.slots) ≡ true → Contains queue.new i) }
    ensures few { OnOk result (length queue.new ≤ length queue.old + length items.now) }
{
    for item in items {
        let Some(_) = literal_at(store, *item) else {
            continue;
        };
        queue.push(*item)?;
    }
    Ok(())
}

fn does_occur(store: &Store, variable: u32) -> bool
    requires { IsUpTo store.now.vars (positive variable) }
    ensures { result ≡ occurs variable (live_clauses store.now.slots) }
{
    let positive = Lit::new(variable, false);
    store.occurrences(positive).len() != 0 || store.occurrences(positive.negated()).len() != 0
}

/// The literal of the place, if its variable occurs.
pub fn literal_at(store: &Store, item: u64) -> Option<Lit>
    ensures { MatchOption result (occurs (item / 2) (live_clauses store.now.slots) ≡ false) (λ l. (l ≡ literal_at item) × IsUpTo store.now.vars l × (occurs l.variable (live_clauses store.now.slots) ≡ true)) }
{
    // what holds of each store: no other variable occurs
    let vars = store.vars() as u64;
    let variable = item / 2;
    if variable == 0 {
        return None;
    }
    if vars < variable {
        return None;
    }
    if !does_occur(store, variable as u32) {
        return None;
    }
    Some(Lit::new(variable as u32, item % 2 == 1))
}
