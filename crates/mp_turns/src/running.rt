ghost use Rattle.std.specs.Prelude.{◌≡◌, ◌⊎◌, ◌≤◌, ◌+◌, ℕ, [], None, IfOk, OnOk, Contains, false, length};
ghost use Rattle.mp_store.specs.Techniques.{IsRun, IsAnswer};
ghost use Rattle.mp_turns.specs.Turning.{IsTurning};
ghost use Rattle.mp_turns.specs.Underway.{StaysWithin, IsUnderway, AreAwake};
ghost use Rattle.mp_turns.specs.Waiting.{all_queued};

use crate::turn::{Turn, Turned};
use mp_logic::{ListOf, NoMemory};
use mp_store::{Ending, Ran, Store, WorkQueue, spend};
use std::alloc::Global;

/// Takes each candidate in turn, and again those that a change may have made applicable, until none waits, the store is
/// refuted or the budget of turns is used up. Where there is no budget that would count them, candidates that the technique knows
/// to be idle take no turn.
pub fn run_turns<T: Turn>(
    alloc: Global,
    store: &mut Store,
    turn: &mut T,
    budget: Option<u64>,
) -> Result<Ran, NoMemory>
    requires sound { IsTurning T.turning }
    requires unrefuted { store.old.refuted ≡ false }
    requires fits { T.fits turn.old store.old }
    ensures run { IsRun T.turning.technique.LeavesAlone store.old store.new }
    ensures stays { StaysWithin T.turning budget store.old store.new }
    ensures answer { IfOk result (λ ran. IsAnswer T.turning.technique budget store.old store.new ran) }
{
    // what holds of each store makes the candidates different
    let _ = store.vars();
    if budget.is_none() {
        let awake = awake_queue(alloc, store, turn)?;
        return take_turns(alloc, store, turn, awake, None);
    }
    let queue = first_queue(alloc, store, turn)?;
    take_turns(alloc, store, turn, queue, budget)
}

/// The turns, from the first candidates on.
fn take_turns<T: Turn>(
    alloc: Global,
    store: &mut Store,
    turn: &mut T,
    first: WorkQueue,
    budget: Option<u64>,
) -> Result<Ran, NoMemory>
    requires sound { IsTurning T.turning }
    requires fits { T.fits turn.old store.old }
    requires underway { IsUnderway T.turning budget budget store.old store.old first false }
    ensures run { IsRun T.turning.technique.LeavesAlone store.old store.new }
    ensures stays { StaysWithin T.turning budget store.old store.new }
    ensures answer { IfOk result (λ ran. IsAnswer T.turning.technique budget store.old store.new ran) }
{
    // what holds of each store turns the end of the queue into the end state
    let _ = store.vars();
    let mut queue = first;
    let mut again = ListOf::new(alloc);
    let mut left = budget;
    let mut changed = false;
    'turns: while let Some(item) = queue.pop() {
        if !spend(&mut left) {
            return Ok(Ran {
                ending: Ending::Spent,
                changed,
            });
        }
        again.cut(0);
        let did = turn.turn(alloc, store, item, &mut again)?;
        // what holds of each store
        let _ = store.vars();
        match did {
            Turned::Idle => continue,
            Turned::NoRoom => {
                return Ok(Ran {
                    ending: Ending::NoRoom,
                    changed,
                });
            }
            Turned::Changed => {}
        }
        changed = true;
        if store.refuted() {
            return Ok(Ran {
                ending: Ending::Finished,
                changed,
            });
        }
        wait(&mut queue, again.items())?;
    }
    Ok(Ran {
        ending: Ending::Finished,
        changed,
    })
}

/// The queue of all candidates.
fn first_queue<T: Turn>(alloc: Global, store: &Store, turn: &T) -> Result<WorkQueue, NoMemory>
    ensures { IfOk result (λ queue. queue ≡ all_queued [] (T.turning.candidates store.now)) }
{
    let mut queue = WorkQueue::new(alloc);
    let first = turn.candidates(alloc, store)?;
    wait(&mut queue, first.items())?;
    Ok(queue)
}

/// The queue of the candidates that are not known to be idle.
fn awake_queue<T: Turn>(alloc: Global, store: &Store, turn: &T) -> Result<WorkQueue, NoMemory>
    requires unrefuted { store.now.refuted ≡ false }
    requires fits { T.fits turn.now store.now }
    ensures { IfOk result (λ queue. AreAwake T.turning store.now queue) }
{
    let mut queue = WorkQueue::new(alloc);
    let first = turn.candidates(alloc, store)?;
    for item in first.items() {
        put_unless_idle(&mut queue, store, turn, *item)?;
    }
    Ok(queue)
}

/// Puts the candidate last, unless it is known to be idle.
fn put_unless_idle<T: Turn>(
    queue: &mut WorkQueue,
    store: &Store,
    turn: &T,
    item: u64,
) -> Result<(), NoMemory>
    requires unrefuted { store.now.refuted ≡ false }
    requires fits { T.fits turn.now store.now }
    ensures waits { OnOk result ((i : ℕ) → Contains queue.old i → Contains queue.new i) }
    ensures own { OnOk result (Contains queue.new item ⊎ T.turning.IsIdle store.now item) }
    ensures few { OnOk result (length queue.new ≤ length queue.old + 1) }
{
    if turn.is_known_idle(store, item) {
        return Ok(());
    }
    queue.push(item)?;
    Ok(())
}

/// Puts the items last, in order.
fn wait(queue: &mut WorkQueue, items: &[u64]) -> Result<(), NoMemory>
    ensures { OnOk result (queue.new ≡ all_queued queue.old items.now) }
{
    for item in items {
        queue.push(*item)?;
    }
    Ok(())
}
