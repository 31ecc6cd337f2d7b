//! Unit propagation (Davis and Putnam, 1960). The literal of a unit clause is true in every model, so it is fixed: clauses
//! with it go, the others lose its negation, and where it has a cost that is paid for good. No other model is lost and no
//! cost changes, and the one repair makes the literal true again.
//!
//! The one candidate is the store itself: a turn fixes the literal of the unit clause of lowest id, and then the store waits
//! for its next turn. So finding that no unit is left is a turn too.
//!
//! A turn costs what its literal's two occurrence lists hold. Unit clauses wait by id, and each id is looked at once, so
//! that no turn walks over all clauses. A run that remembers where an earlier one finished looks at newer ids alone.
ghost use Rattle.std.specs.Prelude.{◌≡◌, ◌≤◌, ◌+◌, [], ◌∷◌, IfOk, IfSome, OnOk, OnErr, Contains, false, length};
ghost use Rattle.mp_clauses.specs.Slots.{live_clauses};
ghost use Rattle.mp_store.specs.Held.{IsUntouched};
ghost use Rattle.mp_store.specs.Fixing.{fixing_of};
ghost use Rattle.mp_store.specs.Rewriting.{after};
ghost use Rattle.mp_store.specs.Techniques.{IsRun, IsAnswer};
ghost use Rattle.mp_resting.specs.Resting.{IsRested};
ghost use Rattle.t_units.specs.Units.{unit_propagation, propagating};

use crate::waiting::UnitQueue;
use mp_logic::{Clause, ListOf, Lit, NoMemory};
use mp_resting::Seen;
use mp_store::{ClauseId, Ending, Ran, Rewrite, Store};
use mp_turns::{Items, Turn, Turned, run_turns};
use std::alloc::Global;

/// Fixes unit clauses, that of lowest id first, until none is left. Each is a turn, and so is finding that none is left:
/// then, and where a clause becomes empty, the answer is Finished, and Spent where the budget of turns is used up before.
/// Each turn that fixes a literal puts one repair last, so `turns` says that there are no more of them than the budget has.
pub fn units(alloc: Global, store: &mut Store, budget: Option<u64>) -> Result<Ran, NoMemory>
    requires { store.old.refuted ≡ false }
    ensures run { IsRun unit_propagation.LeavesAlone store.old store.new }
    ensures answer { IfOk result (λ r. IsAnswer unit_propagation budget store.old store.new r) }
    ensures turns { IfSome budget (λ b. length store.new.repairs ≤ length store.old.repairs + b) }
{
    let mut seen = Seen::new(alloc);
    units_again(alloc, store, budget, &mut seen)
}

/// The same turns with the same results, where `seen` remembers the ids of an earlier store in which no clause was a unit.
/// Ids keep their clauses for good, so those ids have none now, and the first turn looks at newer ids alone. Once this has
/// finished and no clause is empty, `seen` remembers the ids that there are, which takes no memory; else it stays as it was.
/// The one error is want of memory.
pub fn units_again(
    alloc: Global,
    store: &mut Store,
    budget: Option<u64>,
    seen: &mut Seen,
) -> Result<Ran, NoMemory>
    requires unrefuted { store.old.refuted ≡ false }
    requires rested { IsRested propagating.IsIdle seen.old store.old }
    ensures run { IsRun unit_propagation.LeavesAlone store.old store.new }
    ensures answer { IfOk result (λ r. IsAnswer unit_propagation budget store.old store.new r) }
    ensures turns { IfSome budget (λ b. length store.new.repairs ≤ length store.old.repairs + b) }
    ensures rested { OnOk result (IsRested propagating.IsIdle seen.new store.new) }
{
    let mut turn = Propagation {
        waiting: UnitQueue::new(alloc),
        seen: seen.mark,
    };
    let ran = run_turns(alloc, store, &mut turn, budget)?;
    if ran.ending == Ending::Finished && !store.refuted() {
        *seen = Seen::ids(alloc, store);
    }
    Ok(ran)
}

/// The unit clauses of ids below `seen` that wait.
#[derive(Drop)]
struct Propagation {
    waiting: UnitQueue,
    seen: ClauseId,
}

impl Turn for Propagation {
    ghost use Rattle.std.specs.Prelude.{◌≤◌, length};
    ghost use Rattle.t_units.specs.Units.{propagating};
    ghost use Rattle.t_units.specs.Waiting.{AreWaiting};

    ghost turning = { propagating };

    ghost fits = { λ t h. AreWaiting h.slots t.seen t.waiting × (t.seen ≤ length h.slots) };

    fn candidates(&self, alloc: Global, _: &Store) -> Result<Items, NoMemory> {
        let mut made = ListOf::new(alloc);
        made.push(0)?;
        Ok(made)
    }

    fn turn(
        &mut self,
        alloc: Global,
        store: &mut Store,
        _: u64,
        again: &mut Items,
    ) -> Result<Turned, NoMemory> {
        // what holds of each store makes a change a smaller state
        let _ = store.vars();
        self.seen = self.waiting.find(store, self.seen)?;
        let Some(lit) = self.waiting.next(store) else {
            return Ok(Turned::Idle);
        };
        again.push(0)?;
        fix(alloc, store, lit)?;
        Ok(Turned::Changed)
    }
}

/// Fixes the literal of a unit clause.
fn fix(alloc: Global, store: &mut Store, lit: Lit) -> Result<(), NoMemory>
    requires unrefuted { store.old.refuted ≡ false }
    requires unit { Contains (live_clauses store.old.slots) (lit ∷ []) }
    ensures ok { OnOk result (IsUntouched (after (fixing_of (lit ∷ []) store.old) store.old) store.new) }
    ensures err { OnErr result (IsUntouched store.old store.new) }
{
    // what holds of each store puts the literal within its variables
    let _ = store.vars();
    let mut lits = Clause::new(alloc);
    lits.push(lit)?;
    let rewrite = Rewrite::fixing(alloc, store, &lits)?;
    store.rewrite(rewrite)?;
    Ok(())
}
