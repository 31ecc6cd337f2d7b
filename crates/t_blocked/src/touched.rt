//! Which clauses a run has to look at, where an earlier store is remembered in which none was blocked: the newer ones, and those
//! with a literal whose negation has lost a clause since. No other can have become blocked.
ghost use Rattle.std.specs.Prelude.{◌≡◌, ◌≢◌, ◌⊎◌, ℕ, List, Some, Contains, IfOk, true, false, length};
ghost use Rattle.mp_logic.specs.Literal.{Literal, IsUpTo, negation};
ghost use Rattle.mp_clauses.specs.Places.{place_of};
ghost use Rattle.mp_clauses.specs.Slots.{clause_of};
ghost use Rattle.mp_clauses.specs.Tables.{marked};
ghost use Rattle.mp_resting.specs.Resting.{is_touched, IsRestedBy};
ghost use Rattle.t_blocked.specs.BlockedClauses.{blocking};
ghost use Rattle.t_blocked.specs.Untouched.{AreTouched, AreIdle};

use mp_logic::{Lit, NoMemory};
use mp_resting::{Kept, Seen, Touched};
use mp_store::Store;
use std::alloc::Global;

/// The clauses to look at. It costs a look-up for each literal, and the clauses of those whose negations have lost one; the one error is
/// want of memory.
pub fn touched_since(
    alloc: Global,
    store: &Store,
    seen: &Seen,
    kept: &Kept,
) -> Result<Touched, NoMemory>
    requires { IsRestedBy blocking.IsIdle seen.now kept.now store.now }
    ensures { IfOk result (λ made. AreIdle made store.now) }
{
    let mut touched = Touched::from_mark(alloc, seen.mark)?;
    if seen.mark == 0 {
        return Ok(touched);
    }
    for earlier in 0..store.vars() {
        let positive = Lit::new(earlier + 1, false);
        let negative = Lit::new(earlier + 1, true);
        touch_unless_kept(store, kept, &mut touched, positive, negative);
        touch_unless_kept(store, kept, &mut touched, negative, positive);
    }
    // what holds of each store puts its literals within its variables
    let _ = store.vars();
    Ok(touched)
}

/// Touches the clauses with the literal, unless its negation has kept its clauses.
fn touch_unless_kept(store: &Store, kept: &Kept, touched: &mut Touched, lit: Lit, negated: Lit)
    requires within { IsUpTo store.now.vars lit }
    ensures len { length touched.new ≡ length touched.old }
    ensures before { (id : ℕ) → is_touched touched.old id ≡ true → is_touched touched.new id ≡ true }
    ensures own { (marked kept.now (place_of negated) ≡ true) ⊎ AreTouched lit touched.new store.now.slots }
{
    if kept.has(negated) {
        return;
    }
    touched.touch(store.occurrences(lit));
}
