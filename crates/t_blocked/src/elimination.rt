//! Blocked clause elimination (Kullmann, 1999; Järvisalo, Biere and Heule, 2010). A clause is blocked on its literal l where
//! each clause with the negation of l has the negation of another literal of it, so that each resolvent on l is a tautology.
//! It may go: where it is false in a model of the others, l is made true. A clause with the negation of l that was true by
//! it alone stays true by the other literal. Where l is no cost literal, no model costs more then.
//!
//! A turn takes one clause and drops it on the lowest literal that will do. It costs the clauses that have the negation of
//! one of its literals, up to the first that keeps it from being blocked: those whose signatures allow a clash are looked up
//! in a table of the clause's own literals, and nothing is allocated for it. The clause that kept the last one from being
//! blocked on the same literal is tried before them, and most often does so again. A clause can become blocked only where one
//! of the clauses that keep it from being blocked goes, so only those with the negation of a dropped literal are queued again.
//!
//! For the same reason a later run passes over a literal where none of these clauses has gone since: what was remembered of
//! the store after an earlier run tells, without a look at them. It is asked once a literal, when a run begins; from then on
//! the literals of dropped clauses lose their marks. A clause none of whose literals needs a look is passed over by one byte.
ghost use Rattle.std.specs.Prelude.{◌≡◌, ◌≤◌, ◌+◌, ◌++◌, IfOk, IfSome, OnOk, OnErr, All, Contains, List, true, false, Some, length};
ghost use Rattle.std.specs.List.{find};
ghost use Rattle.mp_logic.specs.Literal.{Literal, IsUpTo, negation};
ghost use Rattle.mp_clauses.specs.Places.{place_of};
ghost use Rattle.mp_clauses.specs.Slots.{clause_of, live_clauses};
ghost use Rattle.mp_store.specs.Held.{IsUntouched};
ghost use Rattle.mp_store.specs.Clashing.{all_clash};
ghost use Rattle.mp_clauses.specs.Occurrences.{ids_with};
ghost use Rattle.mp_clauses.specs.Weighing.{weight_in};
ghost use Rattle.mp_store.specs.Rewriting.{after};
ghost use Rattle.mp_store.specs.Techniques.{IsRun, IsAnswer, KeepsIds};
ghost use Rattle.mp_turns.specs.Underway.{StaysWithin};
ghost use Rattle.mp_resting.specs.Resting.{IsRested, IsRestedBy};
ghost use Rattle.t_blocked.specs.BlockedClauses.{blocked_clauses, blocking};
ghost use Rattle.t_blocked.specs.Dropping.{blocks, AreNear, near_in, dropping_of};

use crate::stops::{Stops, find_stop, is_stop};
use crate::touched::touched_since;
use mp_logic::{ListOf, Lit, NoMemory};
use mp_resting::{Kept, Seen, Touched};
use mp_store::{ClauseId, Ending, LiteralSet, Ran, Store, repair_setting};
use mp_turns::{Items, Turn, Turned, live_clause_ids, replace, run_turns};
use std::alloc::Global;

/// Drops blocked clauses, taking each clause in turn, in order of id, and again those near a dropped one. Finished where no
/// clause is blocked on a literal without cost; Spent where the budget of turns is used up before. Each turn drops one
/// clause at most, so `turns` says that no more of them go than the budget has turns.
pub fn blocked(alloc: Global, store: &mut Store, budget: Option<u64>) -> Result<Ran, NoMemory>
    requires { store.old.refuted ≡ false }
    ensures run { IsRun blocked_clauses.LeavesAlone store.old store.new }
    ensures ids { KeepsIds store.old store.new }
    ensures turns { IfSome budget (λ b. length (live_clauses store.old.slots) ≤ length (live_clauses store.new.slots) + b) }
    ensures answer { IfOk result (λ ran. IsAnswer blocked_clauses budget store.old store.new ran) }
{
    let seen = Seen::new(alloc);
    take_turns(alloc, store, budget, &seen)
}

/// The same, given what is remembered of an earlier store in which no clause was blocked. Each turn does as it would without
/// that, but costs no more than a look-up for a literal whose negation has lost no clause since. Where no clause is blocked
/// at the end, `seen` tells of the store then, which takes a number for each literal; else it stays as it was.
pub fn blocked_again(
    alloc: Global,
    store: &mut Store,
    budget: Option<u64>,
    seen: &mut Seen,
) -> Result<Ran, NoMemory>
    requires unrefuted { store.old.refuted ≡ false }
    requires rested { IsRested blocking.IsIdle seen.old store.old }
    ensures run { IsRun blocked_clauses.LeavesAlone store.old store.new }
    ensures ids { KeepsIds store.old store.new }
    ensures turns { IfSome budget (λ b. length (live_clauses store.old.slots) ≤ length (live_clauses store.new.slots) + b) }
    ensures answer { IfOk result (λ ran. IsAnswer blocked_clauses budget store.old store.new ran) }
    ensures rested { OnOk result (IsRested blocking.IsIdle seen.new store.new) }
{
    let ran = take_turns(alloc, store, budget, seen)?;
    if matches!(ran.ending, Ending::Finished) && !store.refuted() {
        *seen = Seen::clauses(alloc, store)?;
    }
    Ok(ran)
}

/// The turns, with what is remembered.
fn take_turns(
    alloc: Global,
    store: &mut Store,
    budget: Option<u64>,
    seen: &Seen,
) -> Result<Ran, NoMemory>
    requires unrefuted { store.old.refuted ≡ false }
    requires rested { IsRested blocking.IsIdle seen.now store.old }
    ensures run { IsRun blocked_clauses.LeavesAlone store.old store.new }
    ensures stays { StaysWithin blocking budget store.old store.new }
    ensures answer { IfOk result (λ ran. IsAnswer blocked_clauses budget store.old store.new ran) }
{
    let kept = Kept::of(alloc, store, seen)?;
    let mut turn = Blocking {
        hand: LiteralSet::new(alloc),
        near: Vec::new(alloc),
        stops: Stops::new(alloc, store)?,
        touched: touched_since(alloc, store, seen, &kept)?,
        kept,
        seen,
    };
    run_turns(alloc, store, &mut turn, budget)
}

/// The literals of the clause whose turn it is, the ids of the clauses near it, the clauses that last stopped a walk, those
/// that need a look, the literals that have kept their clauses, and what is remembered.
#[derive(Drop)]
struct Blocking<'a> {
    hand: LiteralSet,
    near: Vec<ClauseId>,
    stops: Stops,
    touched: Touched,
    kept: Kept,
    seen: &'a Seen,
}

impl<'a> Turn for Blocking<'a> {
    ghost use Rattle.mp_resting.specs.Resting.{IsRestedBy};
    ghost use Rattle.t_blocked.specs.BlockedClauses.{blocking};
    ghost use Rattle.t_blocked.specs.Untouched.{AreIdle};

    ghost turning = { blocking };

    ghost fits = { λ t h. IsRestedBy blocking.IsIdle t.seen.now t.kept h × AreIdle t.touched h };

    fn candidates(&self, alloc: Global, store: &Store) -> Result<Items, NoMemory> {
        live_clause_ids(alloc, store)
    }

    fn turn(
        &mut self,
        alloc: Global,
        store: &mut Store,
        item: u64,
        again: &mut Items,
    ) -> Result<Turned, NoMemory> {
        // what holds of each store makes its clauses normal
        let _ = store.vars();
        let id = item as usize;
        if !self.touched.has(id) {
            return Ok(Turned::Idle);
        }
        if !store.live(id) {
            return Ok(Turned::Idle);
        }
        let clause = store.clause(id);
        let found = blocking_literal(
            store,
            self.seen,
            &self.kept,
            id,
            clause,
            &mut self.hand,
            &mut self.stops,
        )?;
        let Some(lit) = found else {
            return Ok(Turned::Idle);
        };
        find_near(store, &self.hand, &mut self.near)?;
        queue_again(&self.near, again)?;
        drop_clause(alloc, store, &self.hand, id, lit)?;
        self.kept.lose(self.hand.literals());
        self.touched.touch(&self.near);
        Ok(Turned::Changed)
    }
}

/// Drops the clause in hand, with the repair that makes the literal true where the clause is false.
fn drop_clause(
    alloc: Global,
    store: &mut Store,
    hand: &LiteralSet,
    id: ClauseId,
    lit: Lit,
) -> Result<(), NoMemory>
    requires unrefuted { store.old.refuted ≡ false }
    requires live { clause_of store.old.slots id ≡ Some hand.now }
    requires has { Contains hand.now lit }
    ensures ok { OnOk result (IsUntouched (after (dropping_of id lit hand.now) store.old) store.new) }
    ensures err { OnErr result (IsUntouched store.old store.new) }
{
    // what holds of each store makes the rewrite valid
    let _ = store.vars();
    let mut gone = ListOf::new(alloc);
    gone.push(id)?;
    let mut repairs = ListOf::new(alloc);
    repairs.push(repair_setting(alloc, lit, hand.literals())?)?;
    replace(alloc, store, gone, ListOf::new(alloc), repairs)?;
    Ok(())
}

/// The lowest literal without cost on which the clause is blocked; the clause is in hand then.
fn blocking_literal(
    store: &Store,
    seen: &Seen,
    kept: &Kept,
    id: ClauseId,
    clause: &[Lit],
    hand: &mut LiteralSet,
    stops: &mut Stops,
) -> Result<Option<Lit>, NoMemory>
    requires within { All (IsUpTo store.now.vars) clause.now }
    requires live { clause_of store.now.slots id ≡ Some clause.now }
    requires rested { IsRestedBy blocking.IsIdle seen.now kept.now store.now }
    ensures lit { IfOk result (λ found. found ≡ find (blocks store.now clause.now) clause.now) }
    ensures hand { IfOk result (λ found. IfSome found (λ lit. hand.new ≡ clause.now)) }
{
    let mut is_held = false;
    for lit in clause {
        if !needs_look(store, seen, kept, id, *lit) {
            continue;
        }
        hold_once(hand, clause, is_held)?;
        is_held = true;
        if is_blocked_on(store, hand, *lit, stops) {
            return Ok(Some(*lit));
        }
    }
    Ok(None)
}

/// Holds the clause, unless it is held already.
fn hold_once(hand: &mut LiteralSet, clause: &[Lit], is_held: bool) -> Result<(), NoMemory>
    requires { is_held ≡ true → hand.old ≡ clause.now }
    ensures { OnOk result (hand.new ≡ clause.now) }
{
    if is_held {
        return Ok(());
    }
    hand.hold(clause)
}

/// Whether the clause of the id could be blocked on the literal, for all that the weights and what is remembered tell: not where
/// the clause was there when none was blocked, and no clause with the negation of the literal has gone since.
fn needs_look(store: &Store, seen: &Seen, kept: &Kept, id: ClauseId, lit: Lit) -> bool
    requires within { IsUpTo store.now.vars lit }
    requires rested { IsRestedBy blocking.IsIdle seen.now kept.now store.now }
    ensures free { result ≡ true → weight_in store.now.weights lit ≡ 0 }
    ensures idle { result ≡ false → (c : List Literal) → clause_of store.now.slots id ≡ Some c → Contains c lit → blocks store.now c lit ≡ false }
{
    if id < seen.mark && kept.has(lit.negated()) {
        return false;
    }
    store.weight(lit) == 0
}

/// Whether each clause with the negation of the literal clashes with the clause in hand on another variable. The clause that
/// last did not is tried first: where it stops the test again, no other is looked at.
fn is_blocked_on(store: &Store, hand: &LiteralSet, lit: Lit, stops: &mut Stops) -> bool
    requires { lit.variable ≤ store.now.vars }
    ensures { result ≡ all_clash lit.variable hand.now store.now.slots (ids_with (place_of (negation lit)) store.now.slots) }
{
    let negated = lit.negated();
    if is_stop(store, hand, negated, stops.last(negated)) {
        return false;
    }
    match find_stop(store, hand, lit.variable, store.occurrences(negated)) {
        Some(id) => {
            stops.set(negated, id);
            false
        }
        None => true,
    }
}

/// The ids of the clauses with the negation of a literal in hand, rising.
fn find_near(store: &Store, hand: &LiteralSet, near: &mut Vec<ClauseId>) -> Result<(), NoMemory>
    requires { All (IsUpTo store.now.vars) hand.now }
    ensures { OnOk result (AreNear hand.now store.now.slots near.new.items) }
{
    gather_near(store, hand, near)?;
    near.sort_unstable();
    near.dedup();
    Ok(())
}

/// The same ids, literal by literal.
fn gather_near(store: &Store, hand: &LiteralSet, near: &mut Vec<ClauseId>) -> Result<(), NoMemory>
    requires { All (IsUpTo store.now.vars) hand.now }
    ensures { OnOk result (near.new.items ≡ near_in store.now.slots hand.now) }
{
    near.clear();
    for lit in hand.literals() {
        near.extend_from_slice(store.occurrences(lit.negated()))?;
    }
    Ok(())
}

/// Puts the ids last.
fn queue_again(ids: &[ClauseId], again: &mut Items) -> Result<(), NoMemory>
    ensures { OnOk result (again.new ≡ again.old ++ ids.now) }
{
    for id in ids {
        again.push(*id as u64)?;
    }
    Ok(())
}
