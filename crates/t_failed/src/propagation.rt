//! Unit propagation over the occurrence lists of a store. A literal that became true is followed into the clauses with its
//! negation, each of which is read up to its second literal that is not false. So a propagation costs what it visits, and the
//! store is not copied.
ghost use Rattle.std.specs.Prelude.{◌≡◌, ◌≤◌, ◌<◌, ℕ, IsTrue, OnOk, IfOk, MatchOption, MatchBool, Contains, Some, length, true, slice_index_or};
ghost use Rattle.mp_logic.specs.Literal.{Literal, negation};
ghost use Rattle.mp_logic.specs.Normal.{rises};
ghost use Rattle.mp_logic.specs.Learning.{IsPropagated};
ghost use Rattle.mp_clauses.specs.Slots.{clause_of, is_live, live_clauses};
ghost use Rattle.t_failed.specs.Propagating.{IsLooked, IsSettled, AreSettled, AreUpTo, IsExtended, IsRefuted, IsNextOpen, AreFalseFrom};

use crate::trail::Trail;
use mp_logic::{Lit, NoMemory};
use mp_store::{ClauseId, Store};

/// What the literals that are true make of a clause: it is true or has two literals that are not false; it has one such
/// literal; or it has none.
pub enum Looked {
    AtRest,
    Unit(Lit),
    Conflict,
}

/// The first place of the clause from one on whose literal is not false.
fn next_open(clause: &[Lit], trail: &Trail, from: usize) -> Option<usize>
    requires { from ≤ length clause.now }
    ensures { MatchOption result (AreFalseFrom trail.now clause.now from (length clause.now)) (λ i. IsNextOpen trail.now clause.now from i) }
{
    for index in from..clause.len() {
        if !trail.has(clause[index].negated()) {
            return Some(index);
        }
    }
    None
}

fn look(clause: &[Lit], trail: &Trail) -> Looked
    requires { IsTrue (rises 0 clause.now) }
    ensures { IsLooked trail.now clause.now result }
{
    let Some(first) = next_open(clause, trail, 0) else {
        return Looked::Conflict;
    };
    if trail.has(clause[first]) {
        return Looked::AtRest;
    }
    match next_open(clause, trail, first + 1) {
        Some(_) => Looked::AtRest,
        None => Looked::Unit(clause[first]),
    }
}

/// Makes the last literal of the clause true that is not false. It answers whether the clause is not false.
pub fn settle(store: &Store, trail: &mut Trail, id: ClauseId) -> Result<bool, NoMemory>
    requires { is_live store.now.slots id ≡ true }
    ensures extended { OnOk result (IsExtended store.now.vars (live_clauses store.now.slots) trail.old trail.new) }
    ensures answer { IfOk result (λ rests. MatchBool rests ((c : _) → clause_of store.now.slots id ≡ Some c → IsSettled trail.new (length trail.old) c) (IsRefuted (live_clauses store.now.slots) trail.old)) }
{
    // what holds of each store makes the clause normal
    let _ = store.vars();
    match look(store.clause(id), trail) {
        Looked::AtRest => Ok(true),
        Looked::Conflict => Ok(false),
        Looked::Unit(lit) => {
            trail.push(lit)?;
            Ok(true)
        }
    }
}

/// Follows a literal that became true. It answers whether no clause is false.
fn visit(store: &Store, trail: &mut Trail, lit: Lit) -> Result<bool, NoMemory>
    requires { lit.variable ≤ store.now.vars }
    ensures extended { OnOk result (IsExtended store.now.vars (live_clauses store.now.slots) trail.old trail.new) }
    ensures answer { IfOk result (λ rests. MatchBool rests ((c : _) → Contains (live_clauses store.now.slots) c → Contains c (negation lit) → IsSettled trail.new (length trail.old) c) (IsRefuted (live_clauses store.now.slots) trail.old)) }
{
    for id in store.occurrences(lit.negated()) {
        if !settle(store, trail, *id)? {
            return Ok(false);
        }
    }
    Ok(true)
}

/// Follows the literals from a position on, and those that they make true. It answers whether no clause is false.
pub fn propagate(store: &Store, trail: &mut Trail, from: usize) -> Result<bool, NoMemory>
    requires from { from ≤ length trail.old }
    requires within { AreUpTo store.now.vars trail.old }
    requires settled { AreSettled (live_clauses store.now.slots) trail.old from }
    ensures extended { OnOk result (IsExtended store.now.vars (live_clauses store.now.slots) trail.old trail.new) }
    ensures answer { IfOk result (λ rests. MatchBool rests (IsPropagated trail.new (live_clauses store.now.slots)) (IsRefuted (live_clauses store.now.slots) trail.old)) }
{
    let mut head = from;
    'propagate: while head < trail.len() {
        let lit = trail.lit(head);
        if !visit(store, trail, lit)? {
            return Ok(false);
        }
        head += 1;
    }
    Ok(true)
}
