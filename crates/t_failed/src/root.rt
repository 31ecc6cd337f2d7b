//! Unit propagation of all clauses, on top of which literals are probed.
ghost use Rattle.std.specs.Prelude.{◌≡◌, ◌≤◌, OnOk, IfOk, MatchBool, Contains, length, true};
ghost use Rattle.mp_logic.specs.Literal.{negation, IsUpTo};
ghost use Rattle.mp_logic.specs.Learning.{IsPropagated};
ghost use Rattle.mp_clauses.specs.Slots.{live_clauses};
ghost use Rattle.mp_store.specs.Measures.{occurs};
ghost use Rattle.t_failed.specs.Propagating.{IsSettled, AreSettled, AreSettledBelow, AreUpTo, IsExtended, IsRefuted, IsRoot, IsRootBelow, IsProbed, IsMentioned, IsGrown, IsFailed};

use crate::propagation::{propagate, settle};
use crate::trail::Trail;
use mp_logic::{Lit, NoMemory};
use mp_store::{ClauseId, Store};
use std::alloc::Global;

/// The literals that the clauses make true, unless they are refuted.
#[derive(Drop)]
pub struct Root {
    pub trail: Trail,
    pub refuted: bool,
}

impl Root {
    /// Propagates the unit clauses.
    pub fn new(alloc: Global, store: &Store) -> Result<Root, NoMemory>
        ensures root { IfOk result (λ root. IsRoot store.now root.trail root.refuted) }
        ensures mentioned { IfOk result (λ root. IsMentioned (live_clauses store.now.slots) root.trail) }
    {
        let mut root = Root {
            trail: Trail::new(alloc),
            refuted: false,
        };
        follow(store, &mut root, 0)?;
        Ok(root)
    }
}

/// Makes true what the clauses from an id on force besides.
pub fn follow(store: &Store, root: &mut Root, first: ClauseId) -> Result<(), NoMemory>
    requires { IsRootBelow store.now first root.old.trail root.old.refuted }
    ensures root { OnOk result (IsRoot store.now root.new.trail root.new.refuted) }
    ensures mentioned { OnOk result (IsMentioned (live_clauses store.now.slots) root.old.trail → IsMentioned (live_clauses store.now.slots) root.new.trail) }
{
    if root.refuted {
        return Ok(());
    }
    let rests = absorb(store, &mut root.trail, first)?;
    root.refuted = !rests;
    Ok(())
}

/// Makes true what the clauses from an id on force, where those before it rest. It answers whether no clause is false.
fn absorb(store: &Store, trail: &mut Trail, first: ClauseId) -> Result<bool, NoMemory>
    requires within { AreUpTo store.now.vars trail.old }
    requires settled { AreSettledBelow store.now.slots first trail.old (length trail.old) }
    ensures extended { OnOk result (IsExtended store.now.vars (live_clauses store.now.slots) trail.old trail.new) }
    ensures answer { IfOk result (λ rests. MatchBool rests (IsPropagated trail.new (live_clauses store.now.slots)) (IsRefuted (live_clauses store.now.slots) trail.old)) }
{
    let from = trail.len();
    if !settle_each(store, trail, first)? {
        return Ok(false);
    }
    let rests = propagate(store, trail, from)?;
    Ok(rests)
}

/// Settles the clauses from an id on.
fn settle_each(store: &Store, trail: &mut Trail, first: ClauseId) -> Result<bool, NoMemory>
    requires settled { AreSettledBelow store.now.slots first trail.old (length trail.old) }
    ensures extended { OnOk result (IsExtended store.now.vars (live_clauses store.now.slots) trail.old trail.new) }
    ensures answer { IfOk result (λ rests. MatchBool rests (AreSettled (live_clauses store.now.slots) trail.new (length trail.old)) (IsRefuted (live_clauses store.now.slots) trail.old)) }
{
    for id in first..store.next_id() {
        if !store.live(id) {
            continue;
        }
        if !settle(store, trail, id)? {
            return Ok(false);
        }
    }
    Ok(true)
}

/// Makes a literal true and what follows from it. Where a clause gets false, it answers false: each model makes the literal
/// false. The caller takes away what came.
pub fn probe(store: &Store, root: &mut Root, lit: Lit) -> Result<bool, NoMemory>
    requires root { IsRoot store.now root.old.trail root.old.refuted }
    requires lit { IsUpTo store.now.vars lit }
    requires occurs { Contains root.old.trail (negation lit) → occurs lit.variable (live_clauses store.now.slots) ≡ true }
    ensures grown { OnOk result (IsGrown root.old.trail root.new.trail) }
    ensures refuted { root.new.refuted ≡ root.old.refuted }
    ensures answer { IfOk result (λ rests. MatchBool rests (IsProbed store.now root.old.trail lit root.new.trail) (IsFailed (live_clauses store.now.slots) lit)) }
{
    if root.refuted {
        return Ok(false);
    }
    if root.trail.has(lit.negated()) {
        return Ok(false);
    }
    if root.trail.has(lit) {
        return Ok(true);
    }
    let from = root.trail.len();
    root.trail.push(lit)?;
    let rests = propagate(store, &mut root.trail, from)?;
    Ok(rests)
}
