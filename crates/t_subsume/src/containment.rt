//! Which clauses have all literals of another: those of its literal that stands in the fewest clauses are looked at, and
//! each is walked through once beside it, since both are in order of variable, but only where its signature allows it.
//!
//! Where it is known that no clause below an id has them, only those from it on are counted and looked at: that costs a
//! search by halves in the list of each literal, up to the first that has none.
ghost use Rattle.std.specs.Prelude.{◌≡◌, ◌==◌, ◌<◌, IfOk, IsTrue, All, Contains, length, true, bit_or};
ghost use Rattle.mp_logic.specs.Literal.{IsUpTo};
ghost use Rattle.mp_logic.specs.Normal.{rises};
ghost use Rattle.mp_clauses.specs.Occurrences.{ids_with};
ghost use Rattle.mp_clauses.specs.Places.{place_of};
ghost use Rattle.mp_clauses.specs.Slots.{is_live};
ghost use Rattle.mp_clauses.specs.Signatures.{signature_of};
ghost use Rattle.t_subsume.specs.Containment.{same_literal, embeds, holds, HasNoHolderBelow, AreFrom, AreHolders};

use mp_logic::{ListOf, Lit, NoMemory};
use mp_resting::below;
use mp_store::{ClauseId, Ids, Store, signature};
use std::alloc::Global;

/// The ids, but one, of the clauses with all these literals, rising. It is known that none of them is below `least`.
pub fn holders(
    alloc: Global,
    store: &Store,
    lits: &[Lit],
    own: ClauseId,
    least: ClauseId,
) -> Result<Ids, NoMemory>
    requires some { 0 < length lits.now }
    requires normal { IsTrue (rises 0 lits.now) }
    requires within { All (IsUpTo store.now.vars) lits.now }
    requires rested { HasNoHolderBelow least store.now.slots lits.now own }
    ensures { IfOk result (λ found. AreHolders store.now.slots lits.now own found) }
{
    // what holds of each store puts its clauses in order
    let _ = store.vars();
    let mut found = ListOf::new(alloc);
    if store.next_id() <= least {
        return Ok(found);
    }
    let rare = rarest(store, lits, least);
    let ids = occurrences_from(store, rare, least);
    if ids.is_empty() {
        return Ok(found);
    }
    let bits = signature(lits);
    for id in ids {
        if is_holder(store, *id, lits, bits, own) {
            found.push(*id)?;
        }
    }
    Ok(found)
}

/// The one of the literals that stands in the fewest clauses from an id on.
fn rarest(store: &Store, lits: &[Lit], least: ClauseId) -> Lit
    requires some { 0 < length lits.now }
    requires within { All (IsUpTo store.now.vars) lits.now }
    ensures { Contains lits.now result }
{
    let mut best = lits[0];
    let mut fewest = occurrences_from(store, best, least).len();
    for lit in lits {
        if fewest == 0 {
            return best;
        }
        let many = occurrences_from(store, *lit, least).len();
        if many < fewest {
            best = *lit;
            fewest = many;
        }
    }
    best
}

/// The ids of the clauses with the literal, rising, from one on.
fn occurrences_from(store: &Store, lit: Lit, least: ClauseId) -> &[ClauseId]
    requires { IsUpTo store.now.vars lit }
    ensures { AreFrom least (ids_with (place_of lit) store.now.slots) result.now }
{
    let ids = store.occurrences(lit);
    &ids[below(ids, least)..]
}

/// Whether an id other than one has a clause with all these literals, of this signature. A clause that has them has all bits
/// of it.
fn is_holder(store: &Store, id: ClauseId, lits: &[Lit], bits: u64, own: ClauseId) -> bool
    requires live { is_live store.now.slots id ≡ true }
    requires bits { bits ≡ signature_of lits.now }
    ensures { result ≡ holds store.now.slots lits.now own id }
{
    if id == own {
        return false;
    }
    if !may_hold(store.signature(id), bits) {
        return false;
    }
    includes(store.clause(id), lits)
}

/// Whether a clause of the one signature may have all literals of a clause of the other.
fn may_hold(own: u64, bits: u64) -> bool
    ensures { result ≡ (bit_or bits own == own) }
{
    bits | own == own
}

/// Whether a clause has all these literals.
fn includes(clause: &[Lit], lits: &[Lit]) -> bool
    ensures { result ≡ embeds lits.now clause.now }
{
    let mut at = 0;
    for lit in clause {
        if at == lits.len() {
            return true;
        }
        let next = lits[at];
        if next.variable < lit.variable {
            return false;
        }
        if same(next, *lit) {
            at += 1;
        }
    }
    at == lits.len()
}

pub fn same(a: Lit, b: Lit) -> bool
    ensures { result ≡ same_literal a b }
{
    a == b
}
