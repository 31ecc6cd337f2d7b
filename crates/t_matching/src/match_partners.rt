ghost use Rattle.std.specs.Prelude.{◌≡◌, ◌↔◌, ◌≢◌, ◌++◌, ◌≤◌, Contains, IsTrue, IfOk, OnOk, All, true, MatchOption, Some, None};
ghost use Rattle.std.specs.List.{list_all};
ghost use Rattle.mp_logic.specs.Literal.{Literal, IsUpTo};
ghost use Rattle.mp_logic.specs.Normal.{literals_rise};
ghost use Rattle.mp_logic.specs.SubsumedLabels.{IsPlain};
ghost use Rattle.mp_clauses.specs.Slots.{clause_of, is_live, live_clauses};
ghost use Rattle.mp_clauses.specs.Weighing.{weight_in};
ghost use Rattle.mp_store.specs.Held.{labelled_of};
ghost use Rattle.mp_store.specs.Fixing.{clashes};
ghost use Rattle.t_matching.specs.Matching.{AreMatching, HasNoMatch, IsLowestMatch};
ghost use Rattle.t_matching.specs.Labels.{IsUnused};
ghost use Rattle.t_matching.specs.Lowest.{IsLowestAmong};
ghost use Rattle.t_matching.specs.Pairing.{clashes_each, slot_conflicts, AllClash, labels_at, labels_near, lower_of, AreFreelyMatching, IsFreePartner};

use crate::costs::{has, is_plain, note};
use mp_logic::{Clause, Lit, NoMemory, Weight, normalise};
use mp_store::{ClauseId, Store};
use std::alloc::Global;

/// Whether a literal of the one clause is the negation of one of the other.
fn clash(clause: &[Lit], other: &[Lit]) -> bool
    ensures { result ≡ clashes other.now clause.now }
{
    clause.iter().any(|lit| has(other, lit.negated()))
}

/// Whether the clause clashes with each of the clauses of these ids.
fn clashes_with_each(store: &Store, clause: &[Lit], ids: &[ClauseId]) -> bool
    requires { All (λ id. is_live store.now.slots id ≡ true) ids.now }
    ensures { result ≡ clashes_each store.now.slots ids.now clause.now }
{
    for id in ids {
        if !clash(clause, store.clause(*id)) {
            return false;
        }
    }
    true
}

/// Whether each of the clauses of the first ids clashes with each of the others.
fn each_clashes(store: &Store, ids: &[ClauseId], others: &[ClauseId]) -> bool
    requires ids { All (λ id. is_live store.now.slots id ≡ true) ids.now }
    requires others { All (λ id. is_live store.now.slots id ≡ true) others.now }
    ensures { result ≡ list_all (λ id. slot_conflicts store.now.slots others.now (clause_of store.now.slots id)) ids.now }
{
    for id in ids {
        if !clashes_with_each(store, store.clause(*id), others) {
            return false;
        }
    }
    true
}

/// Whether each clause with the one literal clashes with each clause with the other.
fn all_clash(store: &Store, lit: Lit, other: Lit) -> bool
    requires lit { lit.variable ≤ store.now.vars }
    requires other { other.variable ≤ store.now.vars }
    ensures { IsTrue result ↔ AllClash lit other (live_clauses store.now.slots) }
{
    each_clashes(store, store.occurrences(lit), store.occurrences(other))
}

/// Whether the other literal is a label that matches a plain label of this weight.
fn do_match(store: &Store, lit: Lit, weight: Weight, other: Lit) -> bool
    requires weight { weight ≡ weight_in store.now.weights lit }
    requires label { weight_in store.now.weights lit ≢ 0 }
    requires plain { IsPlain lit (live_clauses store.now.slots) }
    ensures { IsTrue result ↔ AreMatching lit other (labelled_of store.now) }
{
    let _ = store.vars();
    if other.variable == lit.variable {
        return false;
    }
    if store.weight(other) != weight {
        return false;
    }
    if !is_plain(store, other) {
        return false;
    }
    all_clash(store, lit, other)
}

fn note_each(
    store: &Store,
    ids: &[ClauseId],
    weight: Weight,
    found: &mut Clause,
) -> Result<(), NoMemory>
    requires { All (λ id. is_live store.now.slots id ≡ true) ids.now }
    ensures { OnOk result (found.new ≡ found.old ++ labels_at store.now.weights weight store.now.slots ids.now) }
{
    for id in ids {
        note(store, store.clause(*id), weight, found)?;
    }
    Ok(())
}

/// The literals of the weight in the clauses that clash with a clause.
fn labels_beside(
    alloc: Global,
    store: &Store,
    clause: &[Lit],
    weight: Weight,
) -> Result<Clause, NoMemory>
    requires { All (IsUpTo store.now.vars) clause.now }
    ensures { IfOk result (λ made. made ≡ labels_near store.now.weights weight store.now.slots clause.now) }
{
    let mut found = Clause::new(alloc);
    for lit in clause {
        note_each(store, store.occurrences(lit.negated()), weight, &mut found)?;
    }
    Ok(found)
}

/// Literals among which each label is that matches and is in a clause, if the plain label itself is in one. The first of
/// its clauses is enough to find them, since each clause of a label that matches clashes with it.
fn candidates(alloc: Global, store: &Store, lit: Lit, weight: Weight) -> Result<Clause, NoMemory>
    requires weight { weight ≡ weight_in store.now.weights lit }
    requires within { lit.variable ≤ store.now.vars }
    ensures rising { IfOk result (λ made. IsTrue (literals_rise made)) }
    ensures all { IfOk result (λ made. (m : Literal) → AreMatching lit m (labelled_of store.now) → (IsUnused lit (live_clauses store.now.slots) → ⊥) → (IsUnused m (live_clauses store.now.slots) → ⊥) → Contains made m) }
{
    let _ = store.vars();
    let ids = store.occurrences(lit);
    if ids.is_empty() {
        return Ok(Clause::new(alloc));
    }
    let mut found = labels_beside(alloc, store, store.clause(ids[0]), weight)?;
    normalise(&mut found);
    Ok(found)
}

/// The first of some literals that is a label which matches.
fn first_match(store: &Store, lit: Lit, weight: Weight, others: &[Lit]) -> Option<Lit>
    requires weight { weight ≡ weight_in store.now.weights lit }
    requires label { weight_in store.now.weights lit ≢ 0 }
    requires plain { IsPlain lit (live_clauses store.now.slots) }
    requires rising { IsTrue (literals_rise others.now) }
    ensures { IsLowestAmong (λ m. AreMatching lit m (labelled_of store.now)) (λ m. Contains others.now m) result }
{
    for other in others {
        if do_match(store, lit, weight, *other) {
            return Some(*other);
        }
    }
    None
}

/// The lower of two literals.
fn lower(first: Option<Lit>, second: Option<Lit>) -> Option<Lit>
    ensures { result ≡ lower_of first second }
{
    match (first, second) {
        (Some(a), Some(b)) => Some(if a.variable <= b.variable { a } else { b }),
        (Some(a), None) => Some(a),
        (None, other) => other,
    }
}

/// The lowest label that matches a plain one. `free` is the lowest of those that do because one of the two is in no clause.
pub fn partner(
    alloc: Global,
    store: &Store,
    lit: Lit,
    free: Option<Lit>,
) -> Result<Option<Lit>, NoMemory>
    requires label { weight_in store.now.weights lit ≢ 0 }
    requires plain { IsPlain lit (live_clauses store.now.slots) }
    requires free { IsFreePartner lit (labelled_of store.now) free }
    ensures { IfOk result (λ found. MatchOption found (HasNoMatch lit (labelled_of store.now)) (λ m. IsLowestMatch lit m (labelled_of store.now))) }
{
    let _ = store.vars();
    let weight = store.weight(lit);
    let others = candidates(alloc, store, lit, weight)?;
    let first = first_match(store, lit, weight, others.items());
    Ok(lower(first, free))
}

/// Whether no clause has the literal.
pub fn is_unused(store: &Store, lit: Lit) -> bool
    requires { lit.variable ≤ store.now.vars }
    ensures { IsTrue result ↔ IsUnused lit (live_clauses store.now.slots) }
{
    store.occurrences(lit).is_empty()
}

/// Whether the other literal is a label that matches a plain one because one of the two is in no clause.
fn do_match_freely(store: &Store, lit: Lit, weight: Weight, other: Lit) -> bool
    requires weight { weight ≡ weight_in store.now.weights lit }
    requires label { weight_in store.now.weights lit ≢ 0 }
    requires plain { IsPlain lit (live_clauses store.now.slots) }
    ensures { IsTrue result ↔ AreFreelyMatching lit other (labelled_of store.now) }
{
    let _ = store.vars();
    if store.weight(other) != weight {
        return false;
    }
    if is_unused(store, lit) {
        return do_match(store, lit, weight, other);
    }
    if !is_unused(store, other) {
        return false;
    }
    do_match(store, lit, weight, other)
}

/// The first of some labels that matches freely; they are in order, and each one that does is among them.
pub fn free_partner(store: &Store, lit: Lit, weight: Weight, others: &[Lit]) -> Option<Lit>
    requires weight { weight ≡ weight_in store.now.weights lit }
    requires label { weight_in store.now.weights lit ≢ 0 }
    requires plain { IsPlain lit (live_clauses store.now.slots) }
    requires rising { IsTrue (literals_rise others.now) }
    requires all { (m : Literal) → AreFreelyMatching lit m (labelled_of store.now) → Contains others.now m }
    ensures { IsFreePartner lit (labelled_of store.now) result }
{
    for other in others {
        if do_match_freely(store, lit, weight, *other) {
            return Some(*other);
        }
    }
    None
}
