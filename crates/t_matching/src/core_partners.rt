ghost use Rattle.std.specs.Prelude.{◌≡◌, ◌≢◌, ◌≤◌, ◌-◌, ◌+◌, ◌*◌, ◌==◌, ◌↔◌, ◌++◌, [], IfOk, OnOk, IsTrue, MatchOption, Contains, All, length, true, if◌then◌else◌};
ghost use Rattle.mp_logic.specs.Normal.{literals_rise};
ghost use Rattle.mp_logic.specs.SubsumedLabels.{IsPlain};
ghost use Rattle.mp_clauses.specs.Slots.{is_live, live_clauses};
ghost use Rattle.mp_clauses.specs.Weighing.{weight_in};
ghost use Rattle.mp_store.specs.Held.{labelled_of};
ghost use Rattle.t_matching.specs.Labels.{labels_of};
ghost use Rattle.t_matching.specs.Lowest.{IsLowestAmong};
ghost use Rattle.t_matching.specs.Cores.{AreCore, HasNoCore, IsLowestCore};
ghost use Rattle.t_matching.specs.Pairs.{shared_ids, lone_of, pair_labels, AreSmallPair, HasLonePair};

use crate::costs::{has, is_plain, note};
use mp_logic::{Clause, Lit, NoMemory, Weight, normalise};
use mp_store::{ClauseId, Store};
use std::alloc::Global;

/// The lowest label that forms a core with a plain one.
pub fn core_partner(alloc: Global, store: &Store, lit: Lit) -> Result<Option<Lit>, NoMemory>
    requires label { weight_in store.now.weights lit ≢ 0 }
    requires plain { IsPlain lit (live_clauses store.now.slots) }
    ensures { IfOk result (λ found. MatchOption found (HasNoCore lit (labelled_of store.now)) (λ m. IsLowestCore lit m (labelled_of store.now))) }
{
    let _ = store.vars();
    let weight = store.weight(lit);
    let mut others = Clause::new(alloc);
    note_pairs(store, store.occurrences(lit), weight, &mut others)?;
    normalise(&mut others);
    Ok(first_core(store, lit, weight, others.items()))
}

/// Puts the literals of the weight last that stand in a clause of two literals.
fn note_pair(
    store: &Store,
    clause: &[Lit],
    weight: Weight,
    found: &mut Clause,
) -> Result<(), NoMemory>
    ensures { OnOk result (found.new ≡ found.old ++ (if length clause.now == 2 then labels_of store.now.weights weight clause.now else [])) }
{
    if clause.len() != 2 {
        return Ok(());
    }
    note(store, clause, weight, found)
}

fn note_pairs(
    store: &Store,
    ids: &[ClauseId],
    weight: Weight,
    found: &mut Clause,
) -> Result<(), NoMemory>
    requires { All (λ id. is_live store.now.slots id ≡ true) ids.now }
    ensures { OnOk result (found.new ≡ found.old ++ pair_labels store.now.weights weight store.now.slots ids.now) }
{
    for id in ids {
        note_pair(store, store.clause(*id), weight, found)?;
    }
    Ok(())
}

/// The first of some literals that is a label which forms a core with this one.
fn first_core(store: &Store, lit: Lit, weight: Weight, others: &[Lit]) -> Option<Lit>
    requires weight { weight ≡ weight_in store.now.weights lit }
    requires label { weight_in store.now.weights lit ≢ 0 }
    requires plain { IsPlain lit (live_clauses store.now.slots) }
    requires rising { IsTrue (literals_rise others.now) }
    ensures { IsLowestAmong (λ m. AreCore lit m (labelled_of store.now)) (λ m. Contains others.now m) result }
{
    for other in others {
        if are_core(store, lit, weight, *other) {
            return Some(*other);
        }
    }
    None
}

/// Whether the other literal is a label that forms a core with a plain label of this weight.
fn are_core(store: &Store, lit: Lit, weight: Weight, other: Lit) -> bool
    requires weight { weight ≡ weight_in store.now.weights lit }
    requires label { weight_in store.now.weights lit ≢ 0 }
    requires plain { IsPlain lit (live_clauses store.now.slots) }
    ensures { IsTrue result ↔ AreCore lit other (labelled_of store.now) }
{
    let _ = store.vars();
    if other.variable == lit.variable {
        return false;
    }
    if store.weight(other) != weight {
        return false;
    }
    if !is_plain(store, other) {
        return false;
    }
    are_small_pair(store, lit, other)
}

/// Whether the literals are a clause, no other clause has both, and joining their clauses makes no more of them.
fn are_small_pair(store: &Store, lit: Lit, other: Lit) -> bool
    requires lit { lit.variable ≤ store.now.vars }
    requires other { other.variable ≤ store.now.vars }
    ensures { IsTrue result ↔ AreSmallPair lit other (live_clauses store.now.slots) }
{
    let ids = store.occurrences(lit);
    let others = store.occurrences(other);
    if !are_few(ids.len(), others.len()) {
        return false;
    }
    // the shorter of the two lists has at most three clauses now
    if ids.len() <= others.len() {
        return is_lone_pair(store, ids, other);
    }
    is_lone_pair(store, others, lit)
}

/// Whether joining all but one of so many clauses pair by pair makes no more clauses than they are.
fn are_few(count: usize, others: usize) -> bool
    ensures { IsTrue result ↔ ((count - 1) * (others - 1) ≤ (count - 1) + (others - 1)) }
{
    if count <= 2 {
        return true;
    }
    if others <= 2 {
        return true;
    }
    if count != 3 {
        return false;
    }
    others == 3
}

/// Whether exactly one of the clauses of these ids has the literal, and has one other beside it.
fn is_lone_pair(store: &Store, ids: &[ClauseId], lit: Lit) -> bool
    requires { All (λ id. is_live store.now.slots id ≡ true) ids.now }
    ensures { IsTrue result ↔ HasLonePair store.now.slots (shared_ids lit store.now.slots ids.now) }
{
    match lone(store, ids, lit) {
        Some(id) => store.clause(id).len() == 2,
        None => false,
    }
}

/// The one of these ids whose clause has the literal, where there is exactly one.
pub fn lone(store: &Store, ids: &[ClauseId], lit: Lit) -> Option<ClauseId>
    requires { All (λ id. is_live store.now.slots id ≡ true) ids.now }
    ensures { result ≡ lone_of (shared_ids lit store.now.slots ids.now) }
{
    let mut found = None;
    for id in ids {
        if has(store.clause(*id), lit) {
            if found.is_some() {
                return None;
            }
            found = Some(*id);
        }
    }
    found
}
