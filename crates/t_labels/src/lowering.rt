//! Making a label false, and which labels are looked at again then.
//!
//! Clauses with the negation of the label go, and the others lose the label. So a label that stood in a clause that went has
//! fewer clauses to cover, and one whose negation stood there may have become plain, and cover the labels that it stands with.
ghost use Rattle.std.specs.Prelude.{◌≡◌, ◌++◌, ◌≤◌, OnOk, OnErr, All, true, false};
ghost use Rattle.mp_logic.specs.Literal.{IsUpTo};
ghost use Rattle.mp_clauses.specs.Slots.{is_live, live_clauses};
ghost use Rattle.mp_store.specs.Held.{IsUntouched};
ghost use Rattle.t_labels.specs.Lowering.{IsLowered, AreWith, AreNear};
ghost use Rattle.t_labels.specs.Near.{literals_at, places_in, places_at, places_with, places_freed};

use crate::candidates::{is_plain, note};
use mp_logic::{Clause, Lit, NoMemory, normalise};
use mp_store::{ClauseId, Rewrite, Store};
use mp_turns::Items;
use std::alloc::Global;

/// Makes a label false.
pub fn make_false(alloc: Global, store: &mut Store, lit: Lit) -> Result<(), NoMemory>
    requires unrefuted { store.old.refuted ≡ false }
    requires within { IsUpTo store.old.vars lit }
    ensures ok { OnOk result (IsLowered lit store.old store.new) }
    ensures err { OnErr result (IsUntouched store.old store.new) }
{
    let mut lits = Clause::new(alloc);
    lits.push(lit.negated())?;
    let rewrite = Rewrite::fixing(alloc, store, &lits)?;
    store.rewrite(rewrite)?;
    Ok(())
}

/// Finds the literals of the clauses with the literal, each once.
pub fn find_with(store: &Store, lit: Lit, found: &mut Clause) -> Result<(), NoMemory>
    requires { lit.variable ≤ store.now.vars }
    ensures { OnOk result (AreWith lit (live_clauses store.now.slots) found.new) }
{
    found.cut(0);
    gather(store, store.occurrences(lit), found)?;
    normalise(found);
    Ok(())
}

/// The literals of the clauses of these ids.
fn gather(store: &Store, ids: &[ClauseId], found: &mut Clause) -> Result<(), NoMemory>
    requires { All (λ id. is_live store.now.slots id ≡ true) ids.now }
    ensures { OnOk result (found.new ≡ found.old ++ literals_at store.now.slots ids.now) }
{
    for id in ids {
        put_all(store.clause(*id), found)?;
    }
    Ok(())
}

fn put_all(lits: &[Lit], found: &mut Clause) -> Result<(), NoMemory>
    ensures { OnOk result (found.new ≡ found.old ++ lits.now) }
{
    for lit in lits {
        found.push(*lit)?;
    }
    Ok(())
}

/// Finds the places of the labels among the literals of clauses that went and of clauses that were shortened, and of those in
/// a clause with a label that became plain, rising.
pub fn find_near(
    store: &Store,
    gone: &[Lit],
    cut: &[Lit],
    near: &mut Vec<u64>,
) -> Result<(), NoMemory>
    requires { All (IsUpTo store.now.vars) gone.now }
    ensures { OnOk result (AreNear gone.now cut.now store.now near.new.items) }
{
    gather_near(store, gone, cut, near)?;
    near.sort_unstable();
    near.dedup();
    Ok(())
}

/// The same places, literal by literal.
fn gather_near(
    store: &Store,
    gone: &[Lit],
    cut: &[Lit],
    near: &mut Vec<u64>,
) -> Result<(), NoMemory>
    requires { All (IsUpTo store.now.vars) gone.now }
    ensures { OnOk result (near.new.items ≡ (places_in store.now.weights gone.now ++ places_in store.now.weights cut.now) ++ places_freed store.now gone.now) }
{
    near.clear();
    note_each(store, gone, near)?;
    note_each(store, cut, near)?;
    note_freed(store, gone, near)
}

fn note_each(store: &Store, lits: &[Lit], near: &mut Vec<u64>) -> Result<(), NoMemory>
    ensures { OnOk result (near.new.items ≡ near.old.items ++ places_in store.now.weights lits.now) }
{
    for lit in lits {
        note(store, *lit, near)?;
    }
    Ok(())
}

/// Those beside a label that became plain, since its negation stood in a clause that went.
fn note_freed(store: &Store, gone: &[Lit], near: &mut Vec<u64>) -> Result<(), NoMemory>
    requires { All (IsUpTo store.now.vars) gone.now }
    ensures { OnOk result (near.new.items ≡ near.old.items ++ places_freed store.now gone.now) }
{
    for lit in gone {
        note_beside(store, lit.negated(), near)?;
    }
    Ok(())
}

/// The labels in clauses with the literal, where it is a plain label.
fn note_beside(store: &Store, lit: Lit, near: &mut Vec<u64>) -> Result<(), NoMemory>
    requires { lit.variable ≤ store.now.vars }
    ensures { OnOk result (near.new.items ≡ near.old.items ++ places_with store.now lit) }
{
    if store.weight(lit) == 0 {
        return Ok(());
    }
    if !is_plain(store, lit) {
        return Ok(());
    }
    note_clauses(store, store.occurrences(lit), near)
}

fn note_clauses(store: &Store, ids: &[ClauseId], near: &mut Vec<u64>) -> Result<(), NoMemory>
    requires { All (λ id. is_live store.now.slots id ≡ true) ids.now }
    ensures { OnOk result (near.new.items ≡ near.old.items ++ places_at store.now.weights store.now.slots ids.now) }
{
    for id in ids {
        note_each(store, store.clause(*id), near)?;
    }
    Ok(())
}

/// Puts the places last.
pub fn queue_again(places: &[u64], again: &mut Items) -> Result<(), NoMemory>
    ensures { OnOk result (again.new ≡ again.old ++ places.now) }
{
    for place in places {
        again.push(*place)?;
    }
    Ok(())
}
