//! The partners of a label: the other labels with which it is a clause.
ghost use Rattle.std.specs.Prelude.{◌≡◌, ◌≤◌, ◌++◌, OnOk, All, Some, true};
ghost use Rattle.std.specs.List.{filter};
ghost use Rattle.mp_clauses.specs.Slots.{is_live};
ghost use Rattle.t_amo.specs.Choosing.{is_other, others_in, others_at, ArePartners};

use mp_logic::{Clause, Lit, NoMemory};
use mp_store::{ClauseId, Store, place};

/// Finds the partners of a label, clause by clause.
pub fn find_partners(store: &Store, lit: Lit, found: &mut Clause) -> Result<(), NoMemory>
    requires { lit.variable ≤ store.now.vars }
    ensures { OnOk result (ArePartners store.now lit found.new) }
{
    // what holds of each store makes its clauses normal
    let _ = store.vars();
    found.cut(0);
    gather(store, lit, store.occurrences(lit), found)?;
    Ok(())
}

/// The other labels of those clauses of these ids that have two literals.
fn gather(store: &Store, lit: Lit, ids: &[ClauseId], found: &mut Clause) -> Result<(), NoMemory>
    requires { All (λ id. is_live store.now.slots id ≡ true) ids.now }
    ensures { OnOk result (found.new ≡ found.old ++ others_at store.now.weights lit store.now.slots ids.now) }
{
    for id in ids {
        note_pair(store, lit, store.clause(*id), found)?;
    }
    Ok(())
}

/// The other labels of a clause, where it has two literals.
fn note_pair(store: &Store, lit: Lit, clause: &[Lit], found: &mut Clause) -> Result<(), NoMemory>
    ensures { OnOk result (found.new ≡ found.old ++ others_in store.now.weights lit (Some clause.now)) }
{
    if clause.len() != 2 {
        return Ok(());
    }
    note_others(store, lit, clause, found)
}

fn note_others(store: &Store, lit: Lit, clause: &[Lit], found: &mut Clause) -> Result<(), NoMemory>
    ensures { OnOk result (found.new ≡ found.old ++ filter (is_other store.now.weights lit) clause.now) }
{
    for other in clause {
        if is_other(store, lit, *other) {
            found.push(*other)?;
        }
    }
    Ok(())
}

fn is_other(store: &Store, lit: Lit, other: Lit) -> bool
    ensures { result ≡ is_other store.now.weights lit other }
{
    store.weight(other) != 0 && place(other) != place(lit)
}
