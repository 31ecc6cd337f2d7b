//! The choice of labels, each two of which are a clause.
ghost use Rattle.std.specs.Prelude.{◌≡◌, ◌≢◌, ◌≤◌, OnOk, length};
ghost use Rattle.mp_clauses.specs.Weighing.{weight_in};
ghost use Rattle.t_amo.specs.Choosing.{ArePartners, IsChoice, IsKept};

use crate::partners::find_partners;
use mp_logic::{Clause, Lit, NoMemory};
use mp_store::{LiteralSet, Store};

/// Chooses the label, and then again and again the lowest one that is a clause with each one chosen, of the partners of the
/// first in `left`, which shrink to the partners of all. It costs the clauses of the labels that are chosen.
pub fn choose(
    store: &Store,
    lit: Lit,
    hand: &mut LiteralSet,
    found: &mut Clause,
    left: &mut Vec<Lit>,
    chosen: &mut Vec<Lit>,
) -> Result<(), NoMemory>
    requires label { weight_in store.now.weights lit ≢ 0 }
    requires partners { ArePartners store.now lit left.old.items }
    requires some { 1 ≤ length left.old.items }
    ensures { OnOk result (IsChoice store.now lit chosen.new.items) }
{
    // what holds of each store puts labels within its variables
    let _ = store.vars();
    chosen.clear();
    chosen.push(lit)?;
    'choose: while !left.is_empty() {
        let next = left[0];
        chosen.push(next)?;
        keep_partners(store, next, hand, found, left)?;
    }
    Ok(())
}

/// Keeps those of the literals that are partners of the label.
fn keep_partners(
    store: &Store,
    lit: Lit,
    hand: &mut LiteralSet,
    found: &mut Clause,
    left: &mut Vec<Lit>,
) -> Result<(), NoMemory>
    requires { lit.variable ≤ store.now.vars }
    ensures { OnOk result (IsKept store.now lit left.old.items left.new.items) }
{
    find_partners(store, lit, found)?;
    hand.hold(found.items())?;
    left.retain(|other| hand.has(*other));
    Ok(())
}
