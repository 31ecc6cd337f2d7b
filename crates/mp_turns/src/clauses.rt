//! What techniques share whose candidates are clauses.
ghost use Rattle.std.specs.Prelude.{◌≡◌, IfOk, OnOk, OnErr, false, ℕ, ◌<◌};
ghost use Rattle.mp_store.specs.Rewriting.{after};
ghost use Rattle.mp_store.specs.Replacing.{IsReplacement};
ghost use Rattle.mp_turns.specs.Clauses.{live_ids, replacing};
ghost use Rattle.mp_store.specs.Held.{IsUntouched};

use crate::turn::Items;
use mp_logic::{Clauses, ListOf, NoMemory, Repairs};
use mp_store::{Ids, Rewrite, Store};
use std::alloc::Global;

/// The ids of the live clauses, rising.
pub fn live_clause_ids(alloc: Global, store: &Store) -> Result<Items, NoMemory>
    ensures { IfOk result (λ made. made ≡ live_ids store.now.slots) }
{
    let mut made = ListOf::new(alloc);
    for id in 0..store.next_id() {
        if store.live(id) {
            made.push(id as u64)?;
        }
    }
    Ok(made)
}

/// Puts clauses in the place of others.
pub fn replace(
    alloc: Global,
    store: &mut Store,
    gone: Ids,
    added: Clauses,
    repairs: Repairs,
) -> Result<(), NoMemory>
    requires unrefuted { store.old.refuted ≡ false }
    requires valid { IsReplacement (replacing gone added repairs) store.old }
    ensures ok { OnOk result (IsUntouched (after (replacing gone added repairs) store.old) store.new) }
    ensures err { OnErr result (IsUntouched store.old store.new) }
{
    // what holds of each store makes the rewrite valid
    let _ = store.vars();
    store.rewrite(Rewrite {
        gone,
        added,
        costs: ListOf::new(alloc),
        shift: 0,
        repairs,
        fresh: 0,
    })?;
    Ok(())
}
