//! What an oracle's core makes of a store.
ghost use Rattle.std.specs.Prelude.{◌≡◌, ◌∷◌, [], OnOk, OnErr, All, IsTrue, false};
ghost use Rattle.mp_logic.specs.Literal.{IsUpTo};
ghost use Rattle.mp_logic.specs.Normal.{rises};
ghost use Rattle.mp_store.specs.Held.{IsUntouched};
ghost use Rattle.mp_store.specs.Fixing.{fixing_of};
ghost use Rattle.mp_store.specs.Rewriting.{after};
ghost use Rattle.mp_turns.specs.Clauses.{replacing};

use mp_logic::{Clause, ListOf, Lit, NoMemory};
use mp_store::{Rewrite, Store};
use mp_turns::replace;
use std::alloc::Global;

/// Makes a literal true for good.
pub fn fix(alloc: Global, store: &mut Store, lit: Lit) -> Result<(), NoMemory>
    requires unrefuted { store.old.refuted ≡ false }
    requires within { IsUpTo store.old.vars lit }
    ensures ok { OnOk result (IsUntouched (after (fixing_of (lit ∷ []) store.old) store.old) store.new) }
    ensures err { OnErr result (IsUntouched store.old store.new) }
{
    let mut lits = Clause::new(alloc);
    lits.push(lit)?;
    let rewrite = Rewrite::fixing(alloc, store, &lits)?;
    store.rewrite(rewrite)?;
    Ok(())
}

/// Adds a clause.
pub fn add(alloc: Global, store: &mut Store, clause: Clause) -> Result<(), NoMemory>
    requires unrefuted { store.old.refuted ≡ false }
    requires normal { IsTrue (rises 0 clause) }
    requires within { All (IsUpTo store.old.vars) clause }
    ensures ok { OnOk result (IsUntouched (after (replacing [] (clause ∷ []) []) store.old) store.new) }
    ensures err { OnErr result (IsUntouched store.old store.new) }
{
    let mut added = ListOf::new(alloc);
    added.push(clause)?;
    replace(alloc, store, ListOf::new(alloc), added, ListOf::new(alloc))
}

/// Adds the empty clause.
pub fn refute(alloc: Global, store: &mut Store) -> Result<(), NoMemory>
    requires { store.old.refuted ≡ false }
    ensures ok { OnOk result (IsUntouched (after (replacing [] ([] ∷ []) []) store.old) store.new) }
    ensures err { OnErr result (IsUntouched store.old store.new) }
{
    add(alloc, store, Clause::new(alloc))
}
