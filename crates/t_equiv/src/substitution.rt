//! Equivalent literal substitution (Aspvall, Plass and Tarjan, 1979; Brafman, 2001). Literals that reach each other by clauses
//! of two literals have one value in each model: they are a class. Of each class the first literal stands for all others. A
//! turn takes all classes at once: in each clause each literal becomes its image, the first literal of its class; tautologies
//! go; and the costs of a class are joined at its first literal, of opposite ones the lower is always paid. A model of what is
//! left is brought back by two repairs for each variable that is replaced, which give it the value of its image. Where a
//! variable is in one class with its negation, there is no model, and the empty clause comes.
//!
//! A turn costs one pass over the clauses and one over the variables; it takes every class there is, so the next one mostly
//! finds none.
ghost use Rattle.std.specs.Prelude.{◌≡◌, [], ◌∷◌, IfOk, OnOk, OnErr, map, false};
ghost use Rattle.mp_clauses.specs.Slots.{live_clauses};
ghost use Rattle.mp_store.specs.Held.{IsUntouched};
ghost use Rattle.mp_store.specs.Rewriting.{after};
ghost use Rattle.mp_store.specs.Techniques.{IsRun, IsAnswer};
ghost use Rattle.mp_turns.specs.Clauses.{replacing};
ghost use Rattle.t_equiv.specs.Equivalences.{equivalent_literals};
ghost use Rattle.t_equiv.specs.Substitutions.{AreSound, AreReplacedIn};

use crate::images::{has_opposites, images_of, replaced_variables};
use crate::numbering::components;
use crate::pooling::pool;
use crate::replacing::{image_clauses, image_repairs, moved_ids};
use mp_logic::{Clause, ListOf, Lit, NoMemory};
use mp_store::{Ran, Rewrite, Store};
use mp_turns::{Items, Turn, Turned, replace, run_turns};
use std::alloc::Global;

/// Replaces equivalent literals by one of them, in turns on the whole store. Finished where no two different literals reach
/// each other, or the store is refuted; Spent where the budget of turns is used up before. Its one error is want of memory.
pub fn equivalences(alloc: Global, store: &mut Store, budget: Option<u64>) -> Result<Ran, NoMemory>
    requires { store.old.refuted ≡ false }
    ensures run { IsRun equivalent_literals.LeavesAlone store.old store.new }
    ensures answer { IfOk result (λ ran. IsAnswer equivalent_literals budget store.old store.new ran) }
{
    let mut turn = Substitution {};
    run_turns(alloc, store, &mut turn, budget)
}

#[derive(Drop)]
struct Substitution {}

impl Turn for Substitution {
    ghost use Rattle.std.specs.Prelude.{⊤};
    ghost use Rattle.t_equiv.specs.Equivalences.{substituting};

    ghost turning = { substituting };

    ghost fits = { λ t h. ⊤ };

    fn candidates(&self, alloc: Global, _: &Store) -> Result<Items, NoMemory> {
        let mut made = ListOf::new(alloc);
        made.push(0)?;
        Ok(made)
    }

    fn turn(
        &mut self,
        alloc: Global,
        store: &mut Store,
        _: u64,
        again: &mut Items,
    ) -> Result<Turned, NoMemory> {
        // what holds of each store makes its literals those of the numbers
        let vars = store.vars();
        let numbers = components(alloc, store)?;
        if has_opposites(vars, numbers.items()) {
            refute(alloc, store)?;
            return Ok(Turned::Changed);
        }
        let images = images_of(alloc, numbers.items())?;
        let replaced = replaced_variables(alloc, vars, images.as_slice())?;
        if replaced.len() == 0 {
            return Ok(Turned::Idle);
        }
        substitute(alloc, store, images.as_slice(), replaced.as_slice())?;
        // what holds of each store makes a change a smaller state
        let _ = store.vars();
        again.push(0)?;
        Ok(Turned::Changed)
    }
}

/// Adds the empty clause.
fn refute(alloc: Global, store: &mut Store) -> Result<(), NoMemory>
    requires { store.old.refuted ≡ false }
    ensures ok { OnOk result (IsUntouched (after (replacing [] ([] ∷ []) []) store.old) store.new) }
    ensures err { OnErr result (IsUntouched store.old store.new) }
{
    let mut added = ListOf::new(alloc);
    added.push(Clause::new(alloc))?;
    replace(alloc, store, ListOf::new(alloc), added, ListOf::new(alloc))?;
    Ok(())
}

/// Puts the images in the place of the literals. All that comes is made before anything changes.
fn substitute(
    alloc: Global,
    store: &mut Store,
    images: &[Lit],
    replaced: &[(u32, u32)],
) -> Result<(), NoMemory>
    requires unrefuted { store.old.refuted ≡ false }
    requires sound { AreSound store.old.vars (live_clauses store.old.slots) images.now (map (λ pair. pair.1) replaced.now) }
    ensures ok { OnOk result (AreReplacedIn images.now (map (λ pair. pair.1) replaced.now) store.old store.new) }
    ensures err { OnErr result (IsUntouched store.old store.new) }
{
    // what holds of each store makes the rewrite valid
    let _ = store.vars();
    let gone = moved_ids(alloc, store, images)?;
    let added = image_clauses(alloc, store, images, gone.items())?;
    let pooled = pool(alloc, store, images)?;
    let repairs = image_repairs(alloc, images, replaced)?;
    store.rewrite(Rewrite {
        gone,
        added,
        costs: pooled.costs,
        shift: pooled.shift,
        repairs,
        fresh: 0,
    })?;
    Ok(())
}
