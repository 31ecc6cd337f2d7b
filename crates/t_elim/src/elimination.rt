//! Bounded variable elimination (Davis and Putnam, 1960; Eén and Biere, 2005). The clauses with a variable x go, and the
//! resolvents on x of each clause with x and each with its negation come, tautologies left out. A model of the old clauses
//! makes each resolvent true. A model of the new ones is brought back by x false, and then true where some clause with x is
//! false: a clause with the negation of x that is false then has a false resolvent with that clause. Where x has no cost,
//! costs stay as they are.
//!
//! A turn takes one variable, and eliminates it where there are at most 256 pairs and no more resolvents than clauses. They
//! are counted before any is built, by a table of the literals of the clause in hand; the count stops at the first that is
//! one too many, or where the pairs ahead can't be too many. A turn costs the pairs times the literals of the clauses of x.
//! Whether another variable is worth it depends on the clauses with it alone, so only variables of the clauses that went are
//! looked at again; and a later run passes over a variable that has the clauses that it had when none was worth it.
ghost use Rattle.std.specs.Prelude.{◌≡◌, ◌++◌, IfOk, OnOk, OnErr, false, true};
ghost use Rattle.mp_store.specs.Held.{IsUntouched};
ghost use Rattle.mp_store.specs.Techniques.{IsRun, IsAnswer};
ghost use Rattle.mp_resting.specs.Resting.{IsRested};
ghost use Rattle.t_elim.specs.Eliminating.{variable_elimination, eliminating};
ghost use Rattle.t_elim.specs.Resolved.{is_candidate, AreEliminated};

use crate::candidates::{is_candidate, occurring_variables};
use crate::counting::pays_off;
use crate::neighbours::{find_neighbours, queue_again};
use crate::repairing::repairs_for;
use crate::resolving::resolve_all;
use crate::untouched::is_untouched;
use mp_logic::{ListOf, Lit, NoMemory};
use mp_resting::Seen;
use mp_store::{ClauseId, Ending, Ids, LiteralSet, Ran, Store};
use mp_turns::{Items, Turn, Turned, replace, run_turns};
use std::alloc::Global;

/// Eliminates variables, taking each that occurs in turn, in rising order, and again those beside one that went. Finished
/// where no variable without cost pays off, or a resolvent is empty; Spent where the budget of turns is used up before.
pub fn eliminate(alloc: Global, store: &mut Store, budget: Option<u64>) -> Result<Ran, NoMemory>
    requires { store.old.refuted ≡ false }
    ensures run { IsRun variable_elimination.LeavesAlone store.old store.new }
    ensures answer { IfOk result (λ ran. IsAnswer variable_elimination budget store.old store.new ran) }
{
    let seen = Seen::new(alloc);
    take_turns(alloc, store, budget, &seen)
}

/// The same turns with the same results. A variable without cost that has the clauses that it had when the store was seen
/// costs a look-up in place of the count. A run that is finished sees the store anew, which takes four bytes for each literal;
/// another leaves what was seen as it is.
pub fn eliminate_again(
    alloc: Global,
    store: &mut Store,
    budget: Option<u64>,
    seen: &mut Seen,
) -> Result<Ran, NoMemory>
    requires unrefuted { store.old.refuted ≡ false }
    requires rested { IsRested eliminating.IsIdle seen.old store.old }
    ensures run { IsRun variable_elimination.LeavesAlone store.old store.new }
    ensures answer { IfOk result (λ ran. IsAnswer variable_elimination budget store.old store.new ran) }
    ensures rested { OnOk result (IsRested eliminating.IsIdle seen.new store.new) }
{
    let ran = take_turns(alloc, store, budget, seen)?;
    if ran.ending == Ending::Finished && !store.refuted() {
        *seen = Seen::clauses(alloc, store)?;
    }
    Ok(ran)
}

/// The turns, given what an earlier run saw.
fn take_turns(
    alloc: Global,
    store: &mut Store,
    budget: Option<u64>,
    seen: &Seen,
) -> Result<Ran, NoMemory>
    requires unrefuted { store.old.refuted ≡ false }
    requires rested { IsRested eliminating.IsIdle seen.now store.old }
    ensures run { IsRun variable_elimination.LeavesAlone store.old store.new }
    ensures answer { IfOk result (λ ran. IsAnswer variable_elimination budget store.old store.new ran) }
{
    let mut turn = Elimination {
        hand: LiteralSet::new(alloc),
        near: Vec::new(alloc),
        seen,
    };
    run_turns(alloc, store, &mut turn, budget)
}

/// The literals of a clause with the variable whose turn it is, the variables beside it, and what an earlier run saw.
#[derive(Drop)]
struct Elimination<'a> {
    hand: LiteralSet,
    near: Vec<u32>,
    seen: &'a Seen,
}

impl<'a> Turn for Elimination<'a> {
    ghost use Rattle.mp_resting.specs.Resting.{IsRested};
    ghost use Rattle.t_elim.specs.Eliminating.{eliminating};

    ghost turning = { eliminating };

    ghost fits = { λ t h. IsRested eliminating.IsIdle t.seen.now h };

    fn candidates(&self, alloc: Global, store: &Store) -> Result<Items, NoMemory> {
        occurring_variables(alloc, store)
    }

    fn turn(
        &mut self,
        alloc: Global,
        store: &mut Store,
        item: u64,
        again: &mut Items,
    ) -> Result<Turned, NoMemory> {
        // what holds of each store makes its clauses normal
        if (store.vars() as u64) < item {
            return Ok(Turned::Idle);
        }
        let variable = item as u32;
        if !is_candidate(store, variable) {
            return Ok(Turned::Idle);
        }
        if is_untouched(store, self.seen, variable) {
            return Ok(Turned::Idle);
        }
        let worth = pays_off(store, &mut self.hand, variable)?;
        if !worth {
            return Ok(Turned::Idle);
        }
        find_neighbours(store, variable, &mut self.near)?;
        resolve_away(alloc, store, &mut self.hand, variable)?;
        // what holds of each store makes a change a smaller state
        let _ = store.vars();
        queue_again(store, &self.near, again)?;
        Ok(Turned::Changed)
    }
}

/// Puts the resolvents on the variable in the place of the clauses with it. All that comes is made before anything changes.
fn resolve_away(
    alloc: Global,
    store: &mut Store,
    hand: &mut LiteralSet,
    variable: u32,
) -> Result<(), NoMemory>
    requires unrefuted { store.old.refuted ≡ false }
    requires candidate { is_candidate store.old variable ≡ true }
    ensures ok { OnOk result (AreEliminated variable store.old store.new) }
    ensures err { OnErr result (IsUntouched store.old store.new) }
{
    // what holds of each store makes the rewrite valid
    let _ = store.vars();
    let positive = Lit::new(variable, false);
    let negative = Lit::new(variable, true);
    let positive_ids = store.occurrences(positive);
    let negative_ids = store.occurrences(negative);
    let gone = ids_on(alloc, positive_ids, negative_ids)?;
    let added = resolve_all(alloc, store, hand, variable, positive_ids, negative_ids)?;
    let repairs = repairs_for(alloc, store, positive, positive_ids)?;
    replace(alloc, store, gone, added, repairs)?;
    Ok(())
}

/// The ids of the clauses with the variable, those with its positive literal first.
fn ids_on(alloc: Global, positive: &[ClauseId], negative: &[ClauseId]) -> Result<Ids, NoMemory>
    ensures { IfOk result (λ ids. ids ≡ positive.now ++ negative.now) }
{
    let mut made = Vec::from_slice(alloc, positive)?;
    made.extend_from_slice(negative)?;
    Ok(ListOf::from_vec(made))
}
