//! A store under many small rewrites.
ghost use Rattle.std.specs.Prelude.{◌≡◌, ◌<◌, ◌≤◌, ◌++◌, IfOk, OnOk, All, Some, None, false, true, length, map, slice_set};
ghost use Rattle.mp_clauses.specs.Slots.{is_live};
ghost use Rattle.yardstick.specs.Drawn.{IsDrawn, variables_for};

use crate::draws::{Draws, Order, window_of};
use mp_labels::Labelled;
use mp_logic::{Clauses, Limits, ListOf, NoMemory};
use mp_store::{ClauseId, Rewrite, Store};
use std::alloc::Global;

/// How many rewrites were applied, and what the store then holds.
#[derive(Clone, Copy, Debug)]
pub struct Tally {
    pub applied: u32,
    pub clauses: u64,
    pub literals: u64,
}

/// A prime, so that its multiples go over all ids of a store, far apart, where it doesn't divide their number.
const STRIDE: u64 = 2_654_435_761;

/// Makes a store of drawn clauses over about a quarter as many variables, and applies a rewrite at so many of their ids.
pub fn rewritten(alloc: Global, order: Order, clauses: u32, turns: u32) -> Result<Tally, NoMemory>
    requires few { clauses ≤ 30000000 }
    requires turns { turns ≤ clauses }
    ensures { IfOk result (λ tally. tally.applied ≤ turns) }
{
    let mut draws = Draws::new();
    let mut store = drawn_store(alloc, &mut draws, order, clauses)?;
    let mut applied = 0;
    'turns: for turn in 0..turns {
        let id = id_of_turn(order, turn, clauses);
        if rewrite_at(alloc, &mut store, &mut draws, order, clauses, id)? {
            applied += 1;
        }
    }
    let left = store.counts();
    Ok(Tally {
        applied,
        clauses: left.clauses,
        literals: left.literals,
    })
}

/// The id of a turn, one of so many.
fn id_of_turn(order: Order, turn: u32, many: u32) -> u32
    requires { turn < many }
    ensures { result < many }
{
    match order {
        Order::Near => turn,
        Order::Far => (u64::from(turn) * STRIDE % u64::from(many)) as u32,
    }
}

/// So many drawn clauses.
fn drawn_clauses(
    alloc: Global,
    draws: &mut Draws,
    order: Order,
    many: u32,
) -> Result<Clauses, NoMemory>
    requires { many ≤ 30000000 }
    ensures { IfOk result (All (IsDrawn (variables_for many))) }
{
    let mut made = ListOf::new(alloc);
    'draws: for id in 0..many {
        let window = window_of(order, many, id);
        made.push(draws.clause(alloc, window)?)?;
    }
    Ok(made)
}

/// A store of so many drawn clauses, without costs.
fn drawn_store(alloc: Global, draws: &mut Draws, order: Order, many: u32) -> Result<Store, NoMemory>
    requires { many ≤ 30000000 }
    ensures vars { IfOk result (λ store. store.vars ≡ variables_for many) }
    ensures unrefuted { IfOk result (λ store. store.refuted ≡ false) }
{
    let state = Labelled {
        vars: 3 * (many / 12 + 1),
        hard: drawn_clauses(alloc, draws, order, many)?,
        costs: ListOf::new(alloc),
        offset: 0,
    };
    Store::from_labelled(alloc, state, &Limits::program())
}

/// Drops the clause of an id or puts a drawn one in its place, as a draw says; it answers whether the clause is live.
fn rewrite_at(
    alloc: Global,
    store: &mut Store,
    draws: &mut Draws,
    order: Order,
    clauses: u32,
    id: u32,
) -> Result<bool, NoMemory>
    requires few { clauses ≤ 30000000 }
    requires vars { store.old.vars ≡ variables_for clauses }
    requires unrefuted { store.old.refuted ≡ false }
    ensures live { IfOk result (λ live. live ≡ is_live store.old.slots id) }
    ensures vars { OnOk result (store.new.vars ≡ store.old.vars) }
    ensures unrefuted { OnOk result (store.new.refuted ≡ false) }
{
    if !store.live(id as usize) {
        return Ok(false);
    }
    let mut added = ListOf::new(alloc);
    if draws.below(2) == 1 {
        let window = window_of(order, clauses, id);
        added.push(draws.clause(alloc, window)?)?;
    }
    change(alloc, store, id as usize, added)?;
    Ok(true)
}

/// Puts drawn clauses in place of one.
fn change(alloc: Global, store: &mut Store, id: ClauseId, added: Clauses) -> Result<(), NoMemory>
    requires live { is_live store.old.slots id ≡ true }
    requires unrefuted { store.old.refuted ≡ false }
    requires drawn { All (IsDrawn store.old.vars) added }
    ensures exact { OnOk result (store.new.slots ≡ slice_set store.old.slots id None ++ map Some added) }
    ensures vars { OnOk result (store.new.vars ≡ store.old.vars) }
    ensures unrefuted { OnOk result (store.new.refuted ≡ false) }
{
    // what holds of each store bounds its weights
    let _ = store.vars();
    let mut gone = ListOf::new(alloc);
    gone.push(id)?;
    let rewrite = Rewrite {
        gone,
        added,
        costs: ListOf::new(alloc),
        shift: 0,
        repairs: ListOf::new(alloc),
        fresh: 0,
    };
    store.rewrite(rewrite)?;
    Ok(())
}
