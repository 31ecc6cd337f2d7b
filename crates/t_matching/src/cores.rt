//! Binary core removal (after Berg, Saikko and Järvisalo, 2015). Where two plain labels of one weight are a clause, one of
//! them is paid for in each model: so their weight is sure, and one label may stand for the case that both are true. The
//! clause goes, and so do the further clauses of the two labels, which are joined pair by pair; so a turn asks that no more
//! clauses come than go. A model of what is left is brought back by repairs that make both labels false, then each one true
//! that one of its clauses needs, and at last the lower one where neither is: what this costs is what the model costs and
//! the weight that is sure.
//!
//! A turn looks at the clauses of its label that have two literals, and of each partner with as few clauses as that asks at
//! three clauses at most. Whether two labels form a core depends on the clauses with their variables alone, so only labels of
//! clauses that went are looked at again.
ghost use Rattle.std.specs.Prelude.{◌≡◌, ◌≢◌, ◌++◌, [], ◌∷◌, IfOk, OnOk, OnErr, All, true, false};
ghost use Rattle.mp_clauses.specs.Slots.{is_live};
ghost use Rattle.mp_store.specs.Held.{labelled_of, IsUntouched};
ghost use Rattle.mp_store.specs.Techniques.{IsRun, IsAnswer};
ghost use Rattle.t_matching.specs.Joins.{clauses_at, AreAllJoins};
ghost use Rattle.t_matching.specs.Cores.{AreCore, IsCoreRewrite, IsCoreStep, IsCoreTurn, LeavesVariables, other_ids, binary_core_removal};
ghost use Rattle.t_matching.specs.Pairs.{HasPairAt};

use crate::core_partners::{core_partner, lone};
use crate::costs::{is_plain, label_at, label_queue};
use crate::joins::{join_each, no_cost};
use crate::near::{find_near, queue_again};
use crate::repairing::put_split;
use mp_logic::{Clauses, ListOf, Lit, NoMemory};
use mp_store::{ClauseId, Ending, Ids, Ran, Rewrite, Store, repair_setting, spend};
use std::alloc::Global;

/// Removes binary cores, taking each cost literal in turn, in order, and again those beside clauses that went. Finished where
/// no two cost literals form a binary core, Spent where the budget of turns is used up before. Its one error is want of
/// memory.
pub fn binary_cores(alloc: Global, store: &mut Store, budget: Option<u64>) -> Result<Ran, NoMemory>
    requires { store.old.refuted ≡ false }
    ensures run { IsRun binary_core_removal.LeavesAlone store.old store.new }
    ensures answer { IfOk result (λ ran. IsAnswer binary_core_removal budget store.old store.new ran) }
{
    // what holds of each store turns the end of the queue into the end state
    let _ = store.vars();
    let mut queue = label_queue(alloc, store)?;
    let mut near = Vec::new(alloc);
    let mut left = budget;
    let mut changed = false;
    'turns: while let Some(item) = queue.pop() {
        if !spend(&mut left) {
            return Ok(Ran {
                ending: Ending::Spent,
                changed,
            });
        }
        let did = core_turn(alloc, store, item, &mut near)?;
        // what holds of each store
        let _ = store.vars();
        if !did {
            continue;
        }
        changed = true;
        queue_again(store, &near, &mut queue)?;
    }
    Ok(Ran {
        ending: Ending::Finished,
        changed,
    })
}

/// A turn on a cost literal: where some label forms a core with it, it and the lowest such label give way to the lower of
/// both. The labels beside what goes are put into `near`.
fn core_turn(
    alloc: Global,
    store: &mut Store,
    item: u64,
    near: &mut Vec<u64>,
) -> Result<bool, NoMemory>
    requires unrefuted { store.old.refuted ≡ false }
    ensures run { IsRun LeavesVariables store.old store.new }
    ensures turned { IfOk result (λ did. IsCoreTurn item near.new.items store.old store.new did) }
{
    // what holds of each store puts labels within its variables
    let _ = store.vars();
    let Some(lit) = label_at(store, item) else {
        return Ok(false);
    };
    if !is_plain(store, lit) {
        return Ok(false);
    }
    let Some(other) = core_partner(alloc, store, lit)? else {
        return Ok(false);
    };
    find_near(store, lit, other, near)?;
    if lit.variable < other.variable {
        relax(alloc, store, lit, other)?;
    } else {
        relax(alloc, store, other, lit)?;
    }
    Ok(true)
}

/// Pays for one label of a core and lets the other stand for both.
fn relax(alloc: Global, store: &mut Store, kept: Lit, dropped: Lit) -> Result<(), NoMemory>
    requires unrefuted { store.old.refuted ≡ false }
    requires core { AreCore kept dropped (labelled_of store.old) }
    ensures ok { OnOk result (IsCoreStep kept dropped store.old store.new) }
    ensures err { OnErr result (IsUntouched store.old store.new) }
{
    let _ = store.vars();
    let rewrite = relaxed(alloc, store, kept, dropped)?;
    store.rewrite(rewrite)?;
    Ok(())
}

/// The rewrite of a core.
fn relaxed(alloc: Global, store: &Store, kept: Lit, dropped: Lit) -> Result<Rewrite, NoMemory>
    requires core { AreCore kept dropped (labelled_of store.now) }
    ensures { IfOk result (λ r. IsCoreRewrite kept dropped store.now r) }
{
    let _ = store.vars();
    let pair = pair_id(store, kept, dropped);
    let kept_side = other_than(alloc, store.occurrences(kept), pair)?;
    let dropped_side = other_than(alloc, store.occurrences(dropped), pair)?;
    let added = join_all(alloc, store, &kept_side, &dropped_side, dropped)?;
    let mut repairs = ListOf::new(alloc);
    repairs.push(repair_setting(alloc, kept, store.clause(pair))?)?;
    put_split(
        alloc,
        store,
        kept,
        dropped,
        &kept_side,
        &dropped_side,
        &mut repairs,
    )?;
    Ok(Rewrite {
        gone: joined_ids(alloc, store.occurrences(kept), &dropped_side)?,
        added,
        costs: no_cost(alloc, dropped)?,
        shift: store.weight(kept),
        repairs,
        fresh: 0,
    })
}

/// The id of the clause of the two labels.
fn pair_id(store: &Store, kept: Lit, dropped: Lit) -> ClauseId
    requires core { AreCore kept dropped (labelled_of store.now) }
    ensures { HasPairAt kept dropped store.now.slots result }
{
    let _ = store.vars();
    match lone(store, store.occurrences(kept), dropped) {
        Some(id) => id,
        None => 0,
    }
}

/// The ids but one.
fn other_than(alloc: Global, ids: &[ClauseId], one: ClauseId) -> Result<Vec<ClauseId>, NoMemory>
    ensures { IfOk result (λ made. made.items ≡ other_ids one ids.now) }
{
    let mut made = Vec::new(alloc);
    for id in ids {
        if *id != one {
            made.push(*id)?;
        }
    }
    Ok(made)
}

fn joined_ids(alloc: Global, ids: &[ClauseId], more: &[ClauseId]) -> Result<Ids, NoMemory>
    ensures { IfOk result (λ made. made ≡ ids.now ++ more.now) }
{
    let mut made = Vec::new(alloc);
    made.extend_from_slice(ids)?;
    made.extend_from_slice(more)?;
    Ok(ListOf::from_vec(made))
}

/// The joins of each clause of the one label with each of the other.
fn join_all(
    alloc: Global,
    store: &Store,
    ids: &[ClauseId],
    others: &[ClauseId],
    dropped: Lit,
) -> Result<Clauses, NoMemory>
    requires ids { All (λ id. is_live store.now.slots id ≡ true) ids.now }
    requires others { All (λ id. is_live store.now.slots id ≡ true) others.now }
    ensures { IfOk result (λ made. AreAllJoins (clauses_at store.now.slots ids.now) dropped (clauses_at store.now.slots others.now) made) }
{
    let mut made = ListOf::new(alloc);
    for id in ids {
        join_each(alloc, store, store.clause(*id), others, dropped, &mut made)?;
    }
    Ok(made)
}
