//! Label matching (Korhonen, Berg, Saikko and Järvisalo, 2017). Where each clause with the one label conflicts with each
//! clause with the other, some model of least cost makes at most one of them true, or can be made so: thus one label may
//! stand for both where they weigh the same. In all clauses the lower label takes the place of the higher one, whose cost
//! goes. A model of what is left is brought back by repairs that make both labels false, and then each one true that one of
//! its clauses needs; the conflict says that no model needs both.
//!
//! A turn looks for a partner among the clauses that clash with the first clause of its label, tests the candidates in
//! rising order by their occurrence lists, and rewrites the clauses of one label. Labels in no clause have no neighbours:
//! `free_partners` knows them by weight. A change makes no two labels match that did not, so no label is looked at twice.
ghost use Rattle.std.specs.Prelude.{◌≡◌, IfOk, OnOk, OnErr, false};
ghost use Rattle.mp_store.specs.Held.{labelled_of, IsUntouched};
ghost use Rattle.mp_store.specs.Techniques.{IsRun, IsAnswer};
ghost use Rattle.t_matching.specs.Matching.{AreMatching, IsMatchingRewrite, IsMatchStep, IsMatchTurn, LeavesOffset, label_matching};
ghost use Rattle.t_matching.specs.FreePartners.{AreKnown};

use crate::costs::{is_plain, label_at, label_items};
use crate::free_partners::FreeLabels;
use crate::joins::{join_each, no_cost};
use crate::match_partners::partner;
use crate::repairing::put_split;
use mp_logic::{ListOf, Lit, NoMemory};
use mp_store::{Ending, Ran, Rewrite, Store, spend};
use std::alloc::Global;

/// Matches labels, taking each cost literal once, in order. Finished where no two cost literals match, Spent where the budget
/// of turns is used up before. Its one error is want of memory.
pub fn matched(alloc: Global, store: &mut Store, budget: Option<u64>) -> Result<Ran, NoMemory>
    requires { store.old.refuted ≡ false }
    ensures run { IsRun label_matching.LeavesAlone store.old store.new }
    ensures answer { IfOk result (λ ran. IsAnswer label_matching budget store.old store.new ran) }
{
    // what holds of each store turns the last turn into the end state
    let _ = store.vars();
    let items = label_items(alloc, store)?;
    let mut free = FreeLabels::of(alloc, store, items.items())?;
    let mut left = budget;
    let mut changed = false;
    for item in items.items() {
        if !spend(&mut left) {
            return Ok(Ran {
                ending: Ending::Spent,
                changed,
            });
        }
        let did = match_turn(alloc, store, *item, &mut free)?;
        // what holds of each store
        let _ = store.vars();
        if !did {
            continue;
        }
        changed = true;
    }
    Ok(Ran {
        ending: Ending::Finished,
        changed,
    })
}

/// A turn on a cost literal: where some label matches it, it and the lowest such label become one, the lower of both.
fn match_turn(
    alloc: Global,
    store: &mut Store,
    item: u64,
    free: &mut FreeLabels,
) -> Result<bool, NoMemory>
    requires unrefuted { store.old.refuted ≡ false }
    requires fits { AreKnown free.old store.old }
    ensures run { IsRun LeavesOffset store.old store.new }
    ensures turned { IfOk result (λ did. IsMatchTurn item store.old store.new did) }
    ensures fits { OnOk result (AreKnown free.new store.new) }
{
    // what holds of each store puts labels within its variables
    let _ = store.vars();
    let Some(lit) = label_at(store, item) else {
        return Ok(false);
    };
    if !is_plain(store, lit) {
        return Ok(false);
    }
    let known = free.lowest(store, lit);
    let Some(other) = partner(alloc, store, lit, known)? else {
        return Ok(false);
    };
    if lit.variable < other.variable {
        unite(alloc, store, lit, other)?;
    } else {
        unite(alloc, store, other, lit)?;
    }
    Ok(true)
}

/// Makes two labels that match one.
fn unite(alloc: Global, store: &mut Store, kept: Lit, dropped: Lit) -> Result<(), NoMemory>
    requires unrefuted { store.old.refuted ≡ false }
    requires matching { AreMatching kept dropped (labelled_of store.old) }
    ensures ok { OnOk result (IsMatchStep kept dropped store.old store.new) }
    ensures err { OnErr result (IsUntouched store.old store.new) }
{
    let _ = store.vars();
    let rewrite = united(alloc, store, kept, dropped)?;
    store.rewrite(rewrite)?;
    Ok(())
}

/// The rewrite that puts one label in the place of another.
fn united(alloc: Global, store: &Store, kept: Lit, dropped: Lit) -> Result<Rewrite, NoMemory>
    requires matching { AreMatching kept dropped (labelled_of store.now) }
    ensures { IfOk result (λ r. IsMatchingRewrite kept dropped store.now r) }
{
    let _ = store.vars();
    let kept_ids = store.occurrences(kept);
    let dropped_ids = store.occurrences(dropped);
    let mut added = ListOf::new(alloc);
    join_each(alloc, store, &[kept], dropped_ids, dropped, &mut added)?;
    let mut repairs = ListOf::new(alloc);
    put_split(
        alloc,
        store,
        kept,
        dropped,
        kept_ids,
        dropped_ids,
        &mut repairs,
    )?;
    Ok(Rewrite {
        gone: ListOf::from_vec(Vec::from_slice(alloc, dropped_ids)?),
        added,
        costs: no_cost(alloc, dropped)?,
        shift: 0,
        repairs,
        fresh: 0,
    })
}
