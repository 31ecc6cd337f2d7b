//! Group-subsumed label elimination (Korhonen, Berg, Saikko and Järvisalo, 2017). A label may be false for good where other
//! plain labels, which together weigh no more, have one of them in each of its clauses: a model in which it is true may make
//! it false and the others true, at no greater cost. So the negation of the label is fixed.
//!
//! The group is found greedily: clause by clause, in clause order, the lightest label is chosen where none of those chosen
//! before is in the clause, until they come to more than the label weighs. So a group that would do may be missed, but what
//! is found does not depend on ids.
//!
//! A turn takes one label, and leaves at the first of its clauses without another plain label; only then its clauses are
//! copied and sorted, so that it costs their literals. What is found for a label depends on its clauses and on which of their
//! labels are plain; only labels of clauses that went or were shortened, or beside one that became plain, are looked at again.
ghost use Rattle.std.specs.Prelude.{◌≡◌, ◌≢◌, ◌≤◌, ◌+◌, IfOk, IfSome, OnOk, All, None, false, true, length};
ghost use Rattle.std.specs.List.{list_any};
ghost use Rattle.mp_logic.specs.Literal.{IsUpTo};
ghost use Rattle.mp_clauses.specs.Slots.{is_live, live_clauses};
ghost use Rattle.mp_clauses.specs.Weighing.{weight_in};
ghost use Rattle.mp_store.specs.Held.{labelled_of};
ghost use Rattle.mp_store.specs.Techniques.{IsRun, IsAnswer};
ghost use Rattle.t_labels.specs.Groups.{group_subsumed_labels, AreInOrder};
ghost use Rattle.t_labels.specs.Grouping.{clauses_at, may_cover_at, each_may_be_met, lighter, lightest, is_covered_by_group, IsTested};

use crate::candidates::{label_at, label_places, may_cover};
use crate::chosen::Chosen;
use crate::lowering::{find_near, find_with, make_false, queue_again};
use mp_logic::{Clause, Lit, NoMemory, compare_clauses};
use mp_store::{ClauseId, Ran, Store};
use mp_turns::{Items, Turn, Turned, run_turns};
use std::alloc::Global;

/// Makes labels false that groups of others cover, taking each in turn, in order of literals, and again those near one that
/// became false. Finished where the greedy cover of each label fails; Spent where the budget of turns is used up before.
/// Each turn makes one label false at most and puts one repair last, so `turns` says that no more of them come than the budget
/// has turns. Its one error is want of memory, and what it did before that stands.
pub fn group_covered(alloc: Global, store: &mut Store, budget: Option<u64>) -> Result<Ran, NoMemory>
    requires { store.old.refuted ≡ false }
    ensures run { IsRun group_subsumed_labels.LeavesAlone store.old store.new }
    ensures turns { IfSome budget (λ b. length store.new.repairs ≤ length store.old.repairs + b) }
    ensures answer { IfOk result (λ ran. IsAnswer group_subsumed_labels budget store.old store.new ran) }
{
    let mut turn = GroupCovering {
        chosen: Chosen::new(alloc),
        gone: Clause::new(alloc),
        cut: Clause::new(alloc),
        near: Vec::new(alloc),
    };
    run_turns(alloc, store, &mut turn, budget)
}

/// The group chosen so far for the label whose turn it is, the literals of the clauses that go and of those that are
/// shortened with it, and the places of the labels near it.
#[derive(Drop)]
struct GroupCovering {
    chosen: Chosen,
    gone: Clause,
    cut: Clause,
    near: Vec<u64>,
}

impl Turn for GroupCovering {
    ghost use Rattle.std.specs.Prelude.{⊤};
    ghost use Rattle.t_labels.specs.Groups.{group_covering};

    ghost turning = { group_covering };

    ghost fits = { λ t h. ⊤ };

    fn candidates(&self, alloc: Global, store: &Store) -> Result<Items, NoMemory> {
        label_places(alloc, store)
    }

    fn turn(
        &mut self,
        alloc: Global,
        store: &mut Store,
        item: u64,
        again: &mut Items,
    ) -> Result<Turned, NoMemory> {
        // what holds of each store puts labels within its variables
        let _ = store.vars();
        let Some(lit) = label_at(store, item) else {
            return Ok(Turned::Idle);
        };
        let covered = is_group_covered(alloc, store, lit, &mut self.chosen)?;
        if !covered {
            return Ok(Turned::Idle);
        }
        find_with(store, lit.negated(), &mut self.gone)?;
        find_with(store, lit, &mut self.cut)?;
        make_false(alloc, store, lit)?;
        // what holds of each store makes a change a smaller state
        let _ = store.vars();
        find_near(store, self.gone.items(), self.cut.items(), &mut self.near)?;
        queue_again(&self.near, again)?;
        Ok(Turned::Changed)
    }
}

/// Whether the greedy cover of the label does not fail.
fn is_group_covered(
    alloc: Global,
    store: &Store,
    lit: Lit,
    chosen: &mut Chosen,
) -> Result<bool, NoMemory>
    requires label { weight_in store.now.weights lit ≢ 0 }
    ensures { IfOk result (λ yes. IsTested store.now lit yes) }
{
    // what holds of each store puts the label and its clauses within its variables
    let _ = store.vars();
    let ids = store.occurrences(lit);
    if !each_may_be_met(store, lit, ids) {
        return Ok(false);
    }
    let clauses = in_order(alloc, store, ids)?;
    let covered = is_covered_by_group(store, lit, &clauses, chosen)?;
    Ok(covered)
}

/// Whether each of these clauses has another plain label.
fn each_may_be_met(store: &Store, lit: Lit, ids: &[ClauseId]) -> bool
    requires { All (λ id. is_live store.now.slots id ≡ true) ids.now }
    ensures { result ≡ each_may_be_met store.now lit ids.now }
{
    // what holds of each store puts its clauses within its variables
    let _ = store.vars();
    for id in ids {
        if !may_be_met(store, lit, store.clause(*id)) {
            return false;
        }
    }
    true
}

fn may_be_met(store: &Store, lit: Lit, clause: &[Lit]) -> bool
    requires { All (IsUpTo store.now.vars) clause.now }
    ensures { result ≡ list_any (may_cover_at store.now lit) clause.now }
{
    for other in clause {
        if may_cover(store, lit, *other) {
            return true;
        }
    }
    false
}

/// The clauses of these ids, in clause order.
fn in_order(alloc: Global, store: &Store, ids: &[ClauseId]) -> Result<Vec<Clause>, NoMemory>
    requires { All (λ id. is_live store.now.slots id ≡ true) ids.now }
    ensures { IfOk result (λ made. AreInOrder (clauses_at store.now.slots ids.now) made.items) }
{
    let mut made = copies(alloc, store, ids)?;
    made.sort_unstable_by(|a, b| compare_clauses(a, b));
    Ok(made)
}

/// The clauses of these ids, in their order.
fn copies(alloc: Global, store: &Store, ids: &[ClauseId]) -> Result<Vec<Clause>, NoMemory>
    requires { All (λ id. is_live store.now.slots id ≡ true) ids.now }
    ensures { IfOk result (λ made. made.items ≡ clauses_at store.now.slots ids.now) }
{
    let mut made = Vec::with_capacity(alloc, ids.len())?;
    for id in ids {
        made.push(Clause::from_slice(alloc, store.clause(*id))?)?;
    }
    Ok(made)
}

/// Whether the greedy cover over these clauses weighs no more than the label.
fn is_covered_by_group(
    store: &Store,
    lit: Lit,
    clauses: &[Clause],
    chosen: &mut Chosen,
) -> Result<bool, NoMemory>
    requires { All (All (IsUpTo store.now.vars)) clauses.now }
    ensures { IfOk result (λ yes. yes ≡ is_covered_by_group store.now lit clauses.now) }
{
    chosen.clear();
    let mut left = store.weight(lit);
    for clause in clauses {
        if !chosen.meets(clause.items()) {
            let Some(best) = lightest(store, lit, clause.items()) else {
                return Ok(false);
            };
            let weight = store.weight(best);
            if left < weight {
                return Ok(false);
            }
            left -= weight;
            chosen.insert(best)?;
        }
    }
    Ok(true)
}

/// The lightest other plain label of a clause.
fn lightest(store: &Store, lit: Lit, clause: &[Lit]) -> Option<Lit>
    requires { All (IsUpTo store.now.vars) clause.now }
    ensures { result ≡ lightest (weight_in store.now.weights) (may_cover_at store.now lit) None clause.now }
{
    let mut best = None;
    for other in clause {
        if may_cover(store, lit, *other) {
            best = lighter(store, best, *other);
        }
    }
    best
}

/// The lighter of a label found before and another one, the earlier one where both weigh the same.
fn lighter(store: &Store, best: Option<Lit>, other: Lit) -> Option<Lit>
    ensures { result ≡ lighter (weight_in store.now.weights) best other }
{
    let Some(found) = best else {
        return Some(other);
    };
    if store.weight(other) < store.weight(found) {
        return Some(other);
    }
    Some(found)
}
