//! Subsumed label elimination (Berg, Saikko and Järvisalo, 2016). A label may be false for good where no clause has it, or
//! where another label is in each of its clauses that is plain, so that no clause has its negation, and weighs no more. A
//! model in which the first is true may make it false and the other one true: no clause misses the first, none minds the
//! second, and it costs no more. So the negation of the label is fixed.
//!
//! A turn takes one label. The labels of its first clause that may cover it are kept as long as each further clause has
//! them, and the turn leaves at the first clause that none is left for. So it costs no more than the clauses of its label.
//! A label can become covered only where one of its clauses goes, or where a label beside it becomes plain; only those are
//! looked at again.
ghost use Rattle.std.specs.Prelude.{◌≡◌, ◌≢◌, ◌↔◌, ◌≤◌, ◌+◌, IfOk, IfSome, OnOk, IsTrue, All, false, true, length};
ghost use Rattle.std.specs.List.{filter};
ghost use Rattle.mp_logic.specs.Literal.{IsUpTo};
ghost use Rattle.mp_clauses.specs.Slots.{is_live, live_clauses};
ghost use Rattle.mp_clauses.specs.Weighing.{weight_in};
ghost use Rattle.mp_store.specs.Held.{labelled_of};
ghost use Rattle.mp_store.specs.Techniques.{IsRun, IsAnswer};
ghost use Rattle.t_labels.specs.Covers.{subsumed_labels, IsCovered, cost_in, may_pay, is_in_each};

use crate::candidates::{label_at, label_places, may_cover};
use crate::lowering::{find_near, find_with, make_false, queue_again};
use mp_logic::{Clause, Lit, NoMemory};
use mp_store::{ClauseId, LiteralSet, Ran, Store};
use mp_turns::{Items, Turn, Turned, run_turns};
use std::alloc::Global;

/// Makes labels false that others cover, taking each in turn, in order of literals, and again those near one that became
/// false. Finished where each label is in a clause and no other covers it; Spent where the budget of turns is used up before.
/// Each turn makes one label false at most and puts one repair last, so `turns` says that no more of them come than the budget
/// has turns. Its one error is want of memory, and what it did before that stands.
pub fn covered(alloc: Global, store: &mut Store, budget: Option<u64>) -> Result<Ran, NoMemory>
    requires { store.old.refuted ≡ false }
    ensures run { IsRun subsumed_labels.LeavesAlone store.old store.new }
    ensures turns { IfSome budget (λ b. length store.new.repairs ≤ length store.old.repairs + b) }
    ensures answer { IfOk result (λ ran. IsAnswer subsumed_labels budget store.old store.new ran) }
{
    let mut turn = Covering {
        hand: LiteralSet::new(alloc),
        kept: Vec::new(alloc),
        gone: Clause::new(alloc),
        near: Vec::new(alloc),
    };
    run_turns(alloc, store, &mut turn, budget)
}

/// A clause of the label whose turn it is, the labels that may cover it, the literals of the clauses that go with it, and the
/// places of the labels near it.
#[derive(Drop)]
struct Covering {
    hand: LiteralSet,
    kept: Vec<Lit>,
    gone: Clause,
    near: Vec<u64>,
}

impl Turn for Covering {
    ghost use Rattle.std.specs.Prelude.{⊤};
    ghost use Rattle.t_labels.specs.Covers.{covering};

    ghost turning = { covering };

    ghost fits = { λ t h. ⊤ };

    fn candidates(&self, alloc: Global, store: &Store) -> Result<Items, NoMemory> {
        label_places(alloc, store)
    }

    fn turn(
        &mut self,
        alloc: Global,
        store: &mut Store,
        item: u64,
        again: &mut Items,
    ) -> Result<Turned, NoMemory> {
        // what holds of each store puts labels within its variables
        let _ = store.vars();
        let Some(lit) = label_at(store, item) else {
            return Ok(Turned::Idle);
        };
        let covered = is_covered(store, lit, &mut self.hand, &mut self.kept)?;
        if !covered {
            return Ok(Turned::Idle);
        }
        find_with(store, lit.negated(), &mut self.gone)?;
        make_false(alloc, store, lit)?;
        // what holds of each store makes a change a smaller state
        let _ = store.vars();
        find_near(store, self.gone.items(), &[], &mut self.near)?;
        queue_again(&self.near, again)?;
        Ok(Turned::Changed)
    }
}

/// Whether no clause has the label or another one covers it.
fn is_covered(
    store: &Store,
    lit: Lit,
    hand: &mut LiteralSet,
    kept: &mut Vec<Lit>,
) -> Result<bool, NoMemory>
    requires label { weight_in store.now.weights lit ≢ 0 }
    ensures { IfOk result (λ yes. IsTrue yes ↔ IsCovered (cost_in store.now.weights lit) (labelled_of store.now)) }
{
    // what holds of each store puts the label and its clauses within its variables
    let _ = store.vars();
    let ids = store.occurrences(lit);
    let Some((first, rest)) = ids.split_first() else {
        return Ok(true);
    };
    note_payers(store, lit, store.clause(*first), kept)?;
    keep_common(store, rest, hand, kept)?;
    Ok(!kept.is_empty())
}

/// The labels of a clause that may cover the label and weigh no more.
fn note_payers(store: &Store, lit: Lit, clause: &[Lit], kept: &mut Vec<Lit>) -> Result<(), NoMemory>
    requires { All (IsUpTo store.now.vars) clause.now }
    ensures { OnOk result (kept.new.items ≡ filter (may_pay store.now lit) clause.now) }
{
    kept.clear();
    for other in clause {
        if may_pay(store, lit, *other) {
            kept.push(*other)?;
        }
    }
    Ok(())
}

fn may_pay(store: &Store, lit: Lit, other: Lit) -> bool
    requires { other.variable ≤ store.now.vars }
    ensures { result ≡ may_pay store.now lit other }
{
    store.weight(other) <= store.weight(lit) && may_cover(store, lit, other)
}

/// Keeps those of the literals that each of these clauses has.
fn keep_common(
    store: &Store,
    ids: &[ClauseId],
    hand: &mut LiteralSet,
    kept: &mut Vec<Lit>,
) -> Result<(), NoMemory>
    requires { All (λ id. is_live store.now.slots id ≡ true) ids.now }
    ensures { OnOk result (kept.new.items ≡ filter (is_in_each store.now.slots ids.now) kept.old.items) }
{
    for id in ids {
        if kept.is_empty() {
            return Ok(());
        }
        hand.hold(store.clause(*id))?;
        kept.retain(|other| hand.has(*other));
    }
    Ok(())
}
