//! Failed-literal probing (Freeman, 1995; Le Berre, 2001). Where unit propagation of a literal together with all unit clauses
//! ends in a conflict, each model makes its negation true, which is fixed. The one repair makes it true again.
//!
//! A turn takes one literal. A propagation without a conflict shows at once that none of the literals on its trail fails, so
//! their turns come to a look-up until a literal is fixed. Then each literal of a variable that occurs waits again: those that
//! were taken since the last fix are put last, and the others wait still. What all clauses force is propagated once, and after
//! a change only the clauses that it left are looked at. So a fix costs what was done since the one before, and what it changes.
ghost use Rattle.std.specs.Prelude.{◌≡◌, ◌≤◌, ◌+◌, ◌∷◌, [], ◌⊎◌, ℕ, IfOk, IfSome, OnOk, OnErr, MatchBool, false, true, length};
ghost use Rattle.mp_logic.specs.Literal.{IsUpTo, negation};
ghost use Rattle.mp_logic.specs.Sets.{Implies};
ghost use Rattle.mp_clauses.specs.Slots.{live_clauses};
ghost use Rattle.mp_store.specs.Held.{IsUntouched};
ghost use Rattle.mp_store.specs.Fixing.{fixing_of};
ghost use Rattle.mp_store.specs.Rewriting.{after};
ghost use Rattle.mp_store.specs.Measures.{occurs};
ghost use Rattle.mp_store.specs.Techniques.{IsRun, IsAnswer};
ghost use Rattle.mp_turns.specs.Underway.{StaysWithin};
ghost use Rattle.t_failed.specs.Failed.{failed_literals, probing, IsUnfailed};
ghost use Rattle.t_failed.specs.Propagating.{IsRoot, AreKnown};
ghost use Rattle.t_failed.specs.Taking.{IsFixed};

use crate::candidates::{first_queue, literal_at, wait_again};
use crate::known::Known;
use crate::root::{Root, follow, probe};
use mp_logic::{Clause, Lit, NoMemory};
use mp_store::{Ending, Ran, Rewrite, Store, spend};
use std::alloc::Global;

/// Fixes the negations of literals that fail, taking each literal in turn, in order of literals, and each again after one was
/// fixed. Finished where no literal of a variable that occurs fails, or a clause became empty; Spent where the budget of turns
/// is used up before. Each turn fixes one literal at most and puts one repair last, so `turns` says that no more of them come
/// than the budget has turns. Its one error is want of memory, and what it did before that stands.
pub fn failed(alloc: Global, store: &mut Store, budget: Option<u64>) -> Result<Ran, NoMemory>
    requires { store.old.refuted ≡ false }
    ensures run { IsRun failed_literals.LeavesAlone store.old store.new }
    ensures turns { IfSome budget (λ b. length store.new.repairs ≤ length store.old.repairs + b) }
    ensures answer { IfOk result (λ ran. IsAnswer failed_literals budget store.old store.new ran) }
{
    let mut tables = Probing {
        root: Root::new(alloc, store)?,
        known: Known::new(alloc),
    };
    take_each(alloc, store, &mut tables, budget)
}

/// What all clauses force, and literals that do not fail.
#[derive(Drop)]
struct Probing {
    root: Root,
    known: Known,
}

/// Takes each literal in turn, and each again after one was fixed, until none waits, the store is refuted or the budget of
/// turns is used up. It is the loop of `run_turns`, but that it knows which literals wait.
fn take_each(
    alloc: Global,
    store: &mut Store,
    tables: &mut Probing,
    budget: Option<u64>,
) -> Result<Ran, NoMemory>
    requires unrefuted { store.old.refuted ≡ false }
    requires root { IsRoot store.old tables.old.root.trail tables.old.root.refuted }
    requires known { AreKnown (live_clauses store.old.slots) tables.old.known }
    ensures run { IsRun failed_literals.LeavesAlone store.old store.new }
    ensures stays { StaysWithin probing budget store.old store.new }
    ensures answer { IfOk result (λ ran. IsAnswer failed_literals budget store.old store.new ran) }
{
    // what holds of each store turns the end of the queue into the end state
    let _ = store.vars();
    let mut queue = first_queue(alloc, store)?;
    // the literals taken since the last fix
    let mut taken = Vec::new(alloc);
    let mut left = budget;
    let mut changed = false;
    'turns: while let Some(item) = queue.pop() {
        if !spend(&mut left) {
            return Ok(Ran {
                ending: Ending::Spent,
                changed,
            });
        }
        taken.push(item)?;
        let fixed = take(alloc, store, tables, item)?;
        // what holds of each store
        let _ = store.vars();
        if !fixed {
            continue;
        }
        changed = true;
        if store.refuted() {
            return Ok(Ran {
                ending: Ending::Finished,
                changed,
            });
        }
        wait_again(store, &mut queue, &mut taken)?;
    }
    Ok(Ran {
        ending: Ending::Finished,
        changed,
    })
}

/// A turn on the literal of a place. It answers whether the literal fails: then its negation is fixed.
fn take(alloc: Global, store: &mut Store, tables: &mut Probing, item: u64) -> Result<bool, NoMemory>
    requires unrefuted { store.old.refuted ≡ false }
    requires root { IsRoot store.old tables.old.root.trail tables.old.root.refuted }
    requires known { AreKnown (live_clauses store.old.slots) tables.old.known }
    ensures run { IsRun failed_literals.LeavesAlone store.old store.new }
    ensures stays { probing.stays 1 store.old store.new }
    ensures root { OnOk result (store.new.refuted ≡ false → IsRoot store.new tables.new.root.trail tables.new.root.refuted) }
    ensures known { OnOk result (store.new.refuted ≡ false → AreKnown (live_clauses store.new.slots) tables.new.known) }
    ensures turned { IfOk result (λ fixed. MatchBool fixed ((store.new.refuted ≡ true) ⊎ IsFixed store.old store.new) (IsUntouched store.old store.new × probing.IsIdle store.old item)) }
{
    // what holds of each store makes a change a smaller state
    let _ = store.vars();
    let Some(lit) = literal_at(store, item) else {
        return Ok(false);
    };
    if tables.known.has(lit) {
        return Ok(false);
    }
    if holds(store, &mut tables.root, &mut tables.known, lit)? {
        return Ok(false);
    }
    let first = store.next_id();
    fix(alloc, store, lit.negated())?;
    if store.refuted() {
        return Ok(true);
    }
    tables.known.clear();
    follow(store, &mut tables.root, first)?;
    Ok(true)
}

/// Whether the literal does not fail; then neither do those that follow from it, which get known. Otherwise each model makes
/// it false. What follows from all clauses alone is not gone through.
fn holds(store: &Store, root: &mut Root, known: &mut Known, lit: Lit) -> Result<bool, NoMemory>
    requires lit { IsUpTo store.now.vars lit }
    requires occurs { occurs lit.variable (live_clauses store.now.slots) ≡ true }
    requires root { IsRoot store.now root.old.trail root.old.refuted }
    requires known { AreKnown (live_clauses store.now.slots) known.old }
    ensures root { OnOk result (IsRoot store.now root.new.trail root.new.refuted) }
    ensures known { OnOk result (AreKnown (live_clauses store.now.slots) known.new) }
    ensures answer { IfOk result (λ yes. MatchBool yes (IsUnfailed (live_clauses store.now.slots) lit) (Implies (live_clauses store.now.slots) (negation lit ∷ []))) }
{
    let from = root.trail.len();
    if !probe(store, root, lit)? {
        root.trail.cut(from);
        return Ok(false);
    }
    known.add(&root.trail.literals()[from..])?;
    root.trail.cut(from);
    Ok(true)
}

/// Fixes a literal that each model makes true.
fn fix(alloc: Global, store: &mut Store, lit: Lit) -> Result<(), NoMemory>
    requires unrefuted { store.old.refuted ≡ false }
    requires within { IsUpTo store.old.vars lit }
    ensures ok { OnOk result (IsUntouched (after (fixing_of (lit ∷ []) store.old) store.old) store.new) }
    ensures err { OnErr result (IsUntouched store.old store.new) }
{
    let mut lits = Clause::new(alloc);
    lits.push(lit)?;
    let rewrite = Rewrite::fixing(alloc, store, &lits)?;
    store.rewrite(rewrite)?;
    Ok(())
}
