//! Which clauses of before can have to do with those that came since: the ones that share a variable with one of these. A
//! clause all of whose literals, or all but one turned round, stand in another shares each of its variables with it, so the
//! others are passed over by a look at one byte each.
ghost use Rattle.std.specs.Prelude.{◌≡◌, ℕ, ◌≤◌, IfOk, All, Contains, true, false, length, slice_index_or};
ghost use Rattle.mp_logic.specs.Literal.{Literal, IsUpTo};
ghost use Rattle.mp_resting.specs.Resting.{is_touched};
ghost use Rattle.t_subsume.specs.Nearness.{AreTouched, AreWalked, IsNear};

use crate::filter::newer_from;
use mp_logic::{Lit, NoMemory};
use mp_resting::Touched;
use mp_store::{ClauseId, Store};
use std::alloc::Global;

/// Of the ids below a mark those are touched whose clauses may share a variable with one from the mark on, below another id.
#[derive(Drop)]
pub struct Near {
    upto: ClauseId,
    touched: Touched,
}

impl Near {
    /// What is near in a run that remembers the ids below a mark: all that there is, where many clauses are newer. It costs the newer
    /// clauses and the clauses of each of their variables, once. The one error is want of memory.
    pub fn since(alloc: Global, store: &Store, mark: ClauseId) -> Result<Near, NoMemory>
        ensures { IfOk result (λ made. IsNear mark made store.now.slots) }
    {
        // what holds of each store puts its literals within its variables
        let vars = store.vars() as usize;
        let upto = store.next_id();
        let from = newer_from(upto, mark);
        let mut touched = Touched::from_mark(alloc, from)?;
        if from == 0 {
            return Ok(Near { upto, touched });
        }
        let mut walked = vec![in alloc; false; vars + 1]?;
        for id in from..upto {
            if store.live(id) {
                touch_clause(store, &mut walked, &mut touched, store.clause(id));
            }
        }
        Ok(Near { upto, touched })
    }

    /// Whether the clause of the id is one of before, and shares no variable with any newer one.
    pub fn passes(&self, store: &Store, id: ClauseId) -> bool
        ensures all { result ≡ true → length store.now.slots ≤ self.now.upto }
        ensures apart { result ≡ true → is_touched self.now.touched id ≡ false }
    {
        store.next_id() <= self.upto && !self.touched.has(id)
    }
}

/// Touches the clauses that share a variable with this one, those of each variable once.
fn touch_clause(store: &Store, walked: &mut Vec<bool>, touched: &mut Touched, clause: &[Lit])
    requires within { All (IsUpTo store.now.vars) clause.now }
    requires walked { AreWalked walked.old.items touched.old store.now.slots }
    ensures len { length touched.new ≡ length touched.old }
    ensures walked { AreWalked walked.new.items touched.new store.now.slots }
    ensures before { (i : ℕ) → is_touched touched.old i ≡ true → is_touched touched.new i ≡ true }
    ensures own { (l : Literal) → Contains clause.now l → AreTouched l.variable touched.new store.now.slots }
{
    for lit in clause {
        touch_variable(store, walked, touched, *lit);
    }
}

/// Touches the clauses with the literal's variable, unless that is done.
fn touch_variable(store: &Store, walked: &mut Vec<bool>, touched: &mut Touched, lit: Lit)
    requires within { IsUpTo store.now.vars lit }
    requires walked { AreWalked walked.old.items touched.old store.now.slots }
    ensures len { length touched.new ≡ length touched.old }
    ensures walked { AreWalked walked.new.items touched.new store.now.slots }
    ensures before { (i : ℕ) → is_touched touched.old i ≡ true → is_touched touched.new i ≡ true }
    ensures own { AreTouched lit.variable touched.new store.now.slots }
{
    let place = lit.variable as usize;
    if is_marked(walked, place) {
        return;
    }
    touched.touch(store.occurrences(lit));
    touched.touch(store.occurrences(lit.negated()));
    if place < walked.len() {
        walked[place] = true;
    }
}

fn is_marked(marks: &[bool], place: usize) -> bool
    ensures { result ≡ slice_index_or marks.now place false }
{
    match marks.get(place) {
        Some(mark) => *mark,
        None => false,
    }
}
