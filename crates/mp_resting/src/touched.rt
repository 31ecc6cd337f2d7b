ghost use Rattle.std.specs.Prelude.{◌≡◌, ℕ, Contains, IfOk, false, true, length, replicate};
ghost use Rattle.mp_resting.specs.Resting.{is_touched};

use mp_logic::NoMemory;
use mp_store::ClauseId;
use std::alloc::Global;
use std::marker::Model;

/// Marks, by id, of the clauses that something has touched since a store was seen, for the ids below a mark. Those from the mark
/// on count as touched, so that where nothing is remembered all are, and no memory is taken.
#[derive(Debug, Drop)]
pub struct Touched {
    marks: Vec<bool>,
}

impl Model for Touched {
    ghost use Rattle.std.specs.Prelude.{List, Bool};

    ghost Value = { List Bool };

    ghost view = { λ t. t.marks.items };
}

impl Touched {
    /// No id below the mark is touched. It takes a byte for each; the one error is want of memory.
    pub fn from_mark(alloc: Global, mark: ClauseId) -> Result<Touched, NoMemory>
        ensures { IfOk result (λ made. made ≡ replicate mark false) }
    {
        Ok(Touched {
            marks: vec![in alloc; false; mark]?,
        })
    }

    /// Whether the id is touched.
    pub fn has(&self, id: ClauseId) -> bool
        ensures { result ≡ is_touched self.now id }
    {
        match self.marks.get(id) {
            Some(mark) => *mark,
            None => true,
        }
    }

    /// Touches these ids.
    pub fn touch(&mut self, ids: &[ClauseId])
        ensures len { length self.new ≡ length self.old }
        ensures before { (id : ℕ) → is_touched self.old id ≡ true → is_touched self.new id ≡ true }
        ensures own { (id : ℕ) → Contains ids.now id → is_touched self.new id ≡ true }
    {
        mark_all(&mut self.marks, ids);
    }
}

fn mark_all(marks: &mut Vec<bool>, ids: &[ClauseId])
    ensures len { length marks.new.items ≡ length marks.old.items }
    ensures before { (id : ℕ) → is_touched marks.old.items id ≡ true → is_touched marks.new.items id ≡ true }
    ensures own { (id : ℕ) → Contains ids.now id → is_touched marks.new.items id ≡ true }
{
    for id in ids {
        mark(marks, *id);
    }
}

fn mark(marks: &mut Vec<bool>, place: usize)
    ensures len { length marks.new.items ≡ length marks.old.items }
    ensures before { (id : ℕ) → is_touched marks.old.items id ≡ true → is_touched marks.new.items id ≡ true }
    ensures own { is_touched marks.new.items place ≡ true }
{
    if place < marks.len() {
        marks[place] = true;
    }
}
