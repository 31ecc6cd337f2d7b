ghost use Rattle.std.specs.Prelude.{◌≡◌, ◌&&◌, ℕ, IfOk, not};
ghost use Rattle.mp_clauses.specs.Places.{has, place_of};
ghost use Rattle.mp_clauses.specs.Tables.{marked};
ghost use Rattle.mp_resting.specs.Resting.{AreKeptSince};

use crate::seen::Seen;
use mp_logic::{Lit, NoMemory};
use mp_store::{Store, place};
use std::alloc::Global;
use std::marker::Model;

/// Marks, by place, of literals each of whose earlier clauses is still there, as far as what is remembered tells: so a run
/// that asks often asks the lists of clauses once a literal, at its beginning, and then one byte.
#[derive(Debug, Drop)]
pub struct Kept {
    marks: Vec<bool>,
}

impl Model for Kept {
    ghost use Rattle.std.specs.Prelude.{List, Bool};

    ghost Value = { List Bool };

    ghost view = { λ k. k.marks.items };
}

impl Kept {
    /// Marks those of the store's literals that have kept their clauses; no memory is taken where nothing is remembered,
    /// and the one error is want of it.
    pub fn of(alloc: Global, store: &Store, seen: &Seen) -> Result<Kept, NoMemory>
        ensures { IfOk result (λ kept. AreKeptSince kept seen.now store.now) }
    {
        let mut marks = Vec::new(alloc);
        if seen.mark == 0 {
            return Ok(Kept { marks });
        }
        marks.reserve(2 * store.vars() as usize + 2)?;
        marks.push(false)?;
        marks.push(false)?;
        for earlier in 0..store.vars() {
            let positive = Lit::new(earlier + 1, false);
            let negative = Lit::new(earlier + 1, true);
            marks.push(seen.has_kept(store, positive))?;
            marks.push(seen.has_kept(store, negative))?;
        }
        Ok(Kept { marks })
    }

    /// Whether the literal is marked.
    pub fn has(&self, lit: Lit) -> bool
        ensures { result ≡ marked self.now (place_of lit) }
    {
        match self.marks.get(place(lit)) {
            Some(mark) => *mark,
            None => false,
        }
    }

    /// Takes the marks of the literals away, which lose a clause.
    pub fn lose(&mut self, lits: &[Lit])
        ensures { (p : ℕ) → marked self.new p ≡ (marked self.old p && not (has p lits.now)) }
    {
        unmark(&mut self.marks, lits);
    }
}

fn unmark(marks: &mut Vec<bool>, lits: &[Lit])
    ensures { (p : ℕ) → marked marks.new.items p ≡ (marked marks.old.items p && not (has p lits.now)) }
{
    for lit in lits {
        let place = place(*lit);
        if place < marks.len() {
            marks[place] = false;
        }
    }
}
