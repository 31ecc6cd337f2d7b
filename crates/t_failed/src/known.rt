ghost use Rattle.std.specs.Prelude.{◌≡◌, [], ◌∷◌, ◌||◌, ◌&&◌, OnOk, length, not, ℕ};
ghost use Rattle.mp_clauses.specs.Places.{place_of, has};
ghost use Rattle.mp_clauses.specs.Tables.{marked, AreWithin};

use crate::trail::is_marked;
use mp_clauses::{place, widen_marks};
use mp_logic::{Lit, NoMemory};
use std::alloc::Global;
use std::marker::Model;

/// Literals that do not fail, each of which is found at once. The table is cleared by the literals that it has, never swept.
#[derive(Drop)]
pub struct Known {
    lits: Vec<Lit>,
    marks: Vec<bool>,
}

impl Model for Known {
    ghost use Rattle.std.specs.Prelude.{List, ℕ, ◌≡◌};
    ghost use Rattle.mp_logic.specs.Literal.{Literal};
    ghost use Rattle.mp_clauses.specs.Places.{has};
    ghost use Rattle.mp_clauses.specs.Tables.{marked};

    ghost Value = { List Literal };

    ghost view = { λ s. s.lits.items };

    ghost invariant = { λ s. (p : ℕ) → marked s.marks.items p ≡ has p s.lits.items };
}

/// Takes the marks of the literals away.
fn unmark(marks: &mut Vec<bool>, lits: &[Lit])
    requires { AreWithin (length marks.old.items) lits.now }
    ensures { (p : ℕ) → marked marks.new.items p ≡ (marked marks.old.items p && not (has p lits.now)) }
{
    for lit in lits {
        marks[place(*lit)] = false;
    }
}

impl Known {
    pub fn new(alloc: Global) -> Known
        ensures { result ≡ [] }
    {
        Known {
            lits: Vec::new(alloc),
            marks: Vec::new(alloc),
        }
    }

    pub fn has(&self, lit: Lit) -> bool
        ensures { result ≡ has (place_of lit) self.now }
    {
        is_marked(&self.marks, lit)
    }

    /// Adds the literals, each once.
    pub fn add(&mut self, lits: &[Lit]) -> Result<(), NoMemory>
        ensures { OnOk result ((p : ℕ) → has p self.new ≡ (has p self.old || has p lits.now)) }
    {
        for lit in lits {
            self.insert(*lit)?;
        }
        Ok(())
    }

    fn insert(&mut self, lit: Lit) -> Result<(), NoMemory>
        ensures { OnOk result ((p : ℕ) → has p self.new ≡ (has p self.old || has p (lit ∷ []))) }
    {
        if self.has(lit) {
            return Ok(());
        }
        let place = place(lit);
        widen_marks(&mut self.marks, place + 1)?;
        self.lits.push(lit)?;
        self.marks[place] = true;
        Ok(())
    }

    pub fn clear(&mut self)
        ensures { self.new ≡ [] }
    {
        unmark(&mut self.marks, &self.lits);
        self.lits.clear();
    }
}
