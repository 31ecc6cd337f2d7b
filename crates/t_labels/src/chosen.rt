ghost use Rattle.std.specs.Prelude.{◌≡◌, ◌++◌, ◌∷◌, [], ◌&&◌, OnOk, length, not, ℕ};
ghost use Rattle.mp_clauses.specs.Places.{place_of, has};
ghost use Rattle.mp_clauses.specs.Tables.{marked, AreWithin};
ghost use Rattle.mp_store.specs.Fixing.{meets};

use mp_clauses::widen_marks;
use mp_logic::{Lit, NoMemory};
use mp_store::place;
use std::alloc::Global;
use std::marker::Model;

/// The labels chosen so far, each of which is found at once. One set serves a whole run: its table is cleared by the labels
/// that it held, never swept.
#[derive(Drop)]
pub struct Chosen {
    lits: Vec<Lit>,
    marks: Vec<bool>,
}

impl Model for Chosen {
    ghost use Rattle.std.specs.Prelude.{List, ℕ, ◌≡◌};
    ghost use Rattle.mp_logic.specs.Literal.{Literal};
    ghost use Rattle.mp_clauses.specs.Places.{has};
    ghost use Rattle.mp_clauses.specs.Tables.{marked};

    ghost Value = { List Literal };

    ghost view = { λ s. s.lits.items };

    ghost invariant = { λ s. (p : ℕ) → marked s.marks.items p ≡ has p s.lits.items };
}

/// Takes the marks of the literals away.
fn unmark(marks: &mut Vec<bool>, lits: &[Lit])
    requires { AreWithin (length marks.old.items) lits.now }
    ensures { (p : ℕ) → marked marks.new.items p ≡ (marked marks.old.items p && not (has p lits.now)) }
{
    for lit in lits {
        marks[place(*lit)] = false;
    }
}

impl Chosen {
    pub fn new(alloc: Global) -> Chosen
        ensures { result ≡ [] }
    {
        Chosen {
            lits: Vec::new(alloc),
            marks: Vec::new(alloc),
        }
    }

    /// Forgets them all.
    pub fn clear(&mut self)
        ensures { self.new ≡ [] }
    {
        unmark(&mut self.marks, &self.lits);
        self.lits.clear();
    }

    /// Puts a label last.
    pub fn insert(&mut self, lit: Lit) -> Result<(), NoMemory>
        ensures { OnOk result (self.new ≡ self.old ++ lit ∷ []) }
    {
        let place = place(lit);
        widen_marks(&mut self.marks, place + 1)?;
        self.lits.push(lit)?;
        self.marks[place] = true;
        Ok(())
    }

    fn has(&self, lit: Lit) -> bool
        ensures { result ≡ has (place_of lit) self.now }
    {
        match self.marks.get(place(lit)) {
            Some(mark) => *mark,
            None => false,
        }
    }

    /// Whether the clause has one of them.
    pub fn meets(&self, clause: &[Lit]) -> bool
        ensures { result ≡ meets self.now clause.now }
    {
        clause.iter().any(|lit| self.has(*lit))
    }
}
