ghost use Rattle.std.specs.Prelude.{◌≡◌, [], ◌++◌, ◌∷◌, ◌&&◌, OnOk, length, not, ℕ};
ghost use Rattle.mp_clauses.specs.Places.{place_of, has};
ghost use Rattle.mp_clauses.specs.Tables.{marked, AreWithin};
ghost use Rattle.mp_store.specs.Clashing.{clash_beside};

use mp_clauses::{place, widen_marks};
use mp_logic::{Lit, NoMemory};
use std::alloc::Global;
use std::marker::Model;

/// The literals of the clause in hand, each of which is found at once. One set serves a whole run: its table is cleared by
/// the literals that it held, never swept.
#[derive(Drop)]
pub struct LiteralSet {
    lits: Vec<Lit>,
    marks: Vec<bool>,
}

impl Model for LiteralSet {
    ghost use Rattle.std.specs.Prelude.{List, ℕ, ◌≡◌};
    ghost use Rattle.mp_logic.specs.Literal.{Literal};
    ghost use Rattle.mp_clauses.specs.Places.{has};
    ghost use Rattle.mp_clauses.specs.Tables.{marked};

    ghost Value = { List Literal };

    ghost view = { λ s. s.lits.items };

    ghost invariant = { λ s. (p : ℕ) → marked s.marks.items p ≡ has p s.lits.items };
}

/// Takes the marks of the literals away.
fn unmark(marks: &mut Vec<bool>, lits: &[Lit])
    requires { AreWithin (length marks.old.items) lits.now }
    ensures { (p : ℕ) → marked marks.new.items p ≡ (marked marks.old.items p && not (has p lits.now)) }
{
    for lit in lits {
        marks[place(*lit)] = false;
    }
}

impl LiteralSet {
    pub fn new(alloc: Global) -> LiteralSet
        ensures { result ≡ [] }
    {
        LiteralSet {
            lits: Vec::new(alloc),
            marks: Vec::new(alloc),
        }
    }

    /// Holds the literals of this clause alone.
    pub fn hold(&mut self, clause: &[Lit]) -> Result<(), NoMemory>
        ensures { OnOk result (self.new ≡ clause.now) }
    {
        self.clear();
        for lit in clause {
            self.insert(*lit)?;
        }
        Ok(())
    }

    fn clear(&mut self)
        ensures { self.new ≡ [] }
    {
        unmark(&mut self.marks, &self.lits);
        self.lits.clear();
    }

    fn insert(&mut self, lit: Lit) -> Result<(), NoMemory>
        ensures { OnOk result (self.new ≡ self.old ++ lit ∷ []) }
    {
        let place = place(lit);
        widen_marks(&mut self.marks, place + 1)?;
        self.lits.push(lit)?;
        self.marks[place] = true;
        Ok(())
    }

    /// The literals, in the clause's order.
    pub fn literals(&self) -> &[Lit]
        ensures { result.now ≡ self.now }
    {
        self.lits.as_slice()
    }

    pub fn has(&self, lit: Lit) -> bool
        ensures { result ≡ has (place_of lit) self.now }
    {
        match self.marks.get(place(lit)) {
            Some(mark) => *mark,
            None => false,
        }
    }

    /// Whether the clause has the negation of a literal of the set, one on another variable than this one.
    pub fn clashes_beside(&self, variable: u32, clause: &[Lit]) -> bool
        ensures { result ≡ clash_beside variable self.now clause.now }
    {
        clause
            .iter()
            .any(|lit| lit.variable != variable && self.has(lit.negated()))
    }
}
