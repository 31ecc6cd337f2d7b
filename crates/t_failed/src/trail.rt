ghost use Rattle.std.specs.Prelude.{◌≡◌, ◌<◌, ◌≤◌, ◌++◌, ◌∷◌, [], ℕ, OnOk, MatchBool, Contains, length, take, slice_index_or};
ghost use Rattle.mp_logic.specs.Literal.{negation};
ghost use Rattle.mp_logic.specs.Learning.{IsConsistent};
ghost use Rattle.mp_clauses.specs.Places.{place_of, width};
ghost use Rattle.mp_clauses.specs.Tables.{marked};
ghost use Rattle.t_failed.specs.Propagating.{AreUpTo};

use mp_clauses::{place, widen_marks};
use mp_logic::{Lit, NoMemory};
use std::alloc::Global;
use std::marker::Model;

/// The literals that are made true, in order, each of which is found at once.
#[derive(Drop)]
pub struct Trail {
    lits: Vec<Lit>,
    marks: Vec<bool>,
}

impl Model for Trail {
    ghost use Rattle.std.specs.Prelude.{List};
    ghost use Rattle.mp_logic.specs.Literal.{Literal};
    ghost use Rattle.t_failed.specs.Propagating.{IsMarked};

    ghost Value = { List Literal };

    ghost view = { λ t. t.lits.items };

    ghost invariant = { λ t. IsMarked t.marks.items t.lits.items };
}

/// Whether the table marks the literal.
pub fn is_marked(marks: &[bool], lit: Lit) -> bool
    ensures { result ≡ marked marks.now (place_of lit) }
{
    match marks.get(place(lit)) {
        Some(mark) => *mark,
        None => false,
    }
}

impl Trail {
    pub fn new(alloc: Global) -> Trail
        ensures { result ≡ [] }
    {
        Trail {
            lits: Vec::new(alloc),
            marks: Vec::new(alloc),
        }
    }

    /// How many literals there are: each variable at most once, of so many.
    pub fn len(&self) -> usize
        ensures len { result ≡ length self.now }
        ensures consistent { IsConsistent self.now }
        ensures few { (vars : ℕ) → AreUpTo vars self.now → length self.now ≤ width vars }
    {
        self.lits.len()
    }

    /// The literal at a position.
    pub fn lit(&self, position: usize) -> Lit
        requires { position < length self.now }
        ensures { result ≡ slice_index_or self.now position result }
    {
        self.lits[position]
    }

    /// The literals, in order; `consistent` says what holds of every trail.
    pub fn literals(&self) -> &[Lit]
        ensures literals { result.now ≡ self.now }
        ensures consistent { IsConsistent self.now }
    {
        self.lits.as_slice()
    }

    /// Whether the literal is made true.
    pub fn has(&self, lit: Lit) -> bool
        ensures found { MatchBool result (Contains self.now lit) (Contains self.now lit → ⊥) }
        ensures consistent { IsConsistent self.now }
    {
        is_marked(&self.marks, lit)
    }

    /// Puts a literal last.
    pub fn push(&mut self, lit: Lit) -> Result<(), NoMemory>
        requires open { Contains self.old lit → ⊥ }
        requires not_false { Contains self.old (negation lit) → ⊥ }
        ensures { OnOk result (self.new ≡ self.old ++ lit ∷ []) }
    {
        let at = place(lit);
        self.lits.reserve(1)?;
        widen_marks(&mut self.marks, at + 1)?;
        self.lits.push_reserved(lit);
        self.marks[at] = true;
        Ok(())
    }

    /// Takes away all but the first literals.
    pub fn cut(&mut self, len: usize)
        requires { len ≤ length self.old }
        ensures { self.new ≡ take len self.old }
    {
        'cut: while len < self.lits.len() {
            let last = self.lits.len() - 1;
            let lit = self.lits[last];
            self.marks[place(lit)] = false;
            self.lits.truncate(last);
        }
    }
}
