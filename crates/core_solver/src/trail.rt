ghost use Rattle.std.specs.Prelude.{◌≡◌, ℕ, ◌<◌, ◌≤◌, ◌-◌, ◌++◌, ◌∷◌, [], IfOk, OnOk, MatchOption, MatchBool, Contains, length, take, slice_index, slice_index_or};
ghost use Rattle.mp_logic.specs.Literal.{negation};
ghost use Rattle.core_solver.specs.Trails.{Assigned, IsPositionOf, IsSound, IsRetreat};
ghost use Rattle.core_solver.specs.History.{no_reason};
ghost use Rattle.core_solver.specs.Watching.{IsRising};

use crate::order::Order;
use crate::places::place;
use mp_logic::{Lit, NoMemory};
use std::alloc::Global;
use std::marker::Model;

/// The clause that forced a literal, or the mark of a decision.
pub type Reason = usize;

/// What stands for a reason where there is none.
pub const NO_REASON: Reason = usize::MAX;

/// The literals that are made true, in order, each with its reason.
#[derive(Drop)]
pub struct Trail {
    lits: Vec<Lit>,
    reasons: Vec<Reason>,

    // of each literal one more than its position on the trail, 0 where it isn't there
    positions: Vec<usize>,

    // the position of each decision
    marks: Vec<usize>,
    vars: u32,
}

impl Model for Trail {
    ghost use Rattle.std.specs.Prelude.{◌≡◌, length};
    ghost use Rattle.core_solver.specs.Trails.{Assigned, IsTable};

    ghost Value = { Assigned };

    ghost view = { λ t. record { lits = t.lits.items; reasons = t.reasons.items; marks = t.marks.items; vars = t.vars } };

    ghost invariant = { λ t. IsTable t.positions.items t.lits.items t.vars × (length t.reasons.items ≡ length t.lits.items) };
}

impl Trail {
    /// The trail without literals.
    pub fn new(alloc: Global, vars: u32) -> Result<Trail, NoMemory>
        ensures { IfOk result (λ t. t ≡ record { lits = []; reasons = []; marks = []; vars = vars }) }
    {
        Ok(Trail {
            lits: Vec::new(alloc),
            reasons: Vec::new(alloc),
            positions: vec![in alloc; 0; 2 * vars as usize + 2]?,
            marks: Vec::new(alloc),
            vars,
        })
    }

    /// How many literals there are; `sound` says what holds of every trail.
    pub fn len(&self) -> usize
        ensures len { result ≡ length self.now.lits }
        ensures sound { IsSound self.now }
    {
        self.lits.len()
    }

    /// The literal at a position.
    pub fn lit(&self, position: usize) -> Lit
        requires { position < length self.now.lits }
        ensures value { result ≡ slice_index_or self.now.lits position result }
        ensures within { result.variable ≤ self.now.vars }
    {
        self.lits[position]
    }

    /// The reason of the literal at a position.
    pub fn reason(&self, position: usize) -> Reason
        requires { position < length self.now.lits }
        ensures { result ≡ slice_index self.now.reasons position }
    {
        self.reasons[position]
    }

    /// Where the literal stands.
    pub fn position(&self, lit: Lit) -> Option<usize>
        ensures found { MatchOption result (Contains self.now.lits lit → ⊥) (λ i. IsPositionOf self.now.lits lit i) }
        ensures sound { IsSound self.now }
    {
        match self.positions.get(place(lit)) {
            Some(after) if *after > 0 => Some(*after - 1),
            _ => None,
        }
    }

    /// Whether the literal is made true.
    pub fn has(&self, lit: Lit) -> bool
        ensures found { MatchBool result (Contains self.now.lits lit) (Contains self.now.lits lit → ⊥) }
        ensures sound { IsSound self.now }
    {
        match self.position(lit) {
            Some(_) => true,
            None => false,
        }
    }

    /// Puts a literal last.
    pub fn assign(&mut self, lit: Lit, reason: Reason) -> Result<(), NoMemory>
        requires within { lit.variable ≤ self.old.vars }
        requires open { Contains self.old.lits lit → ⊥ }
        requires not_false { Contains self.old.lits (negation lit) → ⊥ }
        ensures { OnOk result (self.new ≡ record self.old { lits = self.old.lits ++ lit ∷ []; reasons = self.old.reasons ++ reason ∷ [] }) }
    {
        self.lits.reserve(1)?;
        self.reasons.push(reason)?;
        self.lits.push_reserved(lit);
        self.positions[place(lit)] = self.lits.len();
        Ok(())
    }

    /// Takes away all but the first literals.
    pub fn cut(&mut self, len: usize)
        requires { len ≤ length self.old.lits }
        ensures { self.new ≡ record self.old { lits = take len self.old.lits; reasons = take len self.old.reasons } }
    {
        'cut: while self.lits.len() > len {
            let last = self.lits.len() - 1;
            let lit = self.lits[last];
            self.positions[place(lit)] = 0;
            self.lits.truncate(last);
        }
        self.reasons.truncate(len);
    }

    /// Begins a level with a literal that no clause forces.
    pub fn decide(&mut self, lit: Lit) -> Result<(), NoMemory>
        requires within { lit.variable ≤ self.old.vars }
        requires open { Contains self.old.lits lit → ⊥ }
        requires not_false { Contains self.old.lits (negation lit) → ⊥ }
        ensures { OnOk result (self.new ≡ record self.old { lits = self.old.lits ++ lit ∷ []; reasons = self.old.reasons ++ no_reason ∷ []; marks = self.old.marks ++ length self.old.lits ∷ [] }) }
    {
        let mark = self.lits.len();
        self.marks.push(mark)?;
        self.assign(lit, NO_REASON)?;
        Ok(())
    }

    /// Where the last level begins.
    pub fn last_mark(&self) -> Option<usize>
        ensures { MatchOption result (self.now.marks ≡ []) (λ m. (0 < length self.now.marks) × (m ≡ slice_index self.now.marks (length self.now.marks - 1))) }
    {
        let levels = self.marks.len();
        if levels == 0 {
            return None;
        }
        Some(self.marks[levels - 1])
    }

    /// How many literals stand before the first level.
    pub fn base(&self) -> usize
        requires { IsRising self.now.marks }
        ensures { (m : ℕ) → Contains self.now.marks m → result ≤ m }
    {
        match self.marks.first() {
            Some(mark) => *mark,
            None => self.lits.len(),
        }
    }

    /// Takes away the levels that begin at a position or later, and gives what stands on them back to the order.
    pub fn retreat(&mut self, back: usize, order: &mut Order) -> Result<(), NoMemory>
        requires { (m : ℕ) → Contains self.old.marks m → m ≤ length self.old.lits }
        ensures { OnOk result (IsRetreat back self.old self.new) }
    {
        let mut levels = self.marks.len();
        let mut len = self.lits.len();
        'retreat: while levels > 0 && self.marks[levels - 1] >= back {
            levels -= 1;
            len = self.marks[levels];
        }
        order.release(&self.lits[len..])?;
        self.marks.truncate(levels);
        self.cut(len);
        Ok(())
    }
}
