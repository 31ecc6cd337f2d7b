ghost use Rattle.std.specs.Prelude.{◌≡◌, ◌<◌, ◌≤◌, ◌+◌, ◌⊎◌, ℕ, ◌∷◌, [], false, IsTrue, List, Contains, OnOk, IfOk, length, take};
ghost use Rattle.mp_logic.specs.Literal.{Literal, negation};
ghost use Rattle.mp_logic.specs.Learning.{IsPropagated, MakesFalse, IsLesson};
ghost use Rattle.core_solver.specs.History.{clause_of, IsForced, IsDecided};
ghost use Rattle.core_solver.specs.Conflicts.{noted, is_seen, IsAbsorbed, IsNotedLow, IsTaught, IsExplained, IsKnown, IsRedundant, IsMinimised};
ghost use Rattle.core_solver.specs.Watching.{IsRising};

use crate::places::same;
use crate::trail::Trail;
use mp_logic::{Clause, Clauses, Lit, NoMemory, normalise};
use std::alloc::Global;

/// A clause that a conflict teaches, and its one literal that was false only on the last level.
#[derive(Drop)]
pub struct Lesson {
    pub clause: Clause,
    pub lit: Lit,
}

/// The room in which conflicts are analysed.
#[derive(Drop)]
pub struct Analysis {
    // by position: whether the literal there is still to be resolved away
    seen: Vec<bool>,
    learnt: Clause,
    lowest: usize,

    // by position: where the literal that became false there may stand in `learnt`
    slots: Vec<usize>,

    /// The literals that the last conflict resolved away.
    pub met: Vec<Lit>,
}

impl Analysis {
    /// Room for so many variables.
    pub fn new(alloc: Global, vars: u32) -> Result<Analysis, NoMemory>
        ensures clear { IfOk result (λ a. (j : ℕ) → is_seen (noted a) j ≡ false) }
        ensures empty { IfOk result (λ a. a.learnt ≡ []) }
        ensures room { IfOk result (λ a. length a.seen.items ≡ vars + 1) }
    {
        Ok(Analysis {
            seen: vec![in alloc; false; vars as usize + 1]?,
            learnt: Clause::new(alloc),
            lowest: 0,
            slots: vec![in alloc; 0; vars as usize + 1]?,
            met: Vec::new(alloc),
        })
    }

    fn note(&mut self, trail: &Trail, lit: Lit, mark: usize) -> Result<(), NoMemory>
        requires { length trail.now.lits ≤ length self.old.seen.items }
        ensures { OnOk result (IsAbsorbed trail.now.lits mark (lit ∷ []) (noted self.old) (noted self.new)) }
    {
        let Some(position) = trail.position(lit.negated()) else {
            return Ok(());
        };
        if position < mark {
            self.note_low(lit, position)?;
            return Ok(());
        }
        self.seen[position] = true;
        if position < self.lowest {
            self.lowest = position;
        }
        Ok(())
    }

    // Puts a literal of a lower level in, unless it is there.
    fn note_low(&mut self, lit: Lit, position: usize) -> Result<(), NoMemory>
        ensures { OnOk result (IsNotedLow lit (noted self.old) (noted self.new)) }
    {
        if self.has_low(lit, position) {
            return Ok(());
        }
        let len = self.learnt.len();
        if let Some(slot) = self.slots.get_mut(position) {
            *slot = len;
        }
        self.learnt.push(lit)?;
        Ok(())
    }

    // Whether a literal that became false at a position is put in.
    fn has_low(&self, lit: Lit, position: usize) -> bool
        ensures { IsTrue result → Contains self.now.learnt lit }
    {
        let Some(slot) = self.slots.get(position) else {
            return false;
        };
        match self.learnt.items().get(*slot) {
            Some(known) => same(*known, lit),
            None => false,
        }
    }

    // Puts in the false literals of a clause.
    fn absorb(&mut self, trail: &Trail, clause: &[Lit], mark: usize) -> Result<(), NoMemory>
        requires { length trail.now.lits ≤ length self.old.seen.items }
        ensures { OnOk result (IsAbsorbed trail.now.lits mark clause.now (noted self.old) (noted self.new)) }
    {
        for lit in clause {
            self.note(trail, *lit, mark)?;
        }
        Ok(())
    }

    // Resolves the clause that is false with the reasons of its literals, the latest first, until one literal of the last
    // level is left: the first unique implication point.
    fn resolve(
        &mut self,
        clauses: &Clauses,
        trail: &Trail,
        mark: usize,
        conflict: usize,
    ) -> Result<Lit, NoMemory>
        requires room { length trail.now.lits ≤ length self.old.seen.items }
        requires mark { mark ≤ length trail.now.lits }
        requires clear { (j : ℕ) → is_seen (noted self.old) j ≡ false }
        requires empty { self.old.learnt ≡ [] }
        requires forced { (i : ℕ) → mark < i → i < length trail.now.lits → IsForced clauses.now trail.now i }
        requires propagated { IsPropagated (take mark trail.now.lits) clauses.now }
        requires known { conflict < length clauses.now }
        requires conflict { MakesFalse trail.now.lits (clause_of clauses.now conflict) }
        ensures taught { IfOk result (λ u. IsTaught clauses.now trail.now.lits mark self.new.learnt u self.new.lowest) }
        ensures clear { OnOk result ((j : ℕ) → is_seen (noted self.new) j ≡ false) }
        ensures room { OnOk result (length self.new.seen.items ≡ length self.old.seen.items) }
    {
        let mut position = trail.len();
        self.lowest = position;
        self.met.truncate(0);
        self.absorb(trail, clauses.items()[conflict].items(), mark)?;
        'resolve: while self.lowest + 1 < position {
            position -= 1;
            if self.seen[position] {
                self.seen[position] = false;
                self.met.push(trail.lit(position))?;
                let reason = trail.reason(position);
                self.absorb(trail, clauses.items()[reason].items(), mark)?;
            }
        }
        self.seen[self.lowest] = false;
        let asserting = trail.lit(self.lowest).negated();
        self.learnt.push(asserting)?;
        Ok(asserting)
    }

    /// The clause that a conflict teaches.
    pub fn learn(
        &mut self,
        alloc: Global,
        clauses: &Clauses,
        trail: &Trail,
        mark: usize,
        conflict: usize,
    ) -> Result<Lesson, NoMemory>
        requires room { length trail.now.lits ≤ length self.old.seen.items }
        requires mark { mark ≤ length trail.now.lits }
        requires clear { (j : ℕ) → is_seen (noted self.old) j ≡ false }
        requires empty { self.old.learnt ≡ [] }
        requires from_one { (c : List Literal) → Contains clauses.now c → (l : Literal) → Contains c l → 1 ≤ l.variable }
        requires forced { (i : ℕ) → mark < i → i < length trail.now.lits → IsForced clauses.now trail.now i }
        requires steps { (i : ℕ) → i < length trail.now.lits → IsForced clauses.now trail.now i ⊎ IsDecided trail.now i }
        requires rising { IsRising trail.now.marks }
        requires propagated { IsPropagated (take mark trail.now.lits) clauses.now }
        requires known { conflict < length clauses.now }
        requires conflict { MakesFalse trail.now.lits (clause_of clauses.now conflict) }
        ensures lesson { IfOk result (λ r. IsLesson clauses.now clauses.now r.clause) }
        ensures taught { IfOk result (λ r. IsTaught clauses.now trail.now.lits mark r.clause r.lit self.new.lowest) }
        ensures clear { OnOk result ((j : ℕ) → is_seen (noted self.new) j ≡ false) }
        ensures empty { OnOk result (self.new.learnt ≡ []) }
        ensures room { OnOk result (length self.new.seen.items ≡ length self.old.seen.items) }
    {
        let _len = trail.len();
        let lit = self.resolve(clauses, trail, mark, conflict)?;
        let mut clause = self.minimised(alloc, clauses, trail, lit)?;
        self.learnt.cut(0);
        normalise(&mut clause);
        Ok(Lesson { clause, lit })
    }

    // The learnt clause without the literals of lower levels that its others make false: those whose reason has no literals
    // but such as stand in the clause or are false without any decision (local minimisation, Sörensson, Biere 2009).
    fn minimised(
        &self,
        alloc: Global,
        clauses: &Clauses,
        trail: &Trail,
        asserting: Lit,
    ) -> Result<Clause, NoMemory>
        requires { IsRising trail.now.marks }
        ensures { IfOk result (λ left. (base : ℕ) × ((m : ℕ) → Contains trail.now.marks m → base ≤ m) × IsMinimised clauses.now trail.now self.now.learnt base asserting self.now.learnt left) }
    {
        let base = trail.base();
        let mut left = Clause::new(alloc);
        for lit in self.learnt.items() {
            if !same(*lit, asserting) && self.is_redundant(clauses, trail, base, *lit) {
                continue;
            }
            left.push(*lit)?;
        }
        Ok(left)
    }

    // Whether the reason of the falsehood of a literal has no others than known literals.
    fn is_redundant(&self, clauses: &Clauses, trail: &Trail, base: usize, lit: Lit) -> bool
        ensures { IsTrue result → IsRedundant clauses.now trail.now self.now.learnt base lit }
    {
        let Some(position) = trail.position(lit.negated()) else {
            return false;
        };
        let reason = trail.reason(position);
        if reason >= clauses.len() {
            return false;
        }
        self.are_known(trail, base, clauses.items()[reason].items(), lit.negated())
    }

    // Whether all literals of a clause but one are known.
    fn are_known(&self, trail: &Trail, base: usize, clause: &[Lit], besides: Lit) -> bool
        ensures { IsTrue result → (k : Literal) → Contains clause.now k → (k ≡ besides) ⊎ IsKnown trail.now.lits self.now.learnt base k }
    {
        for lit in clause {
            if !same(*lit, besides) && !self.is_known(trail, base, *lit) {
                return false;
            }
        }
        true
    }

    // Whether a literal stands in the learnt clause or is false without any decision.
    fn is_known(&self, trail: &Trail, base: usize, lit: Lit) -> bool
        ensures { IsTrue result → IsKnown trail.now.lits self.now.learnt base lit }
    {
        match trail.position(lit.negated()) {
            Some(position) => position < base || self.has_low(lit, position),
            None => false,
        }
    }

    /// Assumptions that no model makes true together, for an assumption that the trail makes false.
    pub fn explain(
        &mut self,
        alloc: Global,
        clauses: &Clauses,
        trail: &Trail,
        lit: Lit,
    ) -> Result<Clause, NoMemory>
        requires room { length trail.now.lits ≤ length self.old.seen.items }
        requires clear { (j : ℕ) → is_seen (noted self.old) j ≡ false }
        requires gone { Contains trail.now.lits (negation lit) }
        requires steps { (i : ℕ) → i < length trail.now.lits → IsForced clauses.now trail.now i ⊎ IsDecided trail.now i }
        ensures core { IfOk result (λ core. IsExplained clauses.now trail.now lit core) }
    {
        let mut core = Clause::new(alloc);
        core.push(lit)?;
        let mut position = trail.len();
        self.note(trail, lit, 0)?;
        'explain: while position > 0 {
            position -= 1;
            if self.seen[position] {
                self.seen[position] = false;
                let reason = trail.reason(position);
                if reason < clauses.len() {
                    self.absorb(trail, clauses.items()[reason].items(), 0)?;
                } else {
                    core.push(trail.lit(position))?;
                }
            }
        }
        Ok(core)
    }
}
