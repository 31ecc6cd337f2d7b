ghost use Rattle.std.specs.Prelude.{◌≡◌, ◌⊎◌, ◌≤◌, MatchOption};
ghost use Rattle.mp_logic.specs.Literal.{Literal, IsUpTo};
ghost use Rattle.core_solver.specs.Searching.{IsCursor, IsChoice, IsOpenLiteral, HasValue};
ghost use Rattle.core_solver.specs.Verdicts.{IsQuery};

use crate::order::Order;
use crate::query::Query;
use crate::trail::Trail;
use mp_logic::Lit;

/// What to do where propagation found no conflict: decide a literal, answer that an assumption is false, or answer that all
/// variables have values.
#[derive(Drop)]
pub enum Choice {
    Decide(Lit),
    Refuted(Lit),
    Full,
}

/// How many of the assumptions were true, in order, once the trail was so long.
#[derive(Drop)]
pub struct Cursor {
    pub assumed: usize,
    pub settled: usize,
}

impl Cursor {
    /// What is left of it where the trail was cut to a length and then grew.
    pub fn back_to(self, len: usize) -> Cursor
        ensures { ((result ≡ self) × (self.settled ≤ len)) ⊎ (result ≡ record { assumed = 0; settled = 0 }) }
    {
        if self.settled <= len {
            return self;
        }
        Cursor {
            assumed: 0,
            settled: 0,
        }
    }
}

/// The next assumption without a value, or the variable without one that comes first in the order.
pub fn choose(query: &Query, trail: &Trail, order: &mut Order, cursor: &mut Cursor) -> Choice
    requires query { IsQuery query.now }
    requires cursor { IsCursor query.now trail.now.lits cursor.old }
    ensures choice { IsChoice query.now trail.now.lits result }
    ensures cursor { IsCursor query.now trail.now.lits cursor.new }
{
    'assumptions: while cursor.assumed < query.assumptions.len() {
        let lit = query.assumptions.items()[cursor.assumed];
        if trail.has(lit.negated()) {
            return Choice::Refuted(lit);
        }
        if !trail.has(lit) {
            return Choice::Decide(lit);
        }
        cursor.assumed += 1;
        cursor.settled = trail.len();
    }
    match first_open(query.vars, trail, order) {
        Some(lit) => Choice::Decide(lit),
        None => Choice::Full,
    }
}

// The variable without a value that comes first in the order, with the value that it had last. Where the order has none, the
// variables are gone through, so that nothing rests on the order.
fn first_open(vars: u32, trail: &Trail, order: &mut Order) -> Option<Lit>
    ensures { MatchOption result ((l : Literal) → IsUpTo vars l → HasValue trail.now.lits l) (λ l. IsOpenLiteral vars trail.now.lits l) }
{
    for _ in 0..order.len() {
        let Some(variable) = order.pop() else {
            return lowest_open(vars, trail);
        };
        if let Some(lit) = open_literal(vars, trail, variable, order.phase(variable)) {
            return Some(lit);
        }
    }
    lowest_open(vars, trail)
}

// The lowest variable without a value, as false.
fn lowest_open(vars: u32, trail: &Trail) -> Option<Lit>
    ensures { MatchOption result ((l : Literal) → IsUpTo vars l → HasValue trail.now.lits l) (λ l. IsOpenLiteral vars trail.now.lits l) }
{
    for place in 0..vars {
        if let Some(lit) = open_literal(vars, trail, place + 1, true) {
            return Some(lit);
        }
    }
    None
}

// A literal of the variable, if that is one of the query's and has no value.
fn open_literal(vars: u32, trail: &Trail, variable: u32, negative: bool) -> Option<Lit>
    ensures { MatchOption result ((l : Literal) → IsUpTo vars l → l.variable ≡ variable → HasValue trail.now.lits l) (λ l. IsOpenLiteral vars trail.now.lits l) }
{
    if variable == 0 || variable > vars {
        return None;
    }
    let lit = Lit::new(variable, negative);
    if trail.has(lit) || trail.has(lit.negated()) {
        return None;
    }
    Some(lit)
}
