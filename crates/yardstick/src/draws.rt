//! Pseudo-random clauses.
ghost use Rattle.std.specs.Prelude.{◌≡◌, ◌≤◌, ◌<◌, ◌+◌, ◌*◌, ◌/◌, ◌^◌, IfOk};
ghost use Rattle.yardstick.specs.Drawn.{IsDrawn, variables_for};

use mp_logic::{Clause, Lit, NoMemory};
use std::alloc::Global;

/// Which variables the clauses have, and in which order they are rewritten.
#[derive(Clone, Copy, Debug)]
pub enum Order {
    /// variables that lie close together, and clauses in order of id
    Near,
    /// variables from anywhere, and clauses far apart
    Far,
}

/// The variables from which a clause is drawn: three parts of one length, behind the first ones of so many.
#[derive(Clone, Copy, Debug)]
pub struct Window {
    first: u32,
    part: u32,
    vars: u32,
    ghost some: { 1 ≤ part },
    ghost fits: { first + 3 * part ≤ vars },
    ghost few: { vars ≤ 16777215 },
}

/// How many variables a part has where they lie close together.
const CLOSE: u32 = 64;

/// The window for the clause of an id, one of so many.
pub fn window_of(order: Order, clauses: u32, id: u32) -> Window
    requires { clauses ≤ 30000000 }
    ensures { result.vars ≡ variables_for clauses }
{
    let third = clauses / 12 + 1;
    match order {
        Order::Near => {
            let part = if third < CLOSE { third } else { CLOSE };
            Window {
                first: 3 * (id % (third - part + 1)),
                part,
                vars: 3 * third,
            }
        }
        Order::Far => Window {
            first: 0,
            part: third,
            vars: 3 * third,
        },
    }
}

/// Pseudo-random numbers (Marsaglia, 2003), the same ones in each run.
#[derive(Clone, Copy, Debug)]
pub struct Draws(u32);

impl Draws {
    pub fn new() -> Draws {
        Draws(2_463_534_242)
    }

    /// A number below the bound.
    pub fn below(&mut self, bound: u32) -> u32
        requires { 1 ≤ bound }
        ensures { result < bound }
    {
        self.0 ^= self.0 << 13;
        self.0 ^= self.0 >> 17;
        self.0 ^= self.0 << 5;
        self.0 % bound
    }

    /// A literal of one of so many variables behind the first ones.
    fn lit(&mut self, first: u32, many: u32) -> Lit
        requires some { 1 ≤ many }
        requires fits { first + many < 2 ^ 32 }
        ensures above { first < result.variable }
        ensures within { result.variable ≤ first + many }
    {
        let variable = first + 1 + self.below(many);
        Lit {
            variable,
            negative: self.below(2) == 1,
        }
    }

    /// A clause with one variable from each part of a window.
    pub fn clause(&mut self, alloc: Global, window: Window) -> Result<Clause, NoMemory>
        ensures { IfOk result (IsDrawn window.vars) }
    {
        let Window { first, part, .. } = window;
        let low = self.lit(first, part);
        let middle = self.lit(first + part, part);
        let high = self.lit(first + 2 * part, part);
        let mut clause = Clause::new(alloc);
        clause.push(low)?;
        clause.push(middle)?;
        clause.push(high)?;
        Ok(clause)
    }
}
