ghost use Rattle.std.specs.Prelude.{◌≡◌, ◌≤◌};
ghost use Rattle.mp_logic.specs.Literal.{negation};

use crate::clauses::Clause;
use crate::lists::{Copied, ListOf, NoMemory};
use std::alloc::Global;
use std::marker::Model;

/// A variable, a number from 1, or its negation. Literals are ordered by variable, the positive one first.
#[derive(Clone, Copy, Debug, PartialEq, Eq, PartialOrd, Ord)]
pub struct Lit {
    pub variable: u32,
    pub negative: bool,
}

impl Model for Lit {
    ghost use Rattle.std.specs.Prelude.{◌≤◌};
    ghost use Rattle.mp_logic.specs.Literal.{Literal};

    ghost Value = { Literal };

    ghost view = { λ l. record { variable = l.variable; negative = l.negative } };

    ghost invariant = { λ l. 1 ≤ l.variable };

    ghost inverse = { λ l. record { variable = l.variable; negative = l.negative } };
}

/// A list of clauses.
pub type Clauses = ListOf<Clause>;

/// A list of variables.
pub type Names = ListOf<u32>;

/// The values of the variables 1, 2, ..; a variable past the end is false.
pub type Assignment = ListOf<bool>;

impl Lit {
    /// The literal of a variable, from 1, or its negation.
    pub fn new(variable: u32, negative: bool) -> Lit
        requires { 1 ≤ variable }
        ensures variable { result.variable ≡ variable }
        ensures sign { result.negative ≡ negative }
    {
        Lit { variable, negative }
    }

    /// The other literal of the variable.
    pub fn negated(self) -> Lit
        ensures { result ≡ negation self }
    {
        Lit {
            variable: self.variable,
            negative: !self.negative,
        }
    }
}

/// The first variable, which fills the unused places of small vectors.
impl Default for Lit {
    fn default() -> Lit {
        Lit {
            variable: 1,
            negative: false,
        }
    }
}

impl Copied for Lit {
    fn copy(&self, _: Global) -> Result<Self, NoMemory> {
        Ok(*self)
    }
}

impl Copied for bool {
    fn copy(&self, _: Global) -> Result<Self, NoMemory> {
        Ok(*self)
    }
}

impl Copied for u8 {
    fn copy(&self, _: Global) -> Result<Self, NoMemory> {
        Ok(*self)
    }
}

impl Copied for u64 {
    fn copy(&self, _: Global) -> Result<Self, NoMemory> {
        Ok(*self)
    }
}

impl Copied for usize {
    fn copy(&self, _: Global) -> Result<Self, NoMemory> {
        Ok(*self)
    }
}

impl Copied for u32 {
    fn copy(&self, _: Global) -> Result<Self, NoMemory> {
        Ok(*self)
    }
}
