//! Clauses that carry a number which their order goes by, so that most comparisons follow no pointer.
ghost use Rattle.std.specs.Prelude.{◌≡◌};
ghost use Rattle.std.specs.Cmp.Lexicographic.{slice_cmp};
ghost use Rattle.mp_logic.specs.Normal.{lit_cmp};
ghost use Rattle.mp_labels.specs.Keys.{first_place};

use mp_logic::{Clause, Lit, compare_clauses};
use std::cmp::Ordering;
use std::marker::Model;

/// A clause beside the place of its first literal, which contracts see as the clause.
#[derive(Drop)]
pub(crate) struct Keyed {
    first: u64,
    clause: Clause,
}

impl Model for Keyed {
    ghost use Rattle.std.specs.Prelude.{List, ◌≡◌};
    ghost use Rattle.mp_logic.specs.Literal.{Literal};
    ghost use Rattle.mp_labels.specs.Keys.{first_place};

    ghost Value = { List Literal };

    ghost view = { λ k. k.clause };

    ghost invariant = { λ k. k.first ≡ first_place k.clause };
}

impl Keyed {
    /// The clause with its key.
    pub(crate) fn new(clause: Clause) -> Keyed
        ensures { result ≡ clause }
    {
        Keyed {
            first: first_of(clause.items()),
            clause,
        }
    }

    /// The clause alone.
    pub(crate) fn into_clause(self) -> Clause
        ensures { result ≡ self }
    {
        self.clause
    }
}

/// The place of the first literal, from 2, two places for each variable and the positive literal first; 0 where there is none.
fn first_of(lits: &[Lit]) -> u64
    ensures { result ≡ first_place lits.now }
{
    match lits.first() {
        Some(lit) => 2 * lit.variable as u64 + lit.negative as u64,
        None => 0,
    }
}

/// The order of clauses; the literals are read only where the first ones are the same.
pub(crate) fn compare_keyed(a: &Keyed, b: &Keyed) -> Ordering
    ensures { result ≡ slice_cmp lit_cmp a.now b.now }
{
    if a.first < b.first {
        return Ordering::Less;
    }
    if b.first < a.first {
        return Ordering::Greater;
    }
    compare_clauses(&a.clause, &b.clause)
}
