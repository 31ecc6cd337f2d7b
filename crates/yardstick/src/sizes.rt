//! How much an instance holds.
ghost use Rattle.std.specs.Prelude.{◌≡◌, ◌<◌, ◌^◌, length, sum_by};
ghost use Rattle.mp_wcnf.specs.Refusals.{literals_in};

use mp_logic::{Clause, Instance, Soft};

/// The sizes of an instance.
#[derive(Clone, Copy, Debug)]
pub struct Sizes {
    pub vars: u32,
    pub hard: usize,
    pub soft: usize,
    pub literals: u64,
}

/// The sizes of an instance that is small enough to count.
pub fn sizes_of(instance: &Instance) -> Sizes
    requires { literals_in instance.now < 2 ^ 64 }
    ensures vars { result.vars ≡ instance.now.vars }
    ensures hard { result.hard ≡ length instance.now.hard }
    ensures soft { result.soft ≡ length instance.now.soft }
    ensures literals { result.literals ≡ literals_in instance.now }
{
    Sizes {
        vars: instance.vars,
        hard: instance.hard.len(),
        soft: instance.soft.len(),
        literals: hard_literals(instance.hard.items()) + soft_literals(instance.soft.items()),
    }
}

fn hard_literals(clauses: &[Clause]) -> u64
    requires { sum_by length clauses.now < 2 ^ 64 }
    ensures { result ≡ sum_by length clauses.now }
{
    clauses.iter().map(|clause| clause.len() as u64).sum()
}

fn soft_literals(softs: &[Soft]) -> u64
    requires { sum_by (λ s. length s.clause) softs.now < 2 ^ 64 }
    ensures { result ≡ sum_by (λ s. length s.clause) softs.now }
{
    softs.iter().map(|soft| soft.clause.len() as u64).sum()
}
