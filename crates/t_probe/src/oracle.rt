ghost use Rattle.std.specs.Prelude.{◌≡◌, IfOk};
ghost use Rattle.core_solver.specs.Verdicts.{IsQuery, IsRightVerdict};
ghost use Rattle.t_probe.specs.Oracles.{AnswersRightly, IsSound, MayAnswer};

use core_solver::{Query, Verdict};
use mp_logic::NoMemory;
use std::alloc::Global;

/// A closure that may be called on every valid query, and whose verdicts are right. Techniques ask it in place of a solver of
/// their own, so that a caller may give them any.
#[derive(Drop)]
pub struct Oracle<F> {
    f: F,
}

impl<F: Fn(Global, &Query) -> Result<Verdict, NoMemory>> Oracle<F> {
    /// Keeps a closure that answers rightly. It takes no memory.
    pub fn new(f: F) -> Self
        requires { AnswersRightly F.pre F.post f }
        ensures { IsSound F.pre F.post result }
    {
        Oracle { f }
    }

    /// What the closure answers to a valid query. Its one error is want of memory.
    pub fn ask(&self, alloc: Global, query: &Query) -> Result<Verdict, NoMemory>
        requires sound { IsSound F.pre F.post self.now }
        requires valid { IsQuery query.now }
        ensures right { IfOk result (λ v. IsRightVerdict query.now v) }
        ensures given { IfOk result (λ v. MayAnswer F.post self.now query.now v) }
    {
        (self.f)(alloc, query)
    }
}
