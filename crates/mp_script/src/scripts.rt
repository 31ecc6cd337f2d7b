use mp_logic::{Copied, ListOf, NoMemory};
use std::alloc::Global;

/// A technique, by the letter that stands for it in a script: `Gr` is `g` and `Amo` is `G`.
#[derive(Clone, Copy, Debug, PartialEq, Eq)]
pub enum Letter {
    U,
    F,
    P,
    B,
    S,
    R,
    V,
    E,
    L,
    Gr,
    M,
    C,
    Amo,
    T,
    K,
    H,
}

/// One run of a technique. The budget counts turns, and for `T`, `K` and `H` the clauses that the solver learns. Without one
/// a technique runs to its end, and `T`, `K` and `H` stop at 1,000 learnt clauses.
#[derive(Clone, Copy, Debug, PartialEq, Eq)]
pub struct Stage {
    pub letter: Letter,
    pub budget: Option<u64>,
}

/// Stages, in the order in which they run.
pub type Stages = ListOf<Stage>;

/// How often the stages of a group run: once; in rounds until one changes nothing; or in so many rounds at most.
#[derive(Clone, Copy, Debug, PartialEq, Eq)]
pub enum Rounds {
    Once,
    Settle,
    At(u32),
}

/// A stage outside loops, or a loop.
#[derive(Debug, Drop)]
pub struct Group {
    pub stages: Stages,
    pub rounds: Rounds,
}

/// Groups, in the order in which they run.
pub type Script = ListOf<Group>;

impl Copied for Stage {
    fn copy(&self, _alloc: Global) -> Result<Self, NoMemory> {
        Ok(*self)
    }
}

impl Copied for Group {
    fn copy(&self, alloc: Global) -> Result<Self, NoMemory> {
        Ok(Group {
            stages: self.stages.copy(alloc)?,
            rounds: self.rounds,
        })
    }
}
