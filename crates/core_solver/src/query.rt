use mp_logic::{Assignment, Clause, Clauses};

/// Hard clauses, literals to assume, and how many clauses may be learnt. It is valid where the hard clauses are normal, the
/// assumptions are of distinct variables, and all variables are at most `vars` (`IsQuery`).
#[derive(Debug, Drop)]
pub struct Query {
    pub vars: u32,
    pub hard: Clauses,
    pub assumptions: Clause,
    pub budget: u32,
}

/// An answer: a model of all `vars` variables under the assumptions; assumptions that no model makes true together, without
/// literals where there is no model at all; or the clauses learnt until the budget was spent, in the order in which they
/// were learnt.
#[derive(Debug, Drop)]
pub enum Verdict {
    Model(Assignment),
    Core(Clause),
    Unknown(Clauses),
}
