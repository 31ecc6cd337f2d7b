use core_solver::Query;
use mp_logic::{Clauses, Weight};

/// How a technique that asks an oracle ended: nothing was left to do, or the hard clauses were refuted; a query got no answer
/// within its budget, with the clauses that the oracle learnt; or a model was found that costs so much without the offset.
#[derive(Debug, Drop)]
pub enum ProbeEnding {
    Finished,
    Spent { query: Query, learnt: Clauses },
    Bound(Weight),
}

/// What such a technique answers; `changed` says whether the store's clauses, costs, offset or variables differ from before.
#[derive(Debug, Drop)]
pub struct Probed {
    pub ending: ProbeEnding,
    pub changed: bool,
}
