use mp_logic::ListOf;

/// Names a clause; ids rise in the order in which clauses come, and none is used again.
pub type ClauseId = usize;

pub type Ids = ListOf<ClauseId>;
