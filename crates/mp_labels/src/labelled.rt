use mp_logic::{Clauses, Copied, Costs, NoMemory, Weight};
use std::alloc::Global;
use std::marker::Model;

/// A labelled state: hard clauses, literals that are paid for where they are true, and what is always paid.
#[derive(Debug, Drop)]
pub struct Labelled {
    pub vars: u32,
    pub hard: Clauses,
    pub costs: Costs,
    pub offset: Weight,
}

impl Model for Labelled {
    ghost use Rattle.mp_logic.specs.Keeping.{State};
    ghost use Rattle.mp_logic.specs.Labelled.{IsLabelled};

    ghost Value = { State };

    ghost view = { λ l. record { vars = l.vars; hard = l.hard; costs = l.costs; offset = l.offset } };

    ghost invariant = { λ l. IsLabelled l.vars l.hard l.costs l.offset };
}

impl Copied for Labelled {
    fn copy(&self, alloc: Global) -> Result<Self, NoMemory> {
        Ok(Labelled {
            vars: self.vars,
            hard: self.hard.copy(alloc)?,
            costs: self.costs.copy(alloc)?,
            offset: self.offset,
        })
    }
}
