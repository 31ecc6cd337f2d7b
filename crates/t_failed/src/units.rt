//! The literals of the unit clauses.
ghost use Rattle.std.specs.Prelude.{IfOk};
ghost use Rattle.t_failed.specs.Partners.{AreUnits};

use mp_logic::NoMemory;
use mp_store::{LiteralSet, Store};
use std::alloc::Global;

/// The literals of all unit clauses, each of which is found at once.
pub fn units_of(alloc: Global, store: &Store) -> Result<LiteralSet, NoMemory>
    ensures { IfOk result (λ units. AreUnits store.now units) }
{
    let mut lits = Vec::new(alloc);
    for id in 0..store.next_id() {
        if !store.live(id) {
            continue;
        }
        let clause = store.clause(id);
        if clause.len() != 1 {
            continue;
        }
        lits.extend_from_slice(clause)?;
    }
    let mut units = LiteralSet::new(alloc);
    units.hold(&lits)?;
    Ok(units)
}
