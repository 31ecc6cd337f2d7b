ghost use Rattle.std.specs.Prelude.{◌≡◌, IfOk};
ghost use Rattle.mp_logic.specs.Rewrites.{set_repair};

use mp_logic::{Clause, Lit, NoMemory, Repair};
use std::alloc::Global;

/// The repair that makes the literal true where the clause is false.
pub fn repair_setting(alloc: Global, lit: Lit, clause: &[Lit]) -> Result<Repair, NoMemory>
    ensures { IfOk result (λ made. made ≡ set_repair lit clause.now) }
{
    let mut sets = Clause::new(alloc);
    sets.push(lit)?;
    Ok(Repair {
        sets,
        clause: Clause::from_slice(alloc, clause)?,
    })
}
