//! A map with many repairs.
ghost use Rattle.std.specs.Prelude.{◌≡◌, ◌≤◌, ℕ, IfOk, length};
ghost use Rattle.mp_logic.specs.Labelled.{IsProper};
ghost use Rattle.mp_map.specs.Entries.{entry_of};
ghost use Rattle.mp_map.specs.Maps.{IsMap};
ghost use Rattle.yardstick.specs.Drawn.{IsDrawn};

use crate::draws::{Draws, Order, window_of};
use mp_logic::{Clause, ListOf, NoMemory, Repair};
use mp_map::{Entry, LATEST_VERSION, MapFile};
use std::alloc::Global;

/// A valid map with so many drawn repairs, over about a quarter as many variables, of which none is left.
pub fn drawn_map(alloc: Global, many: u32) -> Result<MapFile, NoMemory>
    requires { many ≤ 30000000 }
    ensures valid { IfOk result IsMap }
    ensures many { IfOk result (λ map. length map.repairs ≡ many) }
{
    let window = window_of(Order::Far, many, 0);
    let vars = 3 * (many / 12 + 1);
    let mut draws = Draws::new();
    let mut repairs = ListOf::new(alloc);
    'draws: while repairs.len() < many as usize {
        let clause = draws.clause(alloc, window)?;
        let repair = repair_of(alloc, clause)?;
        repairs.push(entry_with(alloc, repair)?)?;
    }
    Ok(MapFile {
        version: LATEST_VERSION,
        original: vars,
        inner: vars,
        written: 0,
        offset: 0,
        names: ListOf::new(alloc),
        repairs,
    })
}

/// The repair that makes the first literal of a drawn clause true where the clause is false.
fn repair_of(alloc: Global, clause: Clause) -> Result<Repair, NoMemory>
    requires { 1 ≤ length clause }
    ensures { (n : ℕ) → IsDrawn n clause → IfOk result (IsProper n) }
{
    let mut sets = Clause::new(alloc);
    sets.push(clause.items()[0])?;
    Ok(Repair { sets, clause })
}

/// The entry of one repair.
fn entry_with(alloc: Global, repair: Repair) -> Result<Entry, NoMemory>
    ensures { IfOk result (λ e. e ≡ entry_of repair) }
{
    let Repair { sets, clause } = repair;
    let mut clauses = ListOf::from_vec(Vec::with_capacity(alloc, 1)?);
    clauses.push(clause)?;
    Ok(Entry { sets, clauses })
}
