ghost use Rattle.std.specs.Prelude.{◌≡◌, ◌≤◌, ℕ, All, IfOk, length, ◌||◌};
ghost use Rattle.mp_logic.specs.Literal.{IsUpTo};
ghost use Rattle.mp_logic.specs.Truth.{value_of};
ghost use Rattle.mp_labels.specs.UnitForm.{has_cost, is_used, names_of};

use crate::labelled::Labelled;
use crate::renumbering::{mark_clauses, marked};
use mp_logic::{Costs, Names, NoMemory};
use std::alloc::Global;

/// The variables that occur in a hard clause or have a cost, rising.
pub(crate) fn names_of(alloc: Global, labelled: &Labelled) -> Result<Names, NoMemory>
    ensures { IfOk result (λ made. made ≡ names_of labelled.now) }
{
    let mut used = vec![in alloc; false; labelled.vars as usize]?;
    mark(&mut used, labelled);
    marked(alloc, &used)
}

// Marks the variables that are used in a table with a place for each variable from 1.
fn mark(used: &mut [bool], labelled: &Labelled)
    requires { length used.old ≡ labelled.now.vars }
    ensures len { length used.new ≡ length used.old }
    ensures marks { (v : ℕ) → 1 ≤ v → value_of used.new v ≡ (value_of used.old v || is_used labelled.now v) }
{
    mark_clauses(used, &labelled.hard);
    mark_costs(used, &labelled.costs);
}

fn mark_costs(used: &mut [bool], costs: &Costs)
    requires { All (λ p. IsUpTo (length used.old) p.lit) costs.now }
    ensures len { length used.new ≡ length used.old }
    ensures marks { (v : ℕ) → 1 ≤ v → value_of used.new v ≡ (value_of used.old v || has_cost v costs.now) }
{
    for cost in costs.items() {
        used[cost.lit.variable as usize - 1] = true;
    }
}
