ghost use Rattle.std.specs.Prelude.{◌≡◌, ◌≤◌, ◌<◌, ◌^◌, ◌||◌, ℕ, All, IfOk, IsTrue, filter, length, map};
ghost use Rattle.std.specs.List.{list_any, range_with_len};
ghost use Rattle.std.specs.List.Sorted.{IsPermutation, IsSorted};
ghost use Rattle.std.specs.Cmp.Lexicographic.{slice_cmp};
ghost use Rattle.mp_logic.specs.Literal.{IsUpTo};
ghost use Rattle.mp_logic.specs.Normal.{lit_cmp};
ghost use Rattle.mp_logic.specs.Truth.{value_of};
ghost use Rattle.mp_logic.specs.Labelled.{names_rise};
ghost use Rattle.mp_labels.specs.UnitForm.{has_variable};
ghost use Rattle.mp_labels.specs.Tables.{IsNumbering, HasNumber, by_number};
ghost use Rattle.mp_merging.specs.MergedForm.{IsRenumbered, stands_in, variables_of};
ghost use Rattle.mp_merging.specs.Tables.{soft_by_number};

use mp_labels::renumbering::{
    mark_clause, mark_clauses, marked, numbers_of, renumbered, renumbered_clause,
};
use mp_logic::{Instance, Names, NoMemory, Soft, Softs};
use std::alloc::Global;

/// An instance under the numbers of its variables, with the variable of each number.
#[derive(Drop)]
pub(crate) struct Renumbered {
    pub instance: Instance,
    pub names: Names,
}

/// The instance under the numbers of the variables that stand in its clauses, with its hard clauses in order.
pub(crate) fn renumber(alloc: Global, whole: &Instance) -> Result<Renumbered, NoMemory>
    ensures { IfOk result (λ made. IsRenumbered whole.now made.names made.«instance») }
{
    let names = variables_of(alloc, whole)?;
    let numbers = numbers_of(alloc, whole.vars, &names)?;
    let hard = renumbered(alloc, &numbers, &whole.hard)?;
    let soft = renumbered_soft(alloc, &numbers, &whole.soft)?;
    Ok(Renumbered {
        instance: Instance {
            vars: names.len() as u32,
            hard,
            soft,
        },
        names,
    })
}

// The variables that stand in a clause, rising.
fn variables_of(alloc: Global, whole: &Instance) -> Result<Names, NoMemory>
    ensures { IfOk result (λ made. made ≡ variables_of whole.now) }
{
    let mut used = vec![in alloc; false; whole.vars as usize]?;
    mark(&mut used, whole);
    marked(alloc, &used)
}

// Marks the variables that stand in a clause, in a table with a place for each variable from 1.
fn mark(used: &mut [bool], whole: &Instance)
    requires { length used.old ≡ whole.now.vars }
    ensures len { length used.new ≡ length used.old }
    ensures marks { (v : ℕ) → 1 ≤ v → value_of used.new v ≡ (value_of used.old v || stands_in whole.now v) }
{
    mark_clauses(used, &whole.hard);
    mark_soft(used, &whole.soft);
}

fn mark_soft(used: &mut [bool], softs: &Softs)
    requires { All (λ t. All (IsUpTo (length used.old)) t.clause) softs.now }
    ensures len { length used.new ≡ length used.old }
    ensures marks { (v : ℕ) → 1 ≤ v → value_of used.new v ≡ (value_of used.old v || list_any (λ t. has_variable v t.clause) softs.now) }
{
    for soft in softs.items() {
        mark_clause(used, &soft.clause);
    }
}

fn renumbered_soft(alloc: Global, numbers: &[u32], softs: &Softs) -> Result<Softs, NoMemory>
    requires { All (λ t. All (HasNumber numbers.now) t.clause) softs.now }
    ensures { IfOk result (λ made. made ≡ map (soft_by_number numbers.now) softs.now) }
{
    let mut made = Softs::new(alloc);
    for soft in softs.items() {
        let clause = renumbered_clause(alloc, numbers, &soft.clause)?;
        made.push(Soft {
            weight: soft.weight,
            clause,
        })?;
    }
    Ok(made)
}
