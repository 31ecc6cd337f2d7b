//! Tables for a form under consecutive variables: the marks of those that stand in its clauses, their numbers, and the
//! clauses under the numbers.
ghost use Rattle.std.specs.Prelude.{◌≡◌, ◌≤◌, ◌<◌, ◌^◌, ◌||◌, ℕ, All, IfOk, IsTrue, filter, length, map};
ghost use Rattle.std.specs.List.{list_any, range_with_len};
ghost use Rattle.std.specs.List.Sorted.{IsPermutation, IsSorted};
ghost use Rattle.std.specs.Cmp.Lexicographic.{slice_cmp};
ghost use Rattle.mp_logic.specs.Literal.{IsUpTo};
ghost use Rattle.mp_logic.specs.Normal.{lit_cmp};
ghost use Rattle.mp_logic.specs.Truth.{value_of};
ghost use Rattle.mp_logic.specs.Labelled.{names_rise};
ghost use Rattle.mp_labels.specs.UnitForm.{has_variable};
ghost use Rattle.mp_labels.specs.Tables.{IsNumbering, HasNumber, by_number};

use crate::keyed::{Keyed, compare_keyed};
use mp_logic::{Clause, Clauses, Lit, Names, NoMemory};
use std::alloc::Global;

/// Marks the variables that stand in the clauses, in a table with a place for each variable from 1.
pub fn mark_clauses(used: &mut [bool], clauses: &Clauses)
    requires { All (All (IsUpTo (length used.old))) clauses.now }
    ensures len { length used.new ≡ length used.old }
    ensures marks { (v : ℕ) → 1 ≤ v → value_of used.new v ≡ (value_of used.old v || list_any (has_variable v) clauses.now) }
{
    for clause in clauses.items() {
        mark_clause(used, clause);
    }
}

/// Marks the variables of the clause, in a table with a place for each variable from 1.
pub fn mark_clause(used: &mut [bool], clause: &Clause)
    requires { All (IsUpTo (length used.old)) clause.now }
    ensures len { length used.new ≡ length used.old }
    ensures marks { (v : ℕ) → 1 ≤ v → value_of used.new v ≡ (value_of used.old v || has_variable v clause.now) }
{
    for lit in clause.items() {
        used[lit.variable as usize - 1] = true;
    }
}

/// The variables that are marked, rising; the one error is want of memory.
pub fn marked(alloc: Global, used: &[bool]) -> Result<Names, NoMemory>
    requires { length used.now < 2 ^ 32 }
    ensures { IfOk result (λ made. made ≡ filter (value_of used.now) (range_with_len 1 (length used.now))) }
{
    let mut names = Names::new(alloc);
    for (place, is_used) in used.iter().enumerate() {
        if *is_used {
            names.push(place as u32 + 1)?;
        }
    }
    Ok(names)
}

/// The number of each name, from 1, at the name's place in a table with a place for each variable from 1; the one error is want
/// of memory.
pub fn numbers_of(alloc: Global, vars: u32, names: &Names) -> Result<Vec<u32>, NoMemory>
    requires { IsTrue (names_rise 0 vars names.now) }
    ensures { IfOk result (λ made. IsNumbering names.now made.items) }
{
    let mut numbers = vec![in alloc; 0; vars as usize]?;
    let mut number = 0;
    for name in names.items() {
        number += 1;
        numbers[*name as usize - 1] = number;
    }
    Ok(numbers)
}

/// The clauses under the numbers of their variables, in the order of clauses, repeats kept.
///
/// They are made one for one, each with a key of 8 bytes by which it is put in order, and then go without the keys into a list
/// of their own; the table with the keys lies beside the two lists until then. The one error is want of memory.
pub fn renumbered(alloc: Global, numbers: &[u32], clauses: &Clauses) -> Result<Clauses, NoMemory>
    requires { All (All (HasNumber numbers.now)) clauses.now }
    ensures moved { IfOk result (λ made. IsPermutation (map (map (by_number numbers.now)) clauses.now) made) }
    ensures sorted { IfOk result (λ made. IsSorted (slice_cmp lit_cmp) made) }
{
    let mut keyed = Vec::with_capacity(alloc, clauses.len())?;
    for clause in clauses.items() {
        keyed.push(Keyed::new(renumbered_clause(alloc, numbers, clause)?))?;
    }
    keyed.sort_unstable_by(|a, b| compare_keyed(a, b));
    Ok(Clauses::from_vec(without_keys(alloc, keyed)?))
}

/// The clauses alone, in the order that they have; the one error is want of memory.
fn without_keys(alloc: Global, keyed: Vec<Keyed>) -> Result<Vec<Clause>, NoMemory>
    ensures { IfOk result (λ made. made.items ≡ keyed.items) }
{
    let mut made = Vec::with_capacity(alloc, keyed.len())?;
    for entry in keyed {
        made.push(entry.into_clause())?;
    }
    Ok(made)
}

/// The clause under the numbers of its variables, its literals in the order that they have; the one error is want of memory.
pub fn renumbered_clause(
    alloc: Global,
    numbers: &[u32],
    clause: &Clause,
) -> Result<Clause, NoMemory>
    requires { All (HasNumber numbers.now) clause.now }
    ensures { IfOk result (λ made. made ≡ map (by_number numbers.now) clause.now) }
{
    let mut made = Clause::with_room(alloc, clause.len())?;
    for lit in clause.items() {
        made.push(renumbered_lit(numbers, *lit))?;
    }
    Ok(made)
}

/// The literal under the number of its variable.
pub(crate) fn renumbered_lit(numbers: &[u32], lit: Lit) -> Lit
    requires { HasNumber numbers.now lit }
    ensures { result ≡ by_number numbers.now lit }
{
    Lit::new(numbers[lit.variable as usize - 1], lit.negative)
}
