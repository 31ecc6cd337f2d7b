//! The entries of a map, made out of the repairs of a run.
ghost use Rattle.std.specs.Prelude.{◌≡◌, ◌↔◌, ◌∷◌, ◌++◌, [], ℕ, List, All, IsTrue, map, cond, length, IfOk, OnOk};
ghost use Rattle.mp_map.specs.Entries.{entries_of, entry_of, fits_version, joined, repairs_of, same_literals};
ghost use Rattle.mp_map.specs.declared.maps.Entry.{Entry};

use crate::maps::{Entries, Entry};
use mp_logic::{Clause, ListOf, NoMemory, Repair, Repairs};
use std::alloc::Global;
use std::mem;

/// The entries of repairs: one for each of them, or, with `join`, one for each longest run of neighbours that set the same
/// literals, with their clauses in order. It goes over the repairs once, and copies each clause once.
pub fn entries(alloc: Global, repairs: &Repairs, join: bool) -> Result<Entries, NoMemory>
    ensures made { IfOk result (λ made. made ≡ entries_of join repairs.now) }
    ensures stand { IfOk result (λ made. repairs_of made ≡ repairs.now) }
    ensures fit { IfOk result (λ made. All (λ e. IsTrue (fits_version (cond join 2 1) (length e.clauses))) made) }
{
    if join {
        joined_entries(alloc, repairs)
    } else {
        single_entries(alloc, repairs)
    }
}

fn single_entries(alloc: Global, repairs: &Repairs) -> Result<Entries, NoMemory>
    ensures { IfOk result (λ made. made ≡ map entry_of repairs.now) }
{
    let mut made = ListOf::from_vec(Vec::with_capacity(alloc, repairs.len())?);
    for repair in repairs.items() {
        made.push(entry_for(alloc, repair)?)?;
    }
    Ok(made)
}

fn joined_entries(alloc: Global, repairs: &Repairs) -> Result<Entries, NoMemory>
    ensures { IfOk result (λ made. made ≡ joined (map entry_of repairs.now)) }
{
    let mut made = ListOf::new(alloc);
    let Some((first, others)) = repairs.items().split_first() else {
        return Ok(made);
    };
    let mut last = entry_for(alloc, first)?;
    for repair in others {
        add_repair(alloc, &mut made, &mut last, repair)?;
    }
    made.push(last)?;
    Ok(made)
}

// The entry of one repair, with room for one clause, since most entries get no more.
fn entry_for(alloc: Global, repair: &Repair) -> Result<Entry, NoMemory>
    ensures { IfOk result (λ e. e ≡ entry_of repair.now) }
{
    let mut clauses = ListOf::from_vec(Vec::with_capacity(alloc, 1)?);
    clauses.push(repair.clause.copy(alloc)?)?;
    Ok(Entry {
        sets: repair.sets.copy(alloc)?,
        clauses,
    })
}

// Puts a repair behind the last entry: into it, where both set the same literals.
fn add_repair(
    alloc: Global,
    made: &mut Entries,
    last: &mut Entry,
    repair: &Repair,
) -> Result<(), NoMemory>
    ensures { OnOk result ((rest : List Entry) → made.new ++ joined (last.new ∷ rest) ≡ made.old ++ joined (last.old ∷ (entry_of repair.now ∷ rest))) }
{
    if set_the_same(&last.sets, &repair.sets) {
        return last.clauses.push(repair.clause.copy(alloc)?);
    }
    let next = entry_for(alloc, repair)?;
    made.push(mem::replace(last, next))
}

/// Whether two lists are the same literals in the same order.
pub fn set_the_same(a: &Clause, b: &Clause) -> bool
    ensures { result ≡ same_literals a.now b.now }
{
    a.items() == b.items()
}
