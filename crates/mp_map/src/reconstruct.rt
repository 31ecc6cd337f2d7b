//! Assignments of a written instance, carried back to the original one.
ghost use Rattle.std.specs.Prelude.{◌≡◌, ◌≤◌, ◌<◌, ◌-◌, ◌+◌, All, false, length, replicate, IfOk};
ghost use Rattle.std.specs.List.{list_all};
ghost use Rattle.mp_logic.specs.Carrying.{carried_back, named};
ghost use Rattle.mp_logic.specs.Literal.{IsUpTo};
ghost use Rattle.mp_logic.specs.Repairs.{made_true};
ghost use Rattle.mp_logic.specs.Truth.{clause_value};
ghost use Rattle.mp_map.specs.Entries.{mended, mended_once};
ghost use Rattle.mp_map.specs.Laws.{EntriesRepair};
ghost use Rattle.mp_map.specs.Maps.{IsMap, carried_back_by, reconstruction_of};

use crate::maps::{Entries, Entry, MapFile};
use mp_logic::{Assignment, Clauses, ListOf, Lit, Names, NoMemory, satisfies};
use std::alloc::Global;

/// As many false values as the map has inner variables: the room that `back` works in.
pub fn room(alloc: Global, map: &MapFile) -> Result<Assignment, NoMemory>
    ensures { IfOk result (λ room. room ≡ replicate map.now.inner false) }
{
    Ok(ListOf::from_vec(vec![in alloc; false; map.inner as usize]?))
}

/// Leaves in the room the assignment of the original instance that the values of the written one stand for. It takes no
/// memory, and nothing that stood in the room matters.
pub fn back(map: &MapFile, values: &Assignment, room: &mut Assignment)
    requires valid { IsMap map.now }
    requires room { length room.old ≡ map.now.inner }
    ensures value { room.new ≡ carried_back_by map.now values.now }
    ensures repairs { room.new ≡ carried_back (reconstruction_of map.now) values.now }
{
    clear(room);
    name(&map.names, values, room);
    apply_entries(room, &map.repairs);
    room.cut(map.original as usize);
}

fn clear(room: &mut Assignment)
    ensures { room.new ≡ replicate (length room.old) false }
{
    for place in 0..room.len() {
        room.set(place, false);
    }
}

/// Gives each name the value of its variable.
fn name(names: &Names, values: &Assignment, room: &mut Assignment)
    requires { All (λ n. (1 ≤ n) × (n ≤ length room.old)) names.now }
    ensures value { room.new ≡ named names.now values.now room.old }
    ensures len { length room.new ≡ length room.old }
{
    for (place, name) in names.items().iter().enumerate() {
        let value = match values.items().get(place) {
            Some(value) => *value,
            None => false,
        };
        room.set(*name as usize - 1, value);
    }
}

// Applies entries in place, the last one first.
fn apply_entries(room: &mut Assignment, entries: &Entries)
    requires { All (λ e. All (IsUpTo (length room.old)) e.sets) entries.now }
    ensures value { room.new ≡ mended entries.now room.old }
    ensures len { length room.new ≡ length room.old }
{
    let mut left = entries.len();
    while left > 0 {
        left -= 1;
        apply_entry(room, &entries.items()[left]);
    }
}

fn apply_entry(room: &mut Assignment, entry: &Entry)
    requires { All (IsUpTo (length room.old)) entry.now.sets }
    ensures value { room.new ≡ mended_once entry.now room.old }
    ensures len { length room.new ≡ length room.old }
{
    if !satisfies_all(&entry.clauses, room) {
        for lit in entry.sets.items() {
            make_true(room, *lit);
        }
    }
}

fn satisfies_all(clauses: &Clauses, a: &Assignment) -> bool
    ensures { result ≡ list_all (clause_value a.now) clauses.now }
{
    clauses.items().iter().all(|clause| satisfies(clause, a))
}

fn make_true(room: &mut Assignment, lit: Lit)
    requires { lit.variable ≤ length room.old }
    ensures { room.new ≡ made_true room.old lit }
{
    room.set(lit.variable as usize - 1, !lit.negative);
}

/// The entries of repairs make of every assignment what the repairs make of it.
pub fn entries_repair()
    ensures { EntriesRepair }
{}
