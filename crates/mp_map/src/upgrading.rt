//! Maps of the first version written anew as maps of the second.
ghost use Rattle.std.specs.Prelude.{◌≡◌, ◌∷◌, ◌++◌, List, IfOk, OnOk};
ghost use Rattle.mp_map.specs.Entries.{joined};
ghost use Rattle.mp_map.specs.Laws.{UpgradeCarries};
ghost use Rattle.mp_map.specs.Maps.{IsMap, upgraded};
ghost use Rattle.mp_map.specs.declared.maps.Entry.{Entry};

use crate::joining::set_the_same;
use crate::maps::{Entries, Entry, LATEST_VERSION, MapFile};
use mp_logic::{Clauses, Copied, ListOf, NoMemory};
use std::alloc::Global;
use std::mem;

/// The map of the latest version that says the same: each longest run of neighbouring entries that set the same literals
/// is one entry, with their clauses in order. It goes over the entries once, and copies each clause once.
pub fn upgrade(alloc: Global, map: &MapFile) -> Result<MapFile, NoMemory>
    requires { IsMap map.now }
    ensures upgraded { IfOk result (λ made. made ≡ upgraded map.now) }
    ensures valid { IfOk result IsMap }
{
    Ok(MapFile {
        version: LATEST_VERSION,
        original: map.original,
        inner: map.inner,
        written: map.written,
        offset: map.offset,
        names: map.names.copy(alloc)?,
        repairs: joined_neighbours(alloc, &map.repairs)?,
    })
}

/// An upgraded map carries every assignment back as the map does.
pub fn upgrade_carries()
    ensures { UpgradeCarries }
{}

fn joined_neighbours(alloc: Global, entries: &Entries) -> Result<Entries, NoMemory>
    ensures { IfOk result (λ made. made ≡ joined entries.now) }
{
    let mut made = ListOf::new(alloc);
    let Some((first, others)) = entries.items().split_first() else {
        return Ok(made);
    };
    let mut last = first.copy(alloc)?;
    for entry in others {
        add_entry(alloc, &mut made, &mut last, entry)?;
    }
    made.push(last)?;
    Ok(made)
}

// Puts an entry behind the last one: its clauses into that, where both set the same literals.
fn add_entry(
    alloc: Global,
    made: &mut Entries,
    last: &mut Entry,
    entry: &Entry,
) -> Result<(), NoMemory>
    ensures { OnOk result ((rest : List Entry) → made.new ++ joined (last.new ∷ rest) ≡ made.old ++ joined (last.old ∷ (entry.now ∷ rest))) }
{
    if set_the_same(&last.sets, &entry.sets) {
        return add_clauses(alloc, &mut last.clauses, &entry.clauses);
    }
    let next = entry.copy(alloc)?;
    made.push(mem::replace(last, next))
}

fn add_clauses(alloc: Global, clauses: &mut Clauses, more: &Clauses) -> Result<(), NoMemory>
    ensures { OnOk result (clauses.new ≡ clauses.old ++ more.now) }
{
    for clause in more.items() {
        clauses.push(clause.copy(alloc)?)?;
    }
    Ok(())
}
