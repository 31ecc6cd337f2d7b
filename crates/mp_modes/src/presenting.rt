//! The written instance and the map for what a run leaves.
ghost use Rattle.std.specs.Prelude.{◌≡◌, ◌≤◌, ◌<◌, ◌+◌, ◌^◌, ◌++◌, ℕ, IfOk, All, length, max, nat_eq};
ghost use Rattle.std.specs.List.{list_any};
ghost use Rattle.mp_logic.specs.Carrying.{Presents};
ghost use Rattle.mp_logic.specs.Keeping.{total_of};
ghost use Rattle.mp_logic.specs.Formula.{IsFormula};
ghost use Rattle.mp_logic.specs.Labelled.{IsLabelled, IsProper, IsWrittenForm};
ghost use Rattle.mp_logic.specs.Truth.{weights_of};
ghost use Rattle.mp_labels.specs.UnitForm.{Occurs};
ghost use Rattle.mp_map.specs.Entries.{entries_of, repairs_of};
ghost use Rattle.mp_modes.specs.Preprocessing.{IsFormOf, joins, map_by, way_of};
ghost use Rattle.mp_modes.specs.Presenting.{PresentsAs};

use mp_engine::Done;
use mp_labels::{Labelled, Written, unlabel};
use mp_logic::{Clauses, Copied, Instance, NoMemory, Repairs};
use mp_map::{Entries, MapFile, entries};
use mp_merging::merge;
use mp_words::MapVersion;
use std::alloc::Global;

/// The instance and the map that stand for what a run leaves.
#[derive(Drop)]
pub struct Presented {
    pub instance: Instance,
    pub map: MapFile,
}

/// The instance and the map for what a run leaves. A refuted run needs no way back.
pub fn present(
    alloc: Global,
    original: u32,
    run: &Done,
    merged: bool,
    version: MapVersion,
) -> Result<Presented, NoMemory>
    requires original { original ≤ 8388607 }
    requires least { original ≤ run.now.labelled.vars }
    requires most { run.now.labelled.vars ≤ 16777215 }
    requires proper { All (IsProper run.now.labelled.vars) run.now.repairs }
    ensures { IfOk result (λ p. PresentsAs merged version original run.now.labelled run.now.repairs p.«instance» p.map) }
{
    let written = written_form(alloc, &run.labelled, merged)?;
    let repairs = way_back(alloc, run, &written.repairs, version)?;
    Ok(with_map(version, original, written, repairs))
}

// The written form of a labelled state, merged or not, with what holds of each labelled state and each written form.
fn written_form(alloc: Global, labelled: &Labelled, merged: bool) -> Result<Written, NoMemory>
    ensures form { IfOk result (IsFormOf merged labelled.now) }
    ensures presents { IfOk result (Presents labelled.now) }
    ensures total { IfOk result (λ made. made.offset + weights_of made.«instance».soft ≤ total_of labelled.now) }
    ensures inner_from { IfOk result (λ made. labelled.now.vars ≤ made.inner) }
    ensures inner_to { IfOk result (λ made. made.inner ≤ max 1 labelled.now.vars) }
    ensures all_occur { IfOk result (λ made. (v : ℕ) → 1 ≤ v → v ≤ made.«instance».vars → Occurs made.«instance» v) }
    ensures labelled { IsLabelled labelled.now.vars labelled.now.hard labelled.now.costs labelled.now.offset }
    ensures written { IfOk result (λ made. IsWrittenForm made.«instance» made.names made.inner made.repairs) }
    ensures formula { IfOk result (λ made. IsFormula made.«instance».vars made.«instance».hard made.«instance».soft) }
{
    let _inner = labelled.vars;
    let written = merged_or_not(alloc, labelled, merged)?;
    let _vars = written.instance.vars;
    Ok(written)
}

fn merged_or_not(alloc: Global, labelled: &Labelled, merged: bool) -> Result<Written, NoMemory>
    ensures form { IfOk result (IsFormOf merged labelled.now) }
    ensures presents { IfOk result (Presents labelled.now) }
    ensures total { IfOk result (λ made. made.offset + weights_of made.«instance».soft ≤ total_of labelled.now) }
    ensures inner_from { IfOk result (λ made. labelled.now.vars ≤ made.inner) }
    ensures inner_to { IfOk result (λ made. made.inner ≤ max 1 labelled.now.vars) }
    ensures all_occur { IfOk result (λ made. (v : ℕ) → 1 ≤ v → v ≤ made.«instance».vars → Occurs made.«instance» v) }
{
    if merged {
        merge(alloc, labelled)
    } else {
        unlabel(alloc, labelled)
    }
}

// The entries of the way back: none where a clause is empty, else those of the run's repairs and then of the form's own.
fn way_back(
    alloc: Global,
    run: &Done,
    own: &Repairs,
    version: MapVersion,
) -> Result<Entries, NoMemory>
    ensures made { IfOk result (λ made. made ≡ entries_of (joins version) (way_of run.now.labelled run.now.repairs own.now)) }
    ensures few { IfOk result (λ made. length (repairs_of made) < 2 ^ 64) }
{
    if has_empty(&run.labelled.hard) {
        return entries_for(alloc, &Repairs::new(alloc), version);
    }
    if own.len() == 0 {
        return entries_for(alloc, &run.repairs, version);
    }
    let all = both(alloc, &run.repairs, own)?;
    entries_for(alloc, &all, version)
}

// The entries of repairs in a map of the version.
fn entries_for(alloc: Global, repairs: &Repairs, version: MapVersion) -> Result<Entries, NoMemory>
    ensures made { IfOk result (λ made. made ≡ entries_of (joins version) repairs.now) }
    ensures few { IfOk result (λ made. length (repairs_of made) < 2 ^ 64) }
{
    let _count = repairs.len();
    entries(alloc, repairs, are_joined(version))
}

fn are_joined(version: MapVersion) -> bool
    ensures { result ≡ joins version }
{
    match version {
        MapVersion::One => false,
        MapVersion::Two => true,
    }
}

// Repairs and others behind them.
fn both(alloc: Global, first: &Repairs, second: &Repairs) -> Result<Repairs, NoMemory>
    ensures { IfOk result (λ made. made ≡ first.now ++ second.now) }
{
    let mut made = first.copy(alloc)?;
    for repair in second.items() {
        made.push(repair.copy(alloc)?)?;
    }
    Ok(made)
}

// A written form, taken apart into the instance and the map.
fn with_map(version: MapVersion, original: u32, written: Written, repairs: Entries) -> Presented
    ensures taken { result.«instance» ≡ written.«instance» }
    ensures map { result.map ≡ map_by version original written repairs }
{
    let Written {
        instance,
        names,
        inner,
        offset,
        ..
    } = written;
    let map = MapFile {
        version: version.number(),
        original,
        inner,
        written: instance.vars,
        offset,
        names,
        repairs,
    };
    Presented { instance, map }
}

// Whether some clause is empty.
fn has_empty(clauses: &Clauses) -> bool
    ensures { result ≡ list_any (λ c. nat_eq (length c) 0) clauses.now }
{
    clauses.items().iter().any(|clause| clause.len() == 0)
}
