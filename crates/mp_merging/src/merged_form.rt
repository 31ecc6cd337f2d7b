ghost use Rattle.std.specs.Prelude.{◌≡◌, ◌+◌, ◌≤◌, ℕ, All, IfOk, max, length, nat_eq};
ghost use Rattle.std.specs.List.{list_any};
ghost use Rattle.std.specs.List.Sorted.{IsPermutation, IsNonDecreasingBy};
ghost use Rattle.mp_logic.specs.Truth.{weights_of};
ghost use Rattle.mp_logic.specs.Keeping.{total_of};
ghost use Rattle.mp_logic.specs.Carrying.{Presents};
ghost use Rattle.mp_logic.specs.EndStates.{NoUnits};
ghost use Rattle.mp_labels.specs.UnitForm.{Occurs};
ghost use Rattle.mp_merging.specs.MergedForm.{IsMergingForm, IsMergedForm};
ghost use Rattle.mp_merging.specs.Tables.{IsMerging};

use crate::homes::{homes_of, kept_clauses};
use crate::mergeable::marks_of;
use crate::renumbering::renumber;
use crate::softs::{repairs_of, softs_of};
use mp_labels::{Labelled, Written, unlabel};
use mp_logic::{Clauses, Cost, Costs, Instance, NoMemory, Repairs};
use std::alloc::Global;

/// The merged written form of a labelled state: that of `unlabel`, but a hard clause with at least two literals loses the
/// first label in it that stands in no other hard clause and whose negation stands in none, and becomes the soft clause
/// of that label's cost. Such a label has no name; repairs bring its value back, in order of variable.
///
/// Where a hard clause is empty, the written form is the refuted one: the hard clauses 1 and -1, no soft clause and
/// offset 0. It is the way back from labels to soft clauses of MaxPre (Korhonen, Berg, Saikko and Jarvisalo, 2017).
pub fn merge(alloc: Global, labelled: &Labelled) -> Result<Written, NoMemory>
    ensures form { IfOk result (IsMergingForm labelled.now) }
    ensures presents { IfOk result (Presents labelled.now) }

    // Sums of weights are no greater than before.
    ensures total { IfOk result (λ made. made.offset + weights_of made.«instance».soft ≤ total_of labelled.now) }

    ensures inner_from { IfOk result (λ made. labelled.now.vars ≤ made.inner) }
    ensures inner_to { IfOk result (λ made. made.inner ≤ max 1 labelled.now.vars) }
    ensures no_units { IfOk result (λ made. NoUnits labelled.now.hard → NoUnits made.«instance».hard) }
    ensures all_occur { IfOk result (λ made. (v : ℕ) → 1 ≤ v → v ≤ made.«instance».vars → Occurs made.«instance» v) }
    ensures weighed { IfOk result (λ made. All (λ s. 1 ≤ s.weight) made.«instance».soft) }
{
    if has_empty(&labelled.hard) {
        // the refuted form, which is that of unit soft clauses too
        unlabel(alloc, labelled)
    } else {
        merged(alloc, labelled)
    }
}

fn has_empty(clauses: &Clauses) -> bool
    ensures { result ≡ list_any (λ c. nat_eq (length c) 0) clauses.now }
{
    clauses.items().iter().any(|clause| clause.len() == 0)
}

fn merged(alloc: Global, labelled: &Labelled) -> Result<Written, NoMemory>
    ensures { IfOk result (IsMergedForm labelled.now) }
{
    let merging = merging_of(alloc, labelled)?;
    let form = renumber(alloc, &merging.instance)?;
    Ok(Written {
        instance: form.instance,
        names: form.names,
        inner: labelled.vars,
        offset: labelled.offset,
        repairs: merging.repairs,
    })
}

/// What merging makes of a state, over the state's own variables.
#[derive(Drop)]
struct Merging {
    instance: Instance,
    repairs: Repairs,
}

fn merging_of(alloc: Global, labelled: &Labelled) -> Result<Merging, NoMemory>
    ensures { IfOk result (λ made. IsMerging labelled.now made.«instance» made.repairs) }
{
    let clauses = &labelled.hard;
    let marks = marks_of(alloc, labelled)?;
    let homes = homes_of(alloc, labelled.vars, &marks, clauses)?;
    let hard = kept_clauses(alloc, &marks, clauses)?;
    let costs = in_order(alloc, &labelled.costs)?;
    let soft = softs_of(alloc, &homes, clauses, &costs)?;
    let repairs = repairs_of(alloc, &homes, clauses, &costs)?;
    Ok(Merging {
        instance: Instance {
            vars: labelled.vars,
            hard,
            soft,
        },
        repairs,
    })
}

// The costs in order of variable.
fn in_order(alloc: Global, costs: &Costs) -> Result<Vec<Cost>, NoMemory>
    ensures moved { IfOk result (λ made. IsPermutation costs.now made.items) }
    ensures in_order { IfOk result (λ made. IsNonDecreasingBy (λ p. p.lit.variable) made.items) }
{
    let mut ordered = costs.copy(alloc)?.into_vec();
    ordered.sort_unstable_by_key(|cost| cost.lit.variable);
    Ok(ordered)
}
