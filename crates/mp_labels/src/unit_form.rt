ghost use Rattle.std.specs.Prelude.{◌≡◌, ◌+◌, ◌≤◌, ℕ, [], ◌∷◌, All, IfOk, map, max, length, nat_eq};
ghost use Rattle.std.specs.List.{list_any};
ghost use Rattle.mp_logic.specs.Truth.{weights_of};
ghost use Rattle.mp_logic.specs.Keeping.{total_of};
ghost use Rattle.mp_logic.specs.Carrying.{Presents};
ghost use Rattle.mp_logic.specs.EndStates.{NoUnits};
ghost use Rattle.mp_labels.specs.UnitForm.{IsPlainForm, IsUnitForm, Occurs, refuted_form};
ghost use Rattle.mp_labels.specs.Tables.{HasNumber, soft_by_number, AreSofts};

use crate::labelled::Labelled;
use crate::names::names_of;
use crate::renumbering::{numbers_of, renumbered, renumbered_lit};
use crate::written::Written;
use mp_logic::{
    Clause, Clauses, Cost, Costs, Instance, Lit, Names, NoMemory, Repairs, Soft, Softs,
};
use std::alloc::Global;

/// The written form of a labelled state: an instance over the variables 1, 2, .. for those that the state uses, with
/// its hard clauses and a unit soft clause for each cost literal.
///
/// Where a hard clause is empty, the written form is the refuted one: the hard clauses 1 and -1, no soft clause and
/// offset 0.
pub fn unlabel(alloc: Global, labelled: &Labelled) -> Result<Written, NoMemory>
    ensures form { IfOk result (IsPlainForm labelled.now) }
    ensures presents { IfOk result (Presents labelled.now) }

    // Sums of weights are no greater than before.
    ensures total { IfOk result (λ made. made.offset + weights_of made.«instance».soft ≤ total_of labelled.now) }

    ensures inner_from { IfOk result (λ made. labelled.now.vars ≤ made.inner) }
    ensures inner_to { IfOk result (λ made. made.inner ≤ max 1 labelled.now.vars) }
    ensures no_units { IfOk result (λ made. NoUnits labelled.now.hard → NoUnits made.«instance».hard) }
    ensures all_occur { IfOk result (λ made. (v : ℕ) → 1 ≤ v → v ≤ made.«instance».vars → Occurs made.«instance» v) }
    ensures weighed { IfOk result (λ made. All (λ s. 1 ≤ s.weight) made.«instance».soft) }
{
    if has_empty(&labelled.hard) {
        refuted(alloc, labelled.vars)
    } else {
        renamed(alloc, labelled)
    }
}

fn has_empty(clauses: &Clauses) -> bool
    ensures { result ≡ list_any (λ c. nat_eq (length c) 0) clauses.now }
{
    clauses.items().iter().any(|clause| clause.len() == 0)
}

// The form that no assignment satisfies.
fn refuted(alloc: Global, vars: u32) -> Result<Written, NoMemory>
    ensures { IfOk result (λ made. made ≡ refuted_form vars) }
{
    let mut hard = Clauses::new(alloc);
    hard.push(unit(alloc, Lit::new(1, false))?)?;
    hard.push(unit(alloc, Lit::new(1, true))?)?;
    let mut names = Names::new(alloc);
    names.push(1)?;
    Ok(Written {
        instance: Instance {
            vars: 1,
            hard,
            soft: Softs::new(alloc),
        },
        names,
        inner: if vars == 0 { 1 } else { vars },
        offset: 0,
        repairs: Repairs::new(alloc),
    })
}

// The state under the numbers of its names.
fn renamed(alloc: Global, labelled: &Labelled) -> Result<Written, NoMemory>
    ensures { IfOk result (IsUnitForm labelled.now) }
{
    let names = names_of(alloc, labelled)?;
    let numbers = numbers_of(alloc, labelled.vars, &names)?;
    let hard = renumbered(alloc, &numbers, &labelled.hard)?;
    let soft = softened(alloc, &numbers, &labelled.costs)?;
    Ok(Written {
        instance: Instance {
            vars: names.len() as u32,
            hard,
            soft,
        },
        names,
        inner: labelled.vars,
        offset: labelled.offset,
        repairs: Repairs::new(alloc),
    })
}

fn unit(alloc: Global, lit: Lit) -> Result<Clause, NoMemory>
    ensures { IfOk result (λ made. made ≡ lit ∷ []) }
{
    Clause::from_slice(alloc, &[lit])
}

// A unit soft clause of the negation of each cost literal, in order of variable.
fn softened(alloc: Global, numbers: &[u32], costs: &Costs) -> Result<Softs, NoMemory>
    requires { All (λ p. HasNumber numbers.now p.lit) costs.now }
    ensures { IfOk result (AreSofts numbers.now costs.now) }
{
    let mut ordered = costs.copy(alloc)?.into_vec();
    ordered.sort_unstable_by_key(|cost| cost.lit.variable);
    softs_of(alloc, numbers, &ordered)
}

fn softs_of(alloc: Global, numbers: &[u32], costs: &[Cost]) -> Result<Softs, NoMemory>
    requires { All (λ p. HasNumber numbers.now p.lit) costs.now }
    ensures { IfOk result (λ made. made ≡ map (soft_by_number numbers.now) costs.now) }
{
    let mut made = Softs::new(alloc);
    for cost in costs {
        let lit = renumbered_lit(numbers, cost.lit);
        let clause = unit(alloc, lit.negated())?;
        made.push(Soft {
            weight: cost.weight,
            clause,
        })?;
    }
    Ok(made)
}
