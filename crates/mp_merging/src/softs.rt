ghost use Rattle.std.specs.Prelude.{◌≡◌, ◌≤◌, ◌++◌, ◌∷◌, [], All, IfOk, OnOk, length, map};
ghost use Rattle.std.specs.List.{flat_map};
ghost use Rattle.std.specs.Ordering.{is_eq};
ghost use Rattle.mp_logic.specs.Normal.{lit_cmp};
ghost use Rattle.mp_merging.specs.MergedForm.{without, merging_repairs};
ghost use Rattle.mp_merging.specs.Tables.{soft_by, repairs_by};
ghost use Rattle.mp_logic.specs.Rewrites.{set_repair};

use crate::homes::home;
use mp_logic::{Clause, Clauses, Cost, Lit, NoMemory, Repair, Repairs, Soft, Softs};
use std::alloc::Global;

/// A soft clause for each cost: the clause into which its literal is merged, without it, or else its negation alone.
pub(crate) fn softs_of(
    alloc: Global,
    homes: &[usize],
    clauses: &Clauses,
    costs: &[Cost],
) -> Result<Softs, NoMemory>
    requires { All (λ p. p.lit.variable ≤ length homes.now) costs.now }
    ensures { IfOk result (λ made. made ≡ map (soft_by homes.now clauses.now) costs.now) }
{
    let mut made = Softs::new(alloc);
    for cost in costs {
        made.push(soft_of(alloc, homes, clauses, *cost)?)?;
    }
    Ok(made)
}

fn soft_of(alloc: Global, homes: &[usize], clauses: &Clauses, cost: Cost) -> Result<Soft, NoMemory>
    requires { cost.lit.variable ≤ length homes.now }
    ensures { IfOk result (λ made. made ≡ soft_by homes.now clauses.now cost) }
{
    let weight = cost.weight;
    match home(homes, clauses, cost.lit) {
        Some(clause) => {
            let clause = without(alloc, cost.lit, clause)?;
            Ok(Soft { weight, clause })
        }
        None => {
            let clause = unit(alloc, cost.lit.negated())?;
            Ok(Soft { weight, clause })
        }
    }
}

fn without(alloc: Global, lit: Lit, clause: &Clause) -> Result<Clause, NoMemory>
    ensures { IfOk result (λ made. made ≡ without lit clause.now) }
{
    let mut made = Clause::new(alloc);
    for other in clause.items() {
        if !is_same(*other, lit) {
            made.push(*other)?;
        }
    }
    Ok(made)
}

fn is_same(a: Lit, b: Lit) -> bool
    ensures { result ≡ is_eq (lit_cmp a b) }
{
    a == b
}

fn unit(alloc: Global, lit: Lit) -> Result<Clause, NoMemory>
    ensures { IfOk result (λ made. made ≡ lit ∷ []) }
{
    Clause::from_slice(alloc, &[lit])
}

/// The repairs that bring back the values of the merged literals.
pub(crate) fn repairs_of(
    alloc: Global,
    homes: &[usize],
    clauses: &Clauses,
    costs: &[Cost],
) -> Result<Repairs, NoMemory>
    requires { All (λ p. p.lit.variable ≤ length homes.now) costs.now }
    ensures { IfOk result (λ made. made ≡ flat_map (repairs_by homes.now clauses.now) costs.now) }
{
    let mut made = Repairs::new(alloc);
    for cost in costs {
        add_repairs(alloc, &mut made, homes, clauses, *cost)?;
    }
    Ok(made)
}

fn add_repairs(
    alloc: Global,
    repairs: &mut Repairs,
    homes: &[usize],
    clauses: &Clauses,
    cost: Cost,
) -> Result<(), NoMemory>
    requires { cost.lit.variable ≤ length homes.now }
    ensures { OnOk result (repairs.new ≡ repairs.old ++ repairs_by homes.now clauses.now cost) }
{
    match home(homes, clauses, cost.lit) {
        Some(clause) => add_merging(alloc, repairs, cost.lit, clause.copy(alloc)?),
        None => Ok(()),
    }
}

// A merged literal has no name, so its variable begins false: a negative one is made false before its clause is looked at.
fn add_merging(
    alloc: Global,
    repairs: &mut Repairs,
    lit: Lit,
    clause: Clause,
) -> Result<(), NoMemory>
    ensures { OnOk result (repairs.new ≡ repairs.old ++ merging_repairs lit (clause ∷ [])) }
{
    repairs.push(set_repair(alloc, lit, clause)?)?;
    if lit.negative {
        let positive = lit.negated();
        let alone = unit(alloc, positive)?;
        repairs.push(set_repair(alloc, positive, alone)?)?;
    }
    Ok(())
}

fn set_repair(alloc: Global, lit: Lit, clause: Clause) -> Result<Repair, NoMemory>
    ensures { IfOk result (λ made. made ≡ set_repair lit clause) }
{
    let sets = unit(alloc, lit)?;
    Ok(Repair { sets, clause })
}
