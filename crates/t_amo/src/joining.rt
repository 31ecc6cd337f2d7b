//! Joining labels of which at most one is false: all but one are paid for good, and a new label stands for the last.
ghost use Rattle.std.specs.Prelude.{◌≡◌, ◌≢◌, ◌≤◌, ◌<◌, ◌+◌, ◌++◌, ◌∷◌, [], IfOk, OnOk, OnErr, All, IsTrue, false, length, map};
ghost use Rattle.mp_logic.specs.Literal.{negation};
ghost use Rattle.mp_logic.specs.Normal.{literals_rise, SameLiterals};
ghost use Rattle.mp_clauses.specs.Weighing.{weight_in};
ghost use Rattle.mp_store.specs.Held.{IsUntouched};
ghost use Rattle.t_amo.specs.Choosing.{AreMutual, least_of};
ghost use Rattle.t_amo.specs.Joining.{lowered, IsLeast, IsJoin, IsJoined};

use mp_logic::{Clause, Clauses, Cost, Costs, ListOf, Lit, NoMemory, Weight, normalise};
use mp_store::{Rewrite, Store};
use std::alloc::Global;

/// Joins labels of which each two are a clause, at their least weight.
pub fn join(alloc: Global, store: &mut Store, chosen: &[Lit]) -> Result<(), NoMemory>
    requires unrefuted { store.old.refuted ≡ false }
    requires each_two { AreMutual store.old chosen.now }
    requires two { 2 ≤ length chosen.now }
    requires room { store.old.vars < store.old.inner }
    ensures ok { OnOk result (IsJoined chosen.now store.old store.new) }
    ensures err { OnErr result (IsUntouched store.old store.new) }
{
    // what holds of each store makes the rewrite valid
    let _ = store.vars();
    let least = least_weight(store, chosen);
    let rewrite = joined(alloc, store, chosen, least)?;
    store.rewrite(rewrite)?;
    Ok(())
}

/// The rewrite that joins labels at a weight.
fn joined(alloc: Global, store: &Store, chosen: &[Lit], least: Weight) -> Result<Rewrite, NoMemory>
    requires each_two { AreMutual store.now chosen.now }
    requires two { 2 ≤ length chosen.now }
    requires room { store.now.vars < store.now.inner }
    requires least { IsLeast store.now chosen.now least }
    ensures { IfOk result (λ r. IsJoin chosen.now least store.now r) }
{
    // what holds of each store bounds the shift
    let _ = store.vars();
    let fresh = Lit::new(next_variable(store)?, false);
    let top = top_clause(alloc, chosen, fresh)?;
    let added = one_clause(alloc, top)?;
    let costs = lowered_costs(alloc, store, chosen, least, fresh)?;
    Ok(Rewrite {
        gone: ListOf::new(alloc),
        added,
        costs,
        shift: least * (chosen.len() - 1) as Weight,
        repairs: ListOf::new(alloc),
        fresh: 1,
    })
}

/// The number of the variable that comes. There is no memory for a store whose last variable has the greatest number.
fn next_variable(store: &Store) -> Result<u32, NoMemory>
    ensures { IfOk result (λ made. made ≡ store.now.vars + 1) }
{
    match store.vars().checked_add(1) {
        Some(variable) => Ok(variable),
        None => Err(NoMemory),
    }
}

fn one_clause(alloc: Global, clause: Clause) -> Result<Clauses, NoMemory>
    ensures { IfOk result (λ made. made ≡ clause ∷ []) }
{
    let mut made = ListOf::new(alloc);
    made.push(clause)?;
    Ok(made)
}

/// The least weight of some labels.
fn least_weight(store: &Store, chosen: &[Lit]) -> Weight
    requires { 2 ≤ length chosen.now }
    ensures { IsLeast store.now chosen.now result }
{
    match chosen.split_first() {
        Some((first, rest)) => least_of(store, store.weight(*first), rest),
        None => 0,
    }
}

fn least_of(store: &Store, most: Weight, lits: &[Lit]) -> Weight
    ensures { result ≡ least_of (weight_in store.now.weights) most lits.now }
{
    let mut least = most;
    for lit in lits {
        let weight = store.weight(*lit);
        if weight < least {
            least = weight;
        }
    }
    least
}

/// The clause that says that the new label is true where all of the others are.
fn top_clause(alloc: Global, chosen: &[Lit], fresh: Lit) -> Result<Clause, NoMemory>
    ensures rising { IfOk result (λ top. IsTrue (literals_rise top)) }
    ensures same { IfOk result (λ top. SameLiterals (fresh ∷ map negation chosen.now) top) }
{
    let mut top = Clause::new(alloc);
    top.push(fresh)?;
    for lit in chosen {
        top.push(lit.negated())?;
    }
    normalise(&mut top);
    Ok(top)
}

/// The weights less the least one, which the new label gets.
fn lowered_costs(
    alloc: Global,
    store: &Store,
    chosen: &[Lit],
    least: Weight,
    fresh: Lit,
) -> Result<Costs, NoMemory>
    requires { All (λ b. least ≤ weight_in store.now.weights b) chosen.now }
    ensures { IfOk result (λ made. made ≡ lowered least store.now.weights chosen.now ++ record { lit = fresh; weight = least } ∷ []) }
{
    let mut made = ListOf::new(alloc);
    for lit in chosen {
        made.push(Cost {
            lit: *lit,
            weight: store.weight(*lit) - least,
        })?;
    }
    made.push(Cost {
        lit: fresh,
        weight: least,
    })?;
    Ok(made)
}
