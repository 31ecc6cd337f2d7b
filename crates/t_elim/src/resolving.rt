ghost use Rattle.std.specs.Prelude.{◌≡◌, ◌≤◌, ◌++◌, ◌∷◌, [], IfOk, OnOk, All, length, drop, true};
ghost use Rattle.mp_clauses.specs.Slots.{is_live};
ghost use Rattle.t_elim.specs.Resolving.{below, from, past, without_variable, resolvent, resolvents_with, resolvents_of};

use mp_logic::{Clause, Clauses, ListOf, Lit, NoMemory};
use mp_store::{ClauseId, LiteralSet, Store, clashes_with, signature_beside};
use smallvec::SmallVec;
use std::alloc::Global;

/// The resolvents on the variable, without tautologies, in the order of the first ids and then of the others.
pub fn resolve_all(
    alloc: Global,
    store: &Store,
    hand: &mut LiteralSet,
    variable: u32,
    positive: &[ClauseId],
    negative: &[ClauseId],
) -> Result<Clauses, NoMemory>
    requires positive { All (λ id. is_live store.now.slots id ≡ true) positive.now }
    requires negative { All (λ id. is_live store.now.slots id ≡ true) negative.now }
    ensures { IfOk result (λ made. made ≡ resolvents_of variable store.now.slots positive.now negative.now) }
{
    let mut buffer = SmallVec::new(alloc);
    let mut made = ListOf::new(alloc);
    for id in positive {
        hand.hold(store.clause(*id))?;
        resolve_with(
            alloc,
            store,
            hand,
            variable,
            negative,
            &mut buffer,
            &mut made,
        )?;
    }
    Ok(made)
}

/// Puts the resolvents of the clause in hand last.
fn resolve_with(
    alloc: Global,
    store: &Store,
    hand: &LiteralSet,
    variable: u32,
    negative: &[ClauseId],
    buffer: &mut SmallVec<Lit, 16>,
    made: &mut Clauses,
) -> Result<(), NoMemory>
    requires { All (λ id. is_live store.now.slots id ≡ true) negative.now }
    ensures { OnOk result (made.new ≡ made.old ++ resolvents_with variable hand.now store.now.slots negative.now) }
{
    let bits = signature_beside(hand, variable);
    for id in negative {
        if !clashes_with(store, hand, variable, bits, *id) {
            merge(buffer, hand.literals(), store.clause(*id), variable)?;
            made.push(Clause::from_slice(alloc, buffer.as_slice())?)?;
        }
    }
    Ok(())
}

/// Merges two clauses in the order of literals, without those of the variable.
fn merge(
    buffer: &mut SmallVec<Lit, 16>,
    left: &[Lit],
    right: &[Lit],
    variable: u32,
) -> Result<(), NoMemory>
    ensures { OnOk result (buffer.new.items ≡ resolvent variable left.now right.now) }
{
    buffer.clear();
    let mut rest = right;
    for lit in left {
        let taken = keep_below(buffer, rest, lit.variable, variable)?;
        rest = past(rest, taken, lit.variable);
        keep(buffer, *lit, variable)?;
    }
    keep_all(buffer, rest, variable)
}

/// Puts the literals before the first whose variable is not below a limit last, and answers how many there are.
fn keep_below(
    buffer: &mut SmallVec<Lit, 16>,
    lits: &[Lit],
    limit: u32,
    variable: u32,
) -> Result<usize, NoMemory>
    ensures within { IfOk result (λ n. n ≤ length lits.now) }
    ensures left { IfOk result (λ n. drop n lits.now ≡ from limit lits.now) }
    ensures kept { OnOk result (buffer.new.items ≡ buffer.old.items ++ without_variable variable (below limit lits.now)) }
{
    for (n, lit) in lits.iter().enumerate() {
        if limit <= lit.variable {
            return Ok(n);
        }
        keep(buffer, *lit, variable)?;
    }
    Ok(lits.len())
}

/// The literals from a place on, without the first where it is on the variable.
fn past(lits: &[Lit], taken: usize, variable: u32) -> &[Lit]
    requires { taken ≤ length lits.now }
    ensures { result.now ≡ past variable (drop taken lits.now) }
{
    let left = &lits[taken..];
    match left.split_first() {
        Some((first, rest)) => {
            if first.variable == variable {
                rest
            } else {
                left
            }
        }
        None => left,
    }
}

fn keep_all(buffer: &mut SmallVec<Lit, 16>, lits: &[Lit], variable: u32) -> Result<(), NoMemory>
    ensures { OnOk result (buffer.new.items ≡ buffer.old.items ++ without_variable variable lits.now) }
{
    for lit in lits {
        keep(buffer, *lit, variable)?;
    }
    Ok(())
}

/// Puts the literal last unless it is on the variable.
fn keep(buffer: &mut SmallVec<Lit, 16>, lit: Lit, variable: u32) -> Result<(), NoMemory>
    ensures { OnOk result (buffer.new.items ≡ buffer.old.items ++ without_variable variable (lit ∷ [])) }
{
    if lit.variable != variable {
        buffer.push(lit)?;
    }
    Ok(())
}
