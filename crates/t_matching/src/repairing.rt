ghost use Rattle.std.specs.Prelude.{◌≡◌, ◌++◌, ◌∷◌, [], IfOk, OnOk, All, map, true};
ghost use Rattle.std.specs.Cmp.Lexicographic.{slice_cmp};
ghost use Rattle.std.specs.List.Sorted.{IsPermutation, IsSortedByKey};
ghost use Rattle.mp_logic.specs.Literal.{negation};
ghost use Rattle.mp_logic.specs.Normal.{lit_cmp};
ghost use Rattle.mp_logic.specs.Rewrites.{set_repair};
ghost use Rattle.mp_clauses.specs.Slots.{is_live};
ghost use Rattle.t_matching.specs.Joins.{clauses_at, SplitRepairsFollow};

use mp_logic::{Clause, Lit, NoMemory, Repair, Repairs, compare_clauses};
use mp_store::{ClauseId, Store, repair_setting};
use std::alloc::Global;

/// Puts the repairs of two labels last: each label is false unless one of its clauses needs it. The repairs are applied from
/// the last one, and those for clauses stand in the order of the clauses, so that ids are nothing to them.
pub fn put_split(
    alloc: Global,
    store: &Store,
    kept: Lit,
    dropped: Lit,
    kept_ids: &[ClauseId],
    dropped_ids: &[ClauseId],
    repairs: &mut Repairs,
) -> Result<(), NoMemory>
    requires kept { All (λ id. is_live store.now.slots id ≡ true) kept_ids.now }
    requires dropped { All (λ id. is_live store.now.slots id ≡ true) dropped_ids.now }
    ensures { OnOk result (SplitRepairsFollow kept dropped (clauses_at store.now.slots kept_ids.now) (clauses_at store.now.slots dropped_ids.now) repairs.old repairs.new) }
{
    let of_dropped = in_order(alloc, store, dropped_ids)?;
    put_repairs(alloc, dropped, of_dropped, repairs)?;
    let of_kept = in_order(alloc, store, kept_ids)?;
    put_repairs(alloc, kept, of_kept, repairs)?;
    put_false(alloc, dropped, repairs)?;
    put_false(alloc, kept, repairs)
}

/// Puts the repair last that makes the literal false.
fn put_false(alloc: Global, lit: Lit, repairs: &mut Repairs) -> Result<(), NoMemory>
    ensures { OnOk result (repairs.new ≡ repairs.old ++ set_repair (negation lit) (negation lit ∷ []) ∷ []) }
{
    let negation = lit.negated();
    repairs.push(repair_setting(alloc, negation, &[negation])?)
}

/// Puts a repair for each clause last, which it takes.
fn put_repairs(
    alloc: Global,
    lit: Lit,
    clauses: Vec<Clause>,
    repairs: &mut Repairs,
) -> Result<(), NoMemory>
    ensures { OnOk result (repairs.new ≡ repairs.old ++ map (set_repair lit) clauses.items) }
{
    for clause in clauses {
        let mut sets = Clause::new(alloc);
        sets.push(lit)?;
        repairs.push(Repair { sets, clause })?;
    }
    Ok(())
}

/// The clauses of these ids in the order of clauses.
fn in_order(alloc: Global, store: &Store, ids: &[ClauseId]) -> Result<Vec<Clause>, NoMemory>
    requires { All (λ id. is_live store.now.slots id ≡ true) ids.now }
    ensures moved { IfOk result (λ made. IsPermutation (clauses_at store.now.slots ids.now) made.items) }
    ensures sorted { IfOk result (λ made. IsSortedByKey (λ c. c) (slice_cmp lit_cmp) made.items) }
{
    let mut made = copies(alloc, store, ids)?;
    made.sort_unstable_by(|a, b| compare_clauses(a, b));
    Ok(made)
}

/// Copies of the clauses of these ids.
fn copies(alloc: Global, store: &Store, ids: &[ClauseId]) -> Result<Vec<Clause>, NoMemory>
    requires { All (λ id. is_live store.now.slots id ≡ true) ids.now }
    ensures { IfOk result (λ made. made.items ≡ clauses_at store.now.slots ids.now) }
{
    let mut made = Vec::new(alloc);
    for id in ids {
        made.push(Clause::from_slice(alloc, store.clause(*id))?)?;
    }
    Ok(made)
}
