ghost use Rattle.std.specs.Prelude.{◌≡◌, ◌++◌, ◌∷◌, [], IfOk, All, map, true};
ghost use Rattle.std.specs.Cmp.Lexicographic.{slice_cmp};
ghost use Rattle.std.specs.List.Sorted.{IsPermutation, IsSortedByKey};
ghost use Rattle.mp_logic.specs.Normal.{lit_cmp};
ghost use Rattle.mp_logic.specs.Rewrites.{set_repair};
ghost use Rattle.mp_clauses.specs.Slots.{is_live};
ghost use Rattle.t_elim.specs.Resolving.{clauses_at};
ghost use Rattle.t_elim.specs.Resolved.{AreRepairs};

use mp_logic::{Clause, ListOf, Lit, NoMemory, Repair, Repairs, compare_clauses};
use mp_store::{ClauseId, Store, repair_setting};
use std::alloc::Global;

/// The repairs of an elimination: the literal is made false, and then true where a clause of these ids, which have it, is
/// false. They stand in the order of the clauses, so that ids are nothing to them.
pub fn repairs_for(
    alloc: Global,
    store: &Store,
    lit: Lit,
    ids: &[ClauseId],
) -> Result<Repairs, NoMemory>
    requires { All (λ id. is_live store.now.slots id ≡ true) ids.now }
    ensures { IfOk result (λ made. AreRepairs lit (clauses_at store.now.slots ids.now) made) }
{
    let clauses = in_order(alloc, store, ids)?;
    let mut made = setting_all(alloc, lit, clauses)?;
    let negation = lit.negated();
    made.push(repair_setting(alloc, negation, &[negation])?)?;
    Ok(made)
}

/// A repair for each clause, which it takes.
fn setting_all(alloc: Global, lit: Lit, clauses: Vec<Clause>) -> Result<Repairs, NoMemory>
    ensures { IfOk result (λ made. made ≡ map (set_repair lit) clauses.items) }
{
    let mut made = ListOf::new(alloc);
    for clause in clauses {
        let mut sets = Clause::new(alloc);
        sets.push(lit)?;
        made.push(Repair { sets, clause })?;
    }
    Ok(made)
}

/// The clauses of these ids in the order of clauses.
fn in_order(alloc: Global, store: &Store, ids: &[ClauseId]) -> Result<Vec<Clause>, NoMemory>
    requires { All (λ id. is_live store.now.slots id ≡ true) ids.now }
    ensures moved { IfOk result (λ made. IsPermutation (clauses_at store.now.slots ids.now) made.items) }
    ensures sorted { IfOk result (λ made. IsSortedByKey (λ c. c) (slice_cmp lit_cmp) made.items) }
{
    let mut made = copies(alloc, store, ids)?;
    made.sort_unstable_by(|a, b| compare_clauses(a, b));
    Ok(made)
}

/// Copies of the clauses of these ids.
fn copies(alloc: Global, store: &Store, ids: &[ClauseId]) -> Result<Vec<Clause>, NoMemory>
    requires { All (λ id. is_live store.now.slots id ≡ true) ids.now }
    ensures { IfOk result (λ made. made.items ≡ clauses_at store.now.slots ids.now) }
{
    let mut made = Vec::new(alloc);
    for id in ids {
        made.push(Clause::from_slice(alloc, store.clause(*id))?)?;
    }
    Ok(made)
}
