ghost use Rattle.std.specs.Prelude.{◌≡◌, [], ◌∷◌, ◌++◌, IsTrue, IfOk, OnOk, All, true};
ghost use Rattle.mp_logic.specs.Normal.{literals_rise};
ghost use Rattle.mp_clauses.specs.Slots.{is_live};
ghost use Rattle.t_matching.specs.Joins.{others, clauses_at, IsJoinOf, IsPutUnlessTautology, JoinsFollow};

use crate::costs::is_same;
use mp_logic::{Clause, Clauses, Cost, Costs, ListOf, Lit, NoMemory, is_tautology, normalise};
use mp_store::{ClauseId, Store};
use std::alloc::Global;

/// Puts the joins of a clause with each of these last: the literals of both, without the one of the other clause that is
/// dropped. Tautologies are left out.
pub fn join_each(
    alloc: Global,
    store: &Store,
    clause: &[Lit],
    ids: &[ClauseId],
    dropped: Lit,
    made: &mut Clauses,
) -> Result<(), NoMemory>
    requires { All (λ id. is_live store.now.slots id ≡ true) ids.now }
    ensures { OnOk result (JoinsFollow clause.now dropped (clauses_at store.now.slots ids.now) made.old made.new) }
{
    for id in ids {
        let joined = join(alloc, clause, store.clause(*id), dropped)?;
        put(made, joined)?;
    }
    Ok(())
}

/// Puts the clause last unless it is a tautology.
fn put(made: &mut Clauses, clause: Clause) -> Result<(), NoMemory>
    requires { IsTrue (literals_rise clause) }
    ensures { OnOk result (IsPutUnlessTautology clause made.old made.new) }
{
    if is_tautology(&clause) {
        return Ok(());
    }
    made.push(clause)
}

/// The literals of both clauses but one of the other, in order, each once.
fn join(alloc: Global, clause: &[Lit], other: &[Lit], dropped: Lit) -> Result<Clause, NoMemory>
    ensures { IfOk result (λ made. IsJoinOf clause.now other.now dropped made) }
{
    let mut made = both(alloc, clause, other, dropped)?;
    normalise(&mut made);
    Ok(made)
}

/// The literals of the one clause, and then those of the other but one.
fn both(alloc: Global, clause: &[Lit], other: &[Lit], dropped: Lit) -> Result<Clause, NoMemory>
    ensures { IfOk result (λ made. made ≡ clause.now ++ others dropped other.now) }
{
    let mut made = Clause::from_slice(alloc, clause)?;
    for lit in other {
        if !is_same(*lit, dropped) {
            made.push(*lit)?;
        }
    }
    Ok(made)
}

/// Weight 0 for the literal.
pub fn no_cost(alloc: Global, lit: Lit) -> Result<Costs, NoMemory>
    ensures { IfOk result (λ made. made ≡ record { lit = lit; weight = 0 } ∷ []) }
{
    let mut made = ListOf::new(alloc);
    made.push(Cost { lit, weight: 0 })?;
    Ok(made)
}
