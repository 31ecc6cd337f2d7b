//! Subsumption (Davis and Putnam, 1960). A clause that has all literals of another says nothing more, so it is dropped: the
//! models stay, and no repair is needed.
//!
//! A turn takes a clause and drops all others that have its literals, in one rewrite; of equal clauses the one whose turn
//! comes first stays. It costs the clauses of one of its literals, that of the fewest, or a look-up for each literal where a
//! filter, made once a run, tells that there is none. A clause that subsumed none before subsumes none when others go, so
//! nothing is queued again.
ghost use Rattle.std.specs.Prelude.{◌≡◌, IfOk, OnOk, List, Some, true, false};
ghost use Rattle.mp_logic.specs.Literal.{Literal};
ghost use Rattle.mp_clauses.specs.Slots.{clause_of, is_live};
ghost use Rattle.mp_store.specs.Techniques.{IsRun, IsAnswer, KeepsIds};
ghost use Rattle.mp_resting.specs.Resting.{IsRested};
ghost use Rattle.t_subsume.specs.Containment.{HasNoHolderBelow, NoneHeldBelow};
ghost use Rattle.t_subsume.specs.Filtering.{Tells};
ghost use Rattle.t_subsume.specs.Subsumption.{subsumption, subsuming};

use crate::containment::holders;
use crate::filter::Filter;
use crate::near::Near;
use crate::resting::{least_for, remember};
use mp_logic::{ListOf, NoMemory};
use mp_resting::Seen;
use mp_store::{ClauseId, Ran, Store};
use mp_turns::{Items, Turn, Turned, live_clause_ids, replace, run_turns};
use std::alloc::Global;

/// Drops clauses that have all literals of another, taking each clause in turn, in order of id. Finished where each clause
/// had its turn; Spent where the budget of turns is used up before.
pub fn subsume(alloc: Global, store: &mut Store, budget: Option<u64>) -> Result<Ran, NoMemory>
    requires { store.old.refuted ≡ false }
    ensures run { IsRun subsumption.LeavesAlone store.old store.new }
    ensures ids { KeepsIds store.old store.new }
    ensures answer { IfOk result (λ ran. IsAnswer subsumption budget store.old store.new ran) }
{
    let mut seen = Seen::new(alloc);
    subsume_again(alloc, store, budget, &mut seen)
}

/// The same, where `seen` remembers the ids of an earlier store in which no clause had all literals of another. A clause of
/// those ids is held against newer ones alone: its turn costs a search by halves in the lists of its literals, up to the
/// first that has no newer id, and then the newer clauses of one of them, unless the filter answers first. Once this has finished, `seen` remembers the ids
/// that there are.
pub fn subsume_again(
    alloc: Global,
    store: &mut Store,
    budget: Option<u64>,
    seen: &mut Seen,
) -> Result<Ran, NoMemory>
    requires unrefuted { store.old.refuted ≡ false }
    requires rested { IsRested subsuming.IsIdle seen.old store.old }
    ensures run { IsRun subsumption.LeavesAlone store.old store.new }
    ensures ids { KeepsIds store.old store.new }
    ensures answer { IfOk result (λ ran. IsAnswer subsumption budget store.old store.new ran) }
    ensures rested { OnOk result (IsRested subsuming.IsIdle seen.new store.new) }
{
    let mut turn = Subsumption {
        mark: seen.mark,
        filter: Filter::since(alloc, store, seen.mark)?,
        near: Near::since(alloc, store, seen.mark)?,
    };
    let ran = run_turns(alloc, store, &mut turn, budget)?;
    remember(alloc, store, ran.ending, seen);
    Ok(ran)
}

/// The clauses below the mark need not be held against each other, and those that are not near a newer one against none; the
/// filter tells of those that there were at first.
#[derive(Drop)]
struct Subsumption {
    mark: ClauseId,
    filter: Filter,
    near: Near,
}

impl Subsumption {
    /// An id below which no other clause has all literals of this one.
    fn least(&self, store: &Store, id: ClauseId) -> ClauseId
        requires live { is_live store.now.slots id ≡ true }
        requires rested { NoneHeldBelow self.now.mark store.now.slots }
        requires tells { Tells self.now.filter store.now.slots }
        ensures { (c : List Literal) → clause_of store.now.slots id ≡ Some c → HasNoHolderBelow result store.now.slots c id }
    {
        // what holds of each store makes the clause one that may be looked for
        let _ = store.vars();
        let clause = store.clause(id);
        let known = least_for(id, self.mark);
        self.filter.least_holder(store, clause, id, true, known)
    }
}

impl Turn for Subsumption {
    ghost use Rattle.t_subsume.specs.Subsumption.{subsuming};
    ghost use Rattle.t_subsume.specs.Containment.{NoneHeldBelow};
    ghost use Rattle.t_subsume.specs.Filtering.{Tells};
    ghost use Rattle.t_subsume.specs.Nearness.{IsNear};

    ghost turning = { subsuming };

    ghost fits = { λ t h. NoneHeldBelow t.mark h.slots × Tells t.filter h.slots × IsNear t.mark t.near h.slots };

    fn candidates(&self, alloc: Global, store: &Store) -> Result<Items, NoMemory> {
        live_clause_ids(alloc, store)
    }

    fn is_known_idle(&self, store: &Store, item: u64) -> bool {
        // what holds of each store makes its clauses have literals
        let _ = store.vars();
        let id = item as usize;
        if self.near.passes(store, id) {
            return true;
        }
        if !store.live(id) {
            return true;
        }
        store.next_id() <= self.least(store, id)
    }

    fn turn(
        &mut self,
        alloc: Global,
        store: &mut Store,
        item: u64,
        _: &mut Items,
    ) -> Result<Turned, NoMemory> {
        let id = item as usize;
        if !store.live(id) {
            return Ok(Turned::Idle);
        }
        // what holds of each store makes the clause one that may be looked for
        let _ = store.vars();
        let least = self.least(store, id);
        let gone = holders(alloc, store, store.clause(id), id, least)?;
        if gone.len() == 0 {
            return Ok(Turned::Idle);
        }
        replace(alloc, store, gone, ListOf::new(alloc), ListOf::new(alloc))?;
        Ok(Turned::Changed)
    }
}
