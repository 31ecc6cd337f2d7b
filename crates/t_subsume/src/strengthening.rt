//! Self-subsuming resolution (Eén and Biere, 2005). Where a clause D has the negation of a literal of C and all other
//! literals of C, the resolvent of both is D without that negation, so it takes the place of D: the models stay, and no
//! repair is needed.
//!
//! A turn takes a clause and goes through its literals in order; with each it shortens all clauses that it can, in one
//! rewrite, which take the next ids in order of the ids that they had. For each literal it costs the clauses of one of the
//! literals looked for, that of the fewest, or a look-up for each of them where a filter, made once a run, tells that none was
//! there when the run began. A clause that strengthened none before strengthens none when others get shorter,
//! but the shortened ones may: they are queued again.
ghost use Rattle.std.specs.Prelude.{◌≡◌, ◌⊎◌, ◌<◌, ◌≤◌, [], ℕ, All, IfOk, OnOk, IsTrue, Some, false, true, length};
ghost use Rattle.mp_logic.specs.Literal.{negation};
ghost use Rattle.mp_clauses.specs.Slots.{clause_of, is_live};
ghost use Rattle.mp_store.specs.Held.{IsUntouched};
ghost use Rattle.mp_store.specs.Replacing.{IsReplacement};
ghost use Rattle.mp_store.specs.Rewriting.{after};
ghost use Rattle.mp_store.specs.Techniques.{IsRun, IsAnswer};
ghost use Rattle.mp_turns.specs.Clauses.{replacing};
ghost use Rattle.mp_resting.specs.Resting.{IsRested};
ghost use Rattle.t_subsume.specs.Filtering.{Tells};
ghost use Rattle.t_subsume.specs.Strengthening.{self_subsumption, strengthening};
ghost use Rattle.t_subsume.specs.Shortening.{without_literal, shortened_by, lit_at, AreAgain, AreStrengthened, IsPart, IsUseless, StrengthensNoneBelow};

use crate::containment::{holders, same};
use crate::filter::Filter;
use crate::near::Near;
use crate::resting::{least_for, remember};
use mp_logic::{Clause, Clauses, ListOf, Lit, NoMemory};
use mp_resting::Seen;
use mp_store::{ClauseId, Ids, Ran, Store};
use mp_turns::{Items, Turn, Turned, live_clause_ids, replace, run_turns};
use std::alloc::Global;

/// Takes literals out of clauses that resolution with another rules out, taking each clause in turn, in order of id, and
/// then those that were shortened. Finished where none is left or a clause became empty; Spent where the budget of turns is
/// used up before.
pub fn strengthen(alloc: Global, store: &mut Store, budget: Option<u64>) -> Result<Ran, NoMemory>
    requires { store.old.refuted ≡ false }
    ensures run { IsRun self_subsumption.LeavesAlone store.old store.new }
    ensures answer { IfOk result (λ ran. IsAnswer self_subsumption budget store.old store.new ran) }
{
    let mut seen = Seen::new(alloc);
    strengthen_again(alloc, store, budget, &mut seen)
}

/// The same, where `seen` remembers the ids of an earlier store in which no clause strengthened another. A clause of those
/// ids is held against newer ones alone: its turn costs a search by halves in the lists of its literals, for each of them
/// turned round up to the first that has no newer id, and then the newer clauses of one of them. Once this has finished,
/// `seen` remembers the ids that there are.
pub fn strengthen_again(
    alloc: Global,
    store: &mut Store,
    budget: Option<u64>,
    seen: &mut Seen,
) -> Result<Ran, NoMemory>
    requires unrefuted { store.old.refuted ≡ false }
    requires rested { IsRested strengthening.IsIdle seen.old store.old }
    ensures run { IsRun self_subsumption.LeavesAlone store.old store.new }
    ensures answer { IfOk result (λ ran. IsAnswer self_subsumption budget store.old store.new ran) }
    ensures rested { OnOk result (IsRested strengthening.IsIdle seen.new store.new) }
{
    let mut turn = Strengthening {
        lits: ListOf::new(alloc),
        mark: seen.mark,
        filter: Filter::since(alloc, store, seen.mark)?,
        near: Near::since(alloc, store, seen.mark)?,
    };
    let ran = run_turns(alloc, store, &mut turn, budget)?;
    remember(alloc, store, ran.ending, seen);
    Ok(ran)
}

/// The literals of the clause whose turn it is; those below the mark need not be held against each other, and those that are not
/// near a newer one against none; the filter tells of those that there were at first.
#[derive(Drop)]
struct Strengthening {
    lits: ListOf<Lit>,
    mark: ClauseId,
    filter: Filter,
    near: Near,
}

impl Turn for Strengthening {
    ghost use Rattle.t_subsume.specs.Strengthening.{strengthening};
    ghost use Rattle.t_subsume.specs.Filtering.{Tells};
    ghost use Rattle.t_subsume.specs.Nearness.{IsNear};
    ghost use Rattle.t_subsume.specs.Shortening.{NoneStrengthenedBelow};

    ghost turning = { strengthening };

    ghost fits = { λ t h. NoneStrengthenedBelow t.mark h.slots × Tells t.filter h.slots × IsNear t.mark t.near h.slots };

    fn candidates(&self, alloc: Global, store: &Store) -> Result<Items, NoMemory> {
        live_clause_ids(alloc, store)
    }

    fn is_known_idle(&self, store: &Store, item: u64) -> bool {
        self.near.passes(store, item as usize)
    }

    fn turn(
        &mut self,
        alloc: Global,
        store: &mut Store,
        item: u64,
        again: &mut Items,
    ) -> Result<Turned, NoMemory> {
        let id = item as usize;
        if !store.live(id) {
            return Ok(Turned::Idle);
        }
        fill(&mut self.lits, store.clause(id))?;
        let least = least_for(id, self.mark);
        if !use_each(alloc, store, &self.filter, &mut self.lits, id, least, again)? {
            return Ok(Turned::Idle);
        }
        Ok(Turned::Changed)
    }
}

/// Puts the literals in the place of those that are there.
fn fill(lits: &mut ListOf<Lit>, clause: &[Lit]) -> Result<(), NoMemory>
    ensures { OnOk result (lits.new ≡ clause.now) }
{
    lits.cut(0);
    for lit in clause {
        lits.push(*lit)?;
    }
    Ok(())
}

/// Shortens clauses with each of a clause's literals. It is known that none of them has an id below `least`.
fn use_each(
    alloc: Global,
    store: &mut Store,
    filter: &Filter,
    lits: &mut ListOf<Lit>,
    id: ClauseId,
    least: ClauseId,
    again: &mut Items,
) -> Result<bool, NoMemory>
    requires unrefuted { store.old.refuted ≡ false }
    requires own { clause_of store.old.slots id ≡ Some lits.old }
    requires rested { StrengthensNoneBelow least store.old.slots lits.old }
    requires tells { Tells filter.now store.old.slots }
    ensures run { IsRun self_subsumption.LeavesAlone store.old store.new }
    ensures part { IfOk result (λ changed. store.new.refuted ≡ false → IsPart id lits.old store.old store.new again.old again.new changed) }
    ensures useless { OnOk result (store.new.refuted ≡ false → (k : ℕ) → k < length lits.old → IsUseless store.new.slots lits.old (lit_at lits.old k)) }
    ensures refuted { IfOk result (λ changed. store.new.refuted ≡ true → changed ≡ true) }
{
    let mut changed = false;
    for place in 0..lits.len() {
        // what holds of each store
        let _ = store.vars();
        if use_one(alloc, store, filter, lits, id, least, place, again)? {
            changed = true;
            if store.refuted() {
                return Ok(changed);
            }
        }
    }
    Ok(changed)
}

/// Shortens clauses with one of a clause's literals.
fn use_one(
    alloc: Global,
    store: &mut Store,
    filter: &Filter,
    lits: &mut ListOf<Lit>,
    id: ClauseId,
    least: ClauseId,
    place: usize,
    again: &mut Items,
) -> Result<bool, NoMemory>
    requires unrefuted { store.old.refuted ≡ false }
    requires own { clause_of store.old.slots id ≡ Some lits.old }
    requires rested { StrengthensNoneBelow least store.old.slots lits.old }
    requires tells { Tells filter.now store.old.slots }
    requires place { place < length lits.old }
    ensures lits { lits.new ≡ lits.old }
    ensures run { IsRun self_subsumption.LeavesAlone store.old store.new }
    ensures part { IfOk result (λ changed. store.new.refuted ≡ false → IsPart id lits.old store.old store.new again.old again.new changed) }
    ensures useless { OnOk result (store.new.refuted ≡ false → IsUseless store.new.slots lits.old (lit_at lits.old place)) }
    ensures refuted { IfOk result (λ changed. store.new.refuted ≡ true → changed ≡ true) }
{
    // what holds of each store makes the rewrite valid
    let _ = store.vars();
    let gone = find_strengthened(alloc, store, filter, lits, id, least, place)?;
    if gone.len() == 0 {
        return Ok(false);
    }
    let lit = literal_of(lits, place);
    shorten(alloc, store, gone, lit.negated(), again)?;
    Ok(true)
}

/// The literal at a place.
fn literal_of(lits: &ListOf<Lit>, place: usize) -> Lit
    requires { place < length lits.now }
    ensures { result ≡ lit_at lits.now place }
{
    lits.items()[place]
}

/// Puts clauses without a literal in the place of those that have it, and their ids last.
fn shorten(
    alloc: Global,
    store: &mut Store,
    gone: Ids,
    lit: Lit,
    again: &mut Items,
) -> Result<(), NoMemory>
    requires unrefuted { store.old.refuted ≡ false }
    requires valid { IsReplacement (replacing gone (shortened_by lit store.old.slots gone) []) store.old }
    ensures ok { OnOk result (IsUntouched (after (replacing gone (shortened_by lit store.old.slots gone) []) store.old) store.new) }
    ensures left { IsUntouched store.old store.new ⊎ IsUntouched (after (replacing gone (shortened_by lit store.old.slots gone) []) store.old) store.new }
    ensures again { OnOk result (AreAgain (length store.old.slots) (length store.new.slots) again.old again.new) }
{
    let added = shortened(alloc, store, gone.items(), lit)?;
    let first = store.next_id();
    replace(alloc, store, gone, added, ListOf::new(alloc))?;
    queue_again(store, first, again)?;
    Ok(())
}

/// The clauses of these ids without a literal.
fn shortened(alloc: Global, store: &Store, ids: &[ClauseId], lit: Lit) -> Result<Clauses, NoMemory>
    requires { All (λ id. is_live store.now.slots id ≡ true) ids.now }
    ensures { IfOk result (λ made. made ≡ shortened_by lit store.now.slots ids.now) }
{
    let mut made = ListOf::new(alloc);
    for id in ids {
        made.push(without(alloc, store.clause(*id), lit)?)?;
    }
    Ok(made)
}

/// The clause without a literal.
fn without(alloc: Global, clause: &[Lit], lit: Lit) -> Result<Clause, NoMemory>
    ensures { IfOk result (λ made. made ≡ without_literal lit clause.now) }
{
    let mut made = Clause::new(alloc);
    for other in clause {
        if !same(lit, *other) {
            made.push(*other)?;
        }
    }
    Ok(made)
}

/// The ids of the clauses that the clause in hand strengthens with its literal at a place, rising: those that have its
/// literals once that one is turned round, as it is while they are looked for.
fn find_strengthened(
    alloc: Global,
    store: &Store,
    filter: &Filter,
    lits: &mut ListOf<Lit>,
    id: ClauseId,
    least: ClauseId,
    place: usize,
) -> Result<Ids, NoMemory>
    requires own { clause_of store.now.slots id ≡ Some lits.old }
    requires rested { StrengthensNoneBelow least store.now.slots lits.old }
    requires tells { Tells filter.now store.now.slots }
    requires place { place < length lits.old }
    ensures lits { lits.new ≡ lits.old }
    ensures found { IfOk result (λ gone. AreStrengthened store.now id lits.old (lit_at lits.old place) gone) }
{
    // what holds of each store makes the literals ones that may be looked for
    let _ = store.vars();
    let lit = literal_of(lits, place);
    lits.set(place, lit.negated());
    let least = filter.least_holder(store, lits.items(), id, false, least);
    let found = holders(alloc, store, lits.items(), id, least);
    lits.set(place, lit);
    let gone = found?;
    Ok(gone)
}

/// Puts the ids from one on last.
fn queue_again(store: &Store, first: ClauseId, again: &mut Items) -> Result<(), NoMemory>
    requires { first ≤ length store.now.slots }
    ensures { OnOk result (AreAgain first (length store.now.slots) again.old again.new) }
{
    for id in first..store.next_id() {
        again.push(id as u64)?;
    }
    Ok(())
}
