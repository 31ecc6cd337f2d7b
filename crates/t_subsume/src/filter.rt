//! A filter in front of the walks over clauses: tables made in one pass over the clauses, as those of Bloom (1970), by which
//! most questions for a clause with all of some literals are answered without a look at any clause.
//!
//! A clause that has two literals and others besides has at least three. So for each literal the signatures of the clauses of
//! three literals and more that have it are put together: where the bits of the literals asked for are not all among those of
//! one of them, no such clause has them all. What is left are pairs that are equal, which fall into one slot of a table.
ghost use Rattle.std.specs.Prelude.{◌≡◌, ◌⊎◌, ◌+◌, ◌<◌, ◌≤◌, ◌&&◌, ℕ, IfOk, IsTrue, Contains, Some, true, false, cond, length, slice_index_or};
ghost use Rattle.mp_logic.specs.Literal.{Literal};
ghost use Rattle.mp_logic.specs.Normal.{rises};
ghost use Rattle.mp_clauses.specs.Places.{place_of};
ghost use Rattle.mp_clauses.specs.Slots.{clause_of};
ghost use Rattle.mp_clauses.specs.Signatures.{signature_of};
ghost use Rattle.t_subsume.specs.Containment.{HasNoHolderBelow};
ghost use Rattle.t_subsume.specs.Filtering.{CoversAt, slot_of, Tells, IsCleared};

use mp_logic::{Lit, NoMemory};
use mp_store::{ClauseId, Store, place, signature};
use std::alloc::Global;

/// What is told of the clauses with ids from one on, below another: for each literal, by place, all bits of the signatures of
/// those of three literals and more that have it; and how many pairs fall into each slot of a table, up to two.
#[derive(Drop)]
pub struct Filter {
    from: ClauseId,
    upto: ClauseId,
    wide: Vec<u64>,
    pairs: Vec<u8>,
}

impl Filter {
    /// The filter for a run that remembers the ids below a mark: of the newer clauses, or of all where many are newer.
    /// The one error is want of memory.
    pub fn since(alloc: Global, store: &Store, mark: ClauseId) -> Result<Filter, NoMemory>
        ensures { IfOk result (λ made. Tells made store.now.slots) }
    {
        Filter::of(alloc, store, newer_from(store.next_id(), mark))
    }

    /// The filter of the clauses with ids from one on; the one error is want of memory.
    fn of(alloc: Global, store: &Store, from: ClauseId) -> Result<Filter, NoMemory>
        requires { from ≤ length store.now.slots }
        ensures { IfOk result (λ made. Tells made store.now.slots) }
    {
        let upto = store.next_id();
        let mut wide = Vec::new(alloc);
        let mut pairs = vec![in alloc; 0; 1]?;
        if from < upto {
            // of eight slots for each clause most stay empty
            wide = vec![in alloc; 0; 2 * store.vars() as usize + 2]?;
            pairs = vec![in alloc; 0; (upto - from).saturating_mul(8)]?;
        }
        for id in from..upto {
            if store.live(id) {
                note(&mut wide, &mut pairs, store.clause(id), store.signature(id));
            }
        }
        Ok(Filter {
            from,
            upto,
            wide,
            pairs,
        })
    }

    /// An id below which no clause but one's own has all these literals, as it is known of `least`; `is_own` tells that they
    /// are those of the own clause.
    pub fn least_holder(
        &self,
        store: &Store,
        lits: &[Lit],
        own: ClauseId,
        is_own: bool,
        least: ClauseId,
    ) -> ClauseId
        requires tells { Tells self.now store.now.slots }
        requires normal { IsTrue (rises 0 lits.now) }
        requires own { is_own ≡ true → clause_of store.now.slots own ≡ Some lits.now }
        requires rested { HasNoHolderBelow least store.now.slots lits.now own }
        ensures { HasNoHolderBelow result store.now.slots lits.now own }
    {
        // what holds of each store puts its clauses in order
        let _ = store.vars();
        if least < self.from || self.upto <= least {
            return least;
        }
        let is_counted = self.counts(own, is_own);
        if self.clears(lits, is_counted) {
            return self.upto;
        }
        least
    }

    /// Whether the own clause is one of those told of, where it is asked about.
    fn counts(&self, own: ClauseId, is_own: bool) -> bool
        ensures { result ≡ true → (is_own ≡ true) × (self.now.from ≤ own) × (own < self.now.upto) }
    {
        is_own && self.from <= own && own < self.upto
    }

    /// Whether none of the clauses has all these literals, but one that is told to be counted among the pairs.
    fn clears(&self, lits: &[Lit], is_counted: bool) -> bool
        requires { 0 < length self.now.pairs.items }
        ensures { result ≡ true → IsCleared self.now.wide.items self.now.pairs.items lits.now is_counted }
    {
        if lits.len() < 2 || !hides_one(&self.wide, lits, signature(lits)) {
            return false;
        }
        if lits.len() > 2 {
            return true;
        }
        let most = if is_counted { 1 } else { 0 };
        self.pairs[slot(lits, self.pairs.len())] <= most
    }
}

/// Enters a clause of this signature.
fn note(wide: &mut Vec<u64>, pairs: &mut Vec<u8>, clause: &[Lit], bits: u64)
    requires { 0 < length pairs.old.items }
    ensures lens { (length wide.new.items ≡ length wide.old.items) × (length pairs.new.items ≡ length pairs.old.items) }
    ensures wide { (p s : ℕ) → CoversAt wide.old.items p s → CoversAt wide.new.items p s }
    ensures pairs { (i : ℕ) → slice_index_or pairs.old.items i 0 ≤ slice_index_or pairs.new.items i 0 }
    ensures covered { 3 ≤ length clause.now → (l : Literal) → Contains clause.now l → CoversAt wide.new.items (place_of l) bits }
    ensures counted { length clause.now ≡ 2 → 2 ≤ slice_index_or pairs.new.items (slot_of (length pairs.old.items) clause.now) 0 ⊎ slice_index_or pairs.old.items (slot_of (length pairs.old.items) clause.now) 0 < slice_index_or pairs.new.items (slot_of (length pairs.old.items) clause.now) 0 }
{
    if clause.len() == 2 {
        count(pairs, clause);
    }
    if clause.len() > 2 {
        widen(wide, clause, bits);
    }
}

/// Puts the bits to those of each literal.
fn widen(wide: &mut Vec<u64>, clause: &[Lit], bits: u64)
    ensures len { length wide.new.items ≡ length wide.old.items }
    ensures before { (p s : ℕ) → CoversAt wide.old.items p s → CoversAt wide.new.items p s }
    ensures own { (l : Literal) → Contains clause.now l → CoversAt wide.new.items (place_of l) bits }
{
    for lit in clause {
        put_bits(wide, place(*lit), bits);
    }
}

fn put_bits(wide: &mut Vec<u64>, place: usize, bits: u64)
    ensures len { length wide.new.items ≡ length wide.old.items }
    ensures before { (p s : ℕ) → CoversAt wide.old.items p s → CoversAt wide.new.items p s }
    ensures own { CoversAt wide.new.items place bits }
{
    if place < wide.len() {
        wide[place] |= bits;
    }
}

/// Counts a pair in its slot, up to two.
fn count(pairs: &mut Vec<u8>, clause: &[Lit])
    requires room { 0 < length pairs.old.items }
    requires pair { length clause.now ≡ 2 }
    ensures len { length pairs.new.items ≡ length pairs.old.items }
    ensures before { (i : ℕ) → slice_index_or pairs.old.items i 0 ≤ slice_index_or pairs.new.items i 0 }
    ensures own { 2 ≤ slice_index_or pairs.new.items (slot_of (length pairs.old.items) clause.now) 0 ⊎ slice_index_or pairs.old.items (slot_of (length pairs.old.items) clause.now) 0 < slice_index_or pairs.new.items (slot_of (length pairs.old.items) clause.now) 0 }
{
    let slot = slot(clause, pairs.len());
    if pairs[slot] < 2 {
        pairs[slot] += 1;
    }
}

/// The slot of a pair among so many.
fn slot(pair: &[Lit], slots: usize) -> usize
    requires room { 0 < slots }
    requires pair { length pair.now ≡ 2 }
    ensures slot { result ≡ slot_of slots pair.now }
    ensures within { result < slots }
{
    place(pair[0])
        .wrapping_mul(1_540_483_477)
        .wrapping_add(place(pair[1]))
        % slots
}

/// Whether for some of the literals these bits are not all told of.
fn hides_one(wide: &[u64], lits: &[Lit], bits: u64) -> bool
    ensures { result ≡ true → (l : Literal) × Contains lits.now l × (CoversAt wide.now (place_of l) bits → ⊥) }
{
    for lit in lits {
        if !covers(wide, *lit, bits) {
            return true;
        }
    }
    false
}

fn covers(wide: &[u64], lit: Lit, bits: u64) -> bool
    ensures { result ≡ false → CoversAt wide.now (place_of lit) bits → ⊥ }
{
    match wide.get(place(lit)) {
        Some(all) => bits | *all == *all,
        None => true,
    }
}

/// The id from which clauses count as newer than a mark, of so many: the mark, or 0 where many of them are.
pub fn newer_from(all: ClauseId, mark: ClauseId) -> ClauseId
    ensures { (result ≤ all) × (result ≤ mark) }
{
    if mark < all - all / 8 {
        0
    } else {
        mark.min(all)
    }
}
