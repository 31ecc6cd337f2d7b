ghost use Rattle.std.specs.Prelude.{◌≡◌, ◌≤◌, ◌<◌, ℕ, IfOk, IsTrue, Contains, Some, false, true, length, suc, slice_index_or};
ghost use Rattle.mp_logic.specs.Literal.{Literal, IsUpTo, negation};
ghost use Rattle.mp_clauses.specs.Occurrences.{ids_with};
ghost use Rattle.mp_clauses.specs.Places.{place_of};
ghost use Rattle.mp_clauses.specs.Slots.{clause_of};
ghost use Rattle.mp_clauses.specs.Tables.{rising_from};
ghost use Rattle.mp_clauses.specs.Weighing.{weight_in};
ghost use Rattle.mp_store.specs.Held.{Held};
ghost use Rattle.mp_resting.specs.Resting.{AreCounts, IsCount, IsFree, IsSeen, HasKept};

use mp_logic::{ListOf, Lit, NoMemory};
use mp_store::{ClauseId, Store, place};
use std::alloc::Global;

/// What is remembered of an earlier store: how many ids it had given, and for each literal whose variable had no cost one more
/// than the number of clauses with it, by place; 0 says nothing of a literal. Nothing is remembered where no id was given.
#[derive(Debug, Drop)]
pub struct Seen {
    pub mark: ClauseId,
    pub counts: ListOf<u32>,
}

impl Seen {
    /// Nothing is remembered.
    pub fn new(alloc: Global) -> Seen
        ensures mark { result.mark ≡ 0 }
    {
        Seen {
            mark: 0,
            counts: ListOf::new(alloc),
        }
    }

    /// Remembers which ids the store has given, and nothing of its literals; it takes no memory.
    pub fn ids(alloc: Global, store: &Store) -> Seen
        ensures { IsSeen result store.now store.now }
    {
        Seen {
            mark: store.next_id(),
            counts: ListOf::new(alloc),
        }
    }

    /// Remembers the ids, and the numbers of clauses by literal.
    pub fn clauses(alloc: Global, store: &Store) -> Result<Seen, NoMemory>
        ensures { IfOk result (λ seen. IsSeen seen store.now store.now) }
    {
        let places = 2 * store.vars() as usize + 2;
        let mut counts = Vec::with_capacity(alloc, places)?;
        counts.push(0)?;
        counts.push(0)?;
        for earlier in 0..store.vars() {
            let variable = earlier + 1;
            let positive = Lit::new(variable, false);
            let negative = Lit::new(variable, true);
            let is_free = store.weight(positive) == 0 && store.weight(negative) == 0;
            counts.push(count(store, positive, is_free))?;
            counts.push(count(store, negative, is_free))?;
        }
        Ok(Seen {
            mark: store.next_id(),
            counts: ListOf::from_vec(counts),
        })
    }

    /// Whether, as far as can be told, each clause that had the literal is still there, and its variable had no cost. It costs
    /// a search by halves in the literal's list.
    pub fn has_kept(&self, store: &Store, lit: Lit) -> bool
        requires { IsUpTo store.now.vars lit }
        ensures { result ≡ true → (before : Held) → IsSeen self.now before store.now → HasKept before store.now lit }
    {
        let remembered = self.remembered(lit);
        if remembered == 0 {
            return false;
        }
        below(store.occurrences(lit), self.mark) == remembered as usize - 1
    }

    /// What is remembered of the literal.
    fn remembered(&self, lit: Lit) -> u32
        ensures { result ≡ slice_index_or self.now.counts (place_of lit) 0 }
    {
        match self.counts.items().get(place(lit)) {
            Some(remembered) => *remembered,
            None => 0,
        }
    }

    /// Whether a clause with the literal has come.
    pub fn has_gained(&self, store: &Store, lit: Lit) -> bool
        requires { IsUpTo store.now.vars lit }
        ensures { result ≡ false → (id : ℕ) → Contains (ids_with (place_of lit) store.now.slots) id → id < self.now.mark }
    {
        let ids = store.occurrences(lit);
        below(ids, self.mark) < ids.len()
    }
}

/// One more than the number of clauses with the literal, or 0, which says nothing.
fn count(store: &Store, lit: Lit, is_free: bool) -> u32
    requires within { IsUpTo store.now.vars lit }
    requires free { is_free ≡ true → (weight_in store.now.weights lit ≡ 0) × (weight_in store.now.weights (negation lit) ≡ 0) }
    ensures { IsCount lit store.now result }
{
    if !is_free {
        return 0;
    }
    let many = store.occurrences(lit).len();
    if many < 0xffff_ffff {
        many as u32 + 1
    } else {
        0
    }
}

/// How many of the ids, which rise, are below a mark.
pub fn below(ids: &[ClauseId], mark: ClauseId) -> usize
    requires { rising_from 0 ids.now ≡ true }
    ensures within { result ≤ length ids.now }
    ensures below { (i : ℕ) → i < result → slice_index_or ids.now i 0 < mark }
    ensures above { (i : ℕ) → result ≤ i → i < length ids.now → mark ≤ slice_index_or ids.now i 0 }
{
    if mark == 0 {
        return 0;
    }
    let many = ids.len();
    if many == 0 {
        return 0;
    }
    if ids[many - 1] < mark {
        return many;
    }
    match ids.binary_search(&mark) {
        Ok(place) => place,
        Err(place) => place,
    }
}
