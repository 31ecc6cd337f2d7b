ghost use Rattle.std.specs.Prelude.{◌≡◌, ◌+◌, ◌<◌, ◌≤◌, IfOk, length, true, ℕ};
ghost use Rattle.mp_clauses.specs.Tables.{apart, at, ids_from, live_in, clause_at, AreWithin};
ghost use Rattle.mp_clauses.specs.Buckets.{AreInBuckets};

use crate::arena::Arena;
use crate::buckets::{bucket_number, buckets_for, deal_all, link_buckets};
use crate::links;
use crate::occurrences::Occurrences;
use crate::places::place;
use mp_logic::Lit;
use std::alloc::{AllocError, Global};

/// Counts one more occurrence in the bucket of each literal.
fn count(sizes: &mut Vec<usize>, clause: &[Lit])
    requires { AreInBuckets (length sizes.old.items) clause.now }
    ensures { length sizes.new.items ≡ length sizes.old.items }
{
    for lit in clause {
        let bucket = bucket_number(place(*lit));
        sizes[bucket] = sizes[bucket].saturating_add(1);
    }
}

/// How many occurrences each bucket gets. Only how much memory is taken at once depends on it.
fn sizes_for(alloc: Global, buckets: usize, rows: &Arena) -> Result<Vec<usize>, AllocError>
    requires { (k : ℕ) → AreInBuckets buckets (clause_at rows.now.rows k) }
    ensures { IfOk result (λ sizes. length sizes.items ≡ buckets) }
{
    let mut sizes = vec![in alloc; 0; buckets]?;
    for id in 0..rows.len() {
        count(&mut sizes, rows.clause(id));
    }
    Ok(sizes)
}

/// The lists of so many places for these clauses, each of them live. In the order of the clauses almost every
/// occurrence would miss the caches twice, at the head of a list and at its end. So the occurrences are first dealt into
/// buckets of places that lie close together, and then linked bucket by bucket, each list in memory of the length that it
/// gets.
pub fn lists_of(alloc: Global, places: usize, rows: &Arena) -> Result<Vec<Occurrences>, AllocError>
    requires live { (k : ℕ) → k < length rows.now.rows → live_in rows.now.rows k ≡ true }
    requires within { (k : ℕ) → AreWithin places (clause_at rows.now.rows k) }
    requires distinct { (k : ℕ) → apart (clause_at rows.now.rows k) ≡ true }
    ensures len { IfOk result (λ made. length made.items ≡ places) }
    ensures items { IfOk result (λ made. (p : ℕ) → at made.items p ≡ ids_from p 0 rows.now.rows) }
{
    let sizes = sizes_for(alloc, bucket_number(places) + 1, rows)?;
    let mut buckets = buckets_for(alloc, &sizes)?;
    deal_all(&mut buckets, rows)?;
    let mut lists = Vec::with_capacity(alloc, places)?;
    links::widen(alloc, &mut lists, places)?;
    link_buckets(alloc, &mut lists, buckets)?;
    Ok(lists)
}
