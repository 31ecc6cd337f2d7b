ghost use Rattle.std.specs.Prelude.{◌≡◌, ◌+◌, ◌^◌, ◌<◌, ◌≤◌, ◌-◌, ◌++◌, ◌∷◌, [], List, ◌&&◌, ◌||◌, not, cond, OnOk, OnErr, All, length, true, false, ℕ, map};
ghost use Rattle.std.specs.List.{filter, list_any};
ghost use Rattle.mp_clauses.specs.Places.{place_of, has};
ghost use Rattle.mp_clauses.specs.Tables.{Row, apart, live_in, clause_at, touched, marked, at, room_at, spare_at, uses, ids_from, alive, AreWithin, killed, rising_from, without_id};

use crate::arena::Arena;
use crate::clause_id::ClauseId;
use crate::marks::mark_all;
use crate::occurrences::Occurrences;
use crate::places::place;
use mp_logic::{Clause, Lit};
use std::alloc::{AllocError, Global};

/// Keeps a place free in the list of each literal.
fn reserve(lists: &mut Vec<Occurrences>, clause: &[Lit]) -> Result<(), AllocError>
    requires { AreWithin (length lists.old.items) clause.now }
    ensures len { length lists.new.items ≡ length lists.old.items }
    ensures items { (p : ℕ) → at lists.new.items p ≡ at lists.old.items p }
    ensures ok { OnOk result ((p : ℕ) → spare_at lists.old.items p + cond (has p clause.now) 1 0 ≤ spare_at lists.new.items p) }
{
    for lit in clause {
        let list = &mut lists[place(*lit)];
        list.reserve_one()?;
    }
    Ok(())
}

pub fn reserve_all(lists: &mut Vec<Occurrences>, added: &[Clause]) -> Result<(), AllocError>
    requires { All (AreWithin (length lists.old.items)) added.now }
    ensures len { length lists.new.items ≡ length lists.old.items }
    ensures items { (p : ℕ) → at lists.new.items p ≡ at lists.old.items p }
    ensures ok { OnOk result ((p : ℕ) → spare_at lists.old.items p + uses p added.now ≤ spare_at lists.new.items p) }
{
    for clause in added {
        reserve(lists, clause.items())?;
    }
    Ok(())
}

/// Gives back the places that were kept free in the list of each literal.
fn release(lists: &mut Vec<Occurrences>, clause: &[Lit])
    requires { AreWithin (length lists.old.items) clause.now }
    ensures len { length lists.new.items ≡ length lists.old.items }
    ensures items { (p : ℕ) → at lists.new.items p ≡ at lists.old.items p }
    ensures spare { (p : ℕ) → spare_at lists.new.items p ≡ cond (has p clause.now) 0 (spare_at lists.old.items p) }
{
    for lit in clause {
        let list = &mut lists[place(*lit)];
        list.release();
    }
}

pub fn release_all(lists: &mut Vec<Occurrences>, added: &[Clause])
    requires { All (AreWithin (length lists.old.items)) added.now }
    ensures len { length lists.new.items ≡ length lists.old.items }
    ensures items { (p : ℕ) → at lists.new.items p ≡ at lists.old.items p }
    ensures spare { (p : ℕ) → spare_at lists.new.items p ≡ cond (list_any (λ c. has p c) added.now) 0 (spare_at lists.old.items p) }
{
    for clause in added {
        release(lists, clause.items());
    }
}

/// Makes the table at least this long.
pub fn widen(alloc: Global, lists: &mut Vec<Occurrences>, len: usize) -> Result<(), AllocError>
    ensures len { length lists.old.items ≤ length lists.new.items }
    ensures most { length lists.new.items ≤ length lists.old.items + (len - length lists.old.items) }
    ensures ok { OnOk result (len ≤ length lists.new.items) }
    ensures same { (p : ℕ) → room_at lists.new.items p ≡ room_at lists.old.items p }
{
    'widen: while lists.len() < len {
        lists.push(Occurrences::new(alloc))?;
    }
    Ok(())
}

/// Filters the lists of the marked places of the clause, and takes these marks away.
fn sweep(lists: &mut Vec<Occurrences>, marks: &mut Vec<bool>, rows: &Arena, clause: &[Lit])
    requires within { AreWithin (length lists.old.items) clause.now }
    requires marks { length lists.old.items ≤ length marks.old.items }
    ensures len { length lists.new.items ≡ length lists.old.items }
    ensures marks_len { length marks.new.items ≡ length marks.old.items }
    ensures marks { (p : ℕ) → marked marks.new.items p ≡ (marked marks.old.items p && not (has p clause.now)) }
    ensures items { (p : ℕ) → at lists.new.items p ≡ cond (marked marks.old.items p && has p clause.now) (filter (live_in rows.now.rows) (at lists.old.items p)) (at lists.old.items p) }
    ensures spare { (p : ℕ) → spare_at lists.new.items p ≡ spare_at lists.old.items p }
{
    for lit in clause {
        let place = place(*lit);
        if marks[place] {
            marks[place] = false;
            let list = &mut lists[place];
            list.keep_live(rows);
        }
    }
}

/// Filters the lists of the literals of the clauses, each list once.
fn sweep_all(lists: &mut Vec<Occurrences>, marks: &mut Vec<bool>, rows: &Arena, gone: &[ClauseId])
    requires known { All (λ id. id < length rows.now.rows) gone.now }
    requires within { (k : ℕ) → AreWithin (length lists.old.items) (clause_at rows.now.rows k) }
    requires marks { length lists.old.items ≤ length marks.old.items }
    ensures len { length lists.new.items ≡ length lists.old.items }
    ensures marks_len { length marks.new.items ≡ length marks.old.items }
    ensures marks { (p : ℕ) → marked marks.new.items p ≡ (marked marks.old.items p && not (touched p gone.now rows.now.rows)) }
    ensures items { (p : ℕ) → at lists.new.items p ≡ cond (marked marks.old.items p && touched p gone.now rows.now.rows) (filter (live_in rows.now.rows) (at lists.old.items p)) (at lists.old.items p) }
    ensures spare { (p : ℕ) → spare_at lists.new.items p ≡ spare_at lists.old.items p }
{
    for id in gone {
        sweep(lists, marks, rows, rows.clause(*id));
    }
}

/// Takes the id out of the list of each literal.
fn unlink(lists: &mut Vec<Occurrences>, clause: &[Lit], id: ClauseId)
    requires within { AreWithin (length lists.old.items) clause.now }
    requires rising { (p : ℕ) → rising_from 0 (at lists.old.items p) ≡ true }
    ensures len { length lists.new.items ≡ length lists.old.items }
    ensures items { (p : ℕ) → at lists.new.items p ≡ cond (has p clause.now) (without_id id (at lists.old.items p)) (at lists.old.items p) }
    ensures spare { (p : ℕ) → spare_at lists.new.items p ≡ spare_at lists.old.items p }
{
    for lit in clause {
        let list = &mut lists[place(*lit)];
        list.take_out(id);
    }
}

/// Takes the ids of clauses that are dead now out of the lists. One id is found by halves in each list, which visits no
/// other clause; for more of them each list that has some is gone through once.
pub fn unlink_all(
    lists: &mut Vec<Occurrences>,
    marks: &mut Vec<bool>,
    rows: &Arena,
    gone: &[ClauseId],
)
    requires known { All (λ id. id < length rows.now.rows) gone.now }
    requires within { (k : ℕ) → AreWithin (length lists.old.items) (clause_at rows.now.rows k) }
    requires marks { length lists.old.items ≤ length marks.old.items }
    requires unmarked { (p : ℕ) → marked marks.old.items p ≡ false }
    requires rising { (p : ℕ) → rising_from 0 (at lists.old.items p) ≡ true }
    ensures len { length lists.new.items ≡ length lists.old.items }
    ensures marks_len { length marks.new.items ≡ length marks.old.items }
    ensures unmarked { (p : ℕ) → marked marks.new.items p ≡ false }
    ensures items { (before : List Row) → rows.now.rows ≡ killed gone.now before → ((p : ℕ) → at lists.old.items p ≡ ids_from p 0 before) → (p : ℕ) → at lists.new.items p ≡ ids_from p 0 rows.now.rows }
    ensures spare { (p : ℕ) → spare_at lists.new.items p ≡ spare_at lists.old.items p }
{
    if gone.len() == 1 {
        let id = gone[0];
        unlink(lists, rows.clause(id), id);
        return;
    }
    mark_all(rows, marks, gone);
    sweep_all(lists, marks, rows, gone);
}

/// Puts the id last in the list of each literal.
fn link(lists: &mut Vec<Occurrences>, clause: &[Lit], id: ClauseId)
    requires within { AreWithin (length lists.old.items) clause.now }
    requires distinct { apart clause.now ≡ true }
    requires room { (p : ℕ) → has p clause.now ≡ true → 0 < spare_at lists.old.items p }
    ensures len { length lists.new.items ≡ length lists.old.items }
    ensures items { (p : ℕ) → at lists.new.items p ≡ at lists.old.items p ++ cond (has p clause.now) (id ∷ []) [] }
    ensures spare { (p : ℕ) → spare_at lists.new.items p + cond (has p clause.now) 1 0 ≡ spare_at lists.old.items p }
{
    for lit in clause {
        let list = &mut lists[place(*lit)];
        list.push_spare(id);
    }
}

pub fn link_all(lists: &mut Vec<Occurrences>, added: &[Clause], first: ClauseId)
    requires within { All (AreWithin (length lists.old.items)) added.now }
    requires distinct { All (λ c. apart c ≡ true) added.now }
    requires room { (p : ℕ) → uses p added.now ≤ spare_at lists.old.items p }
    requires fits { first + length added.now < 2 ^ 64 }
    ensures len { length lists.new.items ≡ length lists.old.items }
    ensures items { (p : ℕ) → at lists.new.items p ≡ at lists.old.items p ++ ids_from p first (map alive added.now) }
{
    let mut id = first;
    for clause in added {
        link(lists, clause.items(), id);
        id += 1;
    }
}

pub fn clear_every(lists: &mut Vec<Occurrences>)
    ensures len { length lists.new.items ≡ length lists.old.items }
    ensures items { (p : ℕ) → at lists.new.items p ≡ [] }
{
    for place in 0..lists.len() {
        let list = &mut lists[place];
        list.clear();
    }
}
