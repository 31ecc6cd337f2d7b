ghost use Rattle.std.specs.Prelude.{◌≡◌, ◌+◌, ◌^◌, ◌<◌, ◌≤◌, IsTrue, ◌↔◌, MatchBool, length, slice_set};
ghost use Rattle.mp_clauses.specs.Tables.{row_at, dead, slots_of, literals_of, IsSize, AreShort};

use crate::arena::Arena;
use crate::clause_id::ClauseId;
use mp_logic::Clause;

/// How many clauses are live, and how many literals they have.
#[derive(Clone, Copy)]
pub struct Size {
    pub clauses: u64,
    pub literals: u64,
}

/// Counts a clause no more, if it is live.
pub fn uncount(size: &mut Size, rows: &Arena, id: ClauseId)
    requires known { id < length rows.now.rows }
    requires sized { IsSize size.old (slots_of rows.now.rows) }
    ensures sized { IsSize size.new (slots_of (slice_set rows.now.rows id (dead (row_at rows.now.rows id)))) }
    ensures less { size.new.literals ≤ size.old.literals }
{
    if rows.is_live(id) {
        size.clauses -= 1;
        size.literals -= rows.clause(id).len() as u64;
    }
}

/// How many literals there are.
pub fn literals(clauses: &[Clause]) -> u64
    requires { literals_of clauses.now < 2 ^ 64 }
    ensures { result ≡ literals_of clauses.now }
{
    clauses.iter().map(|clause| clause.len() as u64).sum()
}

/// Whether the literals can be counted, beside those that are counted already.
pub fn are_countable(counted: u64, clauses: &[Clause]) -> bool
    ensures { MatchBool result (counted + literals_of clauses.now < 2 ^ 64) (2 ^ 64 ≤ counted + literals_of clauses.now) }
{
    let mut total = counted;
    for clause in clauses {
        match total.checked_add(clause.len() as u64) {
            Some(more) => total = more,
            None => return false,
        }
    }
    true
}

/// Whether each clause is short enough for its place to say how long it is.
pub fn are_short(clauses: &[Clause]) -> bool
    ensures { IsTrue result ↔ AreShort clauses.now }
{
    clauses.iter().all(|clause| clause.len() < 1 << 32)
}
