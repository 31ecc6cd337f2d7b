ghost use Rattle.std.specs.Prelude.{◌≡◌, ◌<◌, ◌≤◌, ◌||◌, OnOk, All, length, ℕ};
ghost use Rattle.mp_clauses.specs.Places.{has};
ghost use Rattle.mp_clauses.specs.Tables.{clause_at, touched, marked, AreWithin};

use crate::arena::Arena;
use crate::clause_id::ClauseId;
use crate::places::place;
use mp_logic::Lit;
use std::alloc::AllocError;

/// Marks the places of the clause.
fn mark(marks: &mut Vec<bool>, clause: &[Lit])
    requires { AreWithin (length marks.old.items) clause.now }
    ensures len { length marks.new.items ≡ length marks.old.items }
    ensures marks { (p : ℕ) → marked marks.new.items p ≡ (marked marks.old.items p || has p clause.now) }
{
    for lit in clause {
        marks[place(*lit)] = true;
    }
}

/// Marks the places of the clauses.
pub fn mark_all(rows: &Arena, marks: &mut Vec<bool>, gone: &[ClauseId])
    requires known { All (λ id. id < length rows.now.rows) gone.now }
    requires within { (k : ℕ) → AreWithin (length marks.old.items) (clause_at rows.now.rows k) }
    ensures len { length marks.new.items ≡ length marks.old.items }
    ensures marks { (p : ℕ) → marked marks.new.items p ≡ (marked marks.old.items p || touched p gone.now rows.now.rows) }
{
    for id in gone {
        mark(marks, rows.clause(*id));
    }
}

/// Makes the table at least this long.
pub fn widen_marks(marks: &mut Vec<bool>, len: usize) -> Result<(), AllocError>
    ensures len { length marks.old.items ≤ length marks.new.items }
    ensures ok { OnOk result (len ≤ length marks.new.items) }
    ensures same { (p : ℕ) → marked marks.new.items p ≡ marked marks.old.items p }
{
    if marks.len() < len {
        marks.resize(len, false)?;
    }
    Ok(())
}
