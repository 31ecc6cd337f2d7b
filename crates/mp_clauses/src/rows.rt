ghost use Rattle.std.specs.Prelude.{◌≡◌, ◌<◌, ◌≤◌, ◌++◌, All, length, ℕ, map, false};
ghost use Rattle.mp_clauses.specs.Tables.{live_in, killed, clause_at, alive, slots_of, literals_of, IsSize, AreShort};

use crate::arena::Arena;
use crate::clause_id::ClauseId;
use crate::sizes::{Size, uncount};
use mp_logic::Clauses;

pub fn kill(rows: &mut Arena, size: &mut Size, gone: &[ClauseId])
    requires known { All (λ id. id < length rows.old.rows) gone.now }
    requires sized { IsSize size.old (slots_of rows.old.rows) }
    ensures rows { rows.new.rows ≡ killed gone.now rows.old.rows }
    ensures free { rows.new.free ≡ rows.old.free }
    ensures room { rows.new.room ≡ rows.old.room }
    ensures sized { IsSize size.new (slots_of rows.new.rows) }
    ensures less { size.new.literals ≤ size.old.literals }
{
    for id in gone {
        uncount(size, rows, *id);
        rows.kill(*id);
    }
}

pub fn kill_every(rows: &mut Arena)
    ensures len { length rows.new.rows ≡ length rows.old.rows }
    ensures free { rows.new.free ≡ rows.old.free }
    ensures same { (k : ℕ) → clause_at rows.new.rows k ≡ clause_at rows.old.rows k }
    ensures dead { (k : ℕ) → live_in rows.new.rows k ≡ false }
{
    for id in 0..rows.len() {
        rows.kill(id);
    }
}

/// Puts the clauses last.
pub fn move_in(rows: &mut Arena, added: Clauses)
    requires free { length added ≤ rows.old.free }
    requires room { literals_of added ≤ rows.old.room }
    requires short { AreShort added }
    ensures { rows.new.rows ≡ rows.old.rows ++ map alive added }
{
    for clause in added.into_vec() {
        rows.push(clause.items());
    }
}
