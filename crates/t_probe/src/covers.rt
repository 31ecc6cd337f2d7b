//! Whether a clause covers a pair of labels.
ghost use Rattle.std.specs.Prelude.{◌≡◌, ◌≤◌, All, true, false};
ghost use Rattle.mp_clauses.specs.Slots.{is_live, live_clauses};
ghost use Rattle.mp_store.specs.Measures.{is_covered};
ghost use Rattle.t_probe.specs.Underway.{is_within, has_within};

use mp_logic::Lit;
use mp_store::{ClauseId, Store, place};

/// Whether some clause has no literal other than the two.
pub fn is_covered(store: &Store, first: Lit, second: Lit) -> bool
    requires unrefuted { store.now.refuted ≡ false }
    requires first { first.variable ≤ store.now.vars }
    requires second { second.variable ≤ store.now.vars }
    ensures { result ≡ is_covered (live_clauses store.now.slots) first second }
{
    let _ = store.vars();
    let of_first = store.occurrences(first);
    let of_second = store.occurrences(second);
    covers_among(store, of_first, first, second) || covers_among(store, of_second, first, second)
}

/// Whether one of these clauses has no literal other than the two.
fn covers_among(store: &Store, ids: &[ClauseId], first: Lit, second: Lit) -> bool
    requires { All (λ id. is_live store.now.slots id ≡ true) ids.now }
    ensures { result ≡ has_within store.now.slots ids.now first second }
{
    for id in ids {
        if is_within(store.clause(*id), first, second) {
            return true;
        }
    }
    false
}

/// Whether each literal of the clause is one of the two.
fn is_within(clause: &[Lit], first: Lit, second: Lit) -> bool
    ensures { result ≡ is_within first second clause.now }
{
    clause.iter().all(|lit| place(*lit) == place(first) || place(*lit) == place(second))
}
