ghost use Rattle.std.specs.Prelude.{◌≡◌, ◌≢◌, true};
ghost use Rattle.mp_logic.specs.Literal.{IsUpTo};
ghost use Rattle.mp_store.specs.Held.{Held};
ghost use Rattle.mp_resting.specs.Resting.{IsSeen};
ghost use Rattle.t_elim.specs.Eliminating.{positive, negative_of};
ghost use Rattle.t_elim.specs.Stayed.{HasStayed};

use mp_logic::Lit;
use mp_resting::Seen;
use mp_store::Store;

/// Whether, as far as can be told, the variable had no cost when the store was seen, and has the clauses that it had then. It
/// costs at most four searches by halves.
pub fn is_untouched(store: &Store, seen: &Seen, variable: u32) -> bool
    requires { IsUpTo store.now.vars (positive variable) }
    ensures remembered { result ≡ true → seen.now.mark ≢ 0 }
    ensures stayed { result ≡ true → (before : Held) → IsSeen seen.now before store.now → HasStayed (positive variable) before store.now × HasStayed (negative_of variable) before store.now }
{
    if seen.mark == 0 {
        return false;
    }
    let positive = Lit::new(variable, false);
    let negative = Lit::new(variable, true);
    has_stayed(store, seen, positive) && has_stayed(store, seen, negative)
}

/// The same of one literal: no clause with it went, and none came.
fn has_stayed(store: &Store, seen: &Seen, lit: Lit) -> bool
    requires { IsUpTo store.now.vars lit }
    ensures { result ≡ true → (before : Held) → IsSeen seen.now before store.now → HasStayed lit before store.now }
{
    seen.has_kept(store, lit) && !seen.has_gained(store, lit)
}
