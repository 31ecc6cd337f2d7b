//! What a run before tells of one that goes on where it ended: the clauses that there were need not be held against each
//! other.
ghost use Rattle.std.specs.Prelude.{◌≡◌, ◌⊎◌, ◌<◌, ◌≤◌, [], Contains};
ghost use Rattle.mp_clauses.specs.Slots.{live_clauses};
ghost use Rattle.mp_store.specs.declared.ran.Ending.TheVariants.{Finished};
ghost use Rattle.mp_resting.specs.Resting.{IsSeen};

use mp_resting::Seen;
use mp_store::{ClauseId, Ending, Store};
use std::alloc::Global;

/// The least id that a clause is held against: the mark where its own is below it.
pub fn least_for(own: ClauseId, mark: ClauseId) -> ClauseId
    ensures within { result ≤ mark }
    ensures old { 0 < result → own < mark }
{
    if own < mark { mark } else { 0 }
}

/// Remembers the ids where a run has finished and no clause is empty, so that it left nothing to do.
pub fn remember(alloc: Global, store: &Store, ending: Ending, seen: &mut Seen)
    ensures { (seen.new ≡ seen.old) ⊎ ((ending ≡ Finished) × (Contains (live_clauses store.now.slots) [] → ⊥) × IsSeen seen.new store.now store.now) }
{
    if ending == Ending::Finished && !store.refuted() {
        *seen = Seen::ids(alloc, store);
    }
}
