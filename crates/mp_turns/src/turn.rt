ghost use Rattle.std.specs.Prelude.{◌≡◌, [], IfOk, OnOk, true, false, ℕ};
ghost use Rattle.mp_store.specs.Held.{Held};
ghost use Rattle.mp_store.specs.Techniques.{IsRun};
ghost use Rattle.mp_turns.specs.Turning.{Turning};
ghost use Rattle.mp_turns.specs.Turned.{IsTurn};

use mp_logic::{ListOf, NoMemory};
use mp_store::Store;
use std::alloc::Global;

/// Candidates: ids, variables, or places of literals.
pub type Items = ListOf<u64>;

/// What a turn did: nothing, a change, or nothing since there was no room for a variable.
#[derive(Clone, Copy, Debug, PartialEq, Eq)]
pub enum Turned {
    Idle,
    Changed,
    NoRoom,
}

/// A technique that works by turns.
pub trait Turn {
    ghost turning: { Turning };

    // what holds of the technique's own tables beside a store
    ghost fits: { Self → Held → Type 0 };

    /// The candidates of a store, rising.
    fn candidates(&self, alloc: Global, store: &Store) -> Result<Items, NoMemory>
        ensures { IfOk result (λ made. made ≡ turning.candidates store.now) };

    /// Whether the technique knows from its own tables, without a turn, that the candidate admits no change. Without a budget it
    /// takes no turn then; where a change named it later, it would be put last, and so lose its place in the order of turns.
    fn is_known_idle(&self, store: &Store, item: u64) -> bool
        requires unrefuted { store.now.refuted ≡ false }
        requires fits { fits self.now store.now }
        ensures { result ≡ true → turning.IsIdle store.now item }
    {
        false
    }

    /// A turn on one candidate. Those that a change may have made applicable are put into `again`, rising.
    fn turn(
        &mut self,
        alloc: Global,
        store: &mut Store,
        item: u64,
        again: &mut Items,
    ) -> Result<Turned, NoMemory>
        requires unrefuted { store.old.refuted ≡ false }
        requires fits { fits self.old store.old }
        requires empty { again.old ≡ [] }
        ensures run { IsRun (turning.technique.LeavesAlone) store.old store.new }
        ensures stays { turning.stays 1 store.old store.new }
        ensures fits { OnOk result (store.new.refuted ≡ false → fits self.new store.new) }
        ensures turned { IfOk result (λ did. IsTurn turning item store.old store.new again.new did) };
}
