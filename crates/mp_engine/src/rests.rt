//! What techniques remember from one stage to a later one, which pass over what nothing has touched since they left nothing to do.
ghost use Rattle.mp_store.specs.Held.{Held};
ghost use Rattle.mp_engine.specs.Rests.{AreRested};

use mp_resting::Seen;
use std::alloc::Global;

/// What each of these techniques remembers of a store.
#[derive(Debug, Drop)]
pub struct Rests {
    pub propagated: Seen,
    pub subsumed: Seen,
    pub strengthened: Seen,
    pub blocked: Seen,
    pub eliminated: Seen,
}

impl Rests {
    /// Nothing is remembered.
    pub fn new(alloc: Global) -> Rests
        ensures { (store : Held) → AreRested result store }
    {
        Rests {
            propagated: Seen::new(alloc),
            subsumed: Seen::new(alloc),
            strengthened: Seen::new(alloc),
            blocked: Seen::new(alloc),
            eliminated: Seen::new(alloc),
        }
    }
}
