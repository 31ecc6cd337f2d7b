//! Which clauses keep the clause in hand from being blocked on a literal: a clause with its negation that does not clash with
//! it beside the variable stops the test. A walk over the clauses finds the first such, and reads the literals of those alone
//! whose signatures say that they may clash.
//!
//! What stops one clause mostly stops the next, so the last stop of each literal is kept. It is believed only once it is
//! looked at: that costs the literals of one clause.
ghost use Rattle.std.specs.Prelude.{◌≡◌, ◌<◌, ◌^◌, ◌&&◌, not, All, IfOk, true, replicate, slice_index_or, slice_set};
ghost use Rattle.mp_clauses.specs.Occurrences.{slot_has};
ghost use Rattle.mp_clauses.specs.Places.{place_of, has, width};
ghost use Rattle.mp_clauses.specs.Signatures.{bit_of, signature_of};
ghost use Rattle.mp_clauses.specs.Slots.{clause_of, is_live};
ghost use Rattle.mp_store.specs.Clashing.{slot_clashes};
ghost use Rattle.t_blocked.specs.Stopping.{first_stop};

use mp_logic::{Lit, NoMemory};
use mp_store::{ClauseId, LiteralSet, Store, clashes_with, place, signature_beside};
use std::alloc::Global;
use std::marker::Model;

/// For each literal, by place, the id of the clause that stopped the last walk over the clauses with it; 0 at first. Nothing is
/// promised of the clause: it may be gone, or not have the literal.
#[derive(Drop)]
pub struct Stops {
    ids: Vec<u32>,
}

impl Model for Stops {
    ghost use Rattle.std.specs.Prelude.{List, ℕ};

    ghost Value = { List ℕ };

    ghost view = { λ s. s.ids.items };
}

impl Stops {
    /// A table for the literals of the store, of four bytes each.
    pub fn new(alloc: Global, store: &Store) -> Result<Stops, NoMemory>
        ensures { IfOk result (λ made. made ≡ replicate (width store.now.vars) 0) }
    {
        let places = 2 * store.vars() as usize + 2;
        Ok(Stops {
            ids: vec![in alloc; 0; places]?,
        })
    }

    /// The id for the literal.
    pub fn last(&self, lit: Lit) -> ClauseId
        ensures { result ≡ slice_index_or self.now (place_of lit) 0 }
    {
        match self.ids.get(place(lit)) {
            Some(id) => *id as usize,
            None => 0,
        }
    }

    /// Keeps the id for the literal, unless it takes more than 32 bits.
    pub fn set(&mut self, lit: Lit, id: ClauseId)
        ensures { id < 2 ^ 32 → self.new ≡ slice_set self.old (place_of lit) id }
    {
        let place = place(lit);
        if place < self.ids.len() && id <= 0xffff_ffff {
            self.ids[place] = id as u32;
        }
    }
}

/// Whether the id has a clause with the literal which does not clash with the clause in hand beside the literal's variable.
pub fn is_stop(store: &Store, hand: &LiteralSet, lit: Lit, id: ClauseId) -> bool
    ensures { result ≡ (slot_has (place_of lit) (clause_of store.now.slots id) && not (slot_clashes lit.variable hand.now (clause_of store.now.slots id))) }
{
    if !store.live(id) {
        return false;
    }
    let clause = store.clause(id);
    has_place(clause, place(lit)) && !hand.clashes_beside(lit.variable, clause)
}

/// Whether the clause has the literal of this place.
fn has_place(clause: &[Lit], wanted: usize) -> bool
    ensures { result ≡ has wanted clause.now }
{
    clause.iter().any(|lit| place(*lit) == wanted)
}

/// The first of these clauses that does not clash with the clause in hand beside the variable.
pub fn find_stop(
    store: &Store,
    hand: &LiteralSet,
    variable: u32,
    ids: &[ClauseId],
) -> Option<ClauseId>
    requires { All (λ id. is_live store.now.slots id ≡ true) ids.now }
    ensures { result ≡ first_stop variable hand.now store.now.slots ids.now }
{
    let bits = signature_beside(hand, variable);
    for id in ids {
        if !clashes_with(store, hand, variable, bits, *id) {
            return Some(*id);
        }
    }
    None
}
