//! The parts of live clauses are moved together, so that the literals of dead clauses take no memory.
ghost use Rattle.std.specs.Prelude.{◌≡◌, ◌+◌, ◌-◌, ◌<◌, ◌≤◌, ◌++◌, ◌∷◌, [], cond, length, map, slice_set, vec_len, vec_capacity};
ghost use Rattle.mp_clauses.specs.Slots.{live_clauses};
ghost use Rattle.mp_clauses.specs.Tables.{row_of, place_at, kept_part, moved_to, settled, slots_of, literals_of, AreLaidOut};

use crate::arena::Place;
use crate::clause_id::ClauseId;
use mp_logic::Lit;

/// The place of a clause without literals that is not live.
const NOWHERE: Place = Place {
    start: 0,
    signature: 0,
    len: 0,
    live: false,
};

/// Puts the literals of a clause last in another list, where the clause is live.
fn move_part(
    old: &[Lit],
    id: ClauseId,
    places: &mut Vec<Place>,
    literals: &mut Vec<Lit>,
    order: &mut Vec<ClauseId>,
)
    requires known { id < length places.old.items }
    requires inside { (place_at places.old.items id).start + (place_at places.old.items id).len ≤ length old.now }
    requires room { vec_len literals.old + length (kept_part old.now (place_at places.old.items id)) ≤ vec_capacity literals.old }
    requires free { vec_len order.old + 1 ≤ vec_capacity order.old }
    ensures places { places.new.items ≡ slice_set places.old.items id (moved_to (length literals.old.items) (place_at places.old.items id)) }
    ensures literals { literals.new.items ≡ literals.old.items ++ kept_part old.now (place_at places.old.items id) }
    ensures order { order.new.items ≡ order.old.items ++ cond (place_at places.old.items id).live (id ∷ []) [] }
    ensures room { vec_capacity literals.old ≤ vec_capacity literals.new }
    ensures free { vec_capacity order.new ≡ vec_capacity order.old }
    ensures kept { vec_capacity places.new ≡ vec_capacity places.old }
{
    let place = places[id];
    if !place.live {
        places[id] = NOWHERE;
        return;
    }
    let start = literals.len();
    let end = place.start + place.len as usize;
    // memory is there, so this can't fail
    let _ = literals.extend_from_slice(&old[place.start..end]);
    places[id] = Place {
        start,
        signature: place.signature,
        len: place.len,
        live: true,
    };
    order.push_reserved(id);
}

/// Moves the parts of the live clauses into another list, in the order in which they lie.
pub fn pack(
    old: &[Lit],
    ids: &[ClauseId],
    places: &mut Vec<Place>,
    literals: &mut Vec<Lit>,
    order: &mut Vec<ClauseId>,
)
    requires laid { AreLaidOut old.now places.old.items ids.now }
    requires empty { (literals.old.items ≡ []) × (order.old.items ≡ []) }
    requires room { literals_of (live_clauses (slots_of (map (row_of old.now) places.old.items))) ≤ vec_capacity literals.old }
    requires free { length ids.now ≤ vec_capacity order.old }
    ensures laid { AreLaidOut literals.new.items places.new.items order.new.items }
    ensures rows { map (row_of literals.new.items) places.new.items ≡ map settled (map (row_of old.now) places.old.items) }
    ensures literals { length literals.new.items ≡ literals_of (live_clauses (slots_of (map (row_of old.now) places.old.items))) }
    ensures room { vec_capacity literals.old ≤ vec_capacity literals.new }
    ensures free { (vec_capacity order.new ≡ vec_capacity order.old) × (length order.new.items ≤ length ids.now) }
    ensures len { length places.new.items ≡ length places.old.items }
    ensures kept { vec_capacity places.new ≡ vec_capacity places.old }
{
    for id in ids {
        move_part(old, *id, places, literals, order);
    }
}
