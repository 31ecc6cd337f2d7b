ghost use Rattle.std.specs.Prelude.{◌≡◌, ◌+◌, ◌^◌, ◌<◌, ◌≤◌, ◌++◌, ◌∷◌, [], IfOk, OnOk, OnErr, length, slice_set, slice_index, map};
ghost use Rattle.mp_clauses.specs.Slots.{live_clauses};
ghost use Rattle.mp_clauses.specs.Arena.{ArePlaced};
ghost use Rattle.mp_clauses.specs.Tables.{live_in, clause_at, row_at, alive, dead, settled, slots_of, literals_of};

use crate::clause_id::ClauseId;
use crate::packing::pack;
use crate::signatures::signature;
use mp_logic::Lit;
use std::alloc::{AllocError, Global};
use std::marker::Model;

/// Where the literals of a clause lie, and whether it is live.
#[derive(Clone, Copy)]
pub struct Place {
    pub start: usize,
    pub signature: u64,
    pub len: u32,
    pub live: bool,
}

/// Clauses by id, one after another in one list of literals. A dead clause keeps its literals until the list is made anew.
/// `order` has the ids of the clauses with literals in it, so that making it anew visits no other.
#[derive(Drop)]
pub struct Arena {
    literals: Vec<Lit>,
    places: Vec<Place>,
    order: Vec<ClauseId>,
}

impl Model for Arena {
    ghost use Rattle.std.specs.Prelude.{length, map, vec_len, vec_capacity, min, ◌-◌};
    ghost use Rattle.mp_clauses.specs.Tables.{Stock, row_of, AreLaidOut, AreInside};

    ghost Value = { Stock };

    ghost view = { λ a. record { rows = map (row_of a.literals.items) a.places.items; arena = a.literals.items; places = map (λ p. p.start) a.places.items; free = min (vec_capacity a.places - vec_len a.places) (vec_capacity a.order - vec_len a.order); room = vec_capacity a.literals - vec_len a.literals } };

    ghost invariant = { λ a. AreLaidOut a.literals.items a.places.items a.order.items × AreInside (length a.literals.items) a.places.items };
}

impl Arena {
    /// An arena without clauses, with memory for so many clauses and literals.
    pub fn with_room(alloc: Global, clauses: usize, literals: usize) -> Result<Arena, AllocError>
        ensures rows { IfOk result (λ made. made.rows ≡ []) }
        ensures free { IfOk result (λ made. clauses ≤ made.free) }
        ensures room { IfOk result (λ made. literals ≤ made.room) }
    {
        Ok(Arena {
            literals: Vec::with_capacity(alloc, literals)?,
            places: Vec::with_capacity(alloc, clauses)?,
            order: Vec::with_capacity(alloc, clauses)?,
        })
    }

    /// Takes memory for so many more clauses and literals.
    pub fn reserve(&mut self, clauses: usize, literals: usize) -> Result<(), AllocError>
        ensures rows { self.new.rows ≡ self.old.rows }
        ensures lies { (self.new.arena ≡ self.old.arena) × (self.new.places ≡ self.old.places) }
        ensures free { OnOk result (clauses ≤ self.new.free) }
        ensures room { OnOk result (literals ≤ self.new.room) }
    {
        self.places.reserve(clauses)?;
        self.order.reserve(clauses)?;
        self.literals.reserve(literals)?;
        Ok(())
    }

    /// Puts a live clause last.
    pub fn push(&mut self, clause: &[Lit])
        requires free { 1 ≤ self.old.free }
        requires room { length clause.now ≤ self.old.room }
        requires short { length clause.now < 2 ^ 32 }
        ensures rows { self.new.rows ≡ self.old.rows ++ alive clause.now ∷ [] }
        ensures free { self.new.free + 1 ≡ self.old.free }
        ensures room { self.old.room ≤ self.new.room + length clause.now }
    {
        let start = self.literals.len();
        // memory is there, so this can't fail
        let _ = self.literals.extend_from_slice(clause);
        self.order.push_reserved(self.places.len());
        self.places.push_reserved(Place {
            start,
            signature: signature(clause),
            len: clause.len() as u32,
            live: true,
        });
    }

    /// How many clauses there are, dead ones too.
    pub fn len(&self) -> usize
        ensures len { result ≡ length self.now.rows }
        ensures fits { length self.now.rows + self.now.free < 2 ^ 64 }
    {
        self.places.len()
    }

    /// The literals of all clauses, those of dead ones too.
    pub fn arena(&self) -> &[Lit]
        ensures arena { result.now ≡ self.now.arena }
        ensures placed { ArePlaced (slots_of self.now.rows) self.now.arena self.now.places }
    {
        &self.literals
    }

    /// Where the clause begins among them.
    pub fn place(&self, id: ClauseId) -> usize
        requires { id < length self.now.rows }
        ensures { result ≡ slice_index self.now.places id }
    {
        self.places[id].start
    }

    pub fn signature(&self, id: ClauseId) -> u64
        requires { id < length self.now.rows }
        ensures { result ≡ (row_at self.now.rows id).signature }
    {
        self.places[id].signature
    }

    pub fn is_live(&self, id: ClauseId) -> bool
        ensures { result ≡ live_in self.now.rows id }
    {
        match self.places.get(id) {
            Some(place) => place.live,
            None => false,
        }
    }

    pub fn clause(&self, id: ClauseId) -> &[Lit]
        requires { id < length self.now.rows }
        ensures clause { result.now ≡ clause_at self.now.rows id }
        ensures short { length result.now < 2 ^ 32 }
    {
        let place = self.places[id];
        let end = place.start + place.len as usize;
        &self.literals[place.start..end]
    }

    pub fn kill(&mut self, id: ClauseId)
        requires { id < length self.old.rows }
        ensures rows { self.new.rows ≡ slice_set self.old.rows id (dead (row_at self.old.rows id)) }
        ensures free { self.new.free ≡ self.old.free }
        ensures room { self.new.room ≡ self.old.room }
    {
        let place = &mut self.places[id];
        place.live = false;
    }

    /// Makes the list of literals anew without those of dead clauses, of which so many are live, and takes memory for so many
    /// more clauses and literals. A refusal changes nothing.
    pub fn compact(
        &mut self,
        alloc: Global,
        live: usize,
        clauses: usize,
        literals: usize,
    ) -> Result<(), AllocError>
        requires live { live ≡ literals_of (live_clauses (slots_of self.old.rows)) }
        requires fits { live + literals < 2 ^ 64 }
        ensures rows { OnOk result (self.new.rows ≡ map settled self.old.rows) }
        ensures free { OnOk result (clauses ≤ self.new.free) }
        ensures room { OnOk result (literals ≤ self.new.room) }
        ensures len { OnOk result (length self.new.arena ≡ live) }
        ensures err { OnErr result ((self.new.rows ≡ self.old.rows) × (self.new.arena ≡ self.old.arena) × (self.new.places ≡ self.old.places)) }
    {
        self.places.reserve(clauses)?;
        let mut order = Vec::with_capacity(alloc, self.order.len() + clauses)?;
        let mut packed = Vec::with_capacity(alloc, live + literals)?;
        pack(
            &self.literals,
            &self.order,
            &mut self.places,
            &mut packed,
            &mut order,
        );
        self.literals = packed;
        self.order = order;
        Ok(())
    }
}
