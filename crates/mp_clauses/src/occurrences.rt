ghost use Rattle.std.specs.Prelude.{◌≡◌, ◌+◌, ◌<◌, ◌++◌, [], ◌∷◌, OnOk, OnErr, true};
ghost use Rattle.std.specs.List.{filter};
ghost use Rattle.mp_clauses.specs.Tables.{live_in, rising_from, without_id};

use crate::arena::Arena;
use crate::clause_id::ClauseId;
use std::alloc::{AllocError, Global};
use std::marker::Model;

/// The ids of the live clauses with one literal, with places kept free for more.
#[derive(Drop)]
pub struct Occurrences {
    items: Vec<ClauseId>,
    spare: usize,
}

impl Model for Occurrences {
    ghost use Rattle.std.specs.Prelude.{◌+◌, ◌≤◌, vec_len, vec_capacity};
    ghost use Rattle.mp_clauses.specs.Tables.{Room};

    ghost Value = { Room };

    ghost view = { λ s. record { items = s.items.items; spare = s.spare } };

    ghost invariant = { λ s. vec_len s.items + s.spare ≤ vec_capacity s.items };
}

impl Occurrences {
    pub fn new(alloc: Global) -> Occurrences
        ensures items { result.items ≡ [] }
        ensures spare { result.spare ≡ 0 }
    {
        Occurrences {
            items: Vec::new(alloc),
            spare: 0,
        }
    }

    /// Puts an id last. The first one takes memory for so many.
    pub fn put(&mut self, id: ClauseId, room: usize) -> Result<(), AllocError>
        ensures items { OnOk result (self.new.items ≡ self.old.items ++ id ∷ []) }
        ensures spare { self.new.spare ≡ self.old.spare }
    {
        if self.items.is_empty() {
            self.items.reserve_exact(room)?;
        }
        self.items.reserve(self.spare + 1)?;
        self.items.push_reserved(id);
        Ok(())
    }

    /// Keeps one more place free.
    pub fn reserve_one(&mut self) -> Result<(), AllocError>
        ensures items { self.new.items ≡ self.old.items }
        ensures ok { OnOk result (self.new.spare ≡ self.old.spare + 1) }
        ensures err { OnErr result (self.new.spare ≡ self.old.spare) }
    {
        self.items.reserve(self.spare + 1)?;
        self.spare += 1;
        Ok(())
    }

    /// Puts an id last, in a place that was kept free.
    pub fn push_spare(&mut self, id: ClauseId)
        requires { 0 < self.old.spare }
        ensures items { self.new.items ≡ self.old.items ++ id ∷ [] }
        ensures spare { self.new.spare + 1 ≡ self.old.spare }
    {
        self.items.push_reserved(id);
        self.spare -= 1;
    }

    /// Gives back the places that were kept free.
    pub fn release(&mut self)
        ensures items { self.new.items ≡ self.old.items }
        ensures spare { self.new.spare ≡ 0 }
    {
        self.spare = 0;
    }

    pub fn clear(&mut self)
        ensures items { self.new.items ≡ [] }
        ensures spare { self.new.spare ≡ self.old.spare }
    {
        self.items.clear();
    }

    /// Takes an id out. The ids rise, so it is found by halves.
    pub fn take_out(&mut self, id: ClauseId)
        requires { rising_from 0 self.old.items ≡ true }
        ensures items { self.new.items ≡ without_id id self.old.items }
        ensures spare { self.new.spare ≡ self.old.spare }
    {
        if let Ok(place) = self.items.binary_search(&id) {
            self.items.remove(place);
        }
    }

    pub fn keep_live(&mut self, rows: &Arena)
        ensures items { self.new.items ≡ filter (live_in rows.now.rows) self.old.items }
        ensures spare { self.new.spare ≡ self.old.spare }
    {
        self.items.retain(|id| rows.is_live(*id));
    }

    pub fn items(&self) -> &[ClauseId]
        ensures { result.now ≡ self.now.items }
    {
        self.items.as_slice()
    }
}
