ghost use Rattle.std.specs.Prelude.{◌≡◌, ◌+◌, ◌<◌, ◌≤◌, ◌++◌, ◌∷◌, [], OnOk, OnErr, IfOk, length, All, not, nat_le, slice_index, ◌^◌, Some, None, map, replicate, ℕ, true};
ghost use Rattle.mp_clauses.specs.Slots.{live_clauses, clause_of, is_live};
ghost use Rattle.mp_clauses.specs.Arena.{ArePlaced, arena_bound};
ghost use Rattle.mp_clauses.specs.Signatures.{signature_at};
ghost use Rattle.mp_clauses.specs.Occurrences.{ids_with};
ghost use Rattle.mp_clauses.specs.Slots.{cleared};
ghost use Rattle.mp_clauses.specs.Tables.{apart, literals_of, AreWithin, HasRoom};

use crate::arena::Arena;
use crate::clause_id::ClauseId;
use crate::occurrences::Occurrences;
use crate::sizes::{self, Size};
use crate::{first_table, links, marks, rows};
use mp_logic::{Clause, Clauses, ListOf, Lit, NoMemory};
use std::alloc::Global;
use std::marker::Model;

/// Clauses by id, with the ids by literal.
#[derive(Drop)]
pub struct ClauseTable {
    rows: Arena,
    lists: Vec<Occurrences>,
    marks: Vec<bool>,
    size: Size,
    alloc: Global,
}

impl Model for ClauseTable {
    ghost use Rattle.mp_clauses.specs.Tables.{Catalog, IsClauseTable, slots_of, spares_of};

    ghost Value = { Catalog };

    ghost view = { λ t. record { slots = slots_of t.rows.rows; arena = t.rows.arena; places = t.rows.places; free = spares_of t.lists.items; free_rows = t.rows.free; free_literals = t.rows.room; literals = t.size.literals } };

    ghost invariant = { λ t. IsClauseTable t.rows.rows t.lists.items t.marks.items t.size };
}

impl ClauseTable {
    /// The table of these clauses, whose places are their ids, for so many places of literals.
    pub fn of(alloc: Global, places: usize, clauses: Clauses) -> Result<ClauseTable, NoMemory>
        requires within { All (AreWithin places) clauses }
        requires distinct { All (λ c. apart c ≡ true) clauses }
        ensures slots { IfOk result (λ made. made.slots ≡ map Some clauses) }
        ensures len { IfOk result (λ made. length made.free ≡ places) }
    {
        if !sizes::are_countable(0, clauses.items()) || !sizes::are_short(clauses.items()) {
            return Err(NoMemory);
        }
        let size = Size {
            clauses: clauses.len() as u64,
            literals: sizes::literals(clauses.items()),
        };
        let mut rows = Arena::with_room(alloc, clauses.len(), size.literals as usize)?;
        rows::move_in(&mut rows, clauses);
        let lists = first_table::lists_of(alloc, places, &rows)?;
        let mut marks = Vec::with_capacity(alloc, places)?;
        marks::widen_marks(&mut marks, places)?;
        Ok(ClauseTable {
            rows,
            lists,
            marks,
            size,
            alloc,
        })
    }

    /// Makes the tables by literal at least this long.
    pub fn widen(&mut self, places: usize) -> Result<(), NoMemory>
        ensures slots { self.new.slots ≡ self.old.slots }
        ensures lies { (self.new.arena ≡ self.old.arena) × (self.new.places ≡ self.old.places) }
        ensures len { length self.old.free ≤ length self.new.free }
        ensures ok { OnOk result (places ≤ length self.new.free) }
    {
        marks::widen_marks(&mut self.marks, places)?;
        links::widen(self.alloc, &mut self.lists, places)?;
        Ok(())
    }

    /// Takes the memory that these clauses need. A refusal leaves the clauses where they lie.
    pub fn reserve(&mut self, added: &[Clause]) -> Result<(), NoMemory>
        requires { All (AreWithin (length self.old.free)) added.now }
        ensures slots { self.new.slots ≡ self.old.slots }
        ensures len { length self.new.free ≡ length self.old.free }
        ensures ok { OnOk result (HasRoom added.now self.new) }
        ensures small { OnOk result (length self.new.arena ≤ arena_bound self.new.slots) }
        ensures err { OnErr result ((self.new.arena ≡ self.old.arena) × (self.new.places ≡ self.old.places)) }
    {
        if !sizes::are_countable(self.size.literals, added) || !sizes::are_short(added) {
            return Err(NoMemory);
        }
        links::release_all(&mut self.lists, added);
        links::reserve_all(&mut self.lists, added)?;
        self.reserve_rows(added.len(), sizes::literals(added) as usize)?;
        Ok(())
    }

    /// Takes memory for so many more clauses and literals, in a new arena where most literals are dead.
    fn reserve_rows(&mut self, clauses: usize, literals: usize) -> Result<(), NoMemory>
        requires { self.old.literals + literals < 2 ^ 64 }
        ensures slots { self.new.slots ≡ self.old.slots }
        ensures free { self.new.free ≡ self.old.free }
        ensures literals { self.new.literals ≡ self.old.literals }
        ensures room { OnOk result ((clauses ≤ self.new.free_rows) × (literals ≤ self.new.free_literals)) }
        ensures small { OnOk result (length self.new.arena ≤ arena_bound self.new.slots) }
        ensures err { OnErr result ((self.new.arena ≡ self.old.arena) × (self.new.places ≡ self.old.places)) }
    {
        if self.is_sparse() {
            return self.compact(clauses, literals);
        }
        self.rows.reserve(clauses, literals)?;
        Ok(())
    }

    /// Whether so many literals are dead that the arena has to be made anew.
    fn is_sparse(&self) -> bool
        ensures { result ≡ not (nat_le (length self.now.arena) (arena_bound self.now.slots)) }
    {
        let live = self.size.literals as u128;
        self.rows.arena().len() as u128 > 2 * live + 1024
    }

    /// Frees the literals of dead clauses, and takes memory for so many more clauses and literals. A refusal changes nothing.
    fn compact(&mut self, clauses: usize, literals: usize) -> Result<(), NoMemory>
        requires { self.old.literals + literals < 2 ^ 64 }
        ensures slots { self.new.slots ≡ self.old.slots }
        ensures free { self.new.free ≡ self.old.free }
        ensures literals { self.new.literals ≡ self.old.literals }
        ensures room { OnOk result ((clauses ≤ self.new.free_rows) × (literals ≤ self.new.free_literals)) }
        ensures small { OnOk result (length self.new.arena ≤ arena_bound self.new.slots) }
        ensures err { OnErr result ((self.new.arena ≡ self.old.arena) × (self.new.places ≡ self.old.places)) }
    {
        let live = self.size.literals as usize;
        self.rows.compact(self.alloc, live, clauses, literals)?;
        Ok(())
    }

    /// Puts clauses in place of others.
    pub fn replace(&mut self, gone: &[ClauseId], added: Clauses)
        requires known { All (λ id. id < length self.old.slots) gone.now }
        requires within { All (AreWithin (length self.old.free)) added }
        requires distinct { All (λ c. apart c ≡ true) added }
        requires room { HasRoom added self.old }
        ensures slots { self.new.slots ≡ cleared gone.now self.old.slots ++ map Some added }
        ensures len { length self.new.free ≡ length self.old.free }
    {
        let first = self.rows.len();
        rows::kill(&mut self.rows, &mut self.size, gone);
        links::unlink_all(&mut self.lists, &mut self.marks, &self.rows, gone);
        links::link_all(&mut self.lists, added.items(), first);
        self.size.clauses += added.len() as u64;
        self.size.literals += sizes::literals(added.items());
        rows::move_in(&mut self.rows, added);
    }

    /// Leaves no clause but the empty one, under the next id.
    pub fn refute(&mut self)
        requires { 1 ≤ self.old.free_rows }
        ensures slots { self.new.slots ≡ replicate (length self.old.slots) None ++ Some [] ∷ [] }
        ensures len { length self.new.free ≡ length self.old.free }
    {
        rows::kill_every(&mut self.rows);
        self.rows.push(&[]);
        links::clear_every(&mut self.lists);
        self.size = Size {
            clauses: 1,
            literals: 0,
        };
    }

    pub fn live(&self, id: ClauseId) -> bool
        ensures { result ≡ is_live self.now.slots id }
    {
        self.rows.is_live(id)
    }

    /// How many ids there are so far.
    pub fn ids(&self) -> usize
        ensures { result ≡ length self.now.slots }
    {
        self.rows.len()
    }

    pub fn clause(&self, id: ClauseId) -> &[Lit]
        requires { is_live self.now.slots id ≡ true }
        ensures { Some result.now ≡ clause_of self.now.slots id }
    {
        self.rows.clause(id)
    }

    /// The literals of all clauses, those of dead ones too.
    pub fn arena(&self) -> &[Lit]
        ensures arena { result.now ≡ self.now.arena }
        ensures placed { ArePlaced self.now.slots self.now.arena self.now.places }
    {
        self.rows.arena()
    }

    /// Where the clause begins in the arena.
    pub fn place(&self, id: ClauseId) -> usize
        requires { is_live self.now.slots id ≡ true }
        ensures { result ≡ slice_index self.now.places id }
    {
        self.rows.place(id)
    }

    pub fn signature(&self, id: ClauseId) -> u64
        requires { is_live self.now.slots id ≡ true }
        ensures { result ≡ signature_at (clause_of self.now.slots id) }
    {
        self.rows.signature(id)
    }

    /// The ids of the live clauses with the literal of a place, rising.
    pub fn occurrences(&self, place: usize) -> &[ClauseId]
        requires { place < length self.now.free }
        ensures { result.now ≡ ids_with place self.now.slots }
    {
        self.lists[place].items()
    }

    pub fn size(&self) -> Size
        ensures clauses { result.clauses ≡ length (live_clauses self.now.slots) }
        ensures literals { result.literals ≡ literals_of (live_clauses self.now.slots) }
    {
        self.size
    }

    /// The live clauses, in order of id.
    pub fn copy_live(&self, alloc: Global) -> Result<Clauses, NoMemory>
        ensures { IfOk result (λ made. made ≡ live_clauses self.now.slots) }
    {
        let mut made = ListOf::new(alloc);
        for id in 0..self.rows.len() {
            if self.rows.is_live(id) {
                made.push(Clause::from_slice(alloc, self.rows.clause(id))?)?;
            }
        }
        Ok(made)
    }

    /// The same out of the table, which lets go of its lists first.
    pub fn into_live(self, alloc: Global) -> Result<Clauses, NoMemory>
        ensures { IfOk result (λ made. made ≡ live_clauses self.slots) }
    {
        let ClauseTable {
            rows,
            lists,
            size,
            ..
        } = self;
        drop(lists);
        let mut made = ListOf::from_vec(Vec::with_capacity(alloc, size.clauses as usize)?);
        for id in 0..rows.len() {
            if rows.is_live(id) {
                made.push(Clause::from_slice(alloc, rows.clause(id))?)?;
            }
        }
        Ok(made)
    }
}
