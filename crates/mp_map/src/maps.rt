ghost use Rattle.std.specs.Prelude.{◌≡◌};
ghost use Rattle.mp_map.specs.declared.maps.MapError.TheVariants.{NoMemory as OutOfMemory};

use mp_logic::{Clause, Clauses, Copied, ListOf, Names, NoMemory, Weight};
use std::alloc::Global;
use thiserror::Error;

/// The version in which a set of literals may have several clauses. In version 1 each entry has one.
pub const LATEST_VERSION: u32 = 2;

/// How assignments of a written instance are carried back to the original one.
///
/// It is valid where `version` is 1 or 2, `original` is at most 8,388,607, `inner` is from `original` to 16,777,215,
/// `written` is at most `inner`, `offset` is below the bound of weights, there are `written` names, which rise strictly from 1
/// to `inner`, each entry has a clause, and in version 1 just one, the clauses of all entries are at most
/// 18,446,744,073,709,551,615, the literals that an entry sets and those of each of its clauses rise strictly by variable from
/// 1 to `inner`, and an entry sets some literal.
#[derive(Debug, Drop)]
pub struct MapFile {
    /// how the map is spelled: 1, or 2 where an entry may have several clauses
    pub version: u32,
    /// the number of variables of the original instance
    pub original: u32,
    /// the number of variables that repairs speak of
    pub inner: u32,
    /// the number of variables of the written instance
    pub written: u32,
    /// what a cost in the original instance has more, in the instance's unit of weight
    pub offset: Weight,
    /// the inner variable of each written variable, in order
    pub names: Names,
    /// what is mended, the last one first
    pub repairs: Entries,
}

/// One step of the way back: it makes each literal of `sets` true where some clause of `clauses` is false, and changes
/// nothing otherwise. It says as much as one repair for each of its clauses.
#[derive(Debug, Drop)]
pub struct Entry {
    pub sets: Clause,
    pub clauses: Clauses,
}

/// A list of entries, the last of which is applied first.
pub type Entries = ListOf<Entry>;

impl Copied for Entry {
    fn copy(&self, alloc: Global) -> Result<Self, NoMemory> {
        Ok(Entry {
            sets: self.sets.copy(alloc)?,
            clauses: self.clauses.copy(alloc)?,
        })
    }
}

/// Why a text is no map.
#[derive(Clone, Copy, Debug, PartialEq, Eq, Error)]
pub enum MapError {
    /// The text is the spelling of no map. The line, from 1, is that of the first byte with which the bytes so far begin
    /// no spelling, or that of the last byte where the text only ends too early (1 for the empty text).
    #[error("line {line} of the map is at fault")]
    BadMap { line: u64 },
    #[error("out of memory")]
    NoMemory,
}

impl From<NoMemory> for MapError {
    ghost from_gives = { λ _ e. e ≡ OutOfMemory };

    fn from(_: NoMemory) -> MapError {
        MapError::NoMemory
    }
}
