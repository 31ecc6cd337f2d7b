//! The words of a command line, and the commands that they may spell.
ghost use Rattle.std.specs.Prelude.{◌≡◌, ◌<◌, ◌↔◌, Some, slice_get, ℕ, List, [], ◌∷◌, ◌++◌, map, length, string_bytes, OnOk, OnErr, IfSome, IfNone, IsTrue};

use mp_logic::NoMemory;
use std::alloc::Global;
use std::marker::Model;

/// The words of a command line, without the program's name.
#[derive(Drop)]
pub struct Words {
    alloc: Global,
    inner: Vec<String>,
}

impl Model for Words {
    ghost Value = { List (List ℕ) };

    ghost view = { λ w. map string_bytes w.inner.items };
}

impl Words {
    /// No words; it takes no memory.
    pub fn new(alloc: Global) -> Self
        ensures { result ≡ [] }
    {
        Words {
            alloc,
            inner: Vec::new(alloc),
        }
    }

    /// Puts a word at the end; nothing changes where memory is refused.
    pub fn push(&mut self, word: &str) -> Result<(), NoMemory>
        ensures ok { OnOk result (self.new ≡ self.old ++ word.now ∷ []) }
        ensures err { OnErr result (self.new ≡ self.old) }
    {
        let Ok(word) = String::from_str(self.alloc, word) else {
            return Err(NoMemory);
        };
        self.inner.push(word).map_err(|_| NoMemory)
    }

    /// The word at a place, from 0.
    pub fn text(&self, place: usize) -> &str
        requires { place < length self.now }
        ensures { slice_get self.now place ≡ Some result.now }
    {
        self.inner[place].as_str()
    }

    /// How many words there are.
    pub fn len(&self) -> usize
        ensures { result ≡ length self.now }
    {
        self.inner.len()
    }

    /// The words, in order.
    pub(crate) fn items(&self) -> &[String]
        ensures { map string_bytes result.now ≡ self.now }
    {
        &self.inner
    }
}
