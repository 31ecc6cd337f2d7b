ghost use Rattle.std.specs.Prelude.{◌≡◌, [], ◌++◌, decimal, OnOk, OnErr};

use crate::Bytes;
use itoa::Buffer;
use mp_logic::{ListOf, NoMemory};
use std::alloc::Global;
use std::marker::Model;

/// A text that grows at its end. A contract sees its bytes.
#[derive(Debug, Drop)]
pub struct TextBuf {
    text: Bytes,
}

impl Model for TextBuf {
    ghost use Rattle.std.specs.Prelude.{List, ℕ};

    ghost Value = { List ℕ };

    ghost view = { λ b. b.text };
}

impl TextBuf {
    /// The empty text, which takes no memory.
    pub fn new(alloc: Global) -> TextBuf
        ensures { result ≡ [] }
    {
        TextBuf {
            text: ListOf::new(alloc),
        }
    }

    /// Puts bytes at the end; nothing changes where memory is refused.
    pub fn word(&mut self, piece: &[u8]) -> Result<(), NoMemory>
        ensures ok { OnOk result (self.new ≡ self.old ++ piece.now) }
        ensures err { OnErr result (self.new ≡ self.old) }
    {
        self.text.extend(piece)
    }

    /// Puts the decimal digits of a number at the end, without leading zeros; nothing changes where memory is refused.
    pub fn number(&mut self, n: u128) -> Result<(), NoMemory>
        ensures ok { OnOk result (self.new ≡ self.old ++ decimal n) }
        ensures err { OnErr result (self.new ≡ self.old) }
    {
        let mut digits = Buffer::new();
        if n <= u128::from(u64::MAX) {
            return self.word(digits.format(n as u64).as_bytes());
        }
        self.word(digits.format(n).as_bytes())
    }

    /// The text so far.
    pub fn bytes(&self) -> &[u8]
        ensures { result.now ≡ self.now }
    {
        self.text.items()
    }

    /// The text, which takes no memory.
    pub fn into_bytes(self) -> Bytes
        ensures { result ≡ self }
    {
        self.text
    }
}
