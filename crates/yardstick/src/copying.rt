//! The yardstick for reading and writing maps: a text, copied token by token.
ghost use Rattle.std.specs.Prelude.{◌≡◌, IfOk, false};
ghost use Rattle.mp_text.specs.Tokens.{tokens_of};
ghost use Rattle.yardstick.specs.Copying.{spaced};

use mp_logic::NoMemory;
use mp_text::{Cursor, TextBuf};
use std::alloc::Global;

/// The tokens of a text, each with one blank behind it.
pub fn copied(alloc: Global, text: &[u8]) -> Result<TextBuf, NoMemory>
    ensures { IfOk result (λ copy. copy ≡ spaced (tokens_of false text.now)) }
{
    let mut copy = TextBuf::new(alloc);
    let mut cursor = Cursor::new(text, false);
    'tokens: while let Some(token) = cursor.next_token() {
        copy.word(token.text)?;
        copy.word(b" ")?;
    }
    Ok(copy)
}
