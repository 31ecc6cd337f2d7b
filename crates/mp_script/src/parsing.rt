ghost use Rattle.std.specs.Prelude.{◌≡◌, IfOk, MatchResult};
ghost use Rattle.mp_script.specs.Grammar.{IsScriptOf, IsFault};

use crate::errors::ScriptError;
use crate::reader::Reader;
use crate::scripts::Script;
use std::alloc::Global;

/// The script of a text, as the value of `--techniques`: items without blanks, each `#`, a stage or a loop. A stage is a
/// letter of `ufpbsrvelgmcGTKH` with an optional budget in braces, of at most 1,000,000 for `T`, `K` and `H` and at most
/// 10^18 else. A loop is one or more stages in brackets with an optional number of rounds in braces, 1 to 1,000,000.
/// Leading zeros are accepted. The sign `#` gives no group, so the text `#` is the script that does nothing, as the empty
/// text is. `BadScript` comes where the text is no script.
pub fn parse(alloc: Global, text: &str) -> Result<Script, ScriptError>
    ensures { MatchResult result (IsScriptOf text.now) (IsFault text.now) }
{
    let bytes = text.as_bytes();
    let mut reader = Reader::new(alloc);
    for (place, byte) in bytes.iter().enumerate() {
        if !reader.take(alloc, *byte)? {
            return Err(ScriptError::BadScript { place });
        }
    }
    let Some(script) = reader.finish(alloc)? else {
        return Err(ScriptError::BadScript { place: bytes.len() });
    };
    Ok(script)
}
