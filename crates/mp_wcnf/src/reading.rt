ghost use Rattle.std.specs.Prelude.{◌≡◌, ◌≢◌, ◌⊎◌, IfOk, IfErr, MatchResult, IsErrAnd};
ghost use Rattle.mp_logic.specs.Formula.{Formula};
ghost use Rattle.mp_wcnf.specs.Meaning.{Denotes};
ghost use Rattle.mp_wcnf.specs.Refusals.{IsWithinLimits, IsRefused};

use crate::errors::ReadError;
use crate::reader::read_all;
use mp_logic::{Instance, Limits};
use std::alloc::Global;

/// Reads a text in either form: the instance that it denotes, if that is within the limits. Otherwise the first token at
/// fault is refused: a token that can't stand at its place, or one with which a limit is passed. A text that ends inside
/// a header or a clause is refused too.
pub fn read(alloc: Global, text: &[u8], limits: &Limits) -> Result<Instance, ReadError>
    ensures found { IfOk result (λ f. Denotes text.now f × IsWithinLimits limits.now f) }
    ensures refused { IfErr result (λ e. e ≢ ReadError.NoMemory → IsRefused limits.now text.now e) }
    ensures accepts { (f : Formula) → Denotes text.now f → IsWithinLimits limits.now f → MatchResult result (λ i. i ≡ f) (λ e. e ≡ ReadError.NoMemory) }
    ensures refuses { (e : ReadError) → IsRefused limits.now text.now e → IsErrAnd result (λ d. (d ≡ e) ⊎ (d ≡ ReadError.NoMemory)) }
{
    let reader = read_all(alloc, text, limits)?;
    Ok(Instance {
        vars: reader.vars,
        hard: reader.hard,
        soft: reader.soft,
    })
}
