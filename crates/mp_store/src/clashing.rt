//! Whether clauses clash with the clause in hand, asked of their signatures first: the literals of a clause are read only where
//! its signature says that it may clash.
ghost use Rattle.std.specs.Prelude.{◌≡◌, true};
ghost use Rattle.mp_clauses.specs.Signatures.{bit_of, signature_of};
ghost use Rattle.mp_clauses.specs.Slots.{clause_of, is_live};
ghost use Rattle.mp_store.specs.Clashing.{negations_beside, slot_clashes};

use crate::literal_set::LiteralSet;
use crate::store::Store;
use mp_clauses::{ClauseId, place};
use mp_logic::Lit;

/// The signature of the negations of the literals in hand, but of those on the variable.
pub fn signature_beside(hand: &LiteralSet, variable: u32) -> u64
    ensures { result ≡ signature_of (negations_beside variable hand.now) }
{
    let mut bits = 0;
    for lit in hand.literals() {
        if lit.variable != variable {
            bits |= bit(lit.negated());
        }
    }
    bits
}

/// The bit of the literal in a signature.
fn bit(lit: Lit) -> u64
    ensures { result ≡ bit_of lit }
{
    1 << (place(lit) % 64)
}

/// Whether the clause of the id clashes with the clause in hand beside the variable. The bits are those of `signature_beside`:
/// where the signature of the clause has none of them it does not, and its literals are not read.
pub fn clashes_with(
    store: &Store,
    hand: &LiteralSet,
    variable: u32,
    bits: u64,
    id: ClauseId,
) -> bool
    requires live { is_live store.now.slots id ≡ true }
    requires bits { bits ≡ signature_of (negations_beside variable hand.now) }
    ensures { result ≡ slot_clashes variable hand.now (clause_of store.now.slots id) }
{
    store.signature(id) & bits != 0 && hand.clashes_beside(variable, store.clause(id))
}
