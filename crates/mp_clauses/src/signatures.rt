//! Clause signatures (Eén and Biere, 2005): 64 bits that tell most clauses apart before their literals are looked at.
ghost use Rattle.std.specs.Prelude.{◌≡◌};
ghost use Rattle.mp_clauses.specs.Signatures.{bit_of, signature_of};

use crate::places::place;
use mp_logic::Lit;

/// The signature of a clause: for each literal the bit of its place modulo 64.
pub fn signature(clause: &[Lit]) -> u64
    ensures { result ≡ signature_of clause.now }
{
    let mut bits = 0;
    for lit in clause {
        bits |= bit(*lit);
    }
    bits
}

fn bit(lit: Lit) -> u64
    ensures { result ≡ bit_of lit }
{
    1 << (place(lit) % 64)
}
