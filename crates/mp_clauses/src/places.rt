ghost use Rattle.std.specs.Prelude.{◌≡◌};
ghost use Rattle.mp_clauses.specs.Places.{place_of};

use mp_logic::Lit;

/// The place of the literal in tables.
pub fn place(lit: Lit) -> usize
    ensures { result ≡ place_of lit }
{
    2 * lit.variable as usize + if lit.negative { 1 } else { 0 }
}
