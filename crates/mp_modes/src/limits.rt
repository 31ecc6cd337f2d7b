ghost use Rattle.std.specs.Prelude.{◌≡◌};
ghost use Rattle.mp_modes.specs.Limits.{program_limits};

use mp_logic::Limits;

/// The limits of the program.
pub fn limits() -> Limits
    ensures { result ≡ program_limits }
{
    Limits::program()
}
