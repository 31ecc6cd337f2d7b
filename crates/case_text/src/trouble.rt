use mp_logic::NoMemory;
use thiserror::Error;

/// Why cases could not be run to their end.
#[derive(Clone, Copy, Debug, PartialEq, Eq, Error)]
pub enum Trouble {
    /// a line is none that a case has, or has not what its key wants
    #[error("a line can't be read")]
    Line,
    #[error("out of memory")]
    NoMemory,
}

impl From<NoMemory> for Trouble {
    fn from(_: NoMemory) -> Trouble {
        Trouble::NoMemory
    }
}

/// The number that is given in decimal digits.
pub fn number(text: &str) -> Result<u64, Trouble> {
    text.parse::<u64>().map_err(|_| Trouble::Line)
}
