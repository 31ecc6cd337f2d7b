ghost use Rattle.mp_text.specs.Slices.{TokensAreSlices};
ghost use Rattle.mp_text.specs.Spelling.{NumbersAreReadAgain};

/// The tokens of a text are slices of it, in order, each once, and each has its line.
pub fn tokens_are_slices()
    ensures { TokensAreSlices }
{}

/// A number of 128 bits that was written is read again, and so is a literal.
pub fn numbers_are_read_again()
    ensures { NumbersAreReadAgain }
{}
