//! Laws of signatures, each the contract of a function that does nothing.
ghost use Rattle.mp_clauses.specs.Signatures.{SignatureBits, SignatureOfPart};

/// A bit of a signature is set exactly where a literal of the clause has it.
pub fn signature_bits()
    ensures { SignatureBits }
{}

/// A clause with all literals of another has all bits of its signature.
pub fn signature_of_part()
    ensures { SignatureOfPart }
{}
