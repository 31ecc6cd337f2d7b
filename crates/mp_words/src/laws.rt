//! Laws of the definitions, each the contract of a function that does nothing.
ghost use Rattle.mp_words.specs.Commands.{CommandsAreOne};

/// Words spell one request at most.
pub fn commands_are_one()
    ensures { CommandsAreOne }
{}
