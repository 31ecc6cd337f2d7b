//! Laws of the definitions, each the contract of a function that does nothing.
ghost use Rattle.t_equiv.specs.Substituting.{SubstitutingAllKeeps};

/// Literals may be replaced by others that have their values in each model.
pub fn substituting_all_keeps()
    ensures { SubstitutingAllKeeps }
{}
