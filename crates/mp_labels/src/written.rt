use mp_logic::{Instance, Names, Repairs, Weight};
use std::marker::Model;

/// A written form: an instance that stands for a labelled state, with the way back from its models.
#[derive(Debug, Drop)]
pub struct Written {
    pub instance: Instance,
    pub names: Names,
    pub inner: u32,
    pub offset: Weight,
    pub repairs: Repairs,
}

impl Model for Written {
    ghost use Rattle.mp_logic.specs.Carrying.{WrittenForm};
    ghost use Rattle.mp_logic.specs.Labelled.{IsWrittenForm};

    ghost Value = { WrittenForm };

    ghost view = { λ w. record { «instance» = w.instance; names = w.names; inner = w.inner; offset = w.offset; repairs = w.repairs } };

    ghost invariant = { λ w. IsWrittenForm w.instance w.names w.inner w.repairs };
}
