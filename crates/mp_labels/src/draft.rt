ghost use Rattle.std.specs.Prelude.{◌≡◌, ◌+◌, ◌<◌, ◌≤◌, [], ◌∷◌, ◌++◌, Err, OnOk, length};
ghost use Rattle.mp_labels.specs.LabelView.{positive};
ghost use Rattle.mp_labels.specs.Drafts.{HasRoom, Passes};

use crate::charges::{Charges, add_charge};
use crate::label_view::LabelError;
use mp_logic::{Clause, Clauses, Cost, Costs, Lit, NoMemory, Weight};
use std::alloc::Global;

/// The label view of an instance as far as its soft clauses are taken in.
#[derive(Drop)]
pub(crate) struct Draft {
    pub vars: u32,
    pub hard: Clauses,
    pub labels: Costs,
    pub charges: Charges,
    pub offset: Weight,
}

impl Draft {
    /// The view without soft clauses.
    pub(crate) fn new(alloc: Global, vars: u32, hard: Clauses) -> Self
        ensures vars { result.vars ≡ vars }
        ensures hard { result.hard ≡ hard }
        ensures labels { result.labels ≡ [] }
        ensures charges { result.charges.entries ≡ [] }
        ensures offset { result.offset ≡ 0 }
    {
        Draft {
            vars,
            hard,
            labels: Costs::new(alloc),
            charges: Charges::new(alloc),
            offset: 0,
        }
    }

    /// Takes in a soft clause in normal form, to which a label may be added; no label passes `inner`.
    pub(crate) fn add(
        &mut self,
        alloc: Global,
        clause: &mut Clause,
        weight: Weight,
        inner: u32,
    ) -> Result<(), LabelError>
        requires { HasRoom self.old clause.old weight }
        ensures taken { OnOk result (Passes self.old clause.old weight self.new) }
        ensures too_many { result ≡ Err LabelError.TooManyVariables → (inner ≤ self.old.vars) × (2 ≤ length clause.old) }
        ensures within { OnOk result (self.old.vars ≤ inner → self.new.vars ≤ inner) }
    {
        if clause.len() == 0 {
            self.offset += weight;
        } else if clause.len() == 1 {
            add_charge(&mut self.charges, clause.items()[0].negated(), weight)?;
        } else {
            self.add_label(alloc, clause, weight, inner)?;
        }
        Ok(())
    }

    // Puts a new variable at the end of the clause, which becomes a hard one.
    fn add_label(
        &mut self,
        alloc: Global,
        clause: &mut Clause,
        weight: Weight,
        inner: u32,
    ) -> Result<(), LabelError>
        ensures vars { OnOk result (self.new.vars ≡ self.old.vars + 1) }
        ensures hard { OnOk result (self.new.hard ≡ self.old.hard ++ (clause.old ++ positive (self.old.vars + 1) ∷ []) ∷ []) }
        ensures labels { OnOk result (self.new.labels ≡ self.old.labels ++ record { lit = positive (self.old.vars + 1); weight = weight } ∷ []) }
        ensures charges { OnOk result (self.new.charges ≡ self.old.charges) }
        ensures offset { OnOk result (self.new.offset ≡ self.old.offset) }
        ensures too_many { result ≡ Err LabelError.TooManyVariables → inner ≤ self.old.vars }
        ensures within { OnOk result (self.new.vars ≤ inner) }
    {
        if self.vars >= inner {
            return Err(LabelError::TooManyVariables);
        }
        let label = Lit::new(self.vars + 1, false);
        clause.push(label)?;
        self.hard.push(clause.copy(alloc)?)?;
        self.labels.push(Cost { lit: label, weight })?;
        self.vars += 1;
        Ok(())
    }
}
