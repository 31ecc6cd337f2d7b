ghost use Rattle.std.specs.Prelude.{◌≡◌, ◌+◌, ◌-◌, ◌<◌, All, IfOk, OnOk, min, nat_eq, sum_by, if◌then◌else◌};
ghost use Rattle.std.specs.List.{flat_map, IsDistinct};
ghost use Rattle.std.specs.Map.{keys_of};
ghost use Rattle.std.specs.Option.{option_to_list};
ghost use Rattle.std.specs.Ordering.{is_eq};
ghost use Rattle.mp_logic.specs.Literal.{Literal};
ghost use Rattle.mp_logic.specs.Normal.{lit_cmp};
ghost use Rattle.mp_logic.specs.Weights.{weight_bound};
ghost use Rattle.mp_labels.specs.Charges.{charge_in, HasVariable, net_of, IsRisingOf};

use indexmap::IndexMap;
use mp_logic::{Cost, Costs, Lit, NoMemory, Weight};
use std::alloc::Global;

/// What the unit soft clauses cost where a variable is true, and where it is false.
#[derive(Clone, Copy)]
pub(crate) struct Charge {
    pub when_true: Weight,
    pub when_false: Weight,
}

/// The charges on variables, in the order in which these were first seen.
pub(crate) type Charges = IndexMap<u32, Charge>;

/// Charges a weight on a literal, to be paid where it is true.
pub(crate) fn add_charge(charges: &mut Charges, lit: Lit, weight: Weight) -> Result<(), NoMemory>
    requires { charge_in charges.old.entries lit + weight < weight_bound }
    ensures { OnOk result ((l : Literal) → charge_in charges.new.entries l ≡ charge_in charges.old.entries l + (if is_eq (lit_cmp l lit) then weight else 0)) }
{
    let had = charges.get(&lit.variable).copied().unwrap_or(Charge {
        when_true: 0,
        when_false: 0,
    });
    let charge = if lit.negative {
        Charge {
            when_true: had.when_true,
            when_false: had.when_false + weight,
        }
    } else {
        Charge {
            when_true: had.when_true + weight,
            when_false: had.when_false,
        }
    };
    charges.insert(lit.variable, charge)?;
    Ok(())
}

/// The charges in the order of variables.
pub(crate) fn in_order(alloc: Global, charges: &Charges) -> Result<Vec<(u32, Charge)>, NoMemory>
    ensures { IfOk result (λ made. IsRisingOf charges.now.entries made.items) }
{
    let mut entries = entries_of(alloc, charges)?;
    entries.sort_unstable_by_key(|entry| entry.0);
    Ok(entries)
}

fn entries_of(alloc: Global, charges: &Charges) -> Result<Vec<(u32, Charge)>, NoMemory>
    ensures same { IfOk result (λ made. made.items ≡ charges.now.entries) }
    ensures distinct { IsDistinct nat_eq (keys_of charges.now.entries) }
{
    Ok(
        charges
            .iter()
            .map(|(variable, charge)| (*variable, *charge))
            .collect(alloc)?,
    )
}

/// For each variable the literal that is charged more than its negation, with the difference.
pub(crate) fn net_costs(alloc: Global, entries: &[(u32, Charge)]) -> Result<Costs, NoMemory>
    requires { All HasVariable entries.now }
    ensures { IfOk result (λ made. made ≡ flat_map net_of entries.now) }
{
    let mut costs = Costs::new(alloc);
    for entry in entries {
        if let Some(cost) = net_cost(*entry) {
            costs.push(cost)?;
        }
    }
    Ok(costs)
}

fn net_cost(entry: (u32, Charge)) -> Option<Cost>
    requires { HasVariable entry }
    ensures { option_to_list result ≡ net_of entry }
{
    let (variable, charge) = entry;
    if charge.when_false < charge.when_true {
        Some(Cost {
            lit: Lit::new(variable, false),
            weight: charge.when_true - charge.when_false,
        })
    } else if charge.when_true < charge.when_false {
        Some(Cost {
            lit: Lit::new(variable, true),
            weight: charge.when_false - charge.when_true,
        })
    } else {
        None
    }
}

/// What is paid in any case: the lower of the two charges of each variable.
pub(crate) fn cancelled(entries: &[(u32, Charge)]) -> Weight
    requires { sum_by (λ e. min e.1.when_true e.1.when_false) entries.now < weight_bound }
    ensures { result ≡ sum_by (λ e. min e.1.when_true e.1.when_false) entries.now }
{
    let mut total = 0;
    for (_, charge) in entries {
        total += charge.when_true.min(charge.when_false);
    }
    total
}
