ghost use Rattle.std.specs.Prelude.{◌≡◌, ◌+◌, ◌≤◌, ◌<◌, ◌++◌, [], Err, IfOk, OnOk, length};
ghost use Rattle.mp_logic.specs.Truth.{weights_of};
ghost use Rattle.mp_logic.specs.Weights.{weight_bound};
ghost use Rattle.mp_logic.specs.Carrying.{IsLabelView};
ghost use Rattle.mp_labels.specs.LabelView.{label_view, long_softs, normal_clauses, normal_form};
ghost use Rattle.mp_labels.specs.Drafts.{Completes};

use crate::charges::{cancelled, in_order, net_costs};
use crate::draft::Draft;
use crate::labelled::Labelled;
use mp_logic::{Clause, Clauses, Costs, Instance, Limits, NoMemory, is_normal, normalise};
use std::alloc::Global;
use thiserror::Error;

/// Why an instance has no label view.
#[derive(Clone, Copy, Debug, PartialEq, Eq, Error)]
pub enum LabelError {
    /// the variables of the instance and the labels together pass `inner` of the limits
    #[error("too many variables")]
    TooManyVariables,
    /// memory was refused
    #[error("no memory")]
    NoMemory,
}

impl From<NoMemory> for LabelError {
    ghost use Rattle.mp_labels.specs.declared.label_view.LabelError.{LabelError};

    ghost from_gives = { λ e r. r ≡ LabelError.NoMemory };

    fn from(_: NoMemory) -> LabelError {
        LabelError::NoMemory
    }
}

/// The label view of an instance: clauses in normal form without tautologies, a new variable (a label) at the end of
/// each soft clause with at least two literals, and cost literals with what is paid where they are true.
///
/// The error is `TooManyVariables` where `vars` and the number of labels pass `limits.inner`, unless memory runs out
/// before that is known.
pub fn label(alloc: Global, instance: &Instance, limits: &Limits) -> Result<Labelled, LabelError>
    requires { weights_of instance.now.soft < weight_bound }
    ensures view_is { IfOk result (λ made. made ≡ label_view instance.now) }
    ensures keeps { IfOk result (IsLabelView instance.now) }

    // With too many variables the answer is that error, or want of memory.
    ensures fits { IfOk result (λ made. (instance.now.vars ≤ made.vars) × (made.vars ≤ limits.now.inner)) }
    ensures too_many { result ≡ Err LabelError.TooManyVariables → limits.now.inner < instance.now.vars + length (long_softs instance.now.soft) }
{
    if instance.vars > limits.inner {
        return Err(LabelError::TooManyVariables);
    }
    let draft = drafted(alloc, instance, limits.inner)?;
    let entries = in_order(alloc, &draft.charges)?;
    let mut costs = net_costs(alloc, &entries)?;
    append_costs(&mut costs, &draft.labels)?;
    Ok(Labelled {
        vars: draft.vars,
        hard: draft.hard,
        costs,
        offset: draft.offset + cancelled(&entries),
    })
}

// Takes in the clauses one after the other.
fn drafted(alloc: Global, instance: &Instance, inner: u32) -> Result<Draft, LabelError>
    requires weights { weights_of instance.now.soft < weight_bound }
    requires vars { instance.now.vars ≤ inner }
    ensures complete { IfOk result (Completes instance.now []) }
    ensures within { IfOk result (λ made. made.vars ≤ inner) }
    ensures too_many { result ≡ Err LabelError.TooManyVariables → inner < instance.now.vars + length (long_softs instance.now.soft) }
{
    let hard = normal_clauses(alloc, &instance.hard)?;
    let mut draft = Draft::new(alloc, instance.vars, hard);
    let mut clause = Clause::new(alloc);
    for soft in instance.soft.items() {
        put_normal_form(&mut clause, &soft.clause)?;
        if soft.weight > 0 && is_normal(&clause) {
            draft.add(alloc, &mut clause, soft.weight, inner)?;
        }
    }
    Ok(draft)
}

fn normal_clauses(alloc: Global, clauses: &Clauses) -> Result<Clauses, NoMemory>
    ensures { IfOk result (λ made. made ≡ normal_clauses clauses.now) }
{
    let mut made = Clauses::new(alloc);
    for clause in clauses.items() {
        let mut normal = Clause::with_room(alloc, clause.len())?;
        put_normal_form(&mut normal, clause)?;
        if is_normal(&normal) {
            made.push(normal)?;
        }
    }
    Ok(made)
}

// Replaces a clause by the normal form of another.
fn put_normal_form(made: &mut Clause, clause: &Clause) -> Result<(), NoMemory>
    ensures { OnOk result (made.new ≡ normal_form clause.now) }
{
    made.cut(0);
    append_clause(made, clause)?;
    normalise(made);
    Ok(())
}

fn append_clause(made: &mut Clause, more: &Clause) -> Result<(), NoMemory>
    ensures { OnOk result (made.new ≡ made.old ++ more.now) }
{
    for lit in more.items() {
        made.push(*lit)?;
    }
    Ok(())
}

fn append_costs(made: &mut Costs, more: &Costs) -> Result<(), NoMemory>
    ensures { OnOk result (made.new ≡ made.old ++ more.now) }
{
    for cost in more.items() {
        made.push(*cost)?;
    }
    Ok(())
}
