//! The mode `evaluate`: what the values of a solution cost in an instance.
ghost use Rattle.std.specs.Prelude.{◌≡◌, ◌<◌, ◌≤◌, IfOk, IfErr, IsErrOf, string_bytes};
ghost use Rattle.mp_host.specs.World.{Rose};
ghost use Rattle.mp_logic.specs.Truth.{IsHardModel, cost_of, weights_of};
ghost use Rattle.mp_logic.specs.Weights.{weight_bound};
ghost use Rattle.mp_modes.specs.EvaluateMode.{evaluate_mode};
ghost use Rattle.mp_modes.specs.Evaluating.{IsFalseAt, evaluation_text};
ghost use Rattle.mp_modes.specs.Instances.{IsWantOr};
ghost use Rattle.mp_modes.specs.Running.{Prepares, StopsReading};
ghost use Rattle.mp_modes.specs.Traces.{outside_of};

use crate::inputs::{read_instance_file, read_values_file};
use crate::outputs::{Outputs, one_output};
use crate::refusal::{Refusal, TextRefusal};
use mp_host::Host;
use mp_logic::{Assignment, Instance, Weight, cost, first_false};
use mp_map::{Answer, Values, write_solution};
use mp_text::Bytes;
use mp_words::Evaluate;
use std::alloc::Global;

/// Reads an instance and then a solution with values for its variables, and builds the text of what they cost.
pub fn evaluate_file<H: Host>(
    alloc: Global,
    asked: Evaluate,
    host: &mut H,
) -> Result<Outputs, Refusal>
    ensures prepared { IfOk result (Prepares (evaluate_mode (string_bytes asked.file) (string_bytes asked.solution)) (outside_of H.world H.asked H.read_faults H.write_faults host.old) (outside_of H.world H.asked H.read_faults H.write_faults host.new)) }
    ensures stopped { IfErr result (StopsReading (evaluate_mode (string_bytes asked.file) (string_bytes asked.solution)) (outside_of H.world H.asked H.read_faults H.write_faults host.old) (outside_of H.world H.asked H.read_faults H.write_faults host.new)) }
    ensures fault { IsErrOf result Refusal.ReadFault → Rose (H.read_faults host.old) (H.read_faults host.new) }
    ensures later { H.read_faults host.old ≤ H.read_faults host.new }
    ensures writes { H.write_faults host.new ≡ H.write_faults host.old }
{
    let instance = match read_instance_file(alloc, asked.file.as_str(), host) {
        Ok(instance) => instance,
        Err(refusal) => return Err(refusal),
    };
    let values = match read_values_file(alloc, asked.solution.as_str(), instance.vars, host) {
        Ok(values) => values,
        Err(refusal) => return Err(refusal),
    };
    let out = match evaluated(alloc, &instance, &values) {
        Ok(out) => out,
        Err(refusal) => return Err(refusal),
    };
    Ok(one_output(alloc, out))
}

/// The text of what the values cost, where they make each hard clause true.
fn evaluated(alloc: Global, instance: &Instance, values: &Assignment) -> Result<Bytes, Refusal>
    requires { weights_of instance.now.soft < weight_bound }
    ensures model { IfOk result (λ _. IsHardModel instance.now values.now) }
    ensures text { IfOk result (λ out. out ≡ evaluation_text (cost_of instance.now values.now)) }
    ensures refused { IfErr result (IsWantOr (IsFalseAt instance.now values.now)) }
{
    let cost = cost_of_model(instance, values)?;
    let out = write_solution(alloc, Answer::Satisfiable, None, Values::Bits, Some(cost))?;
    Ok(out)
}

/// What the values cost in an instance, where they make each hard clause true; else the first false one is refused by its
/// number, from 1.
pub fn cost_of_model(instance: &Instance, values: &Assignment) -> Result<Weight, Refusal>
    requires { weights_of instance.now.soft < weight_bound }
    ensures model { IfOk result (λ _. IsHardModel instance.now values.now) }
    ensures cost { IfOk result (λ cost. cost ≡ cost_of instance.now values.now) }
    ensures refused { IfErr result (IsWantOr (IsFalseAt instance.now values.now)) }
{
    match first_false(instance, values) {
        None => Ok(cost(instance, values)),
        Some(place) => Err(Refusal::Text(TextRefusal::NotModel {
            clause: place as u128 + 1,
        })),
    }
}
