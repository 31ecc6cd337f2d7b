//! The mode `reconstruct`: carrying a solver's answer for a written instance back to the original one, by the map.
ghost use Rattle.std.specs.Prelude.{◌≡◌, ◌≤◌, ◌<◌, IfOk, IfErr, IsErrOf, None, Some, string_bytes, option_map};
ghost use Rattle.mp_host.specs.World.{Rose};
ghost use Rattle.mp_logic.specs.Truth.{weights_of};
ghost use Rattle.mp_logic.specs.Weights.{weight_bound};
ghost use Rattle.mp_map.specs.Maps.{IsMap};
ghost use Rattle.mp_modes.specs.Instances.{IsWantOr};
ghost use Rattle.mp_modes.specs.ReconstructMode.{IsFalseBack, reconstruct_mode};
ghost use Rattle.mp_modes.specs.Reconstructing.{IsModelBack, cost_back, reconstructed_text, values_back};
ghost use Rattle.mp_modes.specs.RoundTrip.{AnswersComeBack};
ghost use Rattle.mp_modes.specs.Running.{Prepares, StopsReading};
ghost use Rattle.mp_modes.specs.Traces.{outside_of};

use crate::evaluate::cost_of_model;
use crate::inputs::{read_instance_file, read_map_file, read_solution_file};
use crate::outputs::{Outputs, one_output};
use crate::refusal::Refusal;
use mp_host::Host;
use mp_logic::{Assignment, Instance, NoMemory, Weight};
use mp_map::{MapFile, Solution, Values, back, room, write_solution};
use mp_text::Bytes;
use mp_words::Reconstruct;
use std::alloc::Global;

/// Reads the original instance, where a name for it is given, then a map and then the solution of its written instance, and
/// builds the text of that solution, carried back.
pub fn reconstruct_file<H: Host>(
    alloc: Global,
    asked: Reconstruct,
    host: &mut H,
) -> Result<Outputs, Refusal>
    ensures prepared { IfOk result (Prepares (reconstruct_mode (string_bytes asked.file) (string_bytes asked.map) (option_map string_bytes asked.original) asked.form) (outside_of H.world H.asked H.read_faults H.write_faults host.old) (outside_of H.world H.asked H.read_faults H.write_faults host.new)) }
    ensures stopped { IfErr result (StopsReading (reconstruct_mode (string_bytes asked.file) (string_bytes asked.map) (option_map string_bytes asked.original) asked.form) (outside_of H.world H.asked H.read_faults H.write_faults host.old) (outside_of H.world H.asked H.read_faults H.write_faults host.new)) }
    ensures fault { IsErrOf result Refusal.ReadFault → Rose (H.read_faults host.old) (H.read_faults host.new) }
    ensures later { H.read_faults host.old ≤ H.read_faults host.new }
    ensures writes { H.write_faults host.new ≡ H.write_faults host.old }
{
    let Reconstruct {
        file,
        map,
        original,
        form,
    } = asked;
    match original {
        None => reconstruct_alone(alloc, file.as_str(), map.as_str(), form, host),
        Some(original) => reconstruct_tried(
            alloc,
            file.as_str(),
            map.as_str(),
            original.as_str(),
            form,
            host,
        ),
    }
}

// Reads a map and a solution.
fn reconstruct_alone<H: Host>(
    alloc: Global,
    file: &str,
    map: &str,
    form: Values,
    host: &mut H,
) -> Result<Outputs, Refusal>
    ensures prepared { IfOk result (Prepares (reconstruct_mode file.now map.now None form) (outside_of H.world H.asked H.read_faults H.write_faults host.old) (outside_of H.world H.asked H.read_faults H.write_faults host.new)) }
    ensures stopped { IfErr result (StopsReading (reconstruct_mode file.now map.now None form) (outside_of H.world H.asked H.read_faults H.write_faults host.old) (outside_of H.world H.asked H.read_faults H.write_faults host.new)) }
    ensures fault { IsErrOf result Refusal.ReadFault → Rose (H.read_faults host.old) (H.read_faults host.new) }
    ensures later { H.read_faults host.old ≤ H.read_faults host.new }
    ensures writes { H.write_faults host.new ≡ H.write_faults host.old }
{
    let way = match read_map_file(alloc, map, host) {
        Ok(way) => way,
        Err(refusal) => return Err(refusal),
    };
    let solution = match read_solution_file(alloc, file, way.written, host) {
        Ok(solution) => solution,
        Err(refusal) => return Err(refusal),
    };
    let out = match reconstructed(alloc, &way, &solution, form) {
        Ok(out) => out,
        Err(_) => return Err(Refusal::NoMemory),
    };
    Ok(one_output(alloc, out))
}

// Reads the original instance first, and tries the values on it.
fn reconstruct_tried<H: Host>(
    alloc: Global,
    file: &str,
    map: &str,
    original: &str,
    form: Values,
    host: &mut H,
) -> Result<Outputs, Refusal>
    ensures prepared { IfOk result (Prepares (reconstruct_mode file.now map.now (Some original.now) form) (outside_of H.world H.asked H.read_faults H.write_faults host.old) (outside_of H.world H.asked H.read_faults H.write_faults host.new)) }
    ensures stopped { IfErr result (StopsReading (reconstruct_mode file.now map.now (Some original.now) form) (outside_of H.world H.asked H.read_faults H.write_faults host.old) (outside_of H.world H.asked H.read_faults H.write_faults host.new)) }
    ensures fault { IsErrOf result Refusal.ReadFault → Rose (H.read_faults host.old) (H.read_faults host.new) }
    ensures later { H.read_faults host.old ≤ H.read_faults host.new }
    ensures writes { H.write_faults host.new ≡ H.write_faults host.old }
{
    let instance = match read_instance_file(alloc, original, host) {
        Ok(instance) => instance,
        Err(refusal) => return Err(refusal),
    };
    let way = match read_map_file(alloc, map, host) {
        Ok(way) => way,
        Err(refusal) => return Err(refusal),
    };
    let solution = match read_solution_file(alloc, file, way.written, host) {
        Ok(solution) => solution,
        Err(refusal) => return Err(refusal),
    };
    let out = match tried(alloc, &instance, &way, &solution, form) {
        Ok(out) => out,
        Err(refusal) => return Err(refusal),
    };
    Ok(one_output(alloc, out))
}

/// The text of a solution with its values, where it has some, carried back. The answer's words are the solver's own.
pub fn reconstructed(
    alloc: Global,
    way: &MapFile,
    solution: &Solution,
    form: Values,
) -> Result<Bytes, NoMemory>
    requires { IsMap way.now }
    ensures { IfOk result (λ text. text ≡ reconstructed_text None way.now solution.now form) }
{
    match values_of(alloc, way, solution)? {
        None => write_solution(alloc, solution.answer, None, form, None),
        Some(values) => write_solution(alloc, solution.answer, Some(&values), form, None),
    }
}

// The same with what the values cost in the original, where they make each hard clause of that true.
fn tried(
    alloc: Global,
    original: &Instance,
    way: &MapFile,
    solution: &Solution,
    form: Values,
) -> Result<Bytes, Refusal>
    requires valid { IsMap way.now }
    requires weights { weights_of original.now.soft < weight_bound }
    ensures model { IfOk result (λ _. IsModelBack (Some original.now) (values_back way.now solution.now)) }
    ensures text { IfOk result (λ text. text ≡ reconstructed_text (Some original.now) way.now solution.now form) }
    ensures refused { IfErr result (IsWantOr (IsFalseBack original.now way.now solution.now)) }
{
    let out = match values_of(alloc, way, solution)? {
        None => write_solution(alloc, solution.answer, None, form, None)?,
        Some(values) => {
            let cost = cost_of_model(original, &values)?;
            write_solution(alloc, solution.answer, Some(&values), form, Some(cost))?
        }
    };
    Ok(out)
}

// The values of a solution, where it has some, carried back.
fn values_of(
    alloc: Global,
    way: &MapFile,
    solution: &Solution,
) -> Result<Option<Assignment>, NoMemory>
    requires { IsMap way.now }
    ensures { IfOk result (λ values. values ≡ values_back way.now solution.now) }
{
    match &solution.values {
        None => Ok(None),
        Some(values) => {
            let mut original = room(alloc, way)?;
            back(way, values, &mut original);
            Ok(Some(original))
        }
    }
}

/// What preprocessing wrote and reconstructing printed fit together: where the solution gives a hard model of the written
/// instance, what is printed is a hard model of the original at no more than its cost plus the offset; and where that
/// model is optimal, so is the printed one, at exactly the offset more.
pub fn answers_come_back()
    ensures { AnswersComeBack }
{}
