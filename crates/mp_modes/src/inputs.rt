//! Reading the files that the modes take.
ghost use Rattle.std.specs.Prelude.{◌≡◌, ◌≤◌, ◌∷◌, [], Some, length, IfOk, IfErr, IsErrOf};
ghost use Rattle.mp_host.specs.World.{Asked, Rose, SameButInput};
ghost use Rattle.mp_map.specs.Maps.{IsMap};
ghost use Rattle.mp_map.specs.Solutions.{Reports};
ghost use Rattle.mp_modes.specs.Evaluating.{IsValuesFault, ReportsValues};
ghost use Rattle.mp_modes.specs.Inputs.{IsReadAs, IsTextOf, StopsAt};
ghost use Rattle.mp_modes.specs.Instances.{IsReadable, IsReadingFault};
ghost use Rattle.mp_modes.specs.Limits.{longest};
ghost use Rattle.mp_modes.specs.ReconstructMode.{IsMapFault, IsSolutionFault};
ghost use Rattle.mp_modes.specs.Reconstructing.{IsMapText};

use crate::instances::read_instance;
use crate::refusal::{Refusal, TextRefusal};
use mp_host::{Host, ReadAllError, read_all};
use mp_logic::{Assignment, Instance};
use mp_map::{MapError, MapFile, Solution, SolutionError, read_map, read_solution};
use mp_text::{Bytes, last_line};
use std::alloc::Global;

// The greatest accepted length of an input, in bytes.
const LONGEST: u64 = 4_294_967_295;

/// The bytes of an input.
pub fn read_input<H: Host>(alloc: Global, name: &str, host: &mut H) -> Result<Bytes, Refusal>
    ensures whole { IfOk result (IsTextOf (H.world host.old) name.now) }
    ensures fits { IfOk result (λ bytes. length bytes ≤ longest) }
    ensures refused { IfErr result (StopsAt (λ _ _. ⊥) ((H.world host.old).file name.now)) }
    ensures frame { SameButInput (H.world host.old) (H.world host.new) }
    ensures fault { IsErrOf result Refusal.ReadFault → Rose (H.read_faults host.old) (H.read_faults host.new) }
    ensures later { H.read_faults host.old ≤ H.read_faults host.new }
    ensures writes { H.write_faults host.new ≡ H.write_faults host.old }
    ensures names { Asked (H.asked host.old) (H.asked host.new) (name.now ∷ []) }
{
    match read_all(alloc, host, name, LONGEST) {
        Ok(bytes) => Ok(bytes),
        Err(ReadAllError::ReadFault) => Err(Refusal::ReadFault),
        Err(ReadAllError::TooLong { .. }) => Err(Refusal::TooLong),
        Err(ReadAllError::NoMemory) => Err(Refusal::NoMemory),
    }
}

/// The instance in a file.
pub fn read_instance_file<H: Host>(
    alloc: Global,
    name: &str,
    host: &mut H,
) -> Result<Instance, Refusal>
    ensures found { IfOk result (λ f. IsReadAs (H.world host.old) name.now (λ text. IsReadable text f)) }
    ensures refused { IfErr result (StopsAt IsReadingFault ((H.world host.old).file name.now)) }
    ensures frame { SameButInput (H.world host.old) (H.world host.new) }
    ensures fault { IsErrOf result Refusal.ReadFault → Rose (H.read_faults host.old) (H.read_faults host.new) }
    ensures later { H.read_faults host.old ≤ H.read_faults host.new }
    ensures writes { H.write_faults host.new ≡ H.write_faults host.old }
    ensures names { Asked (H.asked host.old) (H.asked host.new) (name.now ∷ []) }
{
    let text = match read_input(alloc, name, host) {
        Ok(text) => text,
        Err(refusal) => return Err(refusal),
    };
    read_instance(alloc, text)
}

/// The map in a file.
pub fn read_map_file<H: Host>(alloc: Global, name: &str, host: &mut H) -> Result<MapFile, Refusal>
    ensures found { IfOk result (λ way. IsReadAs (H.world host.old) name.now (λ text. IsMapText text way)) }
    ensures valid { IfOk result IsMap }
    ensures refused { IfErr result (StopsAt IsMapFault ((H.world host.old).file name.now)) }
    ensures frame { SameButInput (H.world host.old) (H.world host.new) }
    ensures fault { IsErrOf result Refusal.ReadFault → Rose (H.read_faults host.old) (H.read_faults host.new) }
    ensures later { H.read_faults host.old ≤ H.read_faults host.new }
    ensures writes { H.write_faults host.new ≡ H.write_faults host.old }
    ensures names { Asked (H.asked host.old) (H.asked host.new) (name.now ∷ []) }
{
    let text = match read_input(alloc, name, host) {
        Ok(text) => text,
        Err(refusal) => return Err(refusal),
    };
    match read_map(alloc, text.items()) {
        Ok(way) => Ok(way),
        Err(MapError::BadMap { line }) => Err(Refusal::Text(TextRefusal::Map { line })),
        Err(MapError::NoMemory) => Err(Refusal::NoMemory),
    }
}

/// The solution in a file, for so many written variables.
pub fn read_solution_file<H: Host>(
    alloc: Global,
    name: &str,
    written: u32,
    host: &mut H,
) -> Result<Solution, Refusal>
    ensures found { IfOk result (λ s. IsReadAs (H.world host.old) name.now (λ text. Reports text written s)) }
    ensures refused { IfErr result (StopsAt (IsSolutionFault written) ((H.world host.old).file name.now)) }
    ensures frame { SameButInput (H.world host.old) (H.world host.new) }
    ensures fault { IsErrOf result Refusal.ReadFault → Rose (H.read_faults host.old) (H.read_faults host.new) }
    ensures later { H.read_faults host.old ≤ H.read_faults host.new }
    ensures writes { H.write_faults host.new ≡ H.write_faults host.old }
    ensures names { Asked (H.asked host.old) (H.asked host.new) (name.now ∷ []) }
{
    let text = match read_input(alloc, name, host) {
        Ok(text) => text,
        Err(refusal) => return Err(refusal),
    };
    match read_solution(alloc, text.items(), written) {
        Ok(solution) => Ok(solution),
        Err(SolutionError::BadSolution { line }) => {
            Err(Refusal::Text(TextRefusal::Solution { line }))
        }
        Err(SolutionError::NoMemory) => Err(Refusal::NoMemory),
    }
}

/// The values of the solution in a file, for so many variables. A solution that tells none is refused at the line of its
/// last byte.
pub fn read_values_file<H: Host>(
    alloc: Global,
    name: &str,
    variables: u32,
    host: &mut H,
) -> Result<Assignment, Refusal>
    ensures found { IfOk result (λ values. IsReadAs (H.world host.old) name.now (λ text. ReportsValues text variables (Some values))) }
    ensures refused { IfErr result (StopsAt (IsValuesFault variables) ((H.world host.old).file name.now)) }
    ensures frame { SameButInput (H.world host.old) (H.world host.new) }
    ensures fault { IsErrOf result Refusal.ReadFault → Rose (H.read_faults host.old) (H.read_faults host.new) }
    ensures later { H.read_faults host.old ≤ H.read_faults host.new }
    ensures writes { H.write_faults host.new ≡ H.write_faults host.old }
    ensures names { Asked (H.asked host.old) (H.asked host.new) (name.now ∷ []) }
{
    let text = match read_input(alloc, name, host) {
        Ok(text) => text,
        Err(refusal) => return Err(refusal),
    };
    match read_solution(alloc, text.items(), variables) {
        Ok(solution) => match solution.values {
            Some(values) => Ok(values),
            None => Err(Refusal::Text(TextRefusal::Solution {
                line: last_line(text.items()),
            })),
        },
        Err(SolutionError::BadSolution { line }) => {
            Err(Refusal::Text(TextRefusal::Solution { line }))
        }
        Err(SolutionError::NoMemory) => Err(Refusal::NoMemory),
    }
}
