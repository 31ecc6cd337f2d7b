//! The mode `preprocess`: from the file of an instance to a smaller one and a map, where one is asked for.
ghost use Rattle.std.specs.Prelude.{◌≡◌, ◌≤◌, IfOk, IfErr, IsErrOf, string_bytes, option_map};
ghost use Rattle.mp_host.specs.World.{Rose};
ghost use Rattle.mp_logic.specs.Carrying.{IsLabelView};
ghost use Rattle.mp_logic.specs.Labelled.{IsLabelled};
ghost use Rattle.mp_wcnf.specs.Refusals.{IsWithinLimits};
ghost use Rattle.mp_modes.specs.Limits.{program_limits};
ghost use Rattle.mp_map.specs.Maps.{IsMap, map_text};
ghost use Rattle.mp_modes.specs.Outputs.{map_steps};
ghost use Rattle.mp_modes.specs.PreprocessMode.{OptimumIsKept, preprocess_mode, steps_of_map};
ghost use Rattle.mp_labels.specs.LabelView.{label_view};
ghost use Rattle.core_solver.specs.Verdicts.{IsQuery, IsRightVerdict};
ghost use Rattle.mp_engine.specs.Stores.{CanRun};
ghost use Rattle.mp_modes.specs.Instances.{IsWantOr};
ghost use Rattle.mp_modes.specs.Preprocessing.{Preprocesses, IsInstanceFault, IsLabelFault, chosen_by, inner_vars};
ghost use Rattle.mp_modes.specs.Running.{Prepares, StopsReading};
ghost use Rattle.mp_modes.specs.Traces.{outside_of};

use crate::inputs::read_input;
use crate::instances::{past, read_instance};
use crate::laws::runs_tell;
use crate::limits::limits;
use crate::outputs::{MapText, Outputs};
use crate::presenting::present;
use crate::refusal::{Exceeded, Refusal};
use core_solver::{Query, Verdict, solve};
use mp_engine::{Done, bounds_are_reached, log_text, run_from_labelled};
use mp_host::Host;
use mp_labels::{LabelError, Labelled, label};
use mp_logic::{Instance, NoMemory};
use mp_map::{MapFile, write_map};
use mp_script::Script;
use mp_text::Bytes;
use mp_wcnf::write;
use mp_words::Preprocess;
use std::alloc::Global;
use t_probe::Oracle;

/// Reads the file of an instance, and builds the smaller instance, its map, where a name for it is given, and the log.
pub fn preprocess_file<H: Host>(
    alloc: Global,
    asked: Preprocess,
    script: &Script,
    host: &mut H,
) -> Result<Outputs, Refusal>
    requires { CanRun script.now }
    ensures prepared { IfOk result (Prepares (preprocess_mode (string_bytes asked.file) (chosen_by script.now asked) (option_map string_bytes asked.map)) (outside_of H.world H.asked H.read_faults H.write_faults host.old) (outside_of H.world H.asked H.read_faults H.write_faults host.new)) }
    ensures stopped { IfErr result (StopsReading (preprocess_mode (string_bytes asked.file) (chosen_by script.now asked) (option_map string_bytes asked.map)) (outside_of H.world H.asked H.read_faults H.write_faults host.old) (outside_of H.world H.asked H.read_faults H.write_faults host.new)) }
    ensures fault { IsErrOf result Refusal.ReadFault → Rose (H.read_faults host.old) (H.read_faults host.new) }
    ensures later { H.read_faults host.old ≤ H.read_faults host.new }
    ensures writes { H.write_faults host.new ≡ H.write_faults host.old }
{
    let text = match read_input(alloc, asked.file.as_str(), host) {
        Ok(text) => text,
        Err(refusal) => return Err(refusal),
    };
    let made = match preprocess(alloc, text, script, &asked) {
        Ok(made) => made,
        Err(refusal) => return Err(refusal),
    };
    let map = match map_for(alloc, asked.map, &made.map) {
        Ok(map) => map,
        Err(_) => return Err(Refusal::NoMemory),
    };
    Ok(Outputs {
        map,
        out: made.out,
        log: made.log,
        done: Some(made.done),
    })
}

/// The text of a map, where a name for its file is given.
pub fn map_for(
    alloc: Global,
    name: Option<String>,
    map: &MapFile,
) -> Result<Option<MapText>, NoMemory>
    requires { IsMap map.now }
    ensures { IfOk result (λ made. map_steps made ≡ steps_of_map (option_map string_bytes name) (map_text map.now)) }
{
    let Some(name) = name else {
        return Ok(None);
    };
    let text = write_map(alloc, map)?;
    Ok(Some(MapText { name, text }))
}

/// What preprocessing makes: the map, the texts of the instance and of the log, and what the run left.
#[derive(Drop)]
pub struct Preprocessed {
    pub map: MapFile,
    pub out: Bytes,
    pub log: Bytes,
    pub done: Done,
}

/// Preprocesses the text of an instance by a script. The text, the instance and its label view are let go of as soon as the
/// next stage has taken them in.
pub fn preprocess(
    alloc: Global,
    text: Bytes,
    script: &Script,
    asked: &Preprocess,
) -> Result<Preprocessed, Refusal>
    requires { CanRun script.now }
    ensures made { IfOk result (λ made. Preprocesses (chosen_by script.now asked.now) made.done text (map_text made.map) made.out made.log) }
    ensures valid { IfOk result (λ made. IsMap made.map) }
    ensures refused { IfErr result (IsWantOr (IsInstanceFault text)) }
{
    let instance = match read_instance(alloc, text) {
        Ok(instance) => instance,
        Err(refusal) => return Err(refusal),
    };
    let original = instance.vars;
    let labelled = match label_instance(alloc, instance) {
        Ok(labelled) => labelled,
        Err(refusal) => return Err(refusal),
    };
    let oracle = Oracle::new(
        |alloc: Global, query: &Query| -> Result<Verdict, NoMemory>
            requires { IsQuery query.now }
            ensures { IfOk result (λ verdict. IsRightVerdict query.now verdict) }
        { solve(alloc, query) },
    );
    let done = run_from_labelled(alloc, labelled, &limits(), script, &oracle)?;
    runs_tell();
    bounds_are_reached();
    let log = log_text(alloc, &done)?;
    let presented = present(alloc, original, &done, asked.merge, asked.version)?;
    let out = write(alloc, &presented.instance, asked.form, presented.map.offset)?;
    Ok(Preprocessed {
        map: presented.map,
        out,
        log,
        done,
    })
}

/// What is written without a map serves a solver as well: the original's optimum is that of the written instance plus the
/// offset in its first line, and it has none exactly if that has none.
pub fn optimum_is_kept()
    ensures { OptimumIsKept }
{}

/// The label view of an instance within the limits of what is read.
pub fn label_instance(alloc: Global, instance: Instance) -> Result<Labelled, Refusal>
    requires { IsWithinLimits program_limits «instance» }
    ensures view { IfOk result (IsLabelView «instance») }
    ensures view_is { IfOk result (λ l. l ≡ label_view «instance») }
    ensures fits { IfOk result (λ l. («instance».vars ≤ l.vars) × (l.vars ≤ 16777215)) }
    ensures inner { IfOk result (λ _. inner_vars «instance» ≤ program_limits.inner) }
    ensures labelled { IfOk result (λ l. IsLabelled l.vars l.hard l.costs l.offset) }
    ensures refused { IfErr result (IsWantOr (IsLabelFault «instance»)) }
{
    match label(alloc, &instance, &limits()) {
        Ok(labelled) => {
            // what holds of each labelled state is told from here on
            let _vars = labelled.vars;
            Ok(labelled)
        }
        Err(LabelError::TooManyVariables) => Err(past(Exceeded::Inner)),
        Err(LabelError::NoMemory) => Err(Refusal::NoMemory),
    }
}
