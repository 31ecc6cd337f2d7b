//! What the words of each mode ask for.
ghost use Rattle.std.specs.Prelude.{◌≡◌, ℕ, Bool, List, Option, IfOk, IfSome, IfNone, string_bytes, option_map};
ghost use Rattle.clap.specs.Words.{found_of};
ghost use Rattle.mp_map.specs.declared.solutions.Values.{Values};
ghost use Rattle.mp_wcnf.specs.declared.writer.Form.{Form};
ghost use Rattle.mp_words.specs.declared.command.MapVersion.{MapVersion};
ghost use Rattle.mp_words.specs.Commands.{IsEvaluate, IsPreprocess, IsReconstruct, IsUpgrade, IsWorkload};
ghost use Rattle.mp_words.specs.Reading.{HasLine, IsMatched};

use crate::command::{Evaluate, Preprocess, Reconstruct, Upgrade, Workload};
use crate::lines::is_line;
use crate::modes::Mode;
use crate::parsed::parsed;
use crate::values::{
    form_of, merge_of, owned, owned_value, tasks_of, value_or, values_of, version_of,
};
use crate::words::Words;
use clap::ArgMatches;
use mp_logic::NoMemory;
use std::alloc::Global;

/// Reads the words as a command to preprocess; none exactly where they are not one.
pub fn read_preprocess(alloc: Global, words: &Words) -> Result<Option<Preprocess>, NoMemory>
    ensures some { IfOk result (λ found. IfSome found (λ c. IsPreprocess words.now (string_bytes c.file) (string_bytes c.techniques) (option_map string_bytes c.map) c.form c.merge c.version)) }
    ensures none { IfOk result (λ found. IfNone found ((file techniques : List ℕ) (map : Option (List ℕ)) (form : Form) (merge : Bool) (version : MapVersion) → IsPreprocess words.now file techniques map form merge version → ⊥)) }
{
    let Some(matches) = matches_of(alloc, Mode::Preprocess, words)? else {
        return Ok(None);
    };
    let Some(form) = form_of(value_or(&matches, "form", "h")) else {
        return Ok(None);
    };
    let Some(merge) = merge_of(value_or(&matches, "merge", "no")) else {
        return Ok(None);
    };
    let Some(version) = version_of(value_or(&matches, "mapversion", "2")) else {
        return Ok(None);
    };
    let file = owned(alloc, value_or(&matches, "operand", ""))?;
    let techniques = owned(alloc, value_or(&matches, "techniques", "[bu]#[buvsrgc]"))?;
    let map = owned_value(alloc, &matches, "mapfile")?;
    Ok(Some(Preprocess {
        file,
        techniques,
        map,
        form,
        merge,
        version,
    }))
}

/// Reads the words as a command to reconstruct; none exactly where they are not one.
pub fn read_reconstruct(alloc: Global, words: &Words) -> Result<Option<Reconstruct>, NoMemory>
    ensures some { IfOk result (λ found. IfSome found (λ c. IsReconstruct words.now (string_bytes c.file) (string_bytes c.map) (option_map string_bytes c.original) c.form)) }
    ensures none { IfOk result (λ found. IfNone found ((file map : List ℕ) (original : Option (List ℕ)) (form : Values) → IsReconstruct words.now file map original form → ⊥)) }
{
    let Some(matches) = matches_of(alloc, Mode::Reconstruct, words)? else {
        return Ok(None);
    };
    let Some(form) = values_of(value_or(&matches, "values", "bits")) else {
        return Ok(None);
    };
    let Some(name) = matches.get_str("mapfile") else {
        return Ok(None);
    };
    let file = owned(alloc, value_or(&matches, "operand", ""))?;
    let map = owned(alloc, name)?;
    let original = owned_value(alloc, &matches, "original")?;
    Ok(Some(Reconstruct {
        file,
        map,
        original,
        form,
    }))
}

/// Reads the words as a command to evaluate; none exactly where they are not one.
pub fn read_evaluate(alloc: Global, words: &Words) -> Result<Option<Evaluate>, NoMemory>
    ensures some { IfOk result (λ found. IfSome found (λ c. IsEvaluate words.now (string_bytes c.file) (string_bytes c.solution))) }
    ensures none { IfOk result (λ found. IfNone found ((file solution : List ℕ) → IsEvaluate words.now file solution → ⊥)) }
{
    let Some(matches) = matches_of(alloc, Mode::Evaluate, words)? else {
        return Ok(None);
    };
    let Some(name) = matches.get_str("solution") else {
        return Ok(None);
    };
    let file = owned(alloc, value_or(&matches, "operand", ""))?;
    let solution = owned(alloc, name)?;
    Ok(Some(Evaluate { file, solution }))
}

/// Reads the words as a command to make a workload; none exactly where they are not one.
pub fn read_workload(alloc: Global, words: &Words) -> Result<Option<Workload>, NoMemory>
    ensures some { IfOk result (λ found. IfSome found (λ c. IsWorkload words.now c.tasks (string_bytes c.techniques))) }
    ensures none { IfOk result (λ found. IfNone found ((tasks : ℕ) (techniques : List ℕ) → IsWorkload words.now tasks techniques → ⊥)) }
{
    let Some(matches) = matches_of(alloc, Mode::Workload, words)? else {
        return Ok(None);
    };
    let Some(tasks) = tasks_of(value_or(&matches, "operand", "")) else {
        return Ok(None);
    };
    let techniques = owned(alloc, value_or(&matches, "techniques", "[bu]#[buvsrgc]"))?;
    Ok(Some(Workload { tasks, techniques }))
}

/// Reads the words as a command to upgrade; none exactly where they are not one.
pub fn read_upgrade(alloc: Global, words: &Words) -> Result<Option<Upgrade>, NoMemory>
    ensures some { IfOk result (λ found. IfSome found (λ c. IsUpgrade words.now (string_bytes c.file) (string_bytes c.map))) }
    ensures none { IfOk result (λ found. IfNone found ((file map : List ℕ) → IsUpgrade words.now file map → ⊥)) }
{
    let Some(matches) = matches_of(alloc, Mode::Upgrade, words)? else {
        return Ok(None);
    };
    let Some(name) = matches.get_str("mapfile") else {
        return Ok(None);
    };
    let file = owned(alloc, value_or(&matches, "operand", ""))?;
    let map = owned(alloc, name)?;
    Ok(Some(Upgrade { file, map }))
}

/// What `clap` found in words that are a line of the mode; none exactly where they are not one.
fn matches_of<'a>(
    alloc: Global,
    mode: Mode,
    words: &'a Words,
) -> Result<Option<ArgMatches<'a>>, NoMemory>
    ensures some { IfOk result (λ found. IfSome found (λ m. IsMatched mode words.entry.now (found_of m))) }
    ensures none { IfOk result (λ found. IfNone found (HasLine mode words.entry.now → ⊥)) }
{
    if !is_line(alloc, mode, words)? {
        return Ok(None);
    }
    match parsed(alloc, words.items()) {
        Ok(matches) => Ok(Some(matches)),
        Err(_) => Err(NoMemory),
    }
}
