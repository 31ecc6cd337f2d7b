//! The values of options, and what they mean.
ghost use Rattle.std.specs.Prelude.{◌≡◌, Bool, IfOk, IfSome, IfNone, string_bytes, option_map, unwrap_or};
ghost use Rattle.clap.specs.Words.{first_value, found_of};
ghost use Rattle.mp_map.specs.declared.solutions.Values.{Values};
ghost use Rattle.mp_text.specs.Numbers.{at_most, natural_of};
ghost use Rattle.mp_wcnf.specs.declared.writer.Form.{Form};
ghost use Rattle.mp_words.specs.declared.command.MapVersion.{MapVersion};
ghost use Rattle.mp_words.specs.Commands.{form_text, merge_text, most_tasks, values_text, version_text};

use crate::command::MapVersion;
use clap::ArgMatches;
use mp_logic::NoMemory;
use mp_map::Values;
use mp_text::natural;
use mp_wcnf::Form;
use std::alloc::Global;

/// The greatest number of tasks that a workload may have.
const MOST_TASKS: u128 = 1_000_000;

/// The value of an option, or else its default.
pub fn value_or<'a>(matches: &ArgMatches<'a>, name: &str, default: &'a str) -> &'a str
    ensures { result.now ≡ unwrap_or (first_value (found_of matches.now) name.now) default.entry.now }
{
    match matches.get_str(name) {
        Some(value) => value,
        None => default,
    }
}

/// A text of one's own.
pub fn owned(alloc: Global, text: &str) -> Result<String, NoMemory>
    ensures { IfOk result (λ made. string_bytes made ≡ text.now) }
{
    String::from_str(alloc, text).map_err(|_| NoMemory)
}

/// The value of an option, where it is given.
pub fn owned_value(
    alloc: Global,
    matches: &ArgMatches<'_>,
    name: &str,
) -> Result<Option<String>, NoMemory>
    ensures { IfOk result (λ made. option_map string_bytes made ≡ first_value (found_of matches.now) name.now) }
{
    match matches.get_str(name) {
        Some(text) => Ok(Some(owned(alloc, text)?)),
        None => Ok(None),
    }
}

/// The form of an instance that the text names.
pub fn form_of(text: &str) -> Option<Form>
    ensures some { IfSome result (λ form. form_text form ≡ text.now) }
    ensures none { IfNone result ((form : Form) → form_text form ≡ text.now → ⊥) }
{
    match text {
        "h" => Some(Form::H),
        "p" => Some(Form::P),
        _ => None,
    }
}

/// Whether the text asks to merge.
pub fn merge_of(text: &str) -> Option<bool>
    ensures some { IfSome result (λ merge. merge_text merge ≡ text.now) }
    ensures none { IfNone result ((merge : Bool) → merge_text merge ≡ text.now → ⊥) }
{
    match text {
        "yes" => Some(true),
        "no" => Some(false),
        _ => None,
    }
}

/// The version of a map that the text names.
pub fn version_of(text: &str) -> Option<MapVersion>
    ensures some { IfSome result (λ version. version_text version ≡ text.now) }
    ensures none { IfNone result ((version : MapVersion) → version_text version ≡ text.now → ⊥) }
{
    match text {
        "1" => Some(MapVersion::One),
        "2" => Some(MapVersion::Two),
        _ => None,
    }
}

/// The form of values that the text names.
pub fn values_of(text: &str) -> Option<Values>
    ensures some { IfSome result (λ form. values_text form ≡ text.now) }
    ensures none { IfNone result ((form : Values) → values_text form ≡ text.now → ⊥) }
{
    match text {
        "bits" => Some(Values::Bits),
        "literals" => Some(Values::Literals),
        _ => None,
    }
}

/// The number of tasks that the digits give, leading zeros included.
#[tactic(auto, using(crate::proofs::Chosen::tasks_bound))]
pub fn tasks_of(text: &str) -> Option<u32>
    ensures { result ≡ at_most most_tasks (natural_of text.now) }
{
    match natural(text.as_bytes(), MOST_TASKS) {
        Some(tasks) => Some(tasks as u32),
        None => None,
    }
}
