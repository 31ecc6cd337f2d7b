//! Which words are a line of a mode: the mode, its operand, and options of the mode anywhere, each at most once.
ghost use Rattle.std.specs.Prelude.{◌≡◌, ◌++◌, ◌<◌, ◌↔◌, ℕ, List, Some, IfOk, IfSome, IfNone, IsTrue, drop, length, slice_get};
ghost use Rattle.std.specs.List.{list_any};
ghost use Rattle.std.specs.Str.{bytes_eq};
ghost use Rattle.mp_words.specs.CommandLines.{option_text, no_twins};
ghost use Rattle.mp_words.specs.Modes.{options_of};
ghost use Rattle.mp_words.specs.Reading.{texts, HasValue, IsOption, IsPlain, AreModeAndOperand, HasLine};

use crate::modes::Mode;
use crate::words::Words;
use mp_logic::NoMemory;
use std::alloc::Global;

/// Whether the words are a line of the mode.
pub fn is_line(alloc: Global, mode: Mode, words: &Words) -> Result<bool, NoMemory>
    ensures { IfOk result (λ is. IsTrue is ↔ HasLine mode words.now) }
{
    let mut sorted = SortedWords {
        plain: Vec::new(alloc),
        names: Vec::new(alloc),
    };
    for place in 0..words.len() {
        if !sorted.take(mode, words.text(place))? {
            return Ok(false);
        }
    }
    Ok(sorted.are_line(mode))
}

/// The plain words so far, and the names of the options.
#[derive(Drop)]
struct SortedWords<'a> {
    plain: Vec<&'a str>,
    names: Vec<&'a str>,
}

impl<'a> SortedWords<'a> {
    ghost use Rattle.std.specs.Prelude.{◌&&◌, ◌↔◌, ℕ, List, IfOk, IsTrue};
    ghost use Rattle.mp_words.specs.CommandLines.{no_twins};
    ghost use Rattle.mp_words.specs.Modes.{options_of};
    ghost use Rattle.mp_words.specs.Reading.{texts, Takes, AreModeAndOperand};

    /// Puts a word where it belongs, and answers whether it belongs anywhere: it is a plain word, or an option of the mode
    /// with a value.
    fn take(&mut self, mode: Mode, word: &'a str) -> Result<bool, NoMemory>
        ensures { IfOk result (λ taken. Takes (options_of mode) word.now (texts self.old.plain.items) (texts self.old.names.items) (texts self.new.plain.items) (texts self.new.names.items) taken) }
    {
        if is_plain(word) {
            self.plain.push(word)?;
            return Ok(true);
        }
        let Some(name) = option_of(mode, word) else {
            return Ok(false);
        };
        self.names.push(name)?;
        Ok(true)
    }

    /// Whether the plain words are the mode and an operand, and no option stands twice.
    fn are_line(&self, mode: Mode) -> bool
        ensures { IsTrue result ↔ (AreModeAndOperand mode (texts self.now.plain.items) × IsTrue (no_twins (texts self.now.names.items))) }
    {
        if !are_mode_and_operand(mode, &self.plain) {
            return false;
        }
        are_apart(&self.names)
    }
}

/// Whether the word is a plain one: not empty, and without a `-` at its front.
fn is_plain(word: &str) -> bool
    ensures { IsTrue result ↔ IsPlain word.now }
{
    match word.as_bytes() {
        [] => false,
        [first, ..] => *first != b'-',
    }
}

/// The name of the option that the word is, with a value that isn't empty.
fn option_of(mode: Mode, word: &str) -> Option<&'static str>
    ensures some { IfSome result (λ name. IsOption (options_of mode) word.now name.now) }
    ensures none { IfNone result ((name : List ℕ) → IsOption (options_of mode) word.now name → ⊥) }
{
    let names = mode.options();
    for place in 0..names.len() {
        let name = text_at(names, place);
        if has_value(word, name) {
            return Some(name);
        }
    }
    None
}

/// Whether the word is the option of the name, with a value that isn't empty.
fn has_value(word: &str, name: &str) -> bool
    ensures { IsTrue result ↔ HasValue word.now name.now }
{
    match value_in(word, name) {
        Some(value) => !value.is_empty(),
        None => false,
    }
}

/// The value in a word `--NAME=VALUE`.
fn value_in<'a>(word: &'a str, name: &str) -> Option<&'a str>
    ensures some { IfSome result (λ value. word.now ≡ option_text name.now value.now) }
    ensures none { IfNone result ((value : List ℕ) → word.now ≡ option_text name.now value → ⊥) }
{
    let rest = behind(word, "--")?;
    let rest = behind(rest, name)?;
    behind(rest, "=")
}

/// What stands behind the front of a text.
fn behind<'a>(text: &'a str, front: &str) -> Option<&'a str>
    ensures some { IfSome result (λ rest. text.now ≡ front.now ++ rest.now) }
    ensures none { IfNone result ((rest : List ℕ) → text.now ≡ front.now ++ rest → ⊥) }
{
    text.strip_prefix(front)
}

/// Whether the plain words are two, and the first is the mode.
fn are_mode_and_operand(mode: Mode, plain: &[&str]) -> bool
    ensures { IsTrue result ↔ AreModeAndOperand mode (texts plain.now) }
{
    if plain.len() != 2 {
        return false;
    }
    same(text_at(plain, 0), mode.word())
}

/// Whether no name stands twice.
fn are_apart(names: &[&str]) -> bool
    ensures { result ≡ no_twins (texts names.now) }
{
    for place in 0..names.len() {
        if stands_from(names, text_at(names, place), place + 1) {
            return false;
        }
    }
    true
}

/// Whether a text stands at a place or behind it.
fn stands_from(names: &[&str], text: &str, first: usize) -> bool
    ensures { result ≡ list_any (λ other. bytes_eq text.now other) (drop first (texts names.now)) }
{
    for place in first..names.len() {
        if same(text, text_at(names, place)) {
            return true;
        }
    }
    false
}

fn text_at<'a>(names: &[&'a str], place: usize) -> &'a str
    requires { place < length names.now }
    ensures { slice_get (texts names.now) place ≡ Some result.now }
{
    names[place]
}

fn same(text: &str, other: &str) -> bool
    ensures { result ≡ bytes_eq text.now other.now }
{
    text == other
}
