ghost use Rattle.std.specs.Prelude.{List, Some, None, nat_eq, replicate, ◌≡◌, ◌≤◌, ◌+◌, ◌^◌, ◌||◌, ◌∷◌, [], codes, false, not, map, length, IfOk, IfErr, IfSome, IfNone, MatchBool};
ghost use Rattle.std.specs.List.{list_all};
ghost use Rattle.std.specs.Str.{bytes_eq};
ghost use Rattle.mp_text.specs.Numbers.{literal_of};
ghost use Rattle.mp_text.specs.Tokens.{begins_comment};
ghost use Rattle.mp_text.specs.Lines.{end_line};
ghost use Rattle.mp_map.specs.Pieces.{pieces_at};
ghost use Rattle.mp_map.specs.Solutions.{kind_of, status_of, words_on, solution_lines, status_in, first_wrong, is_wrong, is_status, is_values, has_values, behind_v, value_words, demand_of, answer_from, is_bits, bits_in, first_wrong_word, literals_in, words_fault, values_from, values_fault, values_told, lower, Reports, IsSolutionFault, solution_fault, ValueWord};
ghost use Rattle.mp_map.specs.Marking.{marked, marked_apart, AnswersValues};

use crate::solutions::{Answer, Solution, SolutionError};
use crate::words::Pieces;
use mp_logic::{Assignment, ListOf, NoMemory};
use mp_text::{Cursor, LitToken, last_line, literal};
use std::alloc::Global;
use std::marker::Model;

/// What the text of a solver says, for a written instance of so many variables.
///
/// `BadSolution` comes exactly where a line is at fault, with the lowest such line. Values are none exactly where the
/// answer is `Unsatisfiable`, or where the text has the line `s UNKNOWN` and no `v` line.
pub fn read_solution(alloc: Global, text: &[u8], written: u32) -> Result<Solution, SolutionError>
    ensures found { IfOk result (Reports text.now written) }
    ensures refused { IfErr result (IsSolutionFault (solution_fault text.now written)) }
{
    match values(alloc, text, written) {
        Ok(values) => match first_wrong(text) {
            Some(line) => Err(SolutionError::BadSolution { line }),
            None => Ok(Solution {
                answer: answer(first_status(text)),
                values,
            }),
        },
        Err(SolutionError::BadSolution { line }) => Err(SolutionError::BadSolution {
            line: lower(first_wrong(text), line),
        }),
        Err(SolutionError::NoMemory) => Err(SolutionError::NoMemory),
    }
}

/// What a line says: nothing, an answer (none where its words are wrong), values, or what no line can say.
#[derive(Clone, Copy, Debug, PartialEq, Eq)]
pub enum LineKind {
    Ignored,
    Status(Option<Answer>),
    Values,
    Strange,
}

fn starts_comment(word: &[u8]) -> bool
    ensures { result ≡ begins_comment word.now }
{
    match word.split_first() {
        Some((first, _)) => *first == b'c',
        None => false,
    }
}

/// The answer of the words behind an `s`.
fn status(words: &mut Cursor) -> Option<Answer>
    ensures { result ≡ status_of (map (λ w. w.text) words.old) }
{
    let first = words.next_token()?.text;
    let Some(second) = words.next_token() else {
        return single(first);
    };
    if words.next_token().is_some() {
        return None;
    }
    if first == b"OPTIMUM".as_slice() && second.text == b"FOUND".as_slice() {
        return Some(Answer::Optimum);
    }
    None
}

fn single(word: &[u8]) -> Option<Answer>
    ensures { result ≡ status_of (word.now ∷ []) }
{
    if word == b"SATISFIABLE".as_slice() {
        return Some(Answer::Satisfiable);
    }
    if word == b"UNSATISFIABLE".as_slice() {
        return Some(Answer::Unsatisfiable);
    }
    if word == b"UNKNOWN".as_slice() {
        return Some(Answer::Unknown);
    }
    None
}

fn is_ignored(first: &[u8]) -> bool
    ensures { result ≡ (begins_comment first.now || bytes_eq first.now (codes "o")) }
{
    starts_comment(first) || first == b"o".as_slice()
}

fn kind(line: &[u8]) -> LineKind
    ensures { result ≡ kind_of (words_on line.now) }
{
    let mut words = Cursor::new(line, false);
    let Some(first) = words.next_token() else {
        return LineKind::Ignored;
    };
    if is_ignored(first.text) {
        return LineKind::Ignored;
    }
    if first.text == b"s".as_slice() {
        return LineKind::Status(status(&mut words));
    }
    if first.text == b"v".as_slice() {
        return LineKind::Values;
    }
    LineKind::Strange
}

/// The first `s` line: whether there is one, and its answer.
fn first_status(text: &[u8]) -> Option<Option<Answer>>
    ensures { result ≡ status_in (solution_lines text.now) }
{
    let mut lines = Pieces::new(text, b'\n');
    while let Some(line) = lines.next_piece() {
        if let LineKind::Status(answer) = kind(line) {
            return Some(answer);
        }
    }
    None
}

fn wrong(seen: bool, kind: LineKind) -> bool
    ensures { result ≡ is_wrong seen kind }
{
    match kind {
        LineKind::Ignored | LineKind::Values => false,
        LineKind::Strange | LineKind::Status(None) => true,
        LineKind::Status(Some(_)) => seen,
    }
}

fn is_status(kind: LineKind) -> bool
    ensures { result ≡ is_status kind }
{
    matches!(kind, LineKind::Status(_))
}

fn is_values(kind: LineKind) -> bool
    ensures { result ≡ is_values kind }
{
    matches!(kind, LineKind::Values)
}

/// The first line that can't stand where it is.
fn first_wrong(text: &[u8]) -> Option<u64>
    ensures { result ≡ first_wrong 1 false (solution_lines text.now) }
{
    let mut lines = Pieces::new(text, b'\n');
    let mut seen = false;
    let mut line = 1;
    while let Some(piece) = lines.next_piece() {
        let kind = kind(piece);
        if wrong(seen, kind) {
            return Some(line);
        }
        seen = seen || is_status(kind);
        line += 1;
    }
    None
}

fn has_values(text: &[u8]) -> bool
    ensures { result ≡ has_values (solution_lines text.now) }
{
    let mut lines = Pieces::new(text, b'\n');
    while let Some(line) = lines.next_piece() {
        if is_values(kind(line)) {
            return true;
        }
    }
    false
}

/// A word behind a `v`, and its line from 1.
#[derive(Clone, Copy, Debug)]
struct Found<'a> {
    text: &'a [u8],
    line: u64,
}

/// Goes over the words behind the `v` lines of a text. A contract sees those that are left.
#[derive(Drop)]
struct ValueWords<'a> {
    lines: Pieces<'a>,
    words: Cursor<'a>,
    line: u64,
}

impl<'a> Model for ValueWords<'a> {
    ghost use Rattle.std.specs.Prelude.{List, Some, None, nat_eq, replicate, List, map, length, ◌++◌, ◌+◌, ◌≤◌, ◌^◌};
    ghost use Rattle.mp_map.specs.Solutions.{ValueWord, numbered, value_words, words_on};

    ghost Value = { List ValueWord };

    ghost view = { λ v. numbered v.line (map (λ w. w.text) v.words) ++ value_words (v.line + 1) (map words_on v.lines) };

    ghost invariant = { λ v. v.line + length v.lines ≤ 2 ^ 63 + 1 };
}

/// At the words behind the `v` of a line, of which another has none.
fn behind_v<'a>(line: &'a [u8]) -> Cursor<'a>
    ensures { map (λ w. w.text) result ≡ behind_v (words_on line.now) }
{
    if is_values(kind(line)) {
        let mut words = Cursor::new(line, false);
        let _v = words.next_token();
        return words;
    }
    Cursor::new(&[], false)
}

impl<'a> ValueWords<'a> {
    fn new(text: &'a [u8]) -> ValueWords<'a>
        ensures { result ≡ value_words 1 (solution_lines text.now) }
    {
        ValueWords {
            lines: Pieces::new(text, b'\n'),
            words: Cursor::new(&[], false),
            line: 0,
        }
    }

    fn next_word(&mut self) -> Option<Found<'a>>
        ensures some { IfSome result (λ w. self.old ≡ record { text = w.text.now; line = w.line } ∷ self.new) }
        ensures none { IfNone result (self.old ≡ []) }
    {
        loop {
            if let Some(word) = self.words.next_token() {
                return Some(Found {
                    text: word.text,
                    line: self.line,
                });
            }
            let Some(line) = self.lines.next_piece() else {
                return None;
            };
            self.line += 1;
            self.words = behind_v(line);
        }
    }
}

/// Whether a solution's values are told.
#[derive(Clone, Copy, Debug, PartialEq, Eq)]
pub enum Demand {
    Barred,
    Allowed,
    Required,
}

fn demand_after(status: Option<Option<Answer>>) -> Demand
    ensures { result ≡ demand_of status }
{
    match status {
        Some(Some(Answer::Unsatisfiable)) => Demand::Barred,
        Some(Some(Answer::Unknown)) => Demand::Allowed,
        Some(Some(Answer::Optimum)) | Some(Some(Answer::Satisfiable)) => Demand::Required,
        Some(None) | None => Demand::Required,
    }
}

fn answer(status: Option<Option<Answer>>) -> Answer
    ensures { result ≡ answer_from status }
{
    match status {
        Some(Some(answer)) => answer,
        Some(None) | None => Answer::Unknown,
    }
}

fn is_bits(text: &[u8], written: u32) -> bool
    ensures { result ≡ is_bits written text.now }
{
    text.len() == written as usize && all_bits(text)
}

fn all_bits(text: &[u8]) -> bool
    ensures { result ≡ list_all (λ b. nat_eq b 48 || nat_eq b 49) text.now }
{
    text.iter().all(|b| *b == b'0' || *b == b'1')
}

fn bits_of(alloc: Global, text: &[u8]) -> Result<Assignment, NoMemory>
    ensures { IfOk result (λ bits. bits ≡ map (λ b. nat_eq b 49) text.now) }
{
    let mut bits = ListOf::new(alloc);
    for b in text {
        bits.push(*b == b'1')?;
    }
    Ok(bits)
}

/// The values, where the words are just one of a byte `0` or `1` for each variable.
fn bits(alloc: Global, text: &[u8], written: u32) -> Result<Option<Assignment>, NoMemory>
    ensures { IfOk result (λ bits. bits ≡ bits_in written (value_words 1 (solution_lines text.now))) }
{
    let mut words = ValueWords::new(text);
    let Some(word) = words.next_word() else {
        return Ok(None);
    };
    if words.next_word().is_some() || !is_bits(word.text, written) {
        return Ok(None);
    }
    Ok(Some(bits_of(alloc, word.text)?))
}

/// Marks a variable, unless it is past the last or marked in the other list.
fn mark_apart(own: &mut Assignment, other: &Assignment, variable: u128) -> bool
    requires one { 1 ≤ variable }
    requires len { length other.now ≡ length own.old }
    ensures marked { MatchBool result (marked_apart own.old other.now variable ≡ Some own.new) (marked_apart own.old other.now variable ≡ None) }
    ensures len { length own.new ≡ length own.old }
{
    if variable > own.len() as u128 {
        return false;
    }
    let place = variable as usize - 1;
    if other.items()[place] {
        return false;
    }
    own.set(place, true);
    true
}

/// Marks the variable of a literal, and says whether the word can stand behind those that are marked.
#[tactic(auto, using(mp_text::proofs::Spelled::literal_from_one))]
fn mark(plain: &mut Assignment, negated: &mut Assignment, word: &[u8]) -> bool
    requires { length negated.old ≡ length plain.old }
    ensures marked { MatchBool result (marked (record { positive = plain.old; negative = negated.old }) (literal_of word.now) ≡ Some (record { positive = plain.new; negative = negated.new }))
        (marked (record { positive = plain.old; negative = negated.old }) (literal_of word.now) ≡ None) }
    ensures plain { length plain.new ≡ length plain.old }
    ensures negated { length negated.new ≡ length negated.old }
{
    match literal(word) {
        None => false,
        Some(LitToken::Close) => true,
        Some(LitToken::Lit { variable, negative }) => {
            if negative {
                return mark_apart(negated, plain, variable);
            }
            mark_apart(plain, negated, variable)
        }
    }
}

/// The values of words that are literals: a variable is true where it stands there.
#[tactic(auto, using(crate::proofs::Marked::marks_ok, crate::proofs::Marked::marks_err))]
fn literals(alloc: Global, text: &[u8], written: u32) -> Result<Assignment, SolutionError>
    ensures { AnswersValues (first_wrong_word written [] (value_words 1 (solution_lines text.now))) (literals_in written (value_words 1 (solution_lines text.now))) result }
{
    let mut plain = all_false(alloc, written)?;
    let mut negated = all_false(alloc, written)?;
    let mut words = ValueWords::new(text);
    while let Some(word) = words.next_word() {
        if !mark(&mut plain, &mut negated, word.text) {
            return Err(SolutionError::BadSolution { line: word.line });
        }
    }
    Ok(plain)
}

fn all_false(alloc: Global, count: u32) -> Result<Assignment, NoMemory>
    ensures { IfOk result (λ made. made ≡ replicate count false) }
{
    Ok(ListOf::from_vec(vec![in alloc; false; count as usize]?))
}

/// The values of the words behind the `v` lines.
fn told(alloc: Global, text: &[u8], written: u32) -> Result<Assignment, SolutionError>
    ensures { let words : List ValueWord = value_words 1 (solution_lines text.now) in
        AnswersValues (words_fault (bits_in written words) (first_wrong_word written [] words)) (values_from (bits_in written words) (literals_in written words)) result }
{
    if let Some(bits) = bits(alloc, text, written)? {
        return Ok(bits);
    }
    literals(alloc, text, written)
}

fn values(alloc: Global, text: &[u8], written: u32) -> Result<Option<Assignment>, SolutionError>
    ensures { AnswersValues (values_fault text.now written) (values_told text.now written) result }
{
    match demand_after(first_status(text)) {
        Demand::Barred => Ok(None),
        Demand::Allowed => {
            if has_values(text) {
                return Ok(Some(told(alloc, text, written)?));
            }
            Ok(None)
        }
        Demand::Required => {
            if has_values(text) {
                return Ok(Some(told(alloc, text, written)?));
            }
            Err(SolutionError::BadSolution {
                line: last_line(text),
            })
        }
    }
}

fn lower(first: Option<u64>, second: u64) -> u64
    ensures { lower first (Some second) ≡ Some result }
{
    match first {
        Some(line) => line.min(second),
        None => second,
    }
}
