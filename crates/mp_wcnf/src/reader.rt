ghost use Rattle.std.specs.Prelude.{◌≡◌, ◌≤◌, ◌&&◌, OnOk, IfErr, Ok, true, nat_le};
ghost use Rattle.std.specs.Str.{bytes_eq};
ghost use Rattle.mp_text.specs.Tokens.{tokens_of};
ghost use Rattle.mp_text.specs.Numbers.{literal_of};
ghost use Rattle.mp_wcnf.specs.Grammar.{head_of};
ghost use Rattle.mp_text.specs.Lines.{end_line};
ghost use Rattle.mp_wcnf.specs.Reading.{word_of, started, formatted, sized, counted, closed, continued, step, read_on, fresh_reader, Fails, Gives};

use crate::errors::ReadError;
use mp_logic::{Clause, Clauses, Limits, ListOf, Lit, Soft, Softs, Weight};
use mp_text::{Cursor, LitToken, Token, last_line, literal, natural};
use std::alloc::Global;

/// What the next token is to be.
#[derive(Clone, Copy, Debug)]
pub enum Place {
    /// the first token of the text
    Start,
    /// `wcnf` of the header on this line
    Format { line: u64 },
    /// `n` of the header on this line
    Variables { line: u64 },
    /// `m` of the header on this line
    Count { line: u64 },
    /// `top` of the header, or a clause on a further line
    Top,
    /// a clause on a further line
    LineEnd,
    /// the first token of a clause
    Between,
    /// a literal of a hard clause, or its closing 0
    Hard,
    /// a literal of a soft clause of this weight, or its closing 0
    Soft(Weight),
}

/// What was read so far, with the sums that the limits bound.
#[derive(Debug, Drop)]
pub struct Reader {
    pub hard: Clauses,
    pub soft: Softs,
    pub lits: Clause,
    pub vars: u32,
    pub clauses: u64,
    pub literals: u64,
    pub weight: Weight,
    pub top: Option<u128>,
    pub place: Place,
}

/// Reads a text, token by token.
pub fn read_all(alloc: Global, text: &[u8], limits: &Limits) -> Result<Reader, ReadError>
    ensures { Gives result (read_on limits.now (end_line text.now) (tokens_of true text.now) fresh_reader) }
{
    let mut reader = Reader {
        hard: ListOf::new(alloc),
        soft: ListOf::new(alloc),
        lits: Clause::new(alloc),
        vars: 0,
        clauses: 0,
        literals: 0,
        weight: 0,
        top: None,
        place: Place::Start,
    };
    let mut cursor = Cursor::new(text, true);
    while let Some(token) = cursor.next_token() {
        take(alloc, &mut reader, limits, &token)?;
    }
    match reader.place {
        Place::Format { line } | Place::Variables { line } | Place::Count { line } => {
            Err(ReadError::Syntax { line })
        }
        Place::Hard | Place::Soft(_) => Err(ReadError::Syntax {
            line: last_line(text),
        }),
        Place::Start | Place::Top | Place::LineEnd | Place::Between => Ok(reader),
    }
}

/// One more token.
fn take(
    alloc: Global,
    reader: &mut Reader,
    limits: &Limits,
    token: &Token<'_>,
) -> Result<(), ReadError>
    requires { reader.old.weight ≤ limits.now.weight }
    ensures ok { OnOk result (step limits.now reader.old reader.old.place (word_of token.now) ≡ Ok reader.new) }
    ensures err { IfErr result (λ e. Fails e (step limits.now reader.old reader.old.place (word_of token.now))) }
    ensures weight { OnOk result (reader.new.weight ≤ limits.now.weight) }
{
    match reader.place {
        Place::Start => start(reader, limits, token),
        Place::Format { line } => format(reader, token, line),
        Place::Variables { line } => variables(reader, limits, token, line),
        Place::Count { line } => count(reader, token, line),
        Place::Top => top(reader, limits, token),
        Place::LineEnd => line_end(reader, limits, token),
        Place::Between => begin(reader, limits, token),
        Place::Hard | Place::Soft(_) => go_on(alloc, reader, limits, token),
    }
}

/// The first token of the text: that of a header, or of a clause.
fn start(reader: &mut Reader, limits: &Limits, token: &Token<'_>) -> Result<(), ReadError>
    requires { reader.old.weight ≤ limits.now.weight }
    ensures ok { OnOk result (step limits.now reader.old Place.Start (word_of token.now) ≡ Ok reader.new) }
    ensures err { IfErr result (λ e. Fails e (step limits.now reader.old Place.Start (word_of token.now))) }
    ensures weight { OnOk result (reader.new.weight ≤ limits.now.weight) }
{
    if same(token.text, b"p") {
        reader.place = Place::Format { line: token.line };
        return Ok(());
    }
    begin(reader, limits, token)
}

fn same(a: &[u8], b: &[u8]) -> bool
    ensures { result ≡ bytes_eq a.now b.now }
{
    a == b
}

/// `wcnf` of the header on this line.
fn format(reader: &mut Reader, token: &Token<'_>, line: u64) -> Result<(), ReadError>
    ensures ok { OnOk result (formatted reader.old line (word_of token.now) ≡ Ok reader.new) }
    ensures err { IfErr result (λ e. Fails e (formatted reader.old line (word_of token.now))) }
    ensures weight { OnOk result (reader.new.weight ≡ reader.old.weight) }
{
    if token.leads {
        return Err(ReadError::Syntax { line });
    }
    if !same(token.text, b"wcnf") {
        return Err(ReadError::Syntax { line });
    }
    reader.place = Place::Variables { line };
    Ok(())
}

/// `n` of the header on this line.
fn variables(
    reader: &mut Reader,
    limits: &Limits,
    token: &Token<'_>,
    line: u64,
) -> Result<(), ReadError>
    ensures ok { OnOk result (sized limits.now reader.old line (word_of token.now) ≡ Ok reader.new) }
    ensures err { IfErr result (λ e. Fails e (sized limits.now reader.old line (word_of token.now))) }
    ensures weight { OnOk result (reader.new.weight ≡ reader.old.weight) }
{
    if token.leads {
        return Err(ReadError::Syntax { line });
    }
    let Some(vars) = natural(token.text, u128::MAX) else {
        return Err(ReadError::Syntax { line });
    };
    if vars > u128::from(limits.variables) {
        return Err(ReadError::TooManyVariables { line: token.line });
    }
    reader.vars = vars as u32;
    reader.place = Place::Count { line };
    Ok(())
}

/// `m` of the header on this line, which isn't used. Without a `top` no weight marks a hard clause, as with `top` 0.
fn count(reader: &mut Reader, token: &Token<'_>, line: u64) -> Result<(), ReadError>
    ensures ok { OnOk result (counted reader.old line (word_of token.now) ≡ Ok reader.new) }
    ensures err { IfErr result (λ e. Fails e (counted reader.old line (word_of token.now))) }
    ensures weight { OnOk result (reader.new.weight ≡ reader.old.weight) }
{
    if token.leads {
        return Err(ReadError::Syntax { line });
    }
    if natural(token.text, u128::MAX).is_none() {
        return Err(ReadError::Syntax { line });
    }
    reader.top = Some(0);
    reader.place = Place::Top;
    Ok(())
}

/// `top` of the header, or the first clause.
fn top(reader: &mut Reader, limits: &Limits, token: &Token<'_>) -> Result<(), ReadError>
    requires { reader.old.weight ≤ limits.now.weight }
    ensures ok { OnOk result (step limits.now reader.old Place.Top (word_of token.now) ≡ Ok reader.new) }
    ensures err { IfErr result (λ e. Fails e (step limits.now reader.old Place.Top (word_of token.now))) }
    ensures weight { OnOk result (reader.new.weight ≤ limits.now.weight) }
{
    if token.leads {
        return begin(reader, limits, token);
    }
    let Some(top) = natural(token.text, u128::MAX) else {
        return Err(ReadError::Syntax { line: token.line });
    };
    reader.top = Some(top);
    reader.place = Place::LineEnd;
    Ok(())
}

/// The first clause, on a line behind the header's.
fn line_end(reader: &mut Reader, limits: &Limits, token: &Token<'_>) -> Result<(), ReadError>
    requires { reader.old.weight ≤ limits.now.weight }
    ensures ok { OnOk result (step limits.now reader.old Place.LineEnd (word_of token.now) ≡ Ok reader.new) }
    ensures err { IfErr result (λ e. Fails e (step limits.now reader.old Place.LineEnd (word_of token.now))) }
    ensures weight { OnOk result (reader.new.weight ≤ limits.now.weight) }
{
    if !token.leads {
        return Err(ReadError::Syntax { line: token.line });
    }
    begin(reader, limits, token)
}

/// The first token of a clause.
fn begin(reader: &mut Reader, limits: &Limits, token: &Token<'_>) -> Result<(), ReadError>
    requires { reader.old.weight ≤ limits.now.weight }
    ensures ok { OnOk result (started limits.now reader.old (word_of token.now) ≡ Ok reader.new) }
    ensures err { IfErr result (λ e. Fails e (started limits.now reader.old (word_of token.now))) }
    ensures weight { OnOk result (reader.new.weight ≤ limits.now.weight) }
{
    let line = token.line;
    let Some(head) = head(token.text, reader.top) else {
        return Err(ReadError::Syntax { line });
    };
    if reader.clauses >= limits.clauses {
        return Err(ReadError::TooManyClauses);
    }
    match head {
        None => {
            reader.place = Place::Hard;
        }
        Some(weight) => {
            if weight > limits.weight - reader.weight {
                return Err(ReadError::TooHeavy { line });
            }
            reader.weight += weight;
            reader.place = Place::Soft(weight);
        }
    }
    reader.clauses += 1;
    Ok(())
}

/// The weight that its first token gives a clause; none in it where the clause is hard.
fn head(text: &[u8], top: Option<u128>) -> Option<Option<u128>>
    ensures { result ≡ head_of top text.now }
{
    let Some(top) = top else {
        if same(text, b"h") {
            return Some(None);
        }
        return Some(Some(natural(text, u128::MAX)?));
    };
    let weight = natural(text, u128::MAX)?;
    if is_top(weight, top) {
        Some(None)
    } else {
        Some(Some(weight))
    }
}

/// Whether a clause of this weight is hard.
fn is_top(weight: u128, top: u128) -> bool
    ensures { result ≡ (nat_le 1 top && nat_le top weight) }
{
    1 <= top && top <= weight
}

/// A literal, or the end of the clause.
fn go_on(
    alloc: Global,
    reader: &mut Reader,
    limits: &Limits,
    token: &Token<'_>,
) -> Result<(), ReadError>
    requires { reader.old.weight ≤ limits.now.weight }
    ensures ok { OnOk result (continued limits.now reader.old token.now.line (literal_of token.now.text.now) ≡ Ok reader.new) }
    ensures err { IfErr result (λ e. Fails e (continued limits.now reader.old token.now.line (literal_of token.now.text.now))) }
    ensures weight { OnOk result (reader.new.weight ≤ limits.now.weight) }
{
    let line = token.line;
    match literal(token.text) {
        None => Err(ReadError::Syntax { line }),
        Some(LitToken::Close) => close(alloc, reader),
        Some(LitToken::Lit { variable, negative }) => {
            if variable > u128::from(limits.variables) {
                return Err(ReadError::TooManyVariables { line });
            }
            if reader.literals >= limits.literals {
                return Err(ReadError::TooManyLiterals);
            }
            let variable = variable as u32;
            reader.lits.push(Lit { variable, negative })?;
            reader.literals += 1;
            if reader.vars < variable {
                reader.vars = variable;
            }
            Ok(())
        }
    }
}

/// The clause is whole.
fn close(alloc: Global, reader: &mut Reader) -> Result<(), ReadError>
    ensures ok { OnOk result (reader.new ≡ closed reader.old reader.old.place) }
    ensures err { IfErr result (λ e. e ≡ ReadError.NoMemory) }
{
    match reader.place {
        Place::Hard => {
            let clause = std::mem::replace(&mut reader.lits, Clause::new(alloc));
            reader.hard.push(clause)?;
            reader.place = Place::Between;
        }
        Place::Soft(weight) => {
            let clause = std::mem::replace(&mut reader.lits, Clause::new(alloc));
            reader.soft.push(Soft { weight, clause })?;
            reader.place = Place::Between;
        }
        _ => {}
    }
    Ok(())
}
