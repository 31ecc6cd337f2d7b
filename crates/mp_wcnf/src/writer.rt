ghost use Rattle.std.specs.Prelude.{◌≡◌, ◌+◌, ◌<◌, ◌++◌, ◌∷◌, [], IfOk, OnOk, length, map, codes};
ghost use Rattle.mp_logic.specs.Truth.{weights_of};
ghost use Rattle.mp_logic.specs.Weights.{weight_bound};
ghost use Rattle.mp_text.specs.Lines.{line_text, text_of};
ghost use Rattle.mp_text.specs.Writing.{literal_word};
ghost use Rattle.mp_wcnf.specs.Meaning.{Denotes};
ghost use Rattle.mp_wcnf.specs.Writing.{clause_rest, offset_line, header_lines, hard_mark, hard_line, soft_line, top_weight, instance_text, IsTight};

use mp_logic::{Clause, Clauses, Instance, Lit, NoMemory, Soft, Softs, Weight};
use mp_text::{Bytes, TextBuf};
use std::alloc::Global;

/// How a text tells hard clauses from soft ones.
#[derive(Clone, Copy, Debug, PartialEq, Eq)]
pub enum Form {
    /// a hard clause begins with `h`
    H,
    /// a line `p wcnf n m top` comes first, and a hard clause has the weight top
    P,
}

/// The text of an instance: `offset`, in the unit of its weights, in a comment, then in the P form the header, then the
/// hard and the soft clauses in order.
pub fn write(
    alloc: Global,
    instance: &Instance,
    form: Form,
    offset: Weight,
) -> Result<Bytes, NoMemory>
    requires { weights_of instance.now.soft < weight_bound }
    ensures text { IfOk result (λ text. text ≡ instance_text form offset instance.now) }
    ensures denotes { (form ≡ Form.H → IsTight instance.now) → IfOk result (λ text. Denotes text instance.now) }
{
    let top = top_weight(instance);
    let vars = u128::from(instance.vars);
    let clauses = count_clauses(instance);
    let mut text = TextBuf::new(alloc);
    write_offset(&mut text, offset)?;
    write_header(&mut text, vars, clauses, top, form)?;
    write_hards(&mut text, &instance.hard, form, top)?;
    write_softs(&mut text, &instance.soft)?;
    Ok(text.into_bytes())
}

/// One more than all soft clauses weigh, so that no soft clause has the weight of a hard one.
fn top_weight(instance: &Instance) -> Weight
    requires { weights_of instance.now.soft < weight_bound }
    ensures { result ≡ top_weight instance.now }
{
    total_weight(instance.soft.items()) + 1
}

/// What all soft clauses weigh together.
fn total_weight(softs: &[Soft]) -> Weight
    requires { weights_of softs.now < weight_bound }
    ensures { result ≡ weights_of softs.now }
{
    softs.iter().map(|soft| soft.weight).sum()
}

/// The number of hard and soft clauses.
fn count_clauses(instance: &Instance) -> u128
    ensures { result ≡ length instance.now.hard + length instance.now.soft }
{
    instance.hard.len() as u128 + instance.soft.len() as u128
}

/// The comment that says the offset.
fn write_offset(text: &mut TextBuf, offset: Weight) -> Result<(), NoMemory>
    ensures { OnOk result (text.new ≡ text.old ++ line_text (offset_line offset)) }
{
    text.word(b"c offset ")?;
    text.number(offset)?;
    text.word(b"\n")
}

/// The header of the P form; nothing in the H form.
fn write_header(
    text: &mut TextBuf,
    vars: u128,
    clauses: u128,
    top: Weight,
    form: Form,
) -> Result<(), NoMemory>
    ensures { OnOk result (text.new ≡ text.old ++ text_of (header_lines form vars clauses top)) }
{
    match form {
        Form::H => Ok(()),
        Form::P => {
            text.word(b"p wcnf ")?;
            text.number(vars)?;
            text.word(b" ")?;
            text.number(clauses)?;
            text.word(b" ")?;
            text.number(top)?;
            text.word(b"\n")
        }
    }
}

/// The lines of hard clauses.
fn write_hards(
    text: &mut TextBuf,
    clauses: &Clauses,
    form: Form,
    top: Weight,
) -> Result<(), NoMemory>
    ensures { OnOk result (text.new ≡ text.old ++ text_of (map (hard_line form top) clauses.now)) }
{
    for clause in clauses.items() {
        write_hard(text, clause, form, top)?;
    }
    Ok(())
}

/// The lines of soft clauses.
fn write_softs(text: &mut TextBuf, softs: &Softs) -> Result<(), NoMemory>
    ensures { OnOk result (text.new ≡ text.old ++ text_of (map soft_line softs.now)) }
{
    for soft in softs.items() {
        write_soft(text, soft)?;
    }
    Ok(())
}

/// A line of a hard clause.
fn write_hard(text: &mut TextBuf, clause: &Clause, form: Form, top: Weight) -> Result<(), NoMemory>
    ensures { OnOk result (text.new ≡ text.old ++ line_text (hard_line form top clause.now)) }
{
    write_mark(text, form, top)?;
    write_clause(text, clause.items())
}

/// The first word of a hard clause.
fn write_mark(text: &mut TextBuf, form: Form, top: Weight) -> Result<(), NoMemory>
    ensures { OnOk result (text.new ≡ text.old ++ hard_mark form top) }
{
    match form {
        Form::H => text.word(b"h"),
        Form::P => text.number(top),
    }
}

/// A line of a soft clause.
fn write_soft(text: &mut TextBuf, soft: &Soft) -> Result<(), NoMemory>
    ensures { OnOk result (text.new ≡ text.old ++ line_text (soft_line soft.now)) }
{
    text.number(soft.weight)?;
    write_clause(text, soft.clause.items())
}

/// The literals of a clause, its closing 0 and the end of the line.
fn write_clause(text: &mut TextBuf, lits: &[Lit]) -> Result<(), NoMemory>
    ensures { OnOk result (text.new ≡ text.old ++ clause_rest lits.now) }
{
    for lit in lits {
        write_literal(text, *lit)?;
    }
    text.word(b" 0\n")
}

/// A space and a literal.
fn write_literal(text: &mut TextBuf, lit: Lit) -> Result<(), NoMemory>
    ensures { OnOk result (text.new ≡ text.old ++ (codes " " ++ literal_word lit)) }
{
    if lit.negative {
        text.word(b" -")?;
    } else {
        text.word(b" ")?;
    }
    text.number(u128::from(lit.variable))
}
