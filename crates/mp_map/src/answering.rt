ghost use Rattle.std.specs.Prelude.{◌≡◌, ◌++◌, ◌∷◌, [], codes, not, IfOk, OnOk};
ghost use Rattle.std.specs.Option.{option_copied};
ghost use Rattle.mp_text.specs.Writing.{literal_word};
ghost use Rattle.mp_map.specs.Solutions.{answer_text, bits_text, cost_line, solution_text, values_line, values_text};

use crate::solutions::{Answer, Values};
use mp_logic::{Assignment, NoMemory, Weight};
use mp_text::{Bytes, TextBuf};
use std::alloc::Global;

/// The text of a solution: its cost, where one is given, its answer, and its values, where some are given.
pub fn write_solution(
    alloc: Global,
    answer: Answer,
    values: Option<&Assignment>,
    form: Values,
    cost: Option<Weight>,
) -> Result<Bytes, NoMemory>
    ensures { IfOk result (λ text. text ≡ solution_text answer (option_copied values.entry) form cost) }
{
    let mut text = TextBuf::new(alloc);
    write_cost(&mut text, cost)?;
    text.word(b"s ")?;
    text.word(answer_words(answer))?;
    text.word(b"\n")?;
    write_values(&mut text, values, form)?;
    Ok(text.into_bytes())
}

fn answer_words(answer: Answer) -> &'static [u8]
    ensures { result.now ≡ answer_text answer }
{
    match answer {
        Answer::Optimum => b"OPTIMUM FOUND",
        Answer::Satisfiable => b"SATISFIABLE",
        Answer::Unsatisfiable => b"UNSATISFIABLE",
        Answer::Unknown => b"UNKNOWN",
    }
}

fn write_cost(text: &mut TextBuf, cost: Option<Weight>) -> Result<(), NoMemory>
    ensures { OnOk result (text.new ≡ text.old ++ cost_line cost) }
{
    let Some(cost) = cost else {
        return Ok(());
    };
    text.word(b"o ")?;
    text.number(u128::from(cost))?;
    text.word(b"\n")
}

fn write_values(
    text: &mut TextBuf,
    values: Option<&Assignment>,
    form: Values,
) -> Result<(), NoMemory>
    ensures { OnOk result (text.new ≡ text.old ++ values_line form (option_copied values.entry)) }
{
    let Some(values) = values else {
        return Ok(());
    };
    text.word(b"v")?;
    match form {
        Values::Bits => write_bits(text, values)?,
        Values::Literals => write_literals(text, values)?,
    }
    text.word(b"\n")
}

fn write_bits(text: &mut TextBuf, values: &Assignment) -> Result<(), NoMemory>
    ensures { OnOk result (text.new ≡ text.old ++ values_text Values.Bits values.now) }
{
    if values.len() == 0 {
        return Ok(());
    }
    text.word(b" ")?;
    for value in values.items() {
        text.word(if *value { b"1" } else { b"0" })?;
    }
    Ok(())
}

fn write_literals(text: &mut TextBuf, values: &Assignment) -> Result<(), NoMemory>
    ensures { OnOk result (text.new ≡ text.old ++ values_text Values.Literals values.now) }
{
    for (place, value) in values.items().iter().enumerate() {
        text.word(b" ")?;
        write_value(text, place as u128 + 1, *value)?;
    }
    Ok(())
}

/// The variable where it is true, else its negation.
fn write_value(text: &mut TextBuf, variable: u128, value: bool) -> Result<(), NoMemory>
    ensures { OnOk result (text.new ≡ text.old ++ literal_word (record { variable = variable; negative = not value })) }
{
    if !value {
        text.word(b"-")?;
    }
    text.number(variable)
}
