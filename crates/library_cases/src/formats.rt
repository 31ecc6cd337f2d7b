//! Instances, label views, maps and solutions, as they are read and written.
ghost use Rattle.std.specs.Prelude.{◌<◌};
ghost use Rattle.mp_logic.specs.Truth.{weights_of};
ghost use Rattle.mp_logic.specs.Weights.{weight_bound};

use crate::given::Given;
use crate::page::Page;
use crate::words::{parts, small};
use case_text::{Trouble, number, unescaped};
use mp_labels::{label, unlabel};
use mp_logic::{Instance, Weight};
use mp_map::{Solution, Values, read_map, read_solution, upgrade, write_map, write_solution};
use mp_text::Bytes;
use mp_wcnf::{Form, write};
use std::alloc::Global;

/// `read h|p`: the instance of the text in the form, or why it is refused.
pub fn put_read(alloc: Global, given: &Given, form: &str, page: &mut Page) -> Result<(), Trouble> {
    let form = if form == "p" { Form::P } else { Form::H };
    match given.read(alloc) {
        Ok(instance) => put_instance(alloc, &instance, form, 0, page),
        Err(error) => page.refusal(alloc, &error),
    }
}

fn put_instance(
    alloc: Global,
    instance: &Instance,
    form: Form,
    offset: Weight,
    page: &mut Page,
) -> Result<(), Trouble>
    requires { weights_of instance.now.soft < weight_bound }
{
    put_text(write(alloc, instance, form, offset)?, page)
}

/// `label`: the names and the text of the written form of the instance's label view, or why there is none.
pub fn put_label_view(alloc: Global, given: &Given, page: &mut Page) -> Result<(), Trouble> {
    let labelled = match label(alloc, &given.instance(alloc)?, &given.limits) {
        Ok(labelled) => labelled,
        Err(error) => return page.refusal(alloc, &error),
    };
    let written = unlabel(alloc, &labelled)?;
    page.word("names");
    for name in written.names.items() {
        page.number(" ", u128::from(*name));
    }
    page.word("\n");
    put_instance(alloc, &written.instance, Form::H, written.offset, page)
}

/// `map TEXT`: the text of the map that is read, or why it is refused.
pub fn put_map(alloc: Global, text: &str, page: &mut Page) -> Result<(), Trouble> {
    match read_map(alloc, unescaped(alloc, text)?.items()) {
        Ok(map) => put_text(write_map(alloc, &map)?, page),
        Err(error) => page.refusal(alloc, &error),
    }
}

/// `upgrade TEXT`: the text of the upgrade of the map that is read, or why the map is refused.
pub fn put_upgraded(alloc: Global, text: &str, page: &mut Page) -> Result<(), Trouble> {
    match read_map(alloc, unescaped(alloc, text)?.items()) {
        Ok(map) => put_text(write_map(alloc, &upgrade(alloc, &map)?)?, page),
        Err(error) => page.refusal(alloc, &error),
    }
}

/// `solution WRITTEN bits|literals COST TEXT`: the solution that is read for so many variables, in the form and with the
/// cost, or why it is refused.
pub fn put_solution(alloc: Global, given: &str, page: &mut Page) -> Result<(), Trouble> {
    let (written, rest) = parts(given, ' ')?;
    let (form, rest) = parts(rest, ' ')?;
    let (cost, text) = parts(rest, ' ')?;
    let form = if form == "bits" {
        Values::Bits
    } else {
        Values::Literals
    };
    let cost = Weight::from(number(cost)?);
    match read_solution(alloc, unescaped(alloc, text)?.items(), small(written)?) {
        Ok(solution) => put_reported(alloc, &solution, form, cost, page),
        Err(error) => page.refusal(alloc, &error),
    }
}

fn put_reported(
    alloc: Global,
    solution: &Solution,
    form: Values,
    cost: Weight,
    page: &mut Page,
) -> Result<(), Trouble> {
    let values = solution.values.as_ref();
    let text = write_solution(alloc, solution.answer, values, form, Some(cost))?;
    put_text(text, page)
}

fn put_text(text: Bytes, page: &mut Page) -> Result<(), Trouble> {
    page.escaped("text ", text.items());
    page.word("\n");
    Ok(())
}
