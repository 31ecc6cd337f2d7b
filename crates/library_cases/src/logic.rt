//! Truth, costs, the order and the form of clauses, repairs.

use crate::given::Given;
use crate::page::Page;
use crate::words::{clause, literal, parts};
use case_text::Trouble;
use mp_logic::{
    Assignment, apply_repair, compare_clauses, cost, first_false, holds, is_normal, is_tautology,
    normalise, satisfies,
};
use mp_store::repair_setting;
use std::alloc::Global;
use std::cmp::Ordering;

/// `satisfied LITERALS`: whether the values make the clause true.
pub fn put_satisfied(
    alloc: Global,
    given: &Given,
    text: &str,
    page: &mut Page,
) -> Result<(), Trouble> {
    put_truth(satisfies(&clause(alloc, text)?, &given.values), page);
    Ok(())
}

/// `holds LITERAL`: whether the values make the literal true.
pub fn put_held(given: &Given, text: &str, page: &mut Page) -> Result<(), Trouble> {
    put_truth(holds(literal(text)?, &given.values), page);
    Ok(())
}

fn put_truth(holds: bool, page: &mut Page) {
    page.word(if holds { "true\n" } else { "false\n" });
}

/// `first-false`: `a model`, or the place of the first hard clause of the text that the values make false.
pub fn put_first_false(alloc: Global, given: &Given, page: &mut Page) -> Result<(), Trouble> {
    match first_false(&given.instance(alloc)?, &given.values) {
        Some(place) => page.numbered("false at ", place as u128),
        None => page.word("a model\n"),
    }
    Ok(())
}

/// `cost`: the cost of the values in the text's instance.
pub fn put_cost(alloc: Global, given: &Given, page: &mut Page) -> Result<(), Trouble> {
    page.numbered("cost ", cost(&given.instance(alloc)?, &given.values));
    Ok(())
}

/// `compare LITERALS | LITERALS`: `less`, `equal` or `greater`.
pub fn put_order(alloc: Global, text: &str, page: &mut Page) -> Result<(), Trouble> {
    let (first, second) = parts(text, '|')?;
    match compare_clauses(&clause(alloc, first)?, &clause(alloc, second)?) {
        Ordering::Less => page.word("less\n"),
        Ordering::Equal => page.word("equal\n"),
        Ordering::Greater => page.word("greater\n"),
    }
    Ok(())
}

/// `normalise LITERALS`: the clause in normal form, after a word for whether it was normal before.
pub fn put_normalised(alloc: Global, text: &str, page: &mut Page) -> Result<(), Trouble> {
    let mut made = clause(alloc, text)?;
    page.word(if is_normal(&made) {
        "normal:"
    } else {
        "normalised:"
    });
    normalise(&mut made);
    page.literals("", made.items());
    page.word(if is_tautology(&made) {
        ", a tautology\n"
    } else {
        "\n"
    });
    Ok(())
}

/// `repair LITERAL | LITERALS`: the values with the literal true where they make the clause false.
pub fn repair(
    alloc: Global,
    values: &mut Assignment,
    text: &str,
    page: &mut Page,
) -> Result<(), Trouble> {
    let (sets, lits) = parts(text, '|')?;
    let lit = literal(sets.trim())?;
    if values.len() < lit.variable as usize {
        return Err(Trouble::Line);
    }
    let repair = repair_setting(alloc, lit, clause(alloc, lits)?.items())?;
    apply_repair(values, &repair);
    put_values(values, page);
    Ok(())
}

fn put_values(values: &Assignment, page: &mut Page) {
    for value in values.items() {
        page.word(if *value { "1" } else { "0" });
    }
    page.word("\n");
}
