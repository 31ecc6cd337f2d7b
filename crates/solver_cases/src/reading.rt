//! Queries as text, and whether they are valid.
ghost use Rattle.std.specs.Prelude.{IsTrue};
ghost use Rattle.core_solver.specs.Verdicts.{IsQuery};
ghost use Rattle.solver_cases.specs.Within.{IsWithin};

use case_text::{Trouble, number};
use core_solver::Query;
use mp_logic::{Clause, Clauses, ListOf, Lit, is_normal};
use std::alloc::Global;

/// The query of a text; `Line` where it is none.
pub fn query_of(alloc: Global, text: &str) -> Result<Query, Trouble> {
    let (sizes, rest) = text.split_once(';').ok_or(Trouble::Line)?;
    let (vars, budget) = sizes.split_once(' ').ok_or(Trouble::Line)?;
    let (assumptions, hard) = rest.split_once(';').ok_or(Trouble::Line)?;
    Ok(Query {
        vars: small(vars)?,
        hard: clauses_of(alloc, hard)?,
        assumptions: clause_of(alloc, assumptions)?,
        budget: small(budget)?,
    })
}

fn small(text: &str) -> Result<u32, Trouble> {
    u32::try_from(number(text)?).map_err(|_| Trouble::Line)
}

fn clauses_of(alloc: Global, text: &str) -> Result<Clauses, Trouble> {
    let mut clauses = ListOf::new(alloc);
    if text.is_empty() {
        return Ok(clauses);
    }
    for part in text.split(',') {
        clauses.push(clause_of(alloc, part)?)?;
    }
    Ok(clauses)
}

fn clause_of(alloc: Global, text: &str) -> Result<Clause, Trouble> {
    let mut clause = Clause::new(alloc);
    for word in text.split_ascii_whitespace() {
        clause.push(lit_of(word)?)?;
    }
    Ok(clause)
}

fn lit_of(word: &str) -> Result<Lit, Trouble> {
    let number = word.parse::<i32>().map_err(|_| Trouble::Line)?;
    let variable = number.unsigned_abs();
    if variable == 0 {
        return Err(Trouble::Line);
    }
    Ok(Lit::new(variable, number < 0))
}

/// Whether a query is valid, with its assumptions in the order of their variables.
pub fn is_valid(query: &Query) -> bool
    ensures { IsTrue result → IsQuery query.now }
{
    for clause in query.hard.items() {
        if !is_within(clause, query.vars) {
            return false;
        }
    }
    is_within(&query.assumptions, query.vars)
}

fn is_within(clause: &Clause, vars: u32) -> bool
    ensures { IsTrue result → IsWithin vars clause.now }
{
    for lit in clause.items() {
        if lit.variable > vars {
            return false;
        }
    }
    is_normal(clause)
}
