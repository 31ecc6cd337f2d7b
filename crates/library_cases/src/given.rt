//! The calls of the libraries below the store: texts, logic, instances, label views, maps and solutions.
ghost use Rattle.std.specs.Prelude.{◌<◌, IfOk};
ghost use Rattle.mp_logic.specs.Truth.{weights_of};
ghost use Rattle.mp_logic.specs.Weights.{weight_bound};

use crate::calls::Calls;
use crate::formats::{put_label_view, put_map, put_read, put_solution, put_upgraded};
use crate::logic::{
    put_cost, put_first_false, put_held, put_normalised, put_order, put_satisfied, repair,
};
use crate::page::Page;
use crate::texts::{put_literal, put_natural, put_numbers, put_tokens};
use crate::words::{parts, small, values};
use case_text::{Trouble, unescaped};
use mp_logic::{Assignment, Instance, Limits, WEIGHT_LIMIT};
use mp_text::Bytes;
use mp_wcnf::{ReadError, read};
use std::alloc::Global;

/// A text, the limits that it is read and labelled with, and values.
#[derive(Drop)]
pub struct Given {
    pub text: Bytes,
    pub limits: Limits,
    pub values: Assignment,
}

impl Calls for Given {
    fn begin(alloc: Global) -> Given {
        Given {
            text: Bytes::new(alloc),
            limits: Limits::program(),
            values: Assignment::new(alloc),
        }
    }

    fn call(
        &mut self,
        alloc: Global,
        name: &str,
        text: &str,
        page: &mut Page,
    ) -> Result<(), Trouble> {
        match name {
            "text" => self.set_text(alloc, text),
            "values" => {
                self.values = values(alloc, text)?;
                Ok(())
            }
            "limit" => self.limit(text),
            "satisfied" => put_satisfied(alloc, self, text, page),
            "holds" => put_held(self, text, page),
            "first-false" => put_first_false(alloc, self, page),
            "cost" => put_cost(alloc, self, page),
            "repair" => repair(alloc, &mut self.values, text, page),
            "read" => put_read(alloc, self, text, page),
            "label" => put_label_view(alloc, self, page),
            _ => call_plain(alloc, name, text, page),
        }
    }
}

// The calls that need nothing but their line.
fn call_plain(alloc: Global, name: &str, text: &str, page: &mut Page) -> Result<(), Trouble> {
    match name {
        "tokens" => put_tokens(alloc, text, true, page),
        "all-tokens" => put_tokens(alloc, text, false, page),
        "natural" => put_natural(text, page),
        "literal" => put_literal(text, page),
        "numbers" => put_numbers(text, page),
        "compare" => put_order(alloc, text, page),
        "normalise" => put_normalised(alloc, text, page),
        "map" => put_map(alloc, text, page),
        "upgrade" => put_upgraded(alloc, text, page),
        "solution" => put_solution(alloc, text, page),
        _ => Err(Trouble::Line),
    }
}

impl Given {
    /// `text TEXT`, with escapes.
    pub fn set_text(&mut self, alloc: Global, text: &str) -> Result<(), Trouble> {
        self.text = unescaped(alloc, text)?;
        Ok(())
    }

    /// `limit clauses|literals|weight|inner N`
    pub fn limit(&mut self, text: &str) -> Result<(), Trouble> {
        let (name, most) = parts(text, ' ')?;
        let most = small(most)?;
        match name {
            "clauses" => self.limits.clauses = u64::from(most),
            "literals" => self.limits.literals = u64::from(most),
            "weight" => self.limits.weight = u128::from(most),
            "inner" => self.limits.inner = most,
            _ => return Err(Trouble::Line),
        }
        Ok(())
    }

    /// What the text reads as. The limit of weights is no greater than that of the program.
    pub fn read(&self, alloc: Global) -> Result<Instance, ReadError>
        ensures { IfOk result (λ f. weights_of f.soft < weight_bound) }
    {
        let mut limits = self.limits;
        limits.weight = limits.weight.min(WEIGHT_LIMIT);
        read(alloc, self.text.items(), &limits)
    }

    /// The instance of the text; a text that has none is a fault of the case.
    pub fn instance(&self, alloc: Global) -> Result<Instance, Trouble>
        ensures { IfOk result (λ f. weights_of f.soft < weight_bound) }
    {
        match self.read(alloc) {
            Ok(instance) => Ok(instance),
            Err(_) => Err(Trouble::Line),
        }
    }
}
