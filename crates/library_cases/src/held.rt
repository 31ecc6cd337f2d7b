//! The calls of a store.

use crate::calls::Calls;
use crate::draws::{put_digest, put_drawn_line};
use crate::given::Given;
use crate::page::Page;
use crate::probes::probe_line;
use crate::stores::{fix_line, handed_on, put_occurrences, put_signature, run_line, show};
use case_text::Trouble;
use mp_labels::label;
use mp_store::Store;
use std::alloc::Global;

/// A text with limits, and the store that was made of it.
#[derive(Drop)]
pub struct Held {
    given: Given,
    store: Option<Store>,
}

impl Calls for Held {
    fn begin(alloc: Global) -> Held {
        Held {
            given: Given::begin(alloc),
            store: None,
        }
    }

    fn call(
        &mut self,
        alloc: Global,
        name: &str,
        text: &str,
        page: &mut Page,
    ) -> Result<(), Trouble> {
        match name {
            "store" => self.make(alloc, page),
            "hand" => self.hand_on(alloc),
            "draw" => put_digest(alloc, text, page),
            "show-drawn" => put_drawn_line(alloc, text, page),
            "text" => self.given.set_text(alloc, text),
            "limit" => self.given.limit(text),
            _ => match &mut self.store {
                Some(store) => call_stored(alloc, store, name, text, page),
                None => Err(Trouble::Line),
            },
        }
    }
}

impl Held {
    // `store`: that of the text's label view, or why there is none.
    fn make(&mut self, alloc: Global, page: &mut Page) -> Result<(), Trouble> {
        match label(alloc, &self.given.instance(alloc)?, &self.given.limits) {
            Ok(labelled) => {
                self.store = Some(Store::new(alloc, &labelled, &self.given.limits)?);
                Ok(())
            }
            Err(error) => page.refusal(alloc, &error),
        }
    }

    // `hand`: the state of the store is handed on, and the store is that of the state.
    fn hand_on(&mut self, alloc: Global) -> Result<(), Trouble> {
        let store = self.store.take().ok_or(Trouble::Line)?;
        self.store = Some(handed_on(alloc, store)?);
        Ok(())
    }
}

fn call_stored(
    alloc: Global,
    store: &mut Store,
    name: &str,
    text: &str,
    page: &mut Page,
) -> Result<(), Trouble> {
    match name {
        "show" => {
            show(store, page);
            Ok(())
        }
        "occurrences" => {
            put_occurrences(store, page);
            Ok(())
        }
        "arena" => {
            page.numbered("arena ", store.arena().len() as u128);
            Ok(())
        }
        "signature" => put_signature(store, text, page),
        "fix" => fix_line(alloc, store, text),
        "technique" => run_line(alloc, store, text, page),
        "probe" => probe_line(alloc, store, text, page),
        _ => Err(Trouble::Line),
    }
}
