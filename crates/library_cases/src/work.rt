//! A queue of work, and a budget of turns.

use crate::calls::Calls;
use crate::page::Page;
use case_text::{Trouble, number};
use mp_store::{WorkQueue, spend};
use std::alloc::Global;

/// A queue, and the turns that a budget leaves; none where there is no budget.
#[derive(Drop)]
pub struct Work {
    queue: WorkQueue,
    left: Option<u64>,
}

impl Calls for Work {
    fn begin(alloc: Global) -> Work {
        Work {
            queue: WorkQueue::new(alloc),
            left: None,
        }
    }

    fn call(&mut self, _: Global, name: &str, text: &str, page: &mut Page) -> Result<(), Trouble> {
        match name {
            "push" => Ok(self.queue.push(number(text)?)?),
            "pop" => put_item(self.queue.pop(), page),
            "clear" => {
                self.queue.clear();
                Ok(())
            }
            "budget" => {
                self.left = Some(number(text)?);
                Ok(())
            }
            "spend" => put_turn(spend(&mut self.left), page),
            _ => Err(Trouble::Line),
        }
    }
}

fn put_item(item: Option<u64>, page: &mut Page) -> Result<(), Trouble> {
    match item {
        Some(item) => page.numbered("item ", u128::from(item)),
        None => page.word("empty\n"),
    }
    Ok(())
}

fn put_turn(is_there: bool, page: &mut Page) -> Result<(), Trouble> {
    page.word(if is_there { "a turn\n" } else { "no turn\n" });
    Ok(())
}
