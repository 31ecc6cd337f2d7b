ghost use Rattle.std.specs.Prelude.{◌≡◌, ◌++◌, IfOk, OnOk};
ghost use Rattle.mp_workload.specs.SummaryText.{size_text, sizes_text, summary_of};

use mp_logic::{NoMemory, Weight};
use mp_text::{Bytes, TextBuf};
use std::alloc::Global;

/// How much a state holds: its hard clauses, their literals, and its cost literals.
#[derive(Clone, Copy, Debug, PartialEq, Eq)]
pub struct Sizes {
    pub clauses: u64,
    pub literals: u64,
    pub costs: u64,
}

/// What a run on a workload came to: the number of tasks, what the state held before and after, and its offset after, in
/// the unit of the weights.
#[derive(Clone, Copy, Debug, PartialEq, Eq)]
pub struct Summary {
    pub tasks: u32,
    pub before: Sizes,
    pub after: Sizes,
    pub offset: Weight,
}

/// The summary text: the lines `c workload N`, `c before A B C`, `c after A B C` and `c offset K`, and then the last line of
/// the log, which comes with its line end.
pub fn summary_text(alloc: Global, summary: Summary, last: &[u8]) -> Result<Bytes, NoMemory>
    ensures { IfOk result (λ made. made ≡ summary_of summary last.now) }
{
    let mut text = TextBuf::new(alloc);
    text.word(b"c workload")?;
    write_size(&mut text, u128::from(summary.tasks))?;
    text.word(b"\n")?;
    text.word(b"c before")?;
    write_sizes(&mut text, summary.before)?;
    text.word(b"c after")?;
    write_sizes(&mut text, summary.after)?;
    text.word(b"c offset")?;
    write_size(&mut text, summary.offset)?;
    text.word(b"\n")?;
    text.word(last)?;
    Ok(text.into_bytes())
}

fn write_sizes(text: &mut TextBuf, sizes: Sizes) -> Result<(), NoMemory>
    ensures { OnOk result (text.new ≡ text.old ++ sizes_text sizes) }
{
    write_size(text, u128::from(sizes.clauses))?;
    write_size(text, u128::from(sizes.literals))?;
    write_size(text, u128::from(sizes.costs))?;
    text.word(b"\n")
}

fn write_size(text: &mut TextBuf, size: u128) -> Result<(), NoMemory>
    ensures { OnOk result (text.new ≡ text.old ++ size_text size) }
{
    text.word(b" ")?;
    text.number(size)
}
