//! The log text of a run.
ghost use Rattle.std.specs.Prelude.{◌≡◌, ◌++◌, IfOk, OnOk};
ghost use Rattle.mp_script.specs.Grammar.{letter_byte};
ghost use Rattle.mp_engine.specs.LogText.{bound_text, close_text, count_text, ending_word, line_text, log_of};

use crate::done::{Close, Done, StageEnding, StageLine};
use mp_logic::NoMemory;
use mp_script::Letter;
use mp_text::{Bytes, TextBuf};
use std::alloc::Global;

/// The log text of a run: for each stage `c stage X E A B C`, with its letter, how it ended, and the clauses, their literals and
/// the cost literals that it left; behind a bound `c bound N`; and last how the run closed.
pub fn log_text(alloc: Global, done: &Done) -> Result<Bytes, NoMemory>
    ensures { IfOk result (λ made. made ≡ log_of done.now.stages done.now.close) }
{
    let mut text = TextBuf::new(alloc);
    for line in done.stages.items() {
        write_line(&mut text, *line)?;
    }
    text.word(close(done.close))?;
    Ok(text.into_bytes())
}

fn write_line(text: &mut TextBuf, line: StageLine) -> Result<(), NoMemory>
    ensures { OnOk result (text.new ≡ text.old ++ line_text line) }
{
    text.word(b"c stage ")?;
    text.word(&[letter(line.letter)])?;
    text.word(b" ")?;
    text.word(ending(line.ending))?;
    write_count(text, line.counts.clauses)?;
    write_count(text, line.counts.literals)?;
    write_count(text, line.counts.costs)?;
    text.word(b"\n")?;
    write_bound(text, line.ending)
}

fn write_count(text: &mut TextBuf, count: u64) -> Result<(), NoMemory>
    ensures { OnOk result (text.new ≡ text.old ++ count_text count) }
{
    text.word(b" ")?;
    text.number(u128::from(count))
}

fn write_bound(text: &mut TextBuf, ending: StageEnding) -> Result<(), NoMemory>
    ensures { OnOk result (text.new ≡ text.old ++ bound_text ending) }
{
    let StageEnding::Bound(bound) = ending else {
        return Ok(());
    };
    text.word(b"c bound ")?;
    text.number(bound)?;
    text.word(b"\n")
}

/// The byte that stands for a letter in a script.
fn letter(letter: Letter) -> u8
    ensures { result ≡ letter_byte letter }
{
    match letter {
        Letter::U => b'u',
        Letter::F => b'f',
        Letter::P => b'p',
        Letter::B => b'b',
        Letter::S => b's',
        Letter::R => b'r',
        Letter::V => b'v',
        Letter::E => b'e',
        Letter::L => b'l',
        Letter::Gr => b'g',
        Letter::M => b'm',
        Letter::C => b'c',
        Letter::Amo => b'G',
        Letter::T => b'T',
        Letter::K => b'K',
        Letter::H => b'H',
    }
}

fn ending(ending: StageEnding) -> &'static [u8]
    ensures { result.now ≡ ending_word ending }
{
    match ending {
        StageEnding::Finished => b"finished",
        StageEnding::Spent => b"spent",
        StageEnding::NoRoom => b"noroom",
        StageEnding::Bound(_) => b"bound",
    }
}

fn close(close: Close) -> &'static [u8]
    ensures { result.now ≡ close_text close }
{
    match close {
        Close::Settled => b"c settled\n",
        Close::Unsettled => b"c unsettled\n",
        Close::Single => b"c single\n",
        Close::Refuted => b"c refuted\n",
    }
}
