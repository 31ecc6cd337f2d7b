ghost use Rattle.std.specs.Prelude.{◌≡◌, ◌≤◌, OnOk, IfOk, IfSome};
ghost use Rattle.mp_script.specs.Grammar.{greatest_budget};
ghost use Rattle.mp_script.specs.Reading.{letter_of, with_stage, closed, settled, marked, begun, more, budgeted, repeated, step, ended, fresh, in_number, then_read, Takes};
ghost use Rattle.mp_script.specs.declared.reader.Last.TheVariants as last;

use crate::scripts::{Group, Letter, Rounds, Script, Stage, Stages};
use mp_logic::{ListOf, NoMemory};
use std::alloc::Global;
use std::mem;

/// The greatest budget of a technique that works by turns.
const TURNS: u64 = 1_000_000_000_000_000_000;

/// The greatest budget of a technique that asks a solver.
const CONFLICTS: u64 = 1_000_000;

/// The greatest number of rounds of a loop.
const ROUNDS: u64 = 1_000_000;

/// What the text so far ends in: nothing to which a number could belong, a letter, or a loop. A number that has begun
/// stands with its value so far, none before its first digit.
#[derive(Clone, Copy, Debug, PartialEq, Eq)]
pub enum Last {
    Whole,
    Stage(Letter),
    Budget(Letter, Option<u64>),
    Loop,
    Rounds(Option<u32>),
}

/// A script of which part is read: its whole groups, the stages of a loop that is open, and what stands last.
#[derive(Debug, Drop)]
pub struct Reader {
    pub groups: Script,
    pub stages: Stages,
    pub inside: bool,
    pub last: Last,
}

/// The technique of a letter.
fn letter(byte: u8) -> Option<Letter>
    ensures { result ≡ letter_of byte }
{
    match byte {
        b'u' => Some(Letter::U),
        b'f' => Some(Letter::F),
        b'p' => Some(Letter::P),
        b'b' => Some(Letter::B),
        b's' => Some(Letter::S),
        b'r' => Some(Letter::R),
        b'v' => Some(Letter::V),
        b'e' => Some(Letter::E),
        b'l' => Some(Letter::L),
        b'g' => Some(Letter::Gr),
        b'm' => Some(Letter::M),
        b'c' => Some(Letter::C),
        b'G' => Some(Letter::Amo),
        b'T' => Some(Letter::T),
        b'K' => Some(Letter::K),
        b'H' => Some(Letter::H),
        _ => None,
    }
}

/// The greatest budget of a letter.
fn greatest(letter: Letter) -> u64
    ensures { result ≡ greatest_budget letter }
{
    match letter {
        Letter::T | Letter::K | Letter::H => CONFLICTS,
        _ => TURNS,
    }
}

/// The number so far with one more digit, where it is at most `max`.
fn with_digit(value: Option<u64>, byte: u8, max: u64) -> Option<u64>
    ensures value { result ≡ more max value byte }
    ensures within { IfSome result (λ n. n ≤ max) }
{
    if !byte.is_ascii_digit() {
        return None;
    }
    let sum = value
        .unwrap_or(0)
        .checked_mul(10)?
        .checked_add(u64::from(byte - b'0'))?;
    if sum <= max { Some(sum) } else { None }
}

impl Reader {
    pub fn new(alloc: Global) -> Reader
        ensures { result ≡ fresh }
    {
        Reader {
            groups: ListOf::new(alloc),
            stages: ListOf::new(alloc),
            inside: false,
            last: Last::Whole,
        }
    }

    /// With a stage put last: in the open loop, or as a group of its own.
    fn put(&mut self, alloc: Global, stage: Stage) -> Result<(), NoMemory>
        ensures { OnOk result (self.new ≡ with_stage stage self.old) }
    {
        if self.inside {
            self.stages.push(stage)?;
        } else {
            let mut stages = ListOf::new(alloc);
            stages.push(stage)?;
            self.groups.push(Group {
                stages,
                rounds: Rounds::Once,
            })?;
        }
        self.last = Last::Whole;
        Ok(())
    }

    /// With the open loop put last as a group.
    fn close(&mut self, alloc: Global, rounds: Rounds) -> Result<(), NoMemory>
        ensures { OnOk result (self.new ≡ closed rounds self.old) }
    {
        let stages = mem::replace(&mut self.stages, ListOf::new(alloc));
        self.groups.push(Group { stages, rounds })?;
        self.inside = false;
        self.last = Last::Whole;
        Ok(())
    }

    /// The letter or loop that stands last has no number behind it.
    fn settle(&mut self, alloc: Global) -> Result<(), NoMemory>
        ensures { OnOk result (self.new ≡ settled self.old) }
    {
        match self.last {
            Last::Stage(letter) => self.put(
                alloc,
                Stage {
                    letter,
                    budget: None,
                },
            ),
            Last::Loop => self.close(alloc, Rounds::Settle),
            _ => Ok(()),
        }
    }

    /// A bracket, or the sign between groups.
    fn mark(&mut self, alloc: Global, byte: u8) -> bool
        ensures { Takes (marked self.old byte) result self.new }
    {
        if self.inside {
            if byte != b']' || self.stages.len() == 0 {
                return false;
            }
            self.last = Last::Loop;
            return true;
        }
        if byte == b'[' {
            self.stages = ListOf::new(alloc);
            self.inside = true;
            return true;
        }
        byte == b'#'
    }

    /// Whatever begins with the byte, and whether anything does.
    fn begin(&mut self, alloc: Global, byte: u8) -> bool
        ensures { Takes (begun self.old byte) result self.new }
    {
        let Some(letter) = letter(byte) else {
            return self.mark(alloc, byte);
        };
        self.last = Last::Stage(letter);
        true
    }

    /// Takes a byte within the braces of a budget.
    fn take_in_budget(
        &mut self,
        alloc: Global,
        letter: Letter,
        value: Option<u64>,
        byte: u8,
    ) -> Result<bool, NoMemory>
        requires { self.old.last ≡ last.Budget letter value }
        ensures { IfOk result (λ taken. Takes (step self.old byte) taken self.new) }
    {
        if byte == b'}' {
            if value.is_none() {
                return Ok(false);
            }
            self.put(
                alloc,
                Stage {
                    letter,
                    budget: value,
                },
            )?;
            return Ok(true);
        }
        let Some(sum) = with_digit(value, byte, greatest(letter)) else {
            return Ok(false);
        };
        self.last = Last::Budget(letter, Some(sum));
        Ok(true)
    }

    /// Takes a byte within the braces of a number of rounds.
    fn take_in_rounds(
        &mut self,
        alloc: Global,
        value: Option<u32>,
        byte: u8,
    ) -> Result<bool, NoMemory>
        requires { self.old.last ≡ last.Rounds value }
        ensures { IfOk result (λ taken. Takes (step self.old byte) taken self.new) }
    {
        if byte == b'}' {
            let Some(rounds) = value else {
                return Ok(false);
            };
            if rounds == 0 {
                return Ok(false);
            }
            self.close(alloc, Rounds::At(rounds))?;
            return Ok(true);
        }
        let Some(sum) = with_digit(value.map(u64::from), byte, ROUNDS) else {
            return Ok(false);
        };
        self.last = Last::Rounds(Some(sum as u32));
        Ok(true)
    }

    /// Takes the next byte, and answers whether the text so far begins a script.
    pub fn take(&mut self, alloc: Global, byte: u8) -> Result<bool, NoMemory>
        ensures { IfOk result (λ taken. Takes (step self.old byte) taken self.new) }
    {
        match self.last {
            Last::Budget(letter, value) => self.take_in_budget(alloc, letter, value, byte),
            Last::Rounds(value) => self.take_in_rounds(alloc, value, byte),
            Last::Stage(letter) if byte == b'{' => {
                self.last = Last::Budget(letter, None);
                Ok(true)
            }
            Last::Loop if byte == b'{' => {
                self.last = Last::Rounds(None);
                Ok(true)
            }
            _ => {
                self.settle(alloc)?;
                Ok(self.begin(alloc, byte))
            }
        }
    }

    /// Whether a brace is open.
    fn is_in_number(&self) -> bool
        ensures { result ≡ in_number self.now.last }
    {
        matches!(self.last, Last::Budget(_, _) | Last::Rounds(_))
    }

    /// The script, where the text may end here.
    pub fn finish(mut self, alloc: Global) -> Result<Option<Script>, NoMemory>
        ensures { IfOk result (λ script. script ≡ ended self) }
    {
        if self.is_in_number() {
            return Ok(None);
        }
        self.settle(alloc)?;
        let Reader { groups, inside, .. } = self;
        if inside {
            return Ok(None);
        }
        Ok(Some(groups))
    }
}
