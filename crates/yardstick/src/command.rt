//! The words of the command line.
ghost use Rattle.std.specs.Prelude.{◌≤◌, IfSome};
ghost use Rattle.yardstick.specs.Commands.{IsSmall};

use crate::draws::Order;

/// The greatest number of clauses and repairs that are drawn.
const MOST: u32 = 30_000_000;

/// What is to be measured.
#[derive(Clone, Copy, Debug)]
pub enum Command<'a> {
    Read(&'a str),
    Store { order: Order, clauses: u32 },
    Rewrites { order: Order, clauses: u32 },
    MapWrite(u32),
    MapRead(&'a str),
    MapCopy(&'a str),
}

/// The command of two words; its numbers are small enough for drawing.
pub fn command_of<'a>(mode: &str, word: &'a str) -> Option<Command<'a>>
    ensures { IfSome result IsSmall }
{
    match mode {
        "read" => Some(Command::Read(word)),
        "store-near" => Some(Command::Store {
            order: Order::Near,
            clauses: number_of(word)?,
        }),
        "store-far" => Some(Command::Store {
            order: Order::Far,
            clauses: number_of(word)?,
        }),
        "rewrites-near" => Some(Command::Rewrites {
            order: Order::Near,
            clauses: number_of(word)?,
        }),
        "rewrites-far" => Some(Command::Rewrites {
            order: Order::Far,
            clauses: number_of(word)?,
        }),
        "map-write" => Some(Command::MapWrite(number_of(word)?)),
        "map-read" => Some(Command::MapRead(word)),
        "map-copy" => Some(Command::MapCopy(word)),
        _ => None,
    }
}

/// A number that is small enough for drawing.
fn number_of(word: &str) -> Option<u32>
    ensures { IfSome result (λ n. n ≤ 30000000) }
{
    let n = word.parse::<u32>().ok()?;
    if n <= MOST { Some(n) } else { None }
}
