//! What each command does.
ghost use Rattle.yardstick.specs.Commands.{IsSmall};
ghost use Rattle.std.specs.Prelude.{◌≤◌};

use crate::command::Command;
use crate::copying::copied;
use crate::draws::Order;
use crate::maps::drawn_map;
use crate::rewriting::rewritten;
use crate::sizes::sizes_of;
use mp_host::{Port, RealHost, read_all, write_all};
use mp_logic::{Limits, NoMemory};
use mp_map::{read_map, write_map};
use mp_text::Bytes;
use mp_wcnf::read;
use thiserror::Error;

/// Why a command was not carried out.
#[derive(Clone, Copy, Debug, Error)]
pub enum Trouble {
    #[error("the file can't be read")]
    File,
    #[error("the text is not of this kind, or memory was refused")]
    Text,
    #[error("out of memory")]
    Memory,
    #[error("the output can't be written")]
    Output,
}

impl From<NoMemory> for Trouble {
    fn from(_: NoMemory) -> Trouble {
        Trouble::Memory
    }
}

/// Carries a command out.
pub fn run(rt: HostRuntime, command: Command<'_>) -> Result<(), Trouble>
    requires { IsSmall command }
{
    match command {
        Command::Read(name) => read_instance(rt, name),
        Command::Store { order, clauses } => rewrite(rt, order, clauses, 0),
        Command::Rewrites { order, clauses } => rewrite(rt, order, clauses, clauses),
        Command::MapWrite(many) => print_map(rt, many),
        Command::MapRead(name) => count_repairs(rt, name),
        Command::MapCopy(name) => copy_tokens(rt, name),
    }
}

/// The bytes of a file.
fn bytes_of(rt: HostRuntime, name: &str) -> Result<Bytes, Trouble> {
    let mut host = RealHost::new(rt);
    read_all(rt.alloc(), &mut host, name, 4_294_967_295).map_err(|_| Trouble::File)
}

fn read_instance(rt: HostRuntime, name: &str) -> Result<(), Trouble> {
    let bytes = bytes_of(rt, name)?;
    let Ok(instance) = read(rt.alloc(), bytes.items(), &Limits::program()) else {
        return Err(Trouble::Text);
    };
    let sizes = sizes_of(&instance);
    println!(rt;
        "variables {} hard {} soft {} literals {}",
        sizes.vars, sizes.hard, sizes.soft, sizes.literals
    )
    .map_err(|_| Trouble::Output)
}

fn rewrite(rt: HostRuntime, order: Order, clauses: u32, turns: u32) -> Result<(), Trouble>
    requires few { clauses ≤ 30000000 }
    requires turns { turns ≤ clauses }
{
    let tally = rewritten(rt.alloc(), order, clauses, turns)?;
    println!(rt;
        "begun {} applied {} clauses {} literals {}",
        clauses, tally.applied, tally.clauses, tally.literals
    )
    .map_err(|_| Trouble::Output)
}

fn print_map(rt: HostRuntime, many: u32) -> Result<(), Trouble>
    requires { many ≤ 30000000 }
{
    let map = drawn_map(rt.alloc(), many)?;
    let text = write_map(rt.alloc(), &map)?;
    let mut host = RealHost::new(rt);
    write_all(&mut host, Port::Out, text.items()).map_err(|_| Trouble::Output)
}

fn count_repairs(rt: HostRuntime, name: &str) -> Result<(), Trouble> {
    let bytes = bytes_of(rt, name)?;
    let Ok(map) = read_map(rt.alloc(), bytes.items()) else {
        return Err(Trouble::Text);
    };
    println!(rt; "repairs {}", map.repairs.len()).map_err(|_| Trouble::Output)
}

fn copy_tokens(rt: HostRuntime, name: &str) -> Result<(), Trouble> {
    let bytes = bytes_of(rt, name)?;
    let copy = copied(rt.alloc(), bytes.items())?;
    println!(rt; "bytes {}", copy.bytes().len()).map_err(|_| Trouble::Output)
}
