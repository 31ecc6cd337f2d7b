use crate::escapes::{put_escaped, unescaped};
use crate::trouble::{Trouble, number};
use mp_host::{Desk, Port, QuietDesk};
use mp_logic::NoMemory;
use mp_text::TextBuf;
use std::alloc::Global;

/// Two desks with the same files; a case asks for one of them.
#[derive(Drop)]
pub struct Desks {
    pub telling: Desk,
    pub quiet: QuietDesk,
    pub is_quiet: bool,
}

impl Desks {
    /// Desks without files, of which the telling one is asked for.
    pub fn new(alloc: Global) -> Desks {
        Desks {
            telling: Desk::new(alloc),
            quiet: QuietDesk::new(alloc),
            is_quiet: false,
        }
    }

    /// Takes what a line gives under its key: `file NAME BYTES` (with escapes), `chunk N` (bytes that one host call moves),
    /// `fail N` (the host call of that place, from 0, fails), `stop out|log|map N` (the port takes N bytes) and `quiet` (the
    /// desk that tells nothing of its ports is asked for). Only the telling desk fails and stops.
    pub fn take(&mut self, alloc: Global, key: &str, given: &str) -> Result<(), Trouble> {
        match key {
            "file" => self.put_file(alloc, given)?,
            "chunk" => self.set_chunk(number(given)?)?,
            "fail" => self.telling.fail_call(number(given)?)?,
            "stop" => self.stop_port(given)?,
            "quiet" => self.is_quiet = true,
            _ => return Err(Trouble::Line),
        }
        Ok(())
    }

    fn put_file(&mut self, alloc: Global, given: &str) -> Result<(), Trouble> {
        let (name, text) = given.split_once(' ').unwrap_or((given, ""));
        let bytes = unescaped(alloc, text)?;
        self.telling.put_file(name, bytes.items())?;
        self.quiet.put_file(name, bytes.items())?;
        Ok(())
    }

    fn set_chunk(&mut self, chunk: u64) -> Result<(), Trouble> {
        let chunk = usize::try_from(chunk).map_err(|_| Trouble::Line)?;
        if chunk == 0 {
            return Err(Trouble::Line);
        }
        self.telling.chunk(chunk);
        self.quiet.chunk(chunk);
        Ok(())
    }

    fn stop_port(&mut self, given: &str) -> Result<(), Trouble> {
        let (name, after) = given.split_once(' ').ok_or(Trouble::Line)?;
        self.telling.stop_port(port_named(name)?, number(after)?);
        Ok(())
    }

    /// Prints what the ports of the telling desk hold, those that hold anything.
    pub fn put_ports(&self, printed: &mut TextBuf) -> Result<(), NoMemory> {
        put_port(printed, b"map ", self.telling.map())?;
        put_port(printed, b"out ", self.telling.out())?;
        put_port(printed, b"log ", self.telling.log())
    }
}

/// The port of a name: `out`, `log` or `map`.
pub fn port_named(name: &str) -> Result<Port, Trouble> {
    match name {
        "out" => Ok(Port::Out),
        "log" => Ok(Port::Log),
        "map" => Ok(Port::Map),
        _ => Err(Trouble::Line),
    }
}

fn put_port(printed: &mut TextBuf, name: &[u8], bytes: &[u8]) -> Result<(), NoMemory> {
    if bytes.is_empty() {
        return Ok(());
    }
    printed.word(name)?;
    put_escaped(printed, bytes)?;
    printed.word(b"\n")
}
