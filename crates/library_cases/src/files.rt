//! Files that are read and texts that are written whole, over a desk.
ghost use Rattle.std.specs.Prelude.{◌≡◌, true, IsTrue};
ghost use Rattle.mp_host.specs.declared.host.Port.{Port};

use crate::calls::Calls;
use crate::page::Page;
use crate::words::parts;
use case_text::{Desks, Trouble, number, port_named, unescaped};
use mp_host::{Host, Port, read_all, write_all};
use std::alloc::Global;

impl Calls for Desks {
    fn begin(alloc: Global) -> Desks {
        Desks::new(alloc)
    }

    fn call(
        &mut self,
        alloc: Global,
        name: &str,
        text: &str,
        page: &mut Page,
    ) -> Result<(), Trouble> {
        match name {
            "new-desk" => {
                *self = Desks::new(alloc);
                Ok(())
            }
            "ports" => Ok(self.put_ports(&mut page.text)?),
            "read-all" | "write-all" => call_desk(alloc, self, name, text, page),
            _ => self.take(alloc, name, text),
        }
    }
}

// Over the desk that is asked for.
fn call_desk(
    alloc: Global,
    desks: &mut Desks,
    name: &str,
    text: &str,
    page: &mut Page,
) -> Result<(), Trouble> {
    if desks.is_quiet {
        return call_over(alloc, &mut desks.quiet, name, text, page);
    }
    call_over(alloc, &mut desks.telling, name, text, page)
}

fn call_over<H: Host>(
    alloc: Global,
    host: &mut H,
    name: &str,
    text: &str,
    page: &mut Page,
) -> Result<(), Trouble> {
    if name == "read-all" {
        return put_file(alloc, host, text, page);
    }
    write_file(alloc, host, text, page)
}

// `read-all NAME LIMIT`: what is read, or why it is not.
fn put_file<H: Host>(
    alloc: Global,
    host: &mut H,
    given: &str,
    page: &mut Page,
) -> Result<(), Trouble> {
    let (name, limit) = parts(given, ' ')?;
    match read_all(alloc, host, name, number(limit)?) {
        Ok(bytes) => {
            page.escaped("read ", bytes.items());
            page.word("\n");
            Ok(())
        }
        Err(error) => page.refusal(alloc, &error),
    }
}

// `write-all out|log|map TEXT`: `written`, or why it is not. A map is created before.
fn write_file<H: Host>(
    alloc: Global,
    host: &mut H,
    given: &str,
    page: &mut Page,
) -> Result<(), Trouble> {
    let (name, text) = parts(given, ' ')?;
    let port = port_named(name)?;
    let bytes = unescaped(alloc, text)?;
    if !is_ready(host, port) {
        return Err(Trouble::Line);
    }
    match write_all(host, port, bytes.items()) {
        Ok(()) => {
            page.word("written\n");
            Ok(())
        }
        Err(fault) => page.refusal(alloc, &fault),
    }
}

// Creates the map, where the port is that of the map, and says whether the port can be written.
fn is_ready<H: Host>(host: &mut H, port: Port) -> bool
    ensures { IsTrue result → port ≡ Port.Map → (H.world host.new).has_map ≡ true }
{
    match port {
        Port::Map => host.create_map("M").is_ok(),
        Port::Out | Port::Log => true,
    }
}
