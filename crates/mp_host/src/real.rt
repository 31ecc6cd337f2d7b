ghost use Rattle.std.specs.Prelude.{◌≡◌, ◌≤◌, None, is_some, IfOk, length};
ghost use Rattle.mp_host.specs.Real.{is_input, read_faults_of, world_of, write_faults_of};
ghost use Rattle.mp_host.specs.World.{World, HasCause};

use crate::host::{Failed, Host, Port};
use std::fs::File;
use std::io::{Read, Write};
use std::{fs, io};

// Where the input comes from.
#[derive(Drop)]
enum Input {
    Closed,
    Standard,
    File(File),
}

/// Real files, standard output and standard error. It tells nothing of bytes.
#[derive(Drop)]
pub struct RealHost {
    rt: HostRuntime,
    input: Input,
    map: Option<File>,
    read_faults: u64,
    write_faults: u64,
}

impl RealHost {
    pub fn new(rt: HostRuntime) -> Self {
        RealHost {
            rt,
            input: Input::Closed,
            map: None,
            read_faults: 0,
            write_faults: 0,
        }
    }
}

impl Host for RealHost {
    ghost world = { world_of };

    ghost asked = { λ _. None };

    ghost read_faults = { read_faults_of };

    ghost write_faults = { write_faults_of };

    fn open_input(&mut self, name: &str) -> Result<(), Failed> {
        // Standard input by its own handle: its path can't be opened by another user.
        if name == "/dev/stdin" {
            self.input = Input::Standard;
            return Ok(());
        }
        match fs::open(&self.rt, name) {
            Ok(file) => {
                self.input = Input::File(file);
                Ok(())
            }
            Err(_) => {
                self.read_faults = self.read_faults.saturating_add(1);
                Err(Failed)
            }
        }
    }

    fn read(&mut self, buffer: &mut [u8]) -> Result<usize, Failed> {
        match read_input(&self.rt, &mut self.input, buffer) {
            Ok(count) => Ok(count),
            Err(_) => {
                self.read_faults = self.read_faults.saturating_add(1);
                Err(Failed)
            }
        }
    }

    fn create_map(&mut self, name: &str) -> Result<(), Failed> {
        match fs::create(&self.rt, name) {
            Ok(file) => {
                self.map = Some(file);
                Ok(())
            }
            Err(_) => {
                self.write_faults = self.write_faults.saturating_add(1);
                Err(Failed)
            }
        }
    }

    fn write(&mut self, port: Port, piece: &[u8]) -> Result<usize, Failed> {
        let sent = match port {
            Port::Out => self.rt.stdout().write_some(piece),
            Port::Log => self.rt.stderr().write_some(piece),
            Port::Map => write_file(&mut self.map, piece),
        };
        match sent {
            Ok(count) if count > 0 => Ok(count),
            _ => {
                self.write_faults = self.write_faults.saturating_add(1);
                Err(Failed)
            }
        }
    }
}

fn read_input(rt: &HostRuntime, input: &mut Input, buffer: &mut [u8]) -> io::Result<usize>
    ensures bound { IfOk result (λ n. n ≤ length buffer.new) }
    ensures mark { is_input input.new ≡ is_input input.old }
{
    match input {
        Input::File(file) => file.read(buffer),
        Input::Standard => rt.stdin().read(buffer),
        Input::Closed => Ok(0),
    }
}

fn write_file(file: &mut Option<File>, piece: &[u8]) -> io::Result<usize>
    ensures bound { IfOk result (λ n. n ≤ length piece.now) }
    ensures mark { is_some file.new ≡ is_some file.old }
{
    match file {
        Some(file) => file.write(piece),
        None => Ok(0),
    }
}
