ghost use Rattle.std.specs.Prelude.{◌≡◌, ◌≢◌, ◌↔◌, ℕ, ◌+◌, ◌<◌, ◌≤◌, ◌++◌, ◌∷◌, List, [], Option, Some, None, true, false, IsTrue, Contains, length, min, take, OnOk, OnErr, IfOk, IfSome};
ghost use Rattle.mp_host.specs.World.{World, HasCause, Asked, before_told, emptied, last_count, mapped, opened, sent};

use crate::files::{Files, copy_of};
use crate::host::{Failed, Host, Port};
use mp_logic::{ListOf, NoMemory};
use mp_text::Bytes;
use std::alloc::Global;

// What one port holds, and how many bytes it takes in all.
#[derive(Drop)]
struct Pipe {
    bytes: Bytes,
    stop: u64,
}

impl Pipe {
    fn new(alloc: Global) -> Self
        ensures bytes { result.bytes ≡ [] }
        ensures stop { result.stop ≡ last_count }
    {
        Pipe {
            bytes: Bytes::new(alloc),
            stop: u64::MAX,
        }
    }

    // Puts the first bytes of a piece behind those that the pipe holds, no more than `chunk`.
    fn pour(&mut self, piece: &[u8], chunk: usize) -> Result<usize, Failed>
        requires piece { 0 < length piece.now }
        requires chunk { 0 < chunk }
        ensures some { IfOk result (λ n. 0 < n) }
        ensures bound { IfOk result (λ n. n ≤ length piece.now) }
        ensures chunk { IfOk result (λ n. n ≤ chunk) }
        ensures stop { IfOk result (λ _. length self.new.bytes ≤ self.old.stop) }
        ensures ok { IfOk result (λ n. self.new.bytes ≡ self.old.bytes ++ take n piece.now) }
        ensures failed { OnErr result (self.new.bytes ≡ self.old.bytes) }
        ensures same { self.new.stop ≡ self.old.stop }
    {
        let room = self.stop.saturating_sub(self.bytes.len() as u64);
        if room == 0 {
            return Err(Failed);
        }
        let mut count = piece.len().min(chunk);
        if room < count as u64 {
            count = room as usize;
        }
        match self.bytes.extend(&piece[..count]) {
            Ok(()) => Ok(count),
            Err(_) => Err(Failed),
        }
    }
}

// The names that were asked for, told until memory for one was wanting.
#[derive(Drop)]
struct Names {
    list: ListOf<Bytes>,
    told: bool,
}

impl Names {
    ghost use Rattle.mp_host.specs.Desk.{told_names};

    fn note(&mut self, alloc: Global, name: &str) -> Result<(), Failed>
        ensures { Asked (told_names self.old) (told_names self.new) (name.now ∷ []) }
    {
        if !self.told {
            return Ok(());
        }
        match keep(alloc, &mut self.list, name.as_bytes()) {
            Ok(()) => Ok(()),
            Err(_) => {
                self.told = false;
                Err(Failed)
            }
        }
    }
}

fn keep(alloc: Global, list: &mut ListOf<Bytes>, name: &[u8]) -> Result<(), NoMemory>
    ensures ok { OnOk result (list.new ≡ list.old ++ name.now ∷ []) }
{
    list.push(copy_of(alloc, name)?)
}

/// A host in memory, which tells all that a host can tell. It can be told to move few bytes at a time, to fail at a
/// given call and to stop taking bytes at a port.
#[derive(Drop)]
pub struct Desk {
    alloc: Global,
    files: Files,
    is_open: bool,
    has_map: bool,
    out: Pipe,
    log: Pipe,
    map: Pipe,
    names: Names,
    chunk: usize,
    calls: u64,
    failing: ListOf<u64>,
    read_faults: u64,
    write_faults: u64,
    ghost moves: { 0 < chunk },
}

impl Desk {
    ghost use Rattle.mp_host.specs.Desk.{asked_of, no_orders, orders_of, read_faults_of, stopped, world_of, write_faults_of};

    /// A desk without files, with empty ports, which bounds no call and fails none but those that it has to.
    pub fn new(alloc: Global) -> Self
        ensures files { (name : List ℕ) → (world_of result).file name ≡ None }
        ensures rest { (world_of result).rest ≡ Some [] }
        ensures out { (world_of result).out ≡ Some [] }
        ensures log { (world_of result).log ≡ Some [] }
        ensures map { (world_of result).map ≡ Some [] }
        ensures is_open { (world_of result).is_open ≡ false }
        ensures has_map { (world_of result).has_map ≡ false }
        ensures names { asked_of result ≡ Some [] }
        ensures read_faults { read_faults_of result ≡ 0 }
        ensures write_faults { write_faults_of result ≡ 0 }
        ensures orders { orders_of result ≡ no_orders }
    {
        Desk {
            alloc,
            files: Files::new(alloc),
            is_open: false,
            has_map: false,
            out: Pipe::new(alloc),
            log: Pipe::new(alloc),
            map: Pipe::new(alloc),
            names: Names {
                list: ListOf::new(alloc),
                told: true,
            },
            chunk: usize::MAX,
            calls: 0,
            failing: ListOf::new(alloc),
            read_faults: 0,
            write_faults: 0,
        }
    }

    /// Puts a file of this name on the desk, in the place of an earlier one.
    pub fn put_file(&mut self, name: &str, bytes: &[u8]) -> Result<(), NoMemory>
        ensures put { OnOk result ((world_of self.new).file name.now ≡ Some bytes.now) }
        ensures others { (other : List ℕ) → other ≢ name.now → (world_of self.new).file other ≡ (world_of self.old).file other }
        ensures err { OnErr result (world_of self.new ≡ world_of self.old) }
        ensures frame { world_of self.new ≡ record (world_of self.old) { file = (world_of self.new).file } }
        ensures names { asked_of self.new ≡ asked_of self.old }
        ensures read_faults { read_faults_of self.new ≡ read_faults_of self.old }
        ensures write_faults { write_faults_of self.new ≡ write_faults_of self.old }
        ensures orders { orders_of self.new ≡ orders_of self.old }
    {
        self.files.put(self.alloc, name, bytes)
    }

    /// Bounds each read and each write to `n` bytes.
    pub fn chunk(&mut self, n: usize)
        requires { 0 < n }
        ensures chunk { orders_of self.new ≡ record (orders_of self.old) { chunk = n } }
        ensures world { world_of self.new ≡ world_of self.old }
        ensures names { asked_of self.new ≡ asked_of self.old }
        ensures read_faults { read_faults_of self.new ≡ read_faults_of self.old }
        ensures write_faults { write_faults_of self.new ≡ write_faults_of self.old }
    {
        self.chunk = n;
    }

    /// Has the host call of this place fail, counted from 0 over all four methods.
    pub fn fail_call(&mut self, place: u64) -> Result<(), NoMemory>
        ensures failing { OnOk result (orders_of self.new ≡ record (orders_of self.old) { failing = (orders_of self.old).failing ++ place ∷ [] }) }
        ensures err { OnErr result (orders_of self.new ≡ orders_of self.old) }
        ensures world { world_of self.new ≡ world_of self.old }
        ensures names { asked_of self.new ≡ asked_of self.old }
        ensures read_faults { read_faults_of self.new ≡ read_faults_of self.old }
        ensures write_faults { write_faults_of self.new ≡ write_faults_of self.old }
    {
        self.failing.push(place)
    }

    /// Has a port take no more than `after` bytes in all, and refuse each write once it holds so many.
    pub fn stop_port(&mut self, port: Port, after: u64)
        ensures stop { orders_of self.new ≡ stopped (orders_of self.old) port after }
        ensures world { world_of self.new ≡ world_of self.old }
        ensures names { asked_of self.new ≡ asked_of self.old }
        ensures read_faults { read_faults_of self.new ≡ read_faults_of self.old }
        ensures write_faults { write_faults_of self.new ≡ write_faults_of self.old }
    {
        match port {
            Port::Out => self.out.stop = after,
            Port::Log => self.log.stop = after,
            Port::Map => self.map.stop = after,
        }
    }

    /// The bytes on Out.
    pub fn out(&self) -> &[u8]
        ensures { Some result.now ≡ (world_of self.now).out }
    {
        self.out.bytes.items()
    }

    /// The bytes on Log.
    pub fn log(&self) -> &[u8]
        ensures { Some result.now ≡ (world_of self.now).log }
    {
        self.log.bytes.items()
    }

    /// The bytes on Map.
    pub fn map(&self) -> &[u8]
        ensures { Some result.now ≡ (world_of self.now).map }
    {
        self.map.bytes.items()
    }
}

// Counts a host call, and says whether it is one of those that fail.
fn fails_now(calls: &mut u64, failing: &[u64]) -> bool
    ensures fails { IsTrue result ↔ Contains failing.now calls.old }
    ensures calls { calls.new ≡ min (calls.old + 1) last_count }
{
    let place = *calls;
    *calls = place.saturating_add(1);
    failing.contains(&place)
}

impl Host for Desk {
    ghost use Rattle.mp_host.specs.Desk.{FailsNow, asked_of, called, on_port, orders_of, read_faults_of, stop_of, world_of, write_faults_of};

    ghost world = { world_of };

    ghost asked = { asked_of };

    ghost read_faults = { read_faults_of };

    ghost write_faults = { write_faults_of };

    fn open_input(&mut self, name: &str) -> Result<(), Failed>
        ensures ok { OnOk result (world_of self.new ≡ opened (world_of self.old) name.now) }
        ensures failed { OnErr result (world_of self.new ≡ world_of self.old) }
        ensures names { Asked (asked_of self.old) (asked_of self.new) (name.now ∷ []) }
        ensures cause { HasCause (read_faults_of self.old) (read_faults_of self.new) result }
        ensures writes { write_faults_of self.new ≡ write_faults_of self.old }

        // What the desk was told: the calls at the given places fail.
        ensures told { OnOk result (FailsNow (orders_of self.old) → ⊥) }
        ensures called { orders_of self.new ≡ called (orders_of self.old) }
    {
        let failing = fails_now(&mut self.calls, self.failing.items());
        let noted = self.names.note(self.alloc, name).is_ok();
        if !failing && noted {
            if let Some(place) = self.files.find(name) {
                self.files.open(Some(place));
                self.is_open = true;
                return Ok(());
            }
        }
        self.read_faults = self.read_faults.saturating_add(1);
        Err(Failed)
    }

    fn read(&mut self, buffer: &mut [u8]) -> Result<usize, Failed>
        requires room { 0 < length buffer.old }
        requires open { (world_of self.old).is_open ≡ true }
        ensures bound { IfOk result (λ n. n ≤ length buffer.new) }
        ensures bytes { IfOk result (λ n. (world_of self.old).rest ≡ before_told (take n buffer.new) (world_of self.new).rest) }
        ensures end { IfOk result (λ n. n ≡ 0 → (world_of self.new).rest ≡ emptied (world_of self.new).rest) }
        ensures frame { OnOk result (world_of self.new ≡ record (world_of self.old) { rest = (world_of self.new).rest }) }
        ensures failed { OnErr result (world_of self.new ≡ world_of self.old) }
        ensures names { asked_of self.new ≡ asked_of self.old }
        ensures cause { HasCause (read_faults_of self.old) (read_faults_of self.new) result }
        ensures writes { write_faults_of self.new ≡ write_faults_of self.old }

        // What the desk was told: no more bytes than the chunk, and just the calls at the given places fail.
        ensures moves { IfOk result (λ n. n ≤ (orders_of self.old).chunk) }
        ensures told { OnOk result (FailsNow (orders_of self.old) → ⊥) }
        ensures fails { OnErr result (FailsNow (orders_of self.old)) }
        ensures called { orders_of self.new ≡ called (orders_of self.old) }
    {
        if fails_now(&mut self.calls, self.failing.items()) {
            self.read_faults = self.read_faults.saturating_add(1);
            return Err(Failed);
        }
        Ok(self.files.read(buffer, self.chunk))
    }

    fn create_map(&mut self, name: &str) -> Result<(), Failed>
        ensures ok { OnOk result (world_of self.new ≡ mapped (world_of self.old)) }
        ensures failed { OnErr result (world_of self.new ≡ world_of self.old) }
        ensures names { Asked (asked_of self.old) (asked_of self.new) (name.now ∷ []) }
        ensures cause { HasCause (write_faults_of self.old) (write_faults_of self.new) result }
        ensures reads { read_faults_of self.new ≡ read_faults_of self.old }

        // What the desk was told: the calls at the given places fail.
        ensures told { OnOk result (FailsNow (orders_of self.old) → ⊥) }
        ensures called { orders_of self.new ≡ called (orders_of self.old) }
    {
        let failing = fails_now(&mut self.calls, self.failing.items());
        let noted = self.names.note(self.alloc, name).is_ok();
        if failing || !noted {
            self.write_faults = self.write_faults.saturating_add(1);
            return Err(Failed);
        }
        self.map.bytes.cut(0);
        self.has_map = true;
        Ok(())
    }

    fn write(&mut self, port: Port, piece: &[u8]) -> Result<usize, Failed>
        requires piece { 0 < length piece.now }
        requires created { port ≡ Port.Map → (world_of self.old).has_map ≡ true }
        ensures some { IfOk result (λ n. 0 < n) }
        ensures bound { IfOk result (λ n. n ≤ length piece.now) }
        ensures ok { IfOk result (λ n. world_of self.new ≡ sent (world_of self.old) port (take n piece.now)) }
        ensures failed { OnErr result (world_of self.new ≡ world_of self.old) }
        ensures names { asked_of self.new ≡ asked_of self.old }
        ensures cause { HasCause (write_faults_of self.old) (write_faults_of self.new) result }
        ensures reads { read_faults_of self.new ≡ read_faults_of self.old }

        // What the desk was told: no more bytes than the chunk, none past the stop, and the calls at the given places fail.
        ensures moves { IfOk result (λ n. n ≤ (orders_of self.old).chunk) }
        ensures stops { OnOk result (IfSome (on_port (world_of self.new) port) (λ held. length held ≤ stop_of (orders_of self.old) port)) }
        ensures told { OnOk result (FailsNow (orders_of self.old) → ⊥) }
        ensures called { orders_of self.new ≡ called (orders_of self.old) }
    {
        if !fails_now(&mut self.calls, self.failing.items()) {
            let poured = match port {
                Port::Out => self.out.pour(piece, self.chunk),
                Port::Log => self.log.pour(piece, self.chunk),
                Port::Map => self.map.pour(piece, self.chunk),
            };
            if let Ok(count) = poured {
                return Ok(count);
            }
        }
        self.write_faults = self.write_faults.saturating_add(1);
        Err(Failed)
    }
}
