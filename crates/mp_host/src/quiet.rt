ghost use Rattle.std.specs.Prelude.{◌≡◌, ◌≢◌, ℕ, ◌<◌, ◌≤◌, List, [], Some, None, true, false, length, take, unwrap_or, IfOk, OnOk, OnErr};
ghost use Rattle.mp_host.specs.World.{World, before_told, emptied, last_count, sent};

use crate::files::Files;
use crate::host::{Failed, Host, Port};
use mp_logic::NoMemory;
use std::alloc::Global;

/// A host in memory that never fails and whose calls take no memory. It tells its files and the rest of its input, and
/// neither the bytes of a port, of which it keeps none, nor the names that it was asked for. A name that it doesn't
/// hold is that of an empty file.
#[derive(Drop)]
pub struct QuietDesk {
    alloc: Global,
    files: Files,
    is_open: bool,
    has_map: bool,
    chunk: usize,
    ghost moves: { 0 < chunk },
}

impl QuietDesk {
    ghost use Rattle.mp_host.specs.Quiet.{chunk_of, world_of};

    /// A desk on which each file is empty, which bounds no call.
    pub fn new(alloc: Global) -> Self
        ensures files { (name : List ℕ) → (world_of result).file name ≡ Some [] }
        ensures rest { (world_of result).rest ≡ Some [] }
        ensures out { (world_of result).out ≡ None }
        ensures log { (world_of result).log ≡ None }
        ensures map { (world_of result).map ≡ None }
        ensures is_open { (world_of result).is_open ≡ false }
        ensures has_map { (world_of result).has_map ≡ false }
        ensures chunk { chunk_of result ≡ last_count }
    {
        QuietDesk {
            alloc,
            files: Files::new(alloc),
            is_open: false,
            has_map: false,
            chunk: usize::MAX,
        }
    }

    /// Puts a file of this name on the desk, in the place of an earlier one.
    pub fn put_file(&mut self, name: &str, bytes: &[u8]) -> Result<(), NoMemory>
        ensures put { OnOk result ((world_of self.new).file name.now ≡ Some bytes.now) }
        ensures others { (other : List ℕ) → other ≢ name.now → (world_of self.new).file other ≡ (world_of self.old).file other }
        ensures err { OnErr result (world_of self.new ≡ world_of self.old) }
        ensures frame { world_of self.new ≡ record (world_of self.old) { file = (world_of self.new).file } }
        ensures chunk { chunk_of self.new ≡ chunk_of self.old }
    {
        self.files.put(self.alloc, name, bytes)
    }

    /// Bounds each read and each write to `n` bytes.
    pub fn chunk(&mut self, n: usize)
        requires { 0 < n }
        ensures chunk { chunk_of self.new ≡ n }
        ensures world { world_of self.new ≡ world_of self.old }
    {
        self.chunk = n;
    }
}

impl Host for QuietDesk {
    ghost use Rattle.mp_host.specs.Quiet.{chunk_of, world_of};

    ghost world = { world_of };

    ghost asked = { λ _. None };

    ghost read_faults = { λ _. 0 };

    ghost write_faults = { λ _. 0 };

    fn open_input(&mut self, name: &str) -> Result<(), Failed> {
        self.files.open(self.files.find(name));
        self.is_open = true;
        Ok(())
    }

    fn read(&mut self, buffer: &mut [u8]) -> Result<usize, Failed>
        requires room { 0 < length buffer.old }
        requires open { (world_of self.old).is_open ≡ true }
        ensures bound { IfOk result (λ n. n ≤ length buffer.new) }
        ensures bytes { IfOk result (λ n. (world_of self.old).rest ≡ before_told (take n buffer.new) (world_of self.new).rest) }
        ensures end { IfOk result (λ n. n ≡ 0 → (world_of self.new).rest ≡ emptied (world_of self.new).rest) }
        ensures frame { world_of self.new ≡ record (world_of self.old) { rest = (world_of self.new).rest } }
        ensures never { OnErr result ⊥ }
        ensures moves { IfOk result (λ n. n ≤ chunk_of self.old) }
        ensures chunk { chunk_of self.new ≡ chunk_of self.old }
    {
        Ok(self.files.read(buffer, self.chunk))
    }

    fn create_map(&mut self, _: &str) -> Result<(), Failed> {
        self.has_map = true;
        Ok(())
    }

    fn write(&mut self, port: Port, piece: &[u8]) -> Result<usize, Failed>
        requires piece { 0 < length piece.now }
        requires created { port ≡ Port.Map → (world_of self.old).has_map ≡ true }
        ensures some { IfOk result (λ n. 0 < n) }
        ensures bound { IfOk result (λ n. n ≤ length piece.now) }
        ensures ok { IfOk result (λ n. world_of self.new ≡ sent (world_of self.old) port (take n piece.now)) }
        ensures never { OnErr result ⊥ }
        ensures moves { IfOk result (λ n. n ≤ chunk_of self.old) }
        ensures chunk { chunk_of self.new ≡ chunk_of self.old }
    {
        Ok(piece.len().min(self.chunk))
    }
}
