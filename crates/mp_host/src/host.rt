ghost use Rattle.std.specs.Prelude.{◌≡◌, ℕ, ◌<◌, ◌≤◌, List, [], ◌∷◌, Option, true, length, take, OnOk, OnErr, IfOk};
ghost use Rattle.mp_host.specs.World.{World, HasCause, Asked, opened, mapped, sent, before_told, emptied};

/// The three outputs.
#[derive(Clone, Copy, Debug, PartialEq, Eq)]
pub enum Port {
    Out,
    Log,
    Map,
}

/// A call that the outside refused.
#[derive(Clone, Copy, Debug, PartialEq, Eq)]
pub struct Failed;

/// The outside: files to read, three outputs, and faults.
///
/// A method that fails changes nothing but its count of faults, which rises (or stands at its last value), and the
/// names asked for. Every method may raise its count.
pub trait Host {
    /// What the host tells of its files, its input and its ports, and the two marks.
    ghost world: { Self → World };

    /// The names given to `open_input` and `create_map`, whether they failed or not, where the host tells them.
    ghost asked: { Self → Option (List (List ℕ)) };

    /// The count of faults of `open_input` and `read`.
    ghost read_faults: { Self → ℕ };

    /// The count of faults of `create_map` and `write`.
    ghost write_faults: { Self → ℕ };

    /// Makes a file the open input.
    fn open_input(&mut self, name: &str) -> Result<(), Failed>
        ensures ok { OnOk result (world self.new ≡ opened (world self.old) name.now) }
        ensures failed { OnErr result (world self.new ≡ world self.old) }
        ensures names { Asked (asked self.old) (asked self.new) (name.now ∷ []) }
        ensures cause { HasCause (read_faults self.old) (read_faults self.new) result }
        ensures writes { write_faults self.new ≡ write_faults self.old };

    /// Moves the next bytes of the input to the front of a buffer and answers their number, 0 only at the end.
    fn read(&mut self, buffer: &mut [u8]) -> Result<usize, Failed>
        requires room { 0 < length buffer.old }
        requires open { (world self.old).is_open ≡ true }
        ensures bound { IfOk result (λ n. n ≤ length buffer.new) }
        ensures bytes { IfOk result (λ n. (world self.old).rest ≡ before_told (take n buffer.new) (world self.new).rest) }
        ensures end { IfOk result (λ n. n ≡ 0 → (world self.new).rest ≡ emptied (world self.new).rest) }
        ensures frame { OnOk result (world self.new ≡ record (world self.old) { rest = (world self.new).rest }) }
        ensures failed { OnErr result (world self.new ≡ world self.old) }
        ensures names { asked self.new ≡ asked self.old }
        ensures cause { HasCause (read_faults self.old) (read_faults self.new) result }
        ensures writes { write_faults self.new ≡ write_faults self.old };

    /// Makes the Map port an empty file of this name.
    fn create_map(&mut self, name: &str) -> Result<(), Failed>
        ensures ok { OnOk result (world self.new ≡ mapped (world self.old)) }
        ensures failed { OnErr result (world self.new ≡ world self.old) }
        ensures names { Asked (asked self.old) (asked self.new) (name.now ∷ []) }
        ensures cause { HasCause (write_faults self.old) (write_faults self.new) result }
        ensures reads { read_faults self.new ≡ read_faults self.old };

    /// Sends the first bytes of a piece, at least one, and answers their number.
    fn write(&mut self, port: Port, piece: &[u8]) -> Result<usize, Failed>
        requires piece { 0 < length piece.now }
        requires created { port ≡ Port.Map → (world self.old).has_map ≡ true }
        ensures some { IfOk result (λ n. 0 < n) }
        ensures bound { IfOk result (λ n. n ≤ length piece.now) }
        ensures ok { IfOk result (λ n. world self.new ≡ sent (world self.old) port (take n piece.now)) }
        ensures failed { OnErr result (world self.new ≡ world self.old) }
        ensures names { asked self.new ≡ asked self.old }
        ensures cause { HasCause (write_faults self.old) (write_faults self.new) result }
        ensures reads { read_faults self.new ≡ read_faults self.old };
}
