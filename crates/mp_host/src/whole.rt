ghost use Rattle.std.specs.Prelude.{◌≡◌, ◌<◌, ◌≤◌, ◌∷◌, [], true, length, take, OnOk, OnErr, IfOk, IfErr, IfSome, IsErrOf};
ghost use Rattle.mp_host.specs.Whole.{IsTooLong};
ghost use Rattle.mp_host.specs.World.{Asked, Rose, SameButInput, sent};

use crate::host::{Host, Port};
use mp_text::Bytes;
use std::alloc::Global;
use thiserror::Error;

/// Why a file was not read whole.
#[derive(Clone, Copy, Debug, PartialEq, Eq, Error)]
pub enum ReadAllError {
    #[error("read fault")]
    ReadFault,
    /// Just so many bytes came, one more than the limit.
    #[error("{read} bytes are too many")]
    TooLong { read: u64 },
    #[error("out of memory")]
    NoMemory,
}

/// A text was not written whole: the port got its first `written` bytes.
#[derive(Clone, Copy, Debug, PartialEq, Eq, Error)]
#[error("write fault after {written} bytes")]
pub struct WriteFault {
    pub written: usize,
}

// The most bytes that one read asks for.
const PIECE: usize = 65536;

/// All bytes of a file of at most `limit` bytes.
///
/// It asks for no more than `limit + 1` bytes: `TooLong` comes where so many came. `ReadFault` comes only where the host
/// failed to open the file or to read from it.
pub fn read_all<H: Host>(
    alloc: Global,
    host: &mut H,
    name: &str,
    limit: u64,
) -> Result<Bytes, ReadAllError>
    ensures whole { IfOk result (λ bytes. IfSome ((H.world host.old).file name.now) (λ file. bytes ≡ file)) }
    ensures fits { IfOk result (λ bytes. length bytes ≤ limit) }
    ensures long { IfErr result (λ e. IsTooLong e limit ((H.world host.old).file name.now) (H.world host.new).rest) }
    ensures frame { SameButInput (H.world host.old) (H.world host.new) }
    ensures fault { IsErrOf result ReadAllError.ReadFault → Rose (H.read_faults host.old) (H.read_faults host.new) }
    ensures later { H.read_faults host.old ≤ H.read_faults host.new }
    ensures writes { H.write_faults host.new ≡ H.write_faults host.old }
    ensures names { Asked (H.asked host.old) (H.asked host.new) (name.now ∷ []) }
{
    if host.open_input(name).is_err() {
        return Err(ReadAllError::ReadFault);
    }
    let mut bytes = Bytes::new(alloc);
    let mut buffer = [0u8; PIECE];
    while bytes.len() as u64 <= limit {
        let left = (limit - bytes.len() as u64).saturating_add(1);
        let piece = &mut buffer[..left.min(PIECE as u64) as usize];
        match host.read(piece) {
            Err(_) => return Err(ReadAllError::ReadFault),
            Ok(0) => return Ok(bytes),
            Ok(count) => {
                if bytes.extend(&piece[..count]).is_err() {
                    return Err(ReadAllError::NoMemory);
                }
            }
        }
    }
    Err(ReadAllError::TooLong {
        read: bytes.len() as u64,
    })
}

/// Writes all bytes to a port.
///
/// `WriteFault` comes only where the host failed to write; the port then got the first `written` bytes and no others. An
/// empty text can't fail. For Map a map has to be created before.
pub fn write_all<H: Host>(host: &mut H, port: Port, bytes: &[u8]) -> Result<(), WriteFault>
    requires { port ≡ Port.Map → (H.world host.old).has_map ≡ true }
    ensures whole { OnOk result (H.world host.new ≡ sent (H.world host.old) port bytes.now) }
    ensures part { IfErr result (λ e. H.world host.new ≡ sent (H.world host.old) port (take e.written bytes.now)) }
    ensures short { IfErr result (λ e. e.written < length bytes.now) }
    ensures fault { OnErr result (Rose (H.write_faults host.old) (H.write_faults host.new)) }
    ensures later { H.write_faults host.old ≤ H.write_faults host.new }
    ensures reads { H.read_faults host.new ≡ H.read_faults host.old }
    ensures names { H.asked host.new ≡ H.asked host.old }
{
    let mut written = 0;
    while written < bytes.len() {
        match host.write(port, &bytes[written..]) {
            Err(_) => return Err(WriteFault { written }),
            Ok(count) => written += count,
        }
    }
    Ok(())
}
