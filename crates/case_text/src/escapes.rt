use crate::trouble::Trouble;
use mp_logic::NoMemory;
use mp_text::{Bytes, TextBuf};
use std::alloc::Global;

/// The bytes that a text with escapes stands for; `Line` where an escape is none.
pub fn unescaped(alloc: Global, text: &str) -> Result<Bytes, Trouble> {
    let mut bytes = Bytes::new(alloc);
    let mut rest = text.as_bytes();
    for _ in 0..text.len() {
        let (byte, others) = match rest {
            [] => return Ok(bytes),
            [b'\\', b'x', high, low, others @ ..] => (hex_byte(*high, *low)?, others),
            [b'\\', mark, others @ ..] => (marked_byte(*mark)?, others),
            [byte, others @ ..] => (*byte, others),
        };
        bytes.push(byte)?;
        rest = others;
    }
    Ok(bytes)
}

fn marked_byte(mark: u8) -> Result<u8, Trouble> {
    match mark {
        b'n' => Ok(b'\n'),
        b'r' => Ok(b'\r'),
        b't' => Ok(b'\t'),
        b'\\' => Ok(b'\\'),
        _ => Err(Trouble::Line),
    }
}

fn hex_byte(high: u8, low: u8) -> Result<u8, Trouble> {
    match (digit(high), digit(low)) {
        (Some(high), Some(low)) => Ok(high << 4 | low),
        _ => Err(Trouble::Line),
    }
}

const DIGITS: &[u8; 16] = b"0123456789abcdef";

fn digit(byte: u8) -> Option<u8> {
    match byte {
        b'0'..=b'9' => Some(byte - b'0'),
        b'a'..=b'f' => Some(byte - b'a' + 10),
        _ => None,
    }
}

/// Puts bytes at the end of a text, with escapes.
pub fn put_escaped(text: &mut TextBuf, bytes: &[u8]) -> Result<(), NoMemory> {
    for byte in bytes {
        match *byte {
            b'\n' => text.word(b"\\n")?,
            b'\r' => text.word(b"\\r")?,
            b'\t' => text.word(b"\\t")?,
            b'\\' => text.word(b"\\\\")?,
            b' '..=b'~' => text.word(&[*byte])?,
            _ => put_hex(text, *byte)?,
        }
    }
    Ok(())
}

fn put_hex(text: &mut TextBuf, byte: u8) -> Result<(), NoMemory> {
    text.word(b"\\x")?;
    text.word(&[DIGITS[usize::from(byte >> 4)]])?;
    text.word(&[DIGITS[usize::from(byte & 15)]])
}
