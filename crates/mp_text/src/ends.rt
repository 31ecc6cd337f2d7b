ghost use Rattle.std.specs.Prelude.{◌≡◌};
ghost use Rattle.mp_text.specs.Lines.{end_line};

/// The line of the last byte, from 1; it is 1 for the empty text.
pub fn last_line(text: &[u8]) -> u64
    ensures { result ≡ end_line text.now }
{
    let front = &text[..text.len().saturating_sub(1)];
    1 + front.iter().filter(|byte| **byte == b'\n').count() as u64
}
