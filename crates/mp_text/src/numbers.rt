ghost use Rattle.std.specs.Prelude.{◌≡◌, ◌≤◌, ◌+◌, ◌*◌, ◌-◌, true, Some, length};
ghost use Rattle.std.specs.Char.{is_ascii_digit};
ghost use Rattle.mp_text.specs.Numbers.{natural_of, decimal_after, at_most, literal_of};

/// So many digits are always a number of 64 bits.
const SHORT: usize = 19;

/// What a token of a clause can be behind its first: the closing zero, or a literal, whose variable is at least 1.
#[derive(Clone, Copy, Debug, PartialEq, Eq)]
pub enum LitToken {
    Close,
    Lit { variable: u128, negative: bool },
}

/// The value of one or more decimal digits, leading zeros included; none for other text, and where the value is above
/// `max`.
pub fn natural(text: &[u8], max: u128) -> Option<u128>
    ensures { result ≡ at_most max (natural_of text.now) }
{
    if text.is_empty() {
        return None;
    }
    if text.len() > SHORT {
        return long_natural(text, max);
    }
    let value = u128::from(short_natural(text)?);
    if value <= max { Some(value) } else { None }
}

/// The value of so few digits that it fits in 64 bits.
#[tactic(auto, using(crate::proofs::Decimal::decimal_digit, crate::proofs::Decimal::decimal_other, crate::proofs::Decimal::short_more))]
fn short_natural(text: &[u8]) -> Option<u64>
    requires { length text.now ≤ 19 }
    ensures { result ≡ decimal_after 0 text.now }
{
    let mut value: u64 = 0;
    for byte in text {
        if !byte.is_ascii_digit() {
            return None;
        }
        value = 10 * value + u64::from(*byte - b'0');
    }
    Some(value)
}

/// The value of digits, where it is at most `max`.
#[tactic(auto, using(crate::proofs::Decimal::decimal_digit, crate::proofs::Decimal::decimal_other, crate::proofs::Decimal::stops))]
fn long_natural(text: &[u8], max: u128) -> Option<u128>
    ensures { result ≡ at_most max (decimal_after 0 text.now) }
{
    let mut value: u128 = 0;
    for byte in text {
        if !byte.is_ascii_digit() {
            return None;
        }
        value = with_digit(value, *byte, max)?;
    }
    Some(value)
}

/// The number with one more digit, where it is at most `max`.
fn with_digit(value: u128, byte: u8, max: u128) -> Option<u128>
    requires { is_ascii_digit byte ≡ true }
    ensures { result ≡ at_most max (Some (10 * value + (byte - 48))) }
{
    let sum = value.checked_mul(10)?.checked_add(u128::from(byte - b'0'))?;
    if sum <= max { Some(sum) } else { None }
}

/// The closing zero, for digits of value 0, or a literal, for digits of another value with or without one `-` before
/// them; none for all other text, and for a value of 2^128 or more.
pub fn literal(text: &[u8]) -> Option<LitToken>
    ensures { result ≡ literal_of text.now }
{
    let (first, others) = text.split_first()?;
    if *first == b'-' {
        let variable = natural(others, u128::MAX)?;
        if variable == 0 {
            return None;
        }
        return Some(LitToken::Lit {
            variable,
            negative: true,
        });
    }
    match natural(text, u128::MAX)? {
        0 => Some(LitToken::Close),
        variable => Some(LitToken::Lit {
            variable,
            negative: false,
        }),
    }
}
