//! The pieces of a text between separators, and numbers in their one spelling.
ghost use Rattle.std.specs.Prelude.{◌≡◌, ◌+◌, ◌<◌, ◌≤◌, ◌∷◌, ◌&&◌, [], nat_eq, nat_lt, length, position, slice_index, IfSome, IfNone};
ghost use Rattle.mp_map.specs.Pieces.{pieces_at};
ghost use Rattle.mp_map.specs.Reading.{exact_of};

use mp_text::natural;
use std::marker::Model;

/// The bytes before the first separator, and those behind it.
#[tactic(auto, using(crate::proofs::Pieces::cut_found, crate::proofs::Pieces::cut_none))]
pub fn cut(bytes: &[u8], separator: u8) -> Option<(&[u8], &[u8])>
    ensures found { IfSome result (λ r. pieces_at separator bytes.now ≡ r.0.now ∷ pieces_at separator r.1.now) }
    ensures shorter { IfSome result (λ r. length r.1.now < length bytes.now) }
    ensures none { IfNone result (pieces_at separator bytes.now ≡ bytes.now ∷ []) }
{
    match place_of(bytes, separator) {
        Some(place) => Some((&bytes[..place], &bytes[place + 1..])),
        None => None,
    }
}

fn place_of(bytes: &[u8], byte: u8) -> Option<usize>
    ensures place { result ≡ position (λ b. nat_eq b byte) bytes.now }
    ensures within { IfSome result (λ place. place < length bytes.now) }
{
    bytes.iter().position(|b| *b == byte)
}

/// The pieces of a text between separators. A contract sees those that are left.
#[derive(Drop)]
pub struct Pieces<'a> {
    rest: &'a [u8],
    separator: u8,
    done: bool,
}

impl<'a> Model for Pieces<'a> {
    ghost use Rattle.std.specs.Prelude.{List, ℕ, [], if◌then◌else◌};
    ghost use Rattle.mp_map.specs.Pieces.{pieces_at};

    ghost Value = { List (List ℕ) };

    ghost view = { λ p. if p.done then [] else pieces_at p.separator p.rest.now };
}

impl<'a> Pieces<'a> {
    #[tactic(auto, using(crate::proofs::Pieces::pieces_few))]
    pub fn new(text: &'a [u8], separator: u8) -> Pieces<'a>
        ensures pieces { result ≡ pieces_at separator text.now }
        ensures few { length result ≤ length text.now + 1 }
    {
        Pieces {
            rest: text,
            separator,
            done: false,
        }
    }

    pub fn next_piece(&mut self) -> Option<&'a [u8]>
        ensures some { IfSome result (λ piece. self.old ≡ piece.now ∷ self.new) }
        ensures none { IfNone result (self.old ≡ []) }
        ensures done { IfNone result (self.new ≡ []) }
    {
        if self.done {
            return None;
        }
        match cut(self.rest, self.separator) {
            Some((piece, rest)) => {
                self.rest = rest;
                Some(piece)
            }
            None => {
                self.done = true;
                Some(self.rest)
            }
        }
    }
}

fn has_leading_zero(text: &[u8]) -> bool
    ensures { result ≡ (nat_lt 1 (length text.now) && nat_eq (slice_index text.now 0) 48) }
{
    text.len() > 1 && text[0] == b'0'
}

/// The value of a number in its one spelling, without leading zeros, where it is at most this.
pub fn exact(text: &[u8], most: u128) -> Option<u128>
    ensures value { result ≡ exact_of most text.now }
    ensures most { IfSome result (λ n. n ≤ most) }
{
    if has_leading_zero(text) {
        return None;
    }
    natural(text, most)
}
