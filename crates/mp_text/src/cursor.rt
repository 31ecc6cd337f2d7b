ghost use Rattle.std.specs.Prelude.{◌≡◌, ◌≤◌, ◌∷◌, ◌&&◌, [], IfSome, IfNone, length, nat_eq};
ghost use Rattle.mp_text.specs.Tokens.{is_blank, tokens_of, Word};
ghost use Rattle.mp_text.specs.Fronts.{from_line_end, word_front, word_rest};

use std::marker::Model;

/// A token of a text, as a slice of it.
#[derive(Clone, Copy, Debug)]
pub struct Token<'a> {
    pub text: &'a [u8],
    /// the place of its first byte in the text, from 0
    pub start: usize,
    /// its line, from 1
    pub line: u64,
    /// whether it is the first token of its line
    pub leads: bool,
}

/// Goes over the tokens of a text, which space, tab, CR and LF separate. A contract sees the tokens that are left.
#[derive(Debug, Drop)]
pub struct Cursor<'a> {
    rest: &'a [u8],
    end: usize,
    line: u64,
    fresh: bool,
    comments: bool,
}

impl<'a> Model for Cursor<'a> {
    ghost use Rattle.std.specs.Prelude.{List, length, ◌+◌, ◌≤◌, ◌^◌};
    ghost use Rattle.mp_text.specs.Tokens.{Word};
    ghost use Rattle.mp_text.specs.Fronts.{tokens_left};

    ghost Value = { List Word };

    ghost view = { λ c. tokens_left c.comments c.line c.fresh c.end c.rest.now };

    ghost invariant = { λ c. (c.line + length c.rest.now ≤ 2 ^ 63) × (length c.rest.now ≤ c.end) };
}

impl<'a> Cursor<'a> {
    /// At the start of a text. With `comments`, a line whose first token begins with `c` gives no tokens.
    pub fn new(source: &'a [u8], comments: bool) -> Cursor<'a>
        ensures { result ≡ tokens_of comments source.now }
    {
        Cursor {
            rest: source,
            end: source.len(),
            line: 1,
            fresh: true,
            comments,
        }
    }

    /// The next token; none exactly where no token is left.
    #[tactic(auto, using(crate::proofs::Steps::left_line_end, crate::proofs::Steps::left_blank, crate::proofs::Steps::left_comment, crate::proofs::Steps::left_word))]
    pub fn next_token(&mut self) -> Option<Token<'a>>
        ensures some { IfSome result (λ t. self.old ≡ record { text = t.text.now; start = t.start; line = t.line; leads = t.leads } ∷ self.new) }
        ensures none { IfNone result (self.old ≡ []) }
    {
        while let Some((first, others)) = self.rest.split_first() {
            if *first == b'\n' {
                self.line += 1;
                self.fresh = true;
                self.rest = others;
            } else if is_blank(*first) {
                self.rest = others;
            } else if begins_comment(self.comments, self.fresh, *first) {
                self.rest = after_comment(others);
            } else {
                let (text, rest) = split_word(self.rest);
                let token = Token {
                    text,
                    start: self.end - self.rest.len(),
                    line: self.line,
                    leads: self.fresh,
                };
                self.fresh = false;
                self.rest = rest;
                return Some(token);
            }
        }
        None
    }
}

fn is_blank(byte: u8) -> bool
    ensures { result ≡ is_blank byte }
{
    byte == b' ' || byte == b'\t' || byte == b'\r' || byte == b'\n'
}

/// From the end of the line on.
fn after_comment(bytes: &[u8]) -> &[u8]
    ensures rest { result.now ≡ from_line_end bytes.now }
    ensures shorter { length result.now ≤ length bytes.now }
{
    let mut rest = bytes;
    while let Some((first, others)) = rest.split_first() {
        if *first == b'\n' {
            return rest;
        }
        rest = others;
    }
    rest
}

/// Whether a comment begins with this byte.
fn begins_comment(comments: bool, fresh: bool, byte: u8) -> bool
    ensures { result ≡ (comments && fresh && nat_eq byte 99) }
{
    comments && fresh && byte == b'c'
}

/// From the first blank on.
fn from_blank(bytes: &[u8]) -> &[u8]
    ensures { result.now ≡ word_rest bytes.now }
{
    let mut rest = bytes;
    while let Some((first, others)) = rest.split_first() {
        if is_blank(*first) {
            return rest;
        }
        rest = others;
    }
    rest
}

/// The bytes up to the first blank, and those from there on.
#[tactic(auto, using(crate::proofs::Steps::take_word, crate::proofs::Steps::drop_word, crate::proofs::Steps::rest_shorter))]
fn split_word(bytes: &[u8]) -> (&[u8], &[u8])
    ensures front { result.0.now ≡ word_front bytes.now }
    ensures rest { result.1.now ≡ word_rest bytes.now }
    ensures shorter { length result.1.now ≤ length bytes.now }
{
    bytes.split_at(bytes.len() - from_blank(bytes).len())
}
