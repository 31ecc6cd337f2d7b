//! Tokens and numbers.

use crate::page::Page;
use crate::words::parts;
use case_text::{Trouble, unescaped};
use mp_text::{Cursor, LitToken, literal, natural};
use std::alloc::Global;

/// `tokens TEXT` without those of comments, `all-tokens TEXT` with them: each with its start, its line and whether it leads.
pub fn put_tokens(
    alloc: Global,
    text: &str,
    comments: bool,
    page: &mut Page,
) -> Result<(), Trouble> {
    let bytes = unescaped(alloc, text)?;
    let mut cursor = Cursor::new(bytes.items(), comments);
    for _ in 0..bytes.len() {
        if let Some(token) = cursor.next_token() {
            page.escaped("", token.text);
            page.number(" at ", token.start as u128);
            page.number(" on line ", u128::from(token.line));
            page.word(if token.leads { ", leads\n" } else { "\n" });
        }
    }
    Ok(())
}

/// `natural MAX TEXT`: the number of the text, where it is one of at most MAX.
pub fn put_natural(given: &str, page: &mut Page) -> Result<(), Trouble> {
    let (max, text) = parts(given, ' ')?;
    let max = natural(max.as_bytes(), u128::MAX).ok_or(Trouble::Line)?;
    match natural(text.as_bytes(), max) {
        Some(number) => page.number("", number),
        None => page.word("none"),
    }
    page.word("\n");
    Ok(())
}

/// `literal TEXT`: `close`, the variable, or `not` and the variable; `none` where it is no literal and no closing zero.
pub fn put_literal(text: &str, page: &mut Page) -> Result<(), Trouble> {
    match literal(text.as_bytes()) {
        Some(LitToken::Close) => page.word("close"),
        Some(LitToken::Lit { variable, negative }) => {
            page.number(if negative { "not " } else { "" }, variable);
        }
        None => page.word("none"),
    }
    page.word("\n");
    Ok(())
}

/// `numbers N N ..`: the numbers, each with a blank behind it.
pub fn put_numbers(text: &str, page: &mut Page) -> Result<(), Trouble> {
    for word in text.split_ascii_whitespace() {
        page.number("", word.parse::<u128>().ok().ok_or(Trouble::Line)?);
        page.word(" ");
    }
    page.word("\n");
    Ok(())
}
