//! What the lines of a map say: a number, the names, an entry.
ghost use Rattle.std.specs.Prelude.{◌≡◌, ◌≤◌, ◌<◌, ◌+◌, ◌^◌, Some, None, length, IfOk, IfSome, MatchOption};
ghost use Rattle.std.specs.List.{list_all};
ghost use Rattle.mp_logic.specs.Labelled.{names_rise};
ghost use Rattle.mp_logic.specs.Normal.{rises};
ghost use Rattle.mp_map.specs.Entries.{fits_version};
ghost use Rattle.mp_map.specs.Reading.{number_in, numbers_in, names_in, literal_in, clause_in, clauses_in, entry_in, is_entry, signed};

use crate::maps::Entry;
use crate::words::{Pieces, exact};
use mp_logic::{Clause, Clauses, ListOf, Lit, Names, NoMemory, is_normal};
use std::alloc::Global;
use std::mem;

const MOST_REPAIRS: u128 = 18_446_744_073_709_551_615;

/// The number of a line of a word and a number.
pub fn number(words: &mut Pieces, word: &[u8], most: u128) -> Option<u128>
    ensures value { result ≡ number_in word.now most words.old }
    ensures most { IfSome result (λ n. n ≤ most) }
{
    if words.next_piece()? != word {
        return None;
    }
    let digits = words.next_piece()?;
    if words.next_piece().is_some() {
        return None;
    }
    exact(digits, most)
}

/// Numbers up to the end of a line.
fn numbers(alloc: Global, words: &mut Pieces, most: u32) -> Result<Option<Names>, NoMemory>
    ensures { IfOk result (λ found. found ≡ numbers_in most words.old) }
{
    let mut made = ListOf::new(alloc);
    while let Some(word) = words.next_piece() {
        let Some(n) = exact(word, u128::from(most)) else {
            return Ok(None);
        };
        made.push(n as u32)?;
    }
    Ok(Some(made))
}

/// Whether the names rise strictly from 1 to `inner`.
fn names_are_rising(names: &Names, inner: u32) -> bool
    ensures { result ≡ names_rise 0 inner names.now }
{
    let mut last = 0;
    for name in names.items() {
        if *name <= last || inner < *name {
            return false;
        }
        last = *name;
    }
    true
}

pub fn names(
    alloc: Global,
    words: &mut Pieces,
    inner: u32,
    written: u32,
) -> Result<Option<Names>, NoMemory>
    ensures { IfOk result (λ found. found ≡ names_in inner written words.old) }
{
    let Some(word) = words.next_piece() else {
        return Ok(None);
    };
    if word != b"names".as_slice() {
        return Ok(None);
    }
    let Some(made) = numbers(alloc, words, inner)? else {
        return Ok(None);
    };
    if made.len() == written as usize && names_are_rising(&made, inner) {
        return Ok(Some(made));
    }
    Ok(None)
}

fn with_sign(negative: bool, value: Option<u128>) -> Option<Lit>
    requires { IfSome value (λ n. n < 4294967296) }
    ensures { result ≡ signed negative value }
{
    let variable = value? as u32;
    if variable == 0 {
        return None;
    }
    Some(Lit::new(variable, negative))
}

/// A literal in its one spelling, of a variable from 1 to `most`.
fn literal(word: &[u8], most: u32) -> Option<Lit>
    ensures { result ≡ literal_in most word.now }
{
    let (first, others) = word.split_first()?;
    if *first == b'-' {
        return with_sign(true, exact(others, u128::from(most)));
    }
    with_sign(false, exact(word, u128::from(most)))
}

/// Literals up to a 0.
fn clause(alloc: Global, words: &mut Pieces, most: u32) -> Result<Option<Clause>, NoMemory>
    ensures { IfOk result (λ found. MatchOption found (clause_in most words.old ≡ None) (λ c. clause_in most words.old ≡ Some (c, words.new))) }
{
    let mut made = Clause::new(alloc);
    while let Some(word) = words.next_piece() {
        if word == b"0".as_slice() {
            return Ok(Some(made));
        }
        let Some(lit) = literal(word, most) else {
            return Ok(None);
        };
        made.push(lit)?;
    }
    Ok(None)
}

/// Clauses, each up to its 0, to the end of a line.
fn clauses(alloc: Global, words: &mut Pieces, most: u32) -> Result<Option<Clauses>, NoMemory>
    ensures { IfOk result (λ found. found ≡ clauses_in most words.old) }
{
    let mut made = ListOf::from_vec(Vec::with_capacity(alloc, 1)?);
    let mut begun = Clause::new(alloc);
    while let Some(word) = words.next_piece() {
        if word == b"0".as_slice() {
            made.push(mem::replace(&mut begun, Clause::new(alloc)))?;
        } else {
            let Some(lit) = literal(word, most) else {
                return Ok(None);
            };
            begun.push(lit)?;
        }
    }
    if begun.len() > 0 {
        return Ok(None);
    }
    Ok(Some(made))
}

/// An entry, where `least` is the number of clauses of all entries if this one and those behind it have one each.
pub fn entry(
    alloc: Global,
    words: &mut Pieces,
    version: u32,
    least: u64,
    inner: u32,
) -> Result<Option<Entry>, NoMemory>
    ensures found { IfOk result (λ found. found ≡ entry_in version least inner words.old) }
    ensures few { IfOk result (λ found. IfSome found (λ e. least + length e.clauses ≤ 2 ^ 64)) }
{
    let Some(sets) = clause(alloc, words, inner)? else {
        return Ok(None);
    };
    let Some(clauses) = clauses(alloc, words, inner)? else {
        return Ok(None);
    };
    if can_stand(version, least, &sets, &clauses) {
        return Ok(Some(Entry { sets, clauses }));
    }
    Ok(None)
}

fn can_stand(version: u32, least: u64, sets: &Clause, clauses: &Clauses) -> bool
    ensures { result ≡ is_entry version least sets.now clauses.now }
{
    sets.len() > 0
        && is_normal(sets)
        && are_normal(clauses)
        && has_clauses_of(version, clauses.len())
        && u128::from(least) + clauses.len() as u128 <= MOST_REPAIRS + 1
}

fn are_normal(clauses: &Clauses) -> bool
    ensures { result ≡ list_all (rises 0) clauses.now }
{
    clauses.items().iter().all(|clause| is_normal(clause))
}

/// Whether an entry of this version may have so many clauses.
fn has_clauses_of(version: u32, clauses: usize) -> bool
    ensures { result ≡ fits_version version clauses }
{
    if version == 1 {
        clauses == 1
    } else {
        clauses > 0
    }
}
