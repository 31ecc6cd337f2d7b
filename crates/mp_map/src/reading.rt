//! Reading a map, line by line.
ghost use Rattle.std.specs.Prelude.{◌≡◌, ◌≤◌, ◌<◌, ◌+◌, Some, None, length, IfOk, IfErr, MatchBool};
ghost use Rattle.mp_map.specs.Reading.{is_end_line, most_repairs_over, expected_before, end_at, read_text};
ghost use Rattle.mp_map.specs.Answers.{Answers};
ghost use Rattle.mp_map.specs.Faults.{IsRefused, OneSpelling};
ghost use Rattle.mp_map.specs.Maps.{IsMap, map_text};

use crate::fields::{entry, names, number};
use crate::maps::{LATEST_VERSION, MapError, MapFile};
use crate::words::{Pieces, cut};
use mp_logic::{ListOf, NoMemory, WEIGHT_LIMIT};
use std::alloc::Global;

const MOST_ORIGINAL: u128 = 8_388_607;

const MOST_INNER: u128 = 16_777_215;

/// The map of which the text is the spelling.
///
/// `BadMap` comes where it is the spelling of none, with the line at fault.
pub fn read_map(alloc: Global, text: &[u8]) -> Result<MapFile, MapError>
    ensures found { IfOk result (λ m. IsMap m × (map_text m ≡ text.now)) }
    ensures refused { IfErr result (IsRefused text.now) }
{
    read(alloc, text)
}

/// No two valid maps have one spelling.
pub fn one_spelling()
    ensures { OneSpelling }
{}

/// What the next line has to say.
#[derive(Clone, Copy, Debug, PartialEq, Eq)]
pub enum Expects {
    Header,
    Original,
    Inner,
    Written,
    Offset,
    Names,
    Count,
    Mend,
    End,
    Nothing,
}

/// The lines so far: what comes next, how many entries are still to come, how many clauses all entries have at least, and
/// what was read.
#[derive(Drop)]
pub struct Reader {
    pub expects: Expects,
    pub left: u64,
    pub least: u64,
    pub map: MapFile,
}

impl Reader {
    ghost use Rattle.mp_map.specs.Reading.{next, start, words_in};

    fn new(alloc: Global) -> Reader
        ensures { result ≡ start }
    {
        Reader {
            expects: Expects::Header,
            left: 0,
            least: 0,
            map: MapFile {
                version: 1,
                original: 0,
                inner: 0,
                written: 0,
                offset: 0,
                names: ListOf::new(alloc),
                repairs: ListOf::new(alloc),
            },
        }
    }

    /// Reads a line that is not the last; it says whether a map's text can go on so.
    fn take(&mut self, alloc: Global, line: &[u8]) -> Result<bool, NoMemory>
        ensures { IfOk result (λ read. MatchBool read (next self.old (words_in line.now) ≡ Some self.new) (next self.old (words_in line.now) ≡ None)) }
    {
        let mut words = Pieces::new(line, b' ');
        match self.expects {
            Expects::Header => Ok(self.read_header(&mut words)),
            Expects::Original => Ok(self.read_original(&mut words)),
            Expects::Inner => Ok(self.read_inner(&mut words)),
            Expects::Written => Ok(self.read_written(&mut words)),
            Expects::Offset => Ok(self.read_offset(&mut words)),
            Expects::Names => self.read_names(alloc, &mut words),
            Expects::Count => Ok(self.read_count(&mut words)),
            Expects::Mend => self.read_entry(alloc, &mut words),
            Expects::End => Ok(self.read_end(&mut words)),
            Expects::Nothing => Ok(false),
        }
    }

    fn read_header(&mut self, words: &mut Pieces) -> bool
        requires { self.old.expects ≡ Expects.Header }
        ensures { MatchBool result (next self.old words.old ≡ Some self.new) (next self.old words.old ≡ None) }
    {
        let Some(version) = number(words, b"maxpre-map", u128::from(LATEST_VERSION)) else {
            return false;
        };
        if version == 0 {
            return false;
        }
        self.map.version = version as u32;
        self.expects = Expects::Original;
        true
    }

    fn read_original(&mut self, words: &mut Pieces) -> bool
        requires { self.old.expects ≡ Expects.Original }
        ensures { MatchBool result (next self.old words.old ≡ Some self.new) (next self.old words.old ≡ None) }
    {
        let Some(original) = number(words, b"original", MOST_ORIGINAL) else {
            return false;
        };
        self.map.original = original as u32;
        self.expects = Expects::Inner;
        true
    }

    fn read_inner(&mut self, words: &mut Pieces) -> bool
        requires { self.old.expects ≡ Expects.Inner }
        ensures { MatchBool result (next self.old words.old ≡ Some self.new) (next self.old words.old ≡ None) }
    {
        let Some(inner) = number(words, b"inner", MOST_INNER) else {
            return false;
        };
        if inner < u128::from(self.map.original) {
            return false;
        }
        self.map.inner = inner as u32;
        self.expects = Expects::Written;
        true
    }

    fn read_written(&mut self, words: &mut Pieces) -> bool
        requires { self.old.expects ≡ Expects.Written }
        ensures { MatchBool result (next self.old words.old ≡ Some self.new) (next self.old words.old ≡ None) }
    {
        let inner = self.map.inner;
        let Some(written) = number(words, b"written", u128::from(inner)) else {
            return false;
        };
        self.map.written = written as u32;
        self.expects = Expects::Offset;
        true
    }

    fn read_offset(&mut self, words: &mut Pieces) -> bool
        requires { self.old.expects ≡ Expects.Offset }
        ensures { MatchBool result (next self.old words.old ≡ Some self.new) (next self.old words.old ≡ None) }
    {
        let Some(offset) = number(words, b"offset", WEIGHT_LIMIT) else {
            return false;
        };
        self.map.offset = offset;
        self.expects = Expects::Names;
        true
    }

    fn read_names(&mut self, alloc: Global, words: &mut Pieces) -> Result<bool, NoMemory>
        requires { self.old.expects ≡ Expects.Names }
        ensures { IfOk result (λ read. MatchBool read (next self.old words.old ≡ Some self.new) (next self.old words.old ≡ None)) }
    {
        let Some(names) = names(alloc, words, self.map.inner, self.map.written)? else {
            return Ok(false);
        };
        self.map.names = names;
        self.expects = Expects::Count;
        Ok(true)
    }

    fn read_count(&mut self, words: &mut Pieces) -> bool
        requires { self.old.expects ≡ Expects.Count }
        ensures { MatchBool result (next self.old words.old ≡ Some self.new) (next self.old words.old ≡ None) }
    {
        let Some(left) = number(words, b"repairs", u128::from(most_repairs(self.map.inner))) else {
            return false;
        };
        self.left = left as u64;
        self.least = self.left;
        self.expects = before(self.left);
        true
    }

    fn read_entry(&mut self, alloc: Global, words: &mut Pieces) -> Result<bool, NoMemory>
        requires { self.old.expects ≡ Expects.Mend }
        ensures { IfOk result (λ read. MatchBool read (next self.old words.old ≡ Some self.new) (next self.old words.old ≡ None)) }
    {
        let Some(entry) = entry(alloc, words, self.map.version, self.least, self.map.inner)? else {
            return Ok(false);
        };
        let clauses = u128::from(self.least) + entry.clauses.len() as u128;
        self.least = clauses.saturating_sub(1) as u64;
        self.map.repairs.push(entry)?;
        self.left = self.left.saturating_sub(1);
        self.expects = before(self.left);
        Ok(true)
    }

    fn read_end(&mut self, words: &mut Pieces) -> bool
        requires { self.old.expects ≡ Expects.End }
        ensures { MatchBool result (next self.old words.old ≡ Some self.new) (next self.old words.old ≡ None) }
    {
        if !is_end(words) {
            return false;
        }
        self.expects = Expects::Nothing;
        true
    }
}

fn is_end(words: &mut Pieces) -> bool
    ensures { result ≡ is_end_line words.old }
{
    match words.next_piece() {
        Some(word) => word == b"end".as_slice() && words.next_piece().is_none(),
        None => false,
    }
}

fn most_repairs(inner: u32) -> u64
    ensures { result ≡ most_repairs_over inner }
{
    if inner == 0 { 0 } else { u64::MAX }
}

fn before(left: u64) -> Expects
    ensures { result ≡ expected_before left }
{
    if left == 0 {
        Expects::End
    } else {
        Expects::Mend
    }
}

/// The map, or the line at fault; the last piece of the text isn't a line.
fn finish(reader: Reader, line: u64, tail: &[u8]) -> Result<MapFile, MapError>
    requires { 1 ≤ line }
    ensures { Answers (end_at reader line tail.now) result }
{
    if !tail.is_empty() {
        return Err(MapError::BadMap { line });
    }
    if reader.expects == Expects::Nothing {
        return Ok(reader.map);
    }
    Err(MapError::BadMap {
        line: if line == 1 { 1 } else { line - 1 },
    })
}

#[tactic(auto, using(crate::proofs::Pieces::read_good, crate::proofs::Pieces::read_bad, crate::proofs::Pieces::read_tail))]
fn read(alloc: Global, text: &[u8]) -> Result<MapFile, MapError>
    ensures { Answers (read_text text.now) result }
{
    let mut reader = Reader::new(alloc);
    let mut rest = text;
    let mut line: u64 = 1;
    while let Some((front, behind)) = cut(rest, b'\n') {
        if !reader.take(alloc, front)? {
            return Err(MapError::BadMap { line });
        }
        rest = behind;
        line += 1;
    }
    finish(reader, line, rest)
}
