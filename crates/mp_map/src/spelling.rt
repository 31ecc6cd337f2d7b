ghost use Rattle.std.specs.Prelude.{◌≡◌, ◌++◌, ◌∷◌, [], codes, decimal, map, IfOk, OnOk};
ghost use Rattle.std.specs.List.{flat_map, join_with_byte};
ghost use Rattle.mp_text.specs.Lines.{line_text};
ghost use Rattle.mp_text.specs.Writing.{literal_word, clause_words};
ghost use Rattle.mp_map.specs.Maps.{IsMap, entry_words, map_text};

use crate::maps::{Entry, MapFile};
use mp_logic::{Clause, Lit, Names, NoMemory};
use mp_text::{Bytes, TextBuf};
use std::alloc::Global;

/// The one spelling of a valid map.
pub fn write_map(alloc: Global, map: &MapFile) -> Result<Bytes, NoMemory>
    requires { IsMap map.now }
    ensures { IfOk result (λ text. text ≡ map_text map.now) }
{
    let mut text = TextBuf::new(alloc);
    write_number(&mut text, b"maxpre-map", u128::from(map.version))?;
    write_number(&mut text, b"original", u128::from(map.original))?;
    write_number(&mut text, b"inner", u128::from(map.inner))?;
    write_number(&mut text, b"written", u128::from(map.written))?;
    write_number(&mut text, b"offset", map.offset)?;
    write_names(&mut text, &map.names)?;
    write_number(&mut text, b"repairs", map.repairs.len() as u128)?;
    for entry in map.repairs.items() {
        write_entry(&mut text, entry)?;
    }
    text.word(b"end\n")?;
    Ok(text.into_bytes())
}

/// Writes a line of a word and a number.
fn write_number(text: &mut TextBuf, word: &[u8], n: u128) -> Result<(), NoMemory>
    ensures { OnOk result (text.new ≡ text.old ++ line_text (word.now ∷ decimal n ∷ [])) }
{
    text.word(word)?;
    text.word(b" ")?;
    text.number(n)?;
    text.word(b"\n")
}

fn write_names(text: &mut TextBuf, names: &Names) -> Result<(), NoMemory>
    ensures { OnOk result (text.new ≡ text.old ++ line_text (codes "names" ∷ map decimal names.now)) }
{
    text.word(b"names")?;
    for name in names.items() {
        text.word(b" ")?;
        text.number(u128::from(*name))?;
    }
    text.word(b"\n")
}

fn write_entry(text: &mut TextBuf, entry: &Entry) -> Result<(), NoMemory>
    ensures { OnOk result (text.new ≡ text.old ++ line_text (entry_words entry.now)) }
{
    write_clause(text, &entry.sets)?;
    for place in 0..entry.clauses.len() {
        text.word(b" ")?;
        write_clause(text, &entry.clauses.items()[place])?;
    }
    text.word(b"\n")
}

fn write_clause(text: &mut TextBuf, clause: &Clause) -> Result<(), NoMemory>
    ensures { OnOk result (text.new ≡ text.old ++ join_with_byte 32 (clause_words clause.now)) }
{
    for lit in clause.items() {
        write_literal(text, *lit)?;
        text.word(b" ")?;
    }
    text.word(b"0")
}

fn write_literal(text: &mut TextBuf, lit: Lit) -> Result<(), NoMemory>
    ensures { OnOk result (text.new ≡ text.old ++ literal_word lit) }
{
    if lit.negative {
        text.word(b"-")?;
    }
    text.number(u128::from(lit.variable))
}
