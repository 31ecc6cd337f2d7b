//! Drawn stores, as `tests/twin.py` draws them: what a technique does with them is told by a digest.

use crate::page::Page;
use crate::probes::probe;
use crate::stores::{fix, handed_on, put_occurrences, run, show};
use crate::words::{parts, small};
use case_text::Trouble;
use mp_labels::label;
use mp_logic::{Assignment, Limits, ListOf, Lit};
use mp_store::Store;
use mp_wcnf::read;
use std::alloc::Global;

/// `draw LETTER FIRST COUNT`: the digest of what is printed of the drawn stores of so many places (Fowler, Noll and Vo,
/// FNV-1a).
pub fn put_digest(alloc: Global, given: &str, page: &mut Page) -> Result<(), Trouble> {
    let (letter, rest) = parts(given, ' ')?;
    let (first, count) = parts(rest, ' ')?;
    let first = small(first)?;
    let mut digest = 14_695_981_039_346_656_037;
    for step in 0..small(count)? {
        let mut drawn = Page::new(alloc);
        put_drawn(alloc, letter, first.wrapping_add(step), &mut drawn)?;
        for byte in drawn.text.bytes() {
            digest = (digest ^ u64::from(*byte)).wrapping_mul(1_099_511_628_211);
        }
    }
    page.numbered("digest ", u128::from(digest));
    Ok(())
}

/// `show-drawn LETTER PLACE`, as the one line of an input: what is printed of the drawn store of a place.
pub fn put_drawn_line(alloc: Global, given: &str, page: &mut Page) -> Result<(), Trouble> {
    let (letter, place) = parts(given, ' ')?;
    put_drawn(alloc, letter, small(place)?, page)
}

// Prints on an empty page.
fn put_drawn(alloc: Global, letter: &str, place: u32, page: &mut Page) -> Result<(), Trouble> {
    let mut draws = Draws::new(place);
    draws.put_text(mix_of(letter), page);
    let more = draws.below(3);
    let mut store = drawn_store(alloc, page.text.bytes(), more)?;
    if letter == "=" {
        fix_drawn(alloc, &mut store, &mut draws, page)?;
    } else if !store.refuted() {
        run_drawn(alloc, &mut store, letter, draws.below(24), page)?;
        show(&store, page);
        put_occurrences(&store, page);
    }
    show(&handed_on(alloc, store)?, page);
    Ok(())
}

// Runs the technique on a drawn number: its turns, where it is no greater than 20, and for a technique that asks an oracle no
// clause to learn where it is below 6.
fn run_drawn(
    alloc: Global,
    store: &mut Store,
    letter: &str,
    number: u32,
    page: &mut Page,
) -> Result<(), Trouble> {
    if matches!(letter, "T" | "K" | "H") {
        let tried = all_assignments(alloc, store.vars())?;
        let budget = if number < 6 { 0 } else { ENOUGH };
        return probe(alloc, store, letter, budget, tried.items(), page);
    }
    let budget = if number > 20 {
        None
    } else {
        Some(u64::from(number))
    };
    run(alloc, store, letter, budget, page)
}

// A drawn store has so many variables at most.
const FEW: u32 = 9;

// No query about a drawn store needs so many clauses learnt.
const ENOUGH: u32 = 1_000;

// All assignments, in the order in which the binary numbers count whose lowest digit is the first variable.
fn all_assignments(alloc: Global, vars: u32) -> Result<ListOf<Assignment>, Trouble> {
    if vars > FEW {
        return Err(Trouble::Line);
    }
    let mut all = ListOf::new(alloc);
    for number in 0..1_u32 << vars {
        all.push(assignment(alloc, vars, number)?)?;
    }
    Ok(all)
}

fn assignment(alloc: Global, vars: u32, number: u32) -> Result<Assignment, Trouble> {
    let mut values = Assignment::new(alloc);
    let mut rest = number;
    for _ in 0..vars {
        values.push(rest % 2 == 1)?;
        rest /= 2;
    }
    Ok(values)
}

// The store of a text, with room for so many more variables.
fn drawn_store(alloc: Global, text: &[u8], more: u32) -> Result<Store, Trouble> {
    let mut limits = Limits::program();
    let Ok(instance) = read(alloc, text, &limits) else {
        return Err(Trouble::Line);
    };
    let Ok(labelled) = label(alloc, &instance, &limits) else {
        return Err(Trouble::Line);
    };
    limits.inner = labelled.vars.saturating_add(more);
    Ok(Store::from_labelled(alloc, labelled, &limits)?)
}

// Fixes ten drawn literals, those that can be.
fn fix_drawn(
    alloc: Global,
    store: &mut Store,
    draws: &mut Draws,
    page: &mut Page,
) -> Result<(), Trouble> {
    for _ in 0..10 {
        let lit = draws.lit(8, PLAIN);
        if !store.refuted() && lit.variable <= store.vars() {
            fix(alloc, store, lit)?;
        }
        show(store, page);
        put_occurrences(store, page);
    }
    Ok(())
}

/// How drawn texts are mixed.
#[derive(Clone, Copy)]
struct Mix {
    /// one literal in so many is negative
    one_negative_in: u32,
    /// so many of three variables have a soft unit clause
    units_of_three: u32,
    /// so many different weights
    weights: u32,
}

const PLAIN: Mix = Mix {
    one_negative_in: 2,
    units_of_three: 1,
    weights: 3,
};

// More costs of fewer weights, and fewer negative literals, for techniques on labels.
const OF_LABELS: Mix = Mix {
    one_negative_in: 4,
    units_of_three: 2,
    weights: 2,
};

fn mix_of(letter: &str) -> Mix {
    match letter {
        "l" | "g" | "m" | "c" | "G" | "p" | "T" | "K" | "H" => OF_LABELS,
        _ => PLAIN,
    }
}

// How long drawn hard clauses are, each of these as often as the others.
const LENGTHS: [u32; 8] = [1, 2, 2, 2, 2, 3, 3, 4];

/// Pseudo-random numbers (Marsaglia, 2003).
#[derive(Drop)]
struct Draws {
    state: u32,
}

impl Draws {
    fn new(place: u32) -> Draws {
        Draws {
            state: place.wrapping_mul(2_654_435_769) ^ 2_463_534_242,
        }
    }

    // A number below the bound, or 0 where that is 0.
    fn below(&mut self, bound: u32) -> u32 {
        self.state ^= self.state << 13;
        self.state ^= self.state >> 17;
        self.state ^= self.state << 5;
        self.state.checked_rem(bound).unwrap_or(0)
    }

    fn lit(&mut self, vars: u32, mix: Mix) -> Lit {
        let variable = self.below(vars).saturating_add(1);
        Lit::new(variable, self.below(mix.one_negative_in) == 0)
    }

    fn put_clause(&mut self, vars: u32, len: u32, mix: Mix, page: &mut Page) {
        for _ in 0..len {
            page.literals("", &[self.lit(vars, mix)]);
        }
        page.word(" 0\n");
    }

    fn put_units(&mut self, vars: u32, mix: Mix, page: &mut Page) {
        for before in 0..vars {
            if self.below(3) < mix.units_of_three {
                page.number("", 1 + u128::from(self.below(mix.weights)));
                page.number(
                    if self.below(4) == 0 { " " } else { " -" },
                    u128::from(before) + 1,
                );
                page.word(" 0\n");
            }
        }
    }

    // Prints the text of an instance.
    fn put_text(&mut self, mix: Mix, page: &mut Page) {
        let vars = self.below(6).saturating_add(2);
        for _ in 0..self.below(13) {
            page.word("h");
            let len = LENGTHS[self.below(8) as usize % 8];
            self.put_clause(vars, len, mix, page);
        }
        self.put_units(vars, mix, page);
        for _ in 0..self.below(3) {
            page.number("", 1 + u128::from(self.below(mix.weights)));
            self.put_clause(vars, 2, mix, page);
        }
    }
}
