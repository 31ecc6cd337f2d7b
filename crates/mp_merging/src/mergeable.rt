ghost use Rattle.std.specs.Prelude.{◌≡◌, ◌<◌, ◌≤◌, ℕ, All, IfOk, IsTrue, length, slice_index, true, ◌^◌, if◌then◌else◌};
ghost use Rattle.mp_logic.specs.Literal.{IsUpTo, negation};
ghost use Rattle.mp_logic.specs.Normal.{rises};
ghost use Rattle.mp_clauses.specs.Places.{place_of, has};
ghost use Rattle.mp_clauses.specs.Tables.{apart};
ghost use Rattle.mp_merging.specs.Tables.{AreUses, AreMarks, is_sole, one_more};

use mp_clauses::place;
use mp_labels::Labelled;
use mp_logic::{Clause, Clauses, Lit, NoMemory};
use std::alloc::Global;

/// Marks at the places of literals: which of them are cost literals that may be merged.
pub(crate) fn marks_of(alloc: Global, labelled: &Labelled) -> Result<Vec<bool>, NoMemory>
    ensures { IfOk result (λ made. AreMarks labelled.now made.items) }
{
    let uses = uses_of(alloc, labelled.vars, &labelled.hard)?;
    let mut marks = vec![in alloc; false; uses.len()]?;
    for cost in labelled.costs.items() {
        marks[place(cost.lit)] = is_sole(&uses, cost.lit);
    }
    Ok(marks)
}

// Whether one clause has the literal and none has its negation.
fn is_sole(uses: &[u8], lit: Lit) -> bool
    requires own { place_of lit < length uses.now }
    requires other { place_of (negation lit) < length uses.now }
    ensures { result ≡ is_sole uses.now lit }
{
    uses[place(lit)] == 1 && uses[place(lit.negated())] == 0
}

// How many clauses have a literal, up to two, at the place of each literal.
fn uses_of(alloc: Global, vars: u32, clauses: &Clauses) -> Result<Vec<u8>, NoMemory>
    requires within { All (All (IsUpTo vars)) clauses.now }
    requires normal { All (λ c. IsTrue (rises 0 c)) clauses.now }
    ensures { IfOk result (λ made. AreUses vars clauses.now made.items) }
{
    let mut uses = vec![in alloc; 0; 2 * vars as usize + 2]?;
    for clause in clauses.items() {
        count_clause(&mut uses, clause);
    }
    Ok(uses)
}

fn count_clause(uses: &mut [u8], clause: &Clause)
    requires within { All (λ l. place_of l < length uses.old) clause.now }
    requires apart { apart clause.now ≡ true }
    ensures len { length uses.new ≡ length uses.old }
    ensures counts { (p : ℕ) → slice_index uses.new p ≡ (if has p clause.now then one_more (slice_index uses.old p) else slice_index uses.old p) }
{
    for lit in clause.items() {
        let place = place(*lit);
        uses[place] = one_more(uses[place]);
    }
}

fn one_more(count: u8) -> u8
    ensures { result ≡ one_more count }
{
    if count < 2 { count + 1 } else { count }
}
