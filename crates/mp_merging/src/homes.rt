ghost use Rattle.std.specs.Prelude.{◌≡◌, ◌+◌, ◌<◌, ◌≤◌, ◌∷◌, [], All, Contains, IfOk, IfSome, IfNone, filter, length, replicate, vec_len};
ghost use Rattle.std.specs.List.{find};
ghost use Rattle.std.specs.Option.{option_to_list};
ghost use Rattle.mp_logic.specs.Literal.{IsUpTo};
ghost use Rattle.mp_clauses.specs.Places.{place_of, width};
ghost use Rattle.mp_merging.specs.Tables.{is_marked, marked_in, is_kept, housed, all_housed, home_in};

use mp_clauses::place;
use mp_logic::{Clause, Clauses, Lit, NoMemory};
use std::alloc::Global;

/// The clauses without a literal to be merged into them.
pub(crate) fn kept_clauses(
    alloc: Global,
    marks: &[bool],
    clauses: &Clauses,
) -> Result<Clauses, NoMemory>
    requires { All (All (λ l. place_of l < length marks.now)) clauses.now }
    ensures { IfOk result (λ made. made ≡ filter (is_kept marks.now) clauses.now) }
{
    let mut kept = Clauses::new(alloc);
    for clause in clauses.items() {
        if is_kept(marks, clause) {
            kept.push(clause.copy(alloc)?)?;
        }
    }
    Ok(kept)
}

fn is_kept(marks: &[bool], clause: &Clause) -> bool
    requires { All (λ l. place_of l < length marks.now) clause.now }
    ensures { result ≡ is_kept marks.now clause.now }
{
    merged_in(marks, clause).is_none()
}

// The literal that is merged into the clause: of at least two the first that is marked.
fn merged_in(marks: &[bool], clause: &Clause) -> Option<Lit>
    requires { All (λ l. place_of l < length marks.now) clause.now }
    ensures is { option_to_list result ≡ marked_in marks.now clause.now }
    ensures own { IfSome result (Contains clause.now) }
{
    if clause.len() < 2 {
        return None;
    }
    first_marked(marks, clause.items())
}

fn first_marked(marks: &[bool], lits: &[Lit]) -> Option<Lit>
    requires { All (λ l. place_of l < length marks.now) lits.now }
    ensures is { result ≡ find (is_marked marks.now) lits.now }
    ensures own { IfSome result (Contains lits.now) }
{
    for lit in lits {
        if marks[place(*lit)] {
            return Some(*lit);
        }
    }
    None
}

/// At the place of each variable the number, from 1, of the clause into which its literal is merged, or 0.
pub(crate) fn homes_of(
    alloc: Global,
    vars: u32,
    marks: &[bool],
    clauses: &Clauses,
) -> Result<Vec<usize>, NoMemory>
    requires marked { length marks.now ≡ width vars }
    requires within { All (All (IsUpTo vars)) clauses.now }
    ensures { IfOk result (λ made. made.items ≡ all_housed marks.now 0 clauses.now (replicate vars 0)) }
{
    let mut homes = vec![in alloc; 0; vars as usize]?;
    let mut number = 0;
    for clause in clauses.items() {
        number += 1;
        house(&mut homes, number, merged_in(marks, clause));
    }
    Ok(homes)
}

fn house(homes: &mut [usize], number: usize, merged: Option<Lit>)
    requires { IfSome merged (IsUpTo (length homes.old)) }
    ensures { homes.new ≡ housed number (option_to_list merged) homes.old }
{
    if let Some(lit) = merged {
        homes[lit.variable as usize - 1] = number;
    }
}

/// The clause into which the literal is merged.
pub(crate) fn home<'a>(homes: &[usize], clauses: &'a Clauses, lit: Lit) -> Option<&'a Clause>
    requires { lit.variable ≤ length homes.now }
    ensures some { IfSome result (λ c. home_in homes.now clauses.now lit ≡ c.now ∷ []) }
    ensures none { IfNone result (home_in homes.now clauses.now lit ≡ []) }
{
    match homes[lit.variable as usize - 1] {
        0 => None,
        number => clauses.items().get(number - 1),
    }
}
