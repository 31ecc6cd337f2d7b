//! The clauses and repairs of a substitution.
ghost use Rattle.std.specs.Prelude.{◌≡◌, ◌≤◌, ◌++◌, All, IfOk, OnOk, MatchOption, map, option_to_list, true};
ghost use Rattle.std.specs.List.{list_any};
ghost use Rattle.mp_clauses.specs.Slots.{is_live};
ghost use Rattle.t_equiv.specs.Substituting.{HasOpposites, image_repairs};
ghost use Rattle.mp_store.specs.Soundness.{IsStore};
ghost use Rattle.t_equiv.specs.Images.{image_in, StaysKnown};
ghost use Rattle.t_equiv.specs.Substitutions.{moves, moved_ids, IsImageClause, AreImageClauses};

use crate::images::image;
use mp_logic::{Clause, Clauses, ListOf, Lit, NoMemory, Repairs, is_tautology, normalise};
use mp_store::{ClauseId, Ids, Store, repair_setting};
use std::alloc::Global;

/// The ids of the clauses with a literal that is not its own image.
pub fn moved_ids(alloc: Global, store: &Store, images: &[Lit]) -> Result<Ids, NoMemory>
    ensures { IfOk result (λ ids. ids ≡ moved_ids images.now store.now.slots) }
{
    let mut ids = ListOf::new(alloc);
    for id in 0..store.next_id() {
        if store.live(id) && moves(images, store.clause(id)) {
            ids.push(id)?;
        }
    }
    Ok(ids)
}

/// Whether some literal of the clause is not its own image.
fn moves(images: &[Lit], clause: &[Lit]) -> bool
    ensures { result ≡ list_any (moves images.now) clause.now }
{
    clause.iter().any(|lit| image(images, *lit) != *lit)
}

/// What becomes of the clauses of these ids, in their order.
pub fn image_clauses(
    alloc: Global,
    store: &Store,
    images: &[Lit],
    ids: &[ClauseId],
) -> Result<Clauses, NoMemory>
    requires sound { IsStore store.now }
    requires known { StaysKnown store.now.vars images.now }
    requires live { All (λ id. is_live store.now.slots id ≡ true) ids.now }
    ensures { IfOk result (λ made. AreImageClauses images.now store.now.slots ids.now made) }
{
    let mut made = ListOf::new(alloc);
    for id in ids {
        let clause = image_clause(alloc, images, store.clause(*id))?;
        put(&mut made, clause)?;
    }
    Ok(made)
}

/// Puts a clause last, if there is one.
fn put(made: &mut Clauses, clause: Option<Clause>) -> Result<(), NoMemory>
    ensures { OnOk result (made.new ≡ made.old ++ option_to_list clause) }
{
    if let Some(clause) = clause {
        made.push(clause)?;
    }
    Ok(())
}

/// The clause of the images, or none where it is a tautology.
fn image_clause(alloc: Global, images: &[Lit], clause: &[Lit]) -> Result<Option<Clause>, NoMemory>
    requires { All (λ l. 1 ≤ (image_in images.now l).variable) clause.now }
    ensures { IfOk result (λ made. MatchOption made (HasOpposites (image_in images.now) clause.now) (λ d. IsImageClause (image_in images.now) clause.now d)) }
{
    let mut made = Clause::with_room(alloc, clause.len())?;
    for lit in clause {
        made.push(image(images, *lit))?;
    }
    normalise(&mut made);
    if is_tautology(&made) {
        return Ok(None);
    }
    Ok(Some(made))
}

/// The repairs that give the variables the values of their images, two for each.
pub fn image_repairs(
    alloc: Global,
    images: &[Lit],
    pairs: &[(u32, u32)],
) -> Result<Repairs, NoMemory>
    requires { All (λ pair. 1 ≤ pair.1) pairs.now }
    ensures { IfOk result (λ made. made ≡ image_repairs (image_in images.now) (map (λ pair. pair.1) pairs.now)) }
{
    let mut made = ListOf::new(alloc);
    for pair in pairs {
        let lit = Lit::new(pair.1, false);
        let image = image(images, lit);
        made.push(repair_setting(alloc, lit, &[image.negated(), lit])?)?;
        made.push(repair_setting(alloc, lit.negated(), &[image, lit.negated()])?)?;
    }
    Ok(made)
}
