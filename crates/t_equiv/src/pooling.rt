//! The costs of literals, joined at their images: of opposite costs the lower is always paid, and comes off both.
ghost use Rattle.std.specs.Prelude.{◌≡◌, ◌≤◌, ◌<◌, ◌+◌, ◌*◌, ◌^◌, ◌⊎◌, ℕ, IfOk, OnOk, length, true, slice_index};
ghost use Rattle.mp_logic.specs.Literal.{IsUpTo};
ghost use Rattle.mp_logic.specs.Weights.{weight_bound};
ghost use Rattle.mp_clauses.specs.Places.{place_of, width};
ghost use Rattle.mp_store.specs.Soundness.{IsStore};
ghost use Rattle.t_equiv.specs.Images.{StaysKnown};
ghost use Rattle.t_equiv.specs.Pooling.{worth, AreMoved, IsLowered, AreCancelled, AreNoted, ArePooled};

use crate::images::image;
use mp_logic::{Cost, Costs, ListOf, Lit, NoMemory, Weight};
use mp_store::{Store, place};
use std::alloc::Global;

/// What becomes of the costs: the new weights, and what is always paid from then on.
#[derive(Drop)]
pub struct Pooled {
    pub costs: Costs,
    pub shift: Weight,
}

/// Moves each weight to the image of its literal.
pub fn pool(alloc: Global, store: &Store, images: &[Lit]) -> Result<Pooled, NoMemory>
    requires { StaysKnown store.now.vars images.now }
    ensures { IfOk result (λ made. ArePooled images.now store.now.vars store.now.weights made.costs made.shift) }
{
    // what holds of each store bounds the sums
    let vars = store.vars();
    let mut weights = moved_weights(alloc, store, images)?;
    let shift = cancel_all(&mut weights, vars);
    let costs = note_all(alloc, store, weights.as_slice())?;
    Ok(Pooled { costs, shift })
}

/// The weights, each at the place of the image of its literal.
fn moved_weights(alloc: Global, store: &Store, images: &[Lit]) -> Result<Vec<Weight>, NoMemory>
    requires { StaysKnown store.now.vars images.now }
    ensures { IfOk result (λ moved. AreMoved images.now store.now.weights (length store.now.weights) moved.items) }
{
    // what holds of each store bounds the sums
    let vars = store.vars();
    let mut moved: Vec<Weight> = vec![in alloc; 0; 2 * vars as usize + 2]?;
    for below in 0..vars {
        move_weight(&mut moved, store, images, Lit::new(below + 1, false));
        move_weight(&mut moved, store, images, Lit::new(below + 1, true));
    }
    Ok(moved)
}

/// Adds the weight of a literal to that of its image.
fn move_weight(moved: &mut Vec<Weight>, store: &Store, images: &[Lit], lit: Lit)
    requires sound { IsStore store.now }
    requires known { StaysKnown store.now.vars images.now }
    requires up { IsUpTo store.now.vars lit }
    requires moved { AreMoved images.now store.now.weights (place_of lit) moved.old.items }
    ensures { AreMoved images.now store.now.weights (place_of lit + 1) moved.new.items }
{
    let weight = store.weight(lit);
    let at = place(image(images, lit));
    moved[at] += weight;
}

/// Takes the lower of two opposite weights from both, for each variable, and answers what that comes to.
fn cancel_all(weights: &mut Vec<Weight>, vars: u32) -> Weight
    requires many { length weights.old.items ≡ width vars }
    requires below { worth (λ p. true) 0 weights.old.items < weight_bound }
    ensures { AreCancelled weights.old.items (vars + 1) weights.new.items result }
{
    let mut shift = 0;
    for variable in 0..vars as usize + 1 {
        shift += cancel(weights, variable);
    }
    shift
}

/// The same for one variable.
fn cancel(weights: &mut Vec<Weight>, variable: usize) -> Weight
    requires { 2 * variable + 1 < length weights.old.items }
    ensures { IsLowered weights.old.items variable weights.new.items result }
{
    let at = 2 * variable;
    let low = lower(weights[at], weights[at + 1]);
    weights[at] -= low;
    weights[at + 1] -= low;
    low
}

fn lower(first: Weight, second: Weight) -> Weight
    ensures first { result ≤ first }
    ensures second { result ≤ second }
    ensures one { (result ≡ first) ⊎ (result ≡ second) }
{
    if first < second { first } else { second }
}

/// The costs of the literals whose weights differ from those of the store.
fn note_all(alloc: Global, store: &Store, weights: &[Weight]) -> Result<Costs, NoMemory>
    requires many { length weights.now ≡ width store.now.vars }
    requires none { (q : ℕ) → q < 2 → slice_index weights.now q ≡ 0 }
    ensures { IfOk result (λ costs. AreNoted store.now.vars store.now.weights weights.now (width store.now.vars) costs) }
{
    // what holds of each store gives each literal a weight
    let vars = store.vars();
    let mut costs = ListOf::new(alloc);
    for below in 0..vars {
        note(&mut costs, store, weights, Lit::new(below + 1, false))?;
        note(&mut costs, store, weights, Lit::new(below + 1, true))?;
    }
    Ok(costs)
}

/// Notes the cost of a literal, if its weight differs.
fn note(costs: &mut Costs, store: &Store, weights: &[Weight], lit: Lit) -> Result<(), NoMemory>
    requires sound { IsStore store.now }
    requires many { length weights.now ≡ width store.now.vars }
    requires up { IsUpTo store.now.vars lit }
    requires noted { AreNoted store.now.vars store.now.weights weights.now (place_of lit) costs.old }
    ensures { OnOk result (AreNoted store.now.vars store.now.weights weights.now (place_of lit + 1) costs.new) }
{
    let weight = weights[place(lit)];
    if weight == store.weight(lit) {
        return Ok(());
    }
    costs.push(Cost { lit, weight })?;
    Ok(())
}
