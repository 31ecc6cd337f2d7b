//! The labels that match because one of two is in no clause: such labels have no clause through which to find one another,
//! so they are kept in classes of one weight.
//!
//! A label in no clause matches each other plain label of its weight, so the lowest one of the class is its partner, or the
//! next one where it is the lowest itself, which is once in each class. A label that some clause has matches those in no
//! clause. A label comes to be in a clause or to lose its cost once and for all, so those that are passed over are so for
//! good, and all look-ups together pass over each label once.
ghost use Rattle.std.specs.Prelude.{◌≡◌, ◌≢◌, ◌↔◌, ◌++◌, ◌∷◌, [], ◌<◌, ◌≤◌, ℕ, IfOk, OnOk, IsTrue, Contains, MatchOption, Some, drop, length, nat_eq, slice_index_or};
ghost use Rattle.std.specs.HashMap.{get};
ghost use Rattle.mp_logic.specs.Literal.{Literal};
ghost use Rattle.mp_logic.specs.SubsumedLabels.{IsPlain};
ghost use Rattle.mp_clauses.specs.Places.{literal_at};
ghost use Rattle.mp_clauses.specs.Slots.{live_clauses};
ghost use Rattle.mp_clauses.specs.Weighing.{weight_in};
ghost use Rattle.mp_store.specs.Held.{labelled_of};
ghost use Rattle.t_matching.specs.FreePartners.{AreKnown, HasClasses, IsClass, IsInOrder, IsLabel, IsUnusedLabel, class_of, no_class};
ghost use Rattle.t_matching.specs.LabelPairs.{label_places};
ghost use Rattle.t_matching.specs.Pairing.{IsFreePartner};

use crate::costs::{is_plain, label_at};
use crate::match_partners::{free_partner, is_unused};
use mp_logic::{Clause, Lit, NoMemory, Weight, normalise};
use mp_store::Store;
use std::alloc::Global;
use std::collections::HashMap;

/// The labels that were plain at first, in classes by weight.
#[derive(Drop)]
pub struct FreeLabels {
    numbers: HashMap<Weight, usize>,
    classes: Vec<WeightClass>,
}

/// Labels of one weight, rising. Among the first so many, which are passed over, none is left that no clause has.
#[derive(Drop)]
struct WeightClass {
    labels: Clause,
    passed: usize,
}

impl FreeLabels {
    /// Those of a store, given the places of all labels.
    pub fn of(alloc: Global, store: &Store, items: &[u64]) -> Result<FreeLabels, NoMemory>
        requires { items.now ≡ label_places (labelled_of store.now) }
        ensures { IfOk result (λ made. AreKnown made store.now) }
    {
        let mut made = FreeLabels {
            numbers: HashMap::new(alloc),
            classes: Vec::new(alloc),
        };
        for item in items {
            if let Some(lit) = plain_at(store, *item) {
                made.put(alloc, lit, store.weight(lit))?;
            }
        }
        put_in_order(&mut made.classes);
        Ok(made)
    }

    /// The lowest label that matches a plain one because one of the two is in no clause.
    pub fn lowest(&mut self, store: &Store, lit: Lit) -> Option<Lit>
        requires label { weight_in store.now.weights lit ≢ 0 }
        requires plain { IsPlain lit (live_clauses store.now.slots) }
        requires fits { AreKnown self.old store.now }
        ensures lowest { IsFreePartner lit (labelled_of store.now) result }
        ensures fits { AreKnown self.new store.now }
    {
        let weight = store.weight(lit);
        let Some(number) = self.numbers.get(&weight).copied() else {
            return None;
        };
        let class = &mut self.classes[number];
        class.lowest(store, lit, weight)
    }

    // Puts a label last in the class of its weight.
    fn put(&mut self, alloc: Global, lit: Lit, weight: Weight) -> Result<(), NoMemory>
        requires numbers { HasClasses self.old }
        ensures numbers { OnOk result (HasClasses self.new) }
        ensures own { OnOk result (Contains (class_of self.new weight).labels lit) }
        ensures others { OnOk result ((w : ℕ) (m : Literal) → Contains (class_of self.old w).labels m → Contains (class_of self.new w).labels m) }
        ensures passed { OnOk result ((w : ℕ) → (class_of self.new w).passed ≡ (class_of self.old w).passed) }
    {
        let number = self.number(alloc, weight)?;
        let class = &mut self.classes[number];
        class.put(lit)?;
        Ok(())
    }

    // The number of the class of a weight, which is made where there is none.
    fn number(&mut self, alloc: Global, weight: Weight) -> Result<usize, NoMemory>
        requires numbers { HasClasses self.old }
        ensures numbers { OnOk result (HasClasses self.new) }
        ensures own { IfOk result (λ k. get nat_eq self.new.numbers weight ≡ Some k) }
        ensures same { OnOk result ((w : ℕ) → class_of self.new w ≡ class_of self.old w) }
    {
        if let Some(number) = self.numbers.get(&weight).copied() {
            return Ok(number);
        }
        let number = self.classes.len();
        self.classes.push(WeightClass {
            labels: Clause::new(alloc),
            passed: 0,
        })?;
        self.numbers.insert(weight, number)?;
        Ok(number)
    }
}

impl WeightClass {
    // The lowest label that matches a plain one of the class because one of the two is in no clause.
    fn lowest(&mut self, store: &Store, lit: Lit, weight: Weight) -> Option<Lit>
        requires weight { weight ≡ weight_in store.now.weights lit }
        requires label { weight_in store.now.weights lit ≢ 0 }
        requires plain { IsPlain lit (live_clauses store.now.slots) }
        requires class { IsClass weight self.old store.now }
        ensures lowest { IsFreePartner lit (labelled_of store.now) result }
        ensures kept { (w : ℕ) → IsClass w self.old store.now → IsClass w self.new store.now }
    {
        // what holds of each store puts labels within its variables
        let _ = store.vars();
        if is_unused(store, lit) {
            return free_partner(store, lit, weight, self.labels.items());
        }
        self.passed = first_unused(store, self.labels.items(), self.passed);
        free_partner(store, lit, weight, &self.labels.items()[self.passed..])
    }

    fn put(&mut self, lit: Lit) -> Result<(), NoMemory>
        ensures labels { OnOk result (self.new.labels ≡ self.old.labels ++ lit ∷ []) }
        ensures passed { OnOk result (self.new.passed ≡ self.old.passed) }
    {
        self.labels.push(lit)
    }

    fn put_in_order(&mut self)
        ensures { IsInOrder self.old self.new }
    {
        normalise(&mut self.labels);
    }
}

/// Puts the labels of each class in order.
fn put_in_order(classes: &mut Vec<WeightClass>)
    ensures len { length classes.new.items ≡ length classes.old.items }
    ensures each { (k : ℕ) → IsInOrder (slice_index_or classes.old.items k no_class) (slice_index_or classes.new.items k no_class) }
{
    for number in 0..classes.len() {
        let class = &mut classes[number];
        class.put_in_order();
    }
}

/// The place of the first label from a place on that no clause has, or the end.
fn first_unused(store: &Store, labels: &[Lit], start: usize) -> usize
    requires { start ≤ length labels.now }
    ensures from { start ≤ result }
    ensures within { result ≤ length labels.now }
    ensures unused { (l : Literal) → result < length labels.now → IsUnusedLabel (slice_index_or labels.now result l) store.now }
    ensures behind { (m : Literal) → IsUnusedLabel m store.now → Contains (drop start labels.now) m → Contains (drop result labels.now) m }
{
    for place in start..labels.len() {
        if is_unused_label(store, labels[place]) {
            return place;
        }
    }
    labels.len()
}

/// Whether the literal is a label that no clause has.
fn is_unused_label(store: &Store, lit: Lit) -> bool
    ensures { IsTrue result ↔ IsUnusedLabel lit store.now }
{
    // what holds of each store puts labels within its variables
    let _ = store.vars();
    if store.weight(lit) == 0 {
        return false;
    }
    is_unused(store, lit)
}

/// The label of the place, where it is plain.
fn plain_at(store: &Store, item: u64) -> Option<Lit>
    ensures { MatchOption result (IsLabel (literal_at item) store.now → IsPlain (literal_at item) (live_clauses store.now.slots) → ⊥) (λ l. l ≡ literal_at item) }
{
    // what holds of each store puts labels within its variables
    let _ = store.vars();
    let Some(lit) = label_at(store, item) else {
        return None;
    };
    if !is_plain(store, lit) {
        return None;
    }
    Some(lit)
}
