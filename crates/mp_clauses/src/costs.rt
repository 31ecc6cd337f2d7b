ghost use Rattle.std.specs.Prelude.{◌≡◌, ◌==◌, cond, ◌+◌, ◌<◌, ◌≤◌, ◌++◌, ◌^◌, IfOk, OnOk, length, All, replicate, slice_index, slice_set, vec_len, vec_capacity};
ghost use Rattle.mp_clauses.specs.Places.{place_of};
ghost use Rattle.mp_clauses.specs.Weighing.{costs_of, weighted};
ghost use Rattle.mp_clauses.specs.Numbering.{numbered, AreNumbered};

use crate::places::place;
use mp_logic::{Cost, Costs, ListOf, Lit, NoMemory, Weight};
use std::alloc::Global;
use std::marker::Model;

/// The weight of the literal of each place, 0 for none. Weights are large and most literals have none, so a place has the
/// number of its weight in a list of those that there ever were, the first of which is 0.
#[derive(Drop)]
pub struct CostTable {
    numbers: Vec<u32>,
    weights: Vec<Weight>,
    count: u64,
}

impl Model for CostTable {
    ghost use Rattle.std.specs.Prelude.{◌≡◌, ◌-◌, ◌^◌, length, min, vec_len, vec_capacity};
    ghost use Rattle.mp_clauses.specs.Tables.{Prices};
    ghost use Rattle.mp_clauses.specs.Weighing.{costs_of};
    ghost use Rattle.mp_clauses.specs.Numbering.{numbered, AreNumbered};

    ghost Value = { Prices };

    ghost view = { λ t. record { weights = numbered t.weights.items t.numbers.items; free = vec_capacity t.numbers - vec_len t.numbers; free_costs = min (vec_capacity t.weights - vec_len t.weights) (2 ^ 32 - vec_len t.weights) } };

    ghost invariant = { λ t. AreNumbered t.numbers.items t.weights.items × (t.count ≡ length (costs_of (numbered t.weights.items t.numbers.items))) };
}

/// Puts so many literals without weight last.
fn lengthen(numbers: &mut Vec<u32>, more: usize)
    requires { vec_len numbers.old + more ≤ vec_capacity numbers.old }
    ensures { numbers.new.items ≡ numbers.old.items ++ replicate more 0 }
{
    for _ in 0..more {
        numbers.push_reserved(0);
    }
}

/// 1 for a weight that counts, 0 for 0.
fn counted(weight: Weight) -> u64
    ensures { result ≡ cond (weight == 0) 0 1 }
{
    u64::from(weight != 0)
}

/// Puts one weight in. The first weight of a literal gets the next number.
fn set(numbers: &mut Vec<u32>, weights: &mut Vec<Weight>, place: usize, weight: Weight)
    requires within { place < length numbers.old.items }
    requires numbered { AreNumbered numbers.old.items weights.old.items }
    requires room { vec_len weights.old + 1 ≤ vec_capacity weights.old }
    requires few { vec_len weights.old < 2 ^ 32 }
    ensures numbered { AreNumbered numbers.new.items weights.new.items }
    ensures weights { numbered weights.new.items numbers.new.items ≡ slice_set (numbered weights.old.items numbers.old.items) place weight }
    ensures len { length numbers.new.items ≡ length numbers.old.items }
    ensures more { vec_len weights.new ≤ vec_len weights.old + 1 }
    ensures room { vec_capacity weights.new ≡ vec_capacity weights.old }
{
    let number = numbers[place] as usize;
    if number != 0 {
        weights[number] = weight;
        return;
    }
    if weight == 0 {
        return;
    }
    numbers[place] = weights.len() as u32;
    weights.push_reserved(weight);
}

/// Puts one weight in, and keeps count of those that are not 0.
fn put(
    numbers: &mut Vec<u32>,
    weights: &mut Vec<Weight>,
    count: &mut u64,
    place: usize,
    weight: Weight,
)
    requires within { place < length numbers.old.items }
    requires numbered { AreNumbered numbers.old.items weights.old.items }
    requires room { vec_len weights.old + 1 ≤ vec_capacity weights.old }
    requires few { vec_len weights.old < 2 ^ 32 }
    requires count { count.old ≡ length (costs_of (numbered weights.old.items numbers.old.items)) }
    ensures numbered { AreNumbered numbers.new.items weights.new.items }
    ensures weights { numbered weights.new.items numbers.new.items ≡ slice_set (numbered weights.old.items numbers.old.items) place weight }
    ensures count { count.new ≡ length (costs_of (numbered weights.new.items numbers.new.items)) }
    ensures len { length numbers.new.items ≡ length numbers.old.items }
    ensures more { vec_len weights.new ≤ vec_len weights.old + 1 }
    ensures room { vec_capacity weights.new ≡ vec_capacity weights.old }
{
    let was = counted(weights[numbers[place] as usize]);
    let is = counted(weight);
    set(numbers, weights, place, weight);
    *count = *count - was + is;
}

/// Puts the weights in.
fn weigh(numbers: &mut Vec<u32>, weights: &mut Vec<Weight>, count: &mut u64, costs: &[Cost])
    requires within { All (λ c. place_of c.lit < length numbers.old.items) costs.now }
    requires numbered { AreNumbered numbers.old.items weights.old.items }
    requires room { vec_len weights.old + length costs.now ≤ vec_capacity weights.old }
    requires few { vec_len weights.old + length costs.now ≤ 2 ^ 32 }
    requires count { count.old ≡ length (costs_of (numbered weights.old.items numbers.old.items)) }
    ensures numbered { AreNumbered numbers.new.items weights.new.items }
    ensures weights { numbered weights.new.items numbers.new.items ≡ weighted costs.now (numbered weights.old.items numbers.old.items) }
    ensures count { count.new ≡ length (costs_of (numbered weights.new.items numbers.new.items)) }
{
    for cost in costs {
        put(numbers, weights, count, place(cost.lit), cost.weight);
    }
}

impl CostTable {
    /// A table without costs.
    pub fn new(alloc: Global, places: usize) -> Result<CostTable, NoMemory>
        ensures { IfOk result (λ t. t.weights ≡ replicate places 0) }
    {
        let mut numbers = Vec::with_capacity(alloc, places)?;
        lengthen(&mut numbers, places);
        let mut weights = Vec::new(alloc);
        weights.push(0)?;
        Ok(CostTable {
            numbers,
            weights,
            count: 0,
        })
    }

    /// Keeps memory for so many more places and so many changes of costs.
    pub fn reserve(&mut self, more: usize, costs: usize) -> Result<(), NoMemory>
        ensures weights { self.new.weights ≡ self.old.weights }
        ensures ok { OnOk result (more ≤ self.new.free) }
        ensures costs { OnOk result (costs ≤ self.new.free_costs) }
    {
        // numbers have 32 bits
        if costs > (1 << 32) - self.weights.len() {
            return Err(NoMemory);
        }
        self.numbers.reserve(more)?;
        self.weights.reserve(costs)?;
        Ok(())
    }

    /// Puts so many places last, and then the weights in.
    pub fn change(&mut self, costs: &[Cost], more: usize)
        requires room { more ≤ self.old.free }
        requires costs { length costs.now ≤ self.old.free_costs }
        requires within { All (λ c. place_of c.lit < length self.old.weights + more) costs.now }
        ensures { self.new.weights ≡ weighted costs.now (self.old.weights ++ replicate more 0) }
    {
        lengthen(&mut self.numbers, more);
        weigh(&mut self.numbers, &mut self.weights, &mut self.count, costs);
    }

    /// Puts so many places last, and takes every cost away.
    pub fn clear(&mut self, more: usize)
        requires { more ≤ self.old.free }
        ensures { self.new.weights ≡ replicate (length self.old.weights + more) 0 }
    {
        let places = self.numbers.len() + more;
        self.numbers.clear();
        lengthen(&mut self.numbers, places);
        self.count = 0;
    }

    /// The weight of the literal of a place, 0 where it has no cost.
    pub fn weight(&self, place: usize) -> Weight
        ensures { result ≡ slice_index self.now.weights place }
    {
        match self.numbers.get(place) {
            Some(number) => self.weights[*number as usize],
            None => 0,
        }
    }

    /// How many cost literals there are.
    pub fn count(&self) -> u64
        ensures { result ≡ length (costs_of self.now.weights) }
    {
        self.count
    }

    /// The cost literals, in order of variable.
    pub fn list(&self, alloc: Global) -> Result<Costs, NoMemory>
        requires no_variable { (slice_index self.now.weights 0 ≡ 0) × (slice_index self.now.weights 1 ≡ 0) }
        requires within { length self.now.weights ≤ 2 ^ 33 }
        ensures { IfOk result (λ made. made ≡ costs_of self.now.weights) }
    {
        let mut made = ListOf::new(alloc);
        for place in 2..self.numbers.len() {
            let weight = self.weight(place);
            if weight != 0 {
                let lit = Lit::new((place / 2) as u32, place % 2 == 1);
                made.push(Cost { lit, weight })?;
            }
        }
        Ok(made)
    }
}
