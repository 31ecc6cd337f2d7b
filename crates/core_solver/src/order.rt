use mp_logic::{Lit, NoMemory};
use std::alloc::Global;

// A score above it lets all scores be made smaller.
const MUCH: u64 = 1 << 60;

// By how many places all scores are then moved to the right.
const SHIFT: u32 = 40;

// No heap of so many variables as there can be is deeper.
const DEPTH: usize = 33;

/// Variables by activity: those that the latest conflicts spoke of come first (VSIDS, Moskewicz and others 2001, with the
/// growing step of Eén and Sörensson 2003), and those as active as one another by number. Each variable has the value that
/// it had last as its phase (Pipatsrisawat, Darwiche 2007), false at first.
///
/// Nothing is claimed of an order but that its calls are safe and end: whatever a search decides next, its verdict is right.
/// So its tables are read where they have an entry, and its loops are as long as the heap is deep.
#[derive(Drop)]
pub struct Order {
    // by variable
    scores: Vec<u64>,
    // what a conflict adds to the score of a variable
    step: u64,
    // the variables that may have no value: each comes before the two below it
    heap: Vec<u32>,
    // by variable: one more than its place in the heap, 0 where it isn't there
    places: Vec<usize>,
    // by variable: whether it was false
    phases: Vec<bool>,
}

impl Order {
    /// All variables, none more active than another.
    pub fn new(alloc: Global, vars: u32) -> Result<Order, NoMemory> {
        let mut heap = Vec::with_capacity(alloc, vars as usize)?;
        let mut places = vec![in alloc; 0; vars as usize + 1]?;
        for place in 0..vars {
            heap.push(place + 1)?;
            places[place as usize + 1] = place as usize + 1;
        }
        Ok(Order {
            scores: vec![in alloc; 0; vars as usize + 1]?,
            step: 1 << 20,
            heap,
            places,
            phases: vec![in alloc; true; vars as usize + 1]?,
        })
    }

    /// How many variables it has.
    pub fn len(&self) -> usize {
        self.heap.len()
    }

    /// The value that the variable had last, as the sign of a literal.
    pub fn phase(&self, variable: u32) -> bool {
        match self.phases.get(variable as usize) {
            Some(negative) => *negative,
            None => true,
        }
    }

    /// Takes out the variable that comes first.
    pub fn pop(&mut self) -> Option<u32> {
        let last = self.heap.pop()?;
        let first = match self.at(0) {
            Some(first) => {
                self.set(0, last);
                self.sink();
                first
            }
            None => last,
        };
        self.set_place(first, 0);
        Some(first)
    }

    /// Takes the literals back that a search no longer makes true.
    pub fn release(&mut self, lits: &[Lit]) -> Result<(), NoMemory> {
        for lit in lits {
            if let Some(phase) = self.phases.get_mut(lit.variable as usize) {
                *phase = lit.negative;
            }
            self.put(lit.variable)?;
        }
        Ok(())
    }

    /// Raises the score of the variables of some literals.
    pub fn bump(&mut self, lits: &[Lit]) {
        for lit in lits {
            self.raise(lit.variable);
        }
    }

    /// Lets later conflicts count more.
    pub fn grow(&mut self) {
        self.step = self.step.saturating_add(self.step / 16);
    }

    // Puts a variable in, unless it is there.
    fn put(&mut self, variable: u32) -> Result<(), NoMemory> {
        if self.place(variable) == Some(0) {
            self.heap.push(variable)?;
            let place = self.heap.len();
            self.set_place(variable, place);
            self.lift(place - 1);
        }
        Ok(())
    }

    fn raise(&mut self, variable: u32) {
        let score = self.score(variable).saturating_add(self.step);
        if let Some(old) = self.scores.get_mut(variable as usize) {
            *old = score;
        }
        if let Some(after) = self.place(variable) {
            self.lift(after.saturating_sub(1));
        }
        if score > MUCH {
            self.shrink();
        }
    }

    // Makes all scores smaller; the order stays, but for those that are now as active as one another.
    fn shrink(&mut self) {
        for score in &mut self.scores {
            *score >>= SHIFT;
        }
        self.step >>= SHIFT;
    }

    // Lifts the variable at a place of the heap above those that come after it.
    fn lift(&mut self, from: usize) {
        let Some(variable) = self.at(from) else {
            return;
        };
        let mut place = from;
        for _ in 0..DEPTH {
            let Some(above) = self.above(place, variable) else {
                break;
            };
            self.move_to(above, place);
            place = above;
        }
        self.set(place, variable);
    }

    // Lets the variable at the top of the heap sink below those that come before it.
    fn sink(&mut self) {
        let Some(variable) = self.at(0) else {
            return;
        };
        let mut place = 0;
        for _ in 0..DEPTH {
            let Some(below) = self.below(place, variable) else {
                break;
            };
            self.move_to(below, place);
            place = below;
        }
        self.set(place, variable);
    }

    // The place above, where its variable comes after this one.
    fn above(&self, place: usize, variable: u32) -> Option<usize> {
        if place == 0 {
            return None;
        }
        let above = (place - 1) / 2;
        if self.comes_before(variable, self.at(above)?) {
            return Some(above);
        }
        None
    }

    // The place below whose variable comes first, where that comes before this one.
    fn below(&self, place: usize, variable: u32) -> Option<usize> {
        let left = place.saturating_mul(2).saturating_add(1);
        let right = left.saturating_add(1);
        let first = self.at(left)?;
        let (below, best) = match self.at(right) {
            Some(second) if self.comes_before(second, first) => (right, second),
            _ => (left, first),
        };
        if self.comes_before(best, variable) {
            return Some(below);
        }
        None
    }

    fn comes_before(&self, a: u32, b: u32) -> bool {
        let (x, y) = (self.score(a), self.score(b));
        x > y || (x == y && a < b)
    }

    fn score(&self, variable: u32) -> u64 {
        match self.scores.get(variable as usize) {
            Some(score) => *score,
            None => 0,
        }
    }

    fn at(&self, place: usize) -> Option<u32> {
        match self.heap.get(place) {
            Some(variable) => Some(*variable),
            None => None,
        }
    }

    fn place(&self, variable: u32) -> Option<usize> {
        match self.places.get(variable as usize) {
            Some(place) => Some(*place),
            None => None,
        }
    }

    fn move_to(&mut self, from: usize, to: usize) {
        if let Some(variable) = self.at(from) {
            self.set(to, variable);
        }
    }

    fn set(&mut self, place: usize, variable: u32) {
        if let Some(there) = self.heap.get_mut(place) {
            *there = variable;
        }
        self.set_place(variable, place.saturating_add(1));
    }

    fn set_place(&mut self, variable: u32, after: usize) {
        if let Some(place) = self.places.get_mut(variable as usize) {
            *place = after;
        }
    }
}
