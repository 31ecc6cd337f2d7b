//! The check of a witness, in one pass over the steps and two over the nodes.
ghost use Rattle.std.specs.Prelude.{◌≡◌, length, IsTrue};
ghost use Rattle.t_equiv_graph.specs.Graphs.{AreComponents};
ghost use Rattle.t_equiv_graph.specs.Witnesses.{NeverRise, IsLed, AreLed};

/// Numbers of nodes, and what shows that they are right.
#[derive(Drop)]
pub struct Witness {
    pub numbers: Vec<u64>,
    pub roots: Vec<u32>,
    pub up_steps: Vec<u32>,
    pub up_ranks: Vec<u64>,
    pub down_steps: Vec<u32>,
    pub down_ranks: Vec<u64>,
}

/// Whether no step leads to a higher number.
fn never_rise(from: &[u32], to: &[u32], numbers: &[u64]) -> bool
    requires { length from.now ≡ length to.now }
    ensures { IsTrue result → NeverRise from.now to.now numbers.now }
{
    for k in 0..from.len() {
        let start = from[k] as usize;
        let end = to[k] as usize;
        if start >= numbers.len() || end >= numbers.len() {
            return false;
        }
        if numbers[start] < numbers[end] {
            return false;
        }
    }
    true
}

/// Whether a node is the root of its number, or its step leads to one of its number and of lower rank.
fn is_led(
    from: &[u32],
    to: &[u32],
    numbers: &[u64],
    roots: &[u32],
    steps: &[u32],
    ranks: &[u64],
    node: usize,
) -> bool
    requires { length from.now ≡ length to.now }
    ensures { IsTrue result → IsLed from.now to.now numbers.now roots.now steps.now ranks.now node }
{
    if node >= numbers.len() || node >= steps.len() || node >= ranks.len() {
        return false;
    }
    let number = numbers[node];
    if number >= roots.len() as u64 {
        return false;
    }
    if roots[number as usize] as usize == node {
        return true;
    }
    let step = steps[node] as usize;
    if step >= from.len() || from[step] as usize != node {
        return false;
    }
    let next = to[step] as usize;
    if next >= numbers.len() || next >= ranks.len() {
        return false;
    }
    numbers[next] == number && ranks[next] < ranks[node]
}

/// Whether that holds of every node.
fn are_led(
    from: &[u32],
    to: &[u32],
    numbers: &[u64],
    roots: &[u32],
    steps: &[u32],
    ranks: &[u64],
) -> bool
    requires { length from.now ≡ length to.now }
    ensures { IsTrue result → AreLed from.now to.now numbers.now roots.now steps.now ranks.now }
{
    for node in 0..numbers.len() {
        if !is_led(from, to, numbers, roots, steps, ranks, node) {
            return false;
        }
    }
    true
}

/// Whether the witness shows that its numbers are those of components.
pub fn is_shown(count: usize, from: &[u32], to: &[u32], witness: &Witness) -> bool
    requires { length from.now ≡ length to.now }
    ensures { IsTrue result → AreComponents count from.now to.now witness.now.numbers.items }
{
    let numbers = witness.numbers.as_slice();
    let roots = witness.roots.as_slice();
    if numbers.len() != count || !never_rise(from, to, numbers) {
        return false;
    }
    let up_steps = witness.up_steps.as_slice();
    let up_ranks = witness.up_ranks.as_slice();
    if !are_led(from, to, numbers, roots, up_steps, up_ranks) {
        return false;
    }
    let down_steps = witness.down_steps.as_slice();
    let down_ranks = witness.down_ranks.as_slice();
    are_led(to, from, numbers, roots, down_steps, down_ranks)
}
