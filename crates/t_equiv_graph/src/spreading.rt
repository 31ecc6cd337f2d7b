//! Components by spreading from each node: slow, and used only where a witness is refused.
ghost use Rattle.std.specs.Prelude.{◌≡◌, ◌<◌, ◌^◌, ◌↔◌, length, All, IfOk, MatchOption, IsTrue, true, false, slice_index_or};
ghost use Rattle.t_equiv_graph.specs.Graphs.{AreComponents, IsJoined};
ghost use Rattle.t_equiv_graph.specs.Spreads.{IsWayOut, IsClosed, IsSpread, yes_of, IsFirst, IsPlace};

use std::alloc::{AllocError, Global};

/// The first step that leads from a seen node to one that isn't seen.
fn way_out(from: &[u32], to: &[u32], seen: &[bool]) -> Option<usize>
    requires even { length from.now ≡ length to.now }
    requires starts { All (λ x. x < length seen.now) from.now }
    requires ends { All (λ x. x < length seen.now) to.now }
    ensures { MatchOption result (IsClosed from.now to.now seen.now) (λ k. IsWayOut from.now to.now seen.now k) }
{
    for k in 0..from.len() {
        let start = from[k] as usize;
        let end = to[k] as usize;
        if start < seen.len() && end < seen.len() {
            if seen[start] {
                if !seen[end] {
                    return Some(k);
                }
            }
        }
    }
    None
}

/// Which nodes a node comes to.
fn spread(
    alloc: Global,
    count: usize,
    from: &[u32],
    to: &[u32],
    node: usize,
) -> Result<Vec<bool>, AllocError>
    requires node { node < count }
    requires even { length from.now ≡ length to.now }
    requires starts { All (λ x. x < count) from.now }
    requires ends { All (λ x. x < count) to.now }
    ensures { IfOk result (λ seen. IsSpread count from.now to.now node seen.items) }
{
    let mut seen = vec![in alloc; false; count]?;
    seen[node] = true;
    'ways: while let Some(k) = way_out(from, to, seen.as_slice()) {
        let end = to[k] as usize;
        seen[end] = true;
    }
    Ok(seen)
}

/// How many are true.
fn many_seen(seen: &[bool]) -> usize
    ensures { result ≡ yes_of seen.now }
{
    let mut total: usize = 0;
    for one in seen {
        if *one {
            total += 1;
        }
    }
    total
}

/// Whether each of two nodes is among those that the other comes to.
fn are_both(seen: &[bool], other: usize, back: &[bool], node: usize) -> bool
    requires other { other < length seen.now }
    requires node { node < length back.now }
    ensures { IsTrue result ↔ (slice_index_or seen.now other false ≡ true × slice_index_or back.now node false ≡ true) }
{
    seen[other] && back[node]
}

/// Whether two nodes are the same or reach each other, where `seen` is what the first comes to.
fn are_joined(
    alloc: Global,
    count: usize,
    from: &[u32],
    to: &[u32],
    node: usize,
    seen: &[bool],
    other: usize,
) -> Result<bool, AllocError>
    requires node { node < count }
    requires other { other < count }
    requires even { length from.now ≡ length to.now }
    requires starts { All (λ x. x < count) from.now }
    requires ends { All (λ x. x < count) to.now }
    requires seen { IsSpread count from.now to.now node seen.now }
    ensures { IfOk result (λ yes. IsTrue yes ↔ IsJoined from.now to.now node other) }
{
    let back = spread(alloc, count, from, to, other)?;
    let both = are_both(seen, other, back.as_slice(), node);
    Ok(both)
}

/// The first node that is joined with a node.
fn first_joined(
    alloc: Global,
    count: usize,
    from: &[u32],
    to: &[u32],
    node: usize,
    seen: &[bool],
) -> Result<usize, AllocError>
    requires node { node < count }
    requires even { length from.now ≡ length to.now }
    requires starts { All (λ x. x < count) from.now }
    requires ends { All (λ x. x < count) to.now }
    requires seen { IsSpread count from.now to.now node seen.now }
    ensures { IfOk result (λ first. IsFirst from.now to.now node first) }
{
    for other in 0..node {
        let joined = are_joined(alloc, count, from, to, node, seen, other)?;
        if joined {
            return Ok(other);
        }
    }
    Ok(node)
}

/// The number of a node: how many nodes it comes to, and then the first node that is joined with it.
fn number_of(
    alloc: Global,
    count: usize,
    from: &[u32],
    to: &[u32],
    node: usize,
) -> Result<u64, AllocError>
    requires count { count < 2 ^ 32 }
    requires node { node < count }
    requires even { length from.now ≡ length to.now }
    requires starts { All (λ x. x < count) from.now }
    requires ends { All (λ x. x < count) to.now }
    ensures { IfOk result (λ number. IsPlace count from.now to.now node number) }
{
    let seen = spread(alloc, count, from, to, node)?;
    let first = first_joined(alloc, count, from, to, node, seen.as_slice())?;
    let many = many_seen(seen.as_slice());
    let row = many * count;
    let number = row + first;
    Ok(number as u64)
}

/// The numbers of all nodes' components.
pub fn numbers_by_spreading(
    alloc: Global,
    count: usize,
    from: &[u32],
    to: &[u32],
) -> Result<Vec<u64>, AllocError>
    requires count { count < 2 ^ 32 }
    requires even { length from.now ≡ length to.now }
    requires starts { All (λ x. x < count) from.now }
    requires ends { All (λ x. x < count) to.now }
    ensures { IfOk result (λ numbers. AreComponents count from.now to.now numbers.items) }
{
    let mut numbers = Vec::new(alloc);
    for node in 0..count {
        numbers.push(number_of(alloc, count, from, to, node)?)?;
    }
    Ok(numbers)
}
