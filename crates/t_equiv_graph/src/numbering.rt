//! Strongly connected components by one search in depth (Tarjan, 1972). The search isn't proved: beside each number it notes
//! what shows that the number is right, a step towards the first node of the component and one away from it, each with a
//! rank that falls, so that steps of one number lead from each node to that first one and back. One pass over steps and nodes
//! checks this; it never fails, but where it did, the numbers would be found by spreading from each node instead, slowly.
//! Search and check are linear in nodes and steps.
ghost use Rattle.std.specs.Prelude.{◌≡◌, ◌<◌, ◌^◌, length, All, IfOk};
ghost use Rattle.t_equiv_graph.specs.Graphs.{AreComponents};

use crate::checking::is_shown;
use crate::searching::find_witness;
use crate::spreading::numbers_by_spreading;
use std::alloc::{AllocError, Global};

/// The numbers of the nodes' components; nodes count from 0, and the k-th step goes from `from[k]` to `to[k]`. Its one error is
/// want of memory.
pub fn components(
    alloc: Global,
    count: usize,
    from: &[u32],
    to: &[u32],
) -> Result<Vec<u64>, AllocError>
    requires count { count < 2 ^ 32 }
    requires steps { length from.now < 2 ^ 32 }
    requires even { length from.now ≡ length to.now }
    requires starts { All (λ x. x < count) from.now }
    requires ends { All (λ x. x < count) to.now }
    ensures { IfOk result (λ numbers. AreComponents count from.now to.now numbers.items) }
{
    let found = find_witness(alloc, count, from, to)?;
    if is_shown(count, from, to, &found) {
        return Ok(found.numbers);
    }
    numbers_by_spreading(alloc, count, from, to)
}
