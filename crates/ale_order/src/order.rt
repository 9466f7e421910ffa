//! The order of dependence, or the first number that leads back to itself.

ghost use Rattle.std.specs.Prelude.{ℕ, IfOk, IsTrue};
ghost use Rattle.ale_relation.specs.Paths.{ends_below};
ghost use Rattle.ale_order.specs.Answers.{Answers};

use crate::graph::CallGraph;
use crate::groups::{first_in_own_group, groups};
use crate::search::left_in_depth;
use std::alloc::{AllocError, Global};

/// How things that call one another depend on each other.
#[derive(Debug, Drop)]
pub enum Dependence {
    /// Each once, and after all that it calls.
    InOrder(Vec<usize>),
    /// The first that leads back to itself by one or more calls.
    Cyclic(usize),
}

/// The order of dependence of the numbers below `size`, or the first that leads back to itself;
/// `calls` has pairs of one that calls and one that it calls, both below `size`, in any order.
///
/// By the algorithm of Kosaraju (Sharir 1981; Aho, Hopcroft, Ullman 1983), which takes a step for each
/// number and one for each call, whether some lead back to themselves or not. The error is want of memory.
pub fn order_of_dependence(
    alloc: Global,
    size: usize,
    calls: &[(usize, usize)],
) -> Result<Dependence, AllocError>
    requires within { IsTrue (ends_below size calls.now) }
    ensures { IfOk result (λ r. Answers calls.now size r) }
{
    let graph = CallGraph::new(alloc, size, calls)?;
    let mut order = left_in_depth(alloc, size, &graph)?.into_items();
    order.reverse();
    let groups = groups(alloc, size, &graph, &order)?;
    if let Some(m) = first_in_own_group(size, &graph, &groups) {
        return Ok(Dependence::Cyclic(m));
    }
    order.reverse();
    Ok(Dependence::InOrder(order))
}
