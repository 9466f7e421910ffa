ghost use Rattle.std.specs.Prelude.{◌≡◌, ℕ, ◌<◌, ◌≤◌, ◌↔◌, IfOk, IsTrue};
ghost use Rattle.ale_relation.specs.Has.{Has};
ghost use Rattle.ale_relation.specs.Paths.{Leads, ends_below};
ghost use Rattle.ale_relation.specs.Rows.{holds};

use crate::rows::Relation;
use std::alloc::{AllocError, Global};

/// What the edges lead to: `a` stands to `b` if one or more of `edges` lead from `a` to `b`, each of
/// them a pair of its start and its end, below `size`.
///
/// By the algorithm of Warshall (1962), which takes a step for each pair, and one for each word of
/// each row that it joins to another. The error is want of memory.
pub fn reachability(
    alloc: Global,
    size: usize,
    edges: &[(usize, usize)],
) -> Result<Relation, AllocError>
    requires small { size ≤ 65536 }
    requires within { IsTrue (ends_below size edges.now) }
    ensures size { IfOk result (λ r. r.size ≡ size) }
    ensures leads { IfOk result
        (λ r. (a b : ℕ) → a < size → b < size → IsTrue (holds r a b) ↔ Leads edges.now a b) }
{
    let mut relation = from_edges(alloc, size, edges)?;
    for middle in 0..size {
        relation.pass_through(middle);
    }
    Ok(relation)
}

/// The relation of the edges themselves.
fn from_edges(alloc: Global, size: usize, edges: &[(usize, usize)]) -> Result<Relation, AllocError>
    requires small { size ≤ 65536 }
    requires within { IsTrue (ends_below size edges.now) }
    ensures size { IfOk result (λ r. r.size ≡ size) }
    ensures has { IfOk result
        (λ r. (a b : ℕ) → a < size → b < size → IsTrue (holds r a b) ↔ Has edges.now (a, b)) }
{
    let mut relation = Relation::new(alloc, size)?;
    for &(from, to) in edges {
        relation.add(from, to);
    }
    Ok(relation)
}
