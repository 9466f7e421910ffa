//! The structure that an answer is printed as.
ghost use Rattle.std.specs.Prelude.{◌≡◌, ◌<◌, Some, [], ◌∷◌, IfOk};
ghost use Rattle.ale_graph.specs.Closure.{node_of};
ghost use Rattle.ale_graph.specs.Structures.{count};
ghost use Rattle.ale_report.specs.Parts.{rooted};

use ale_graph::{Closed, Graph};
use ale_text::Row;
use std::alloc::{AllocError, Global};

// The roots of an answer: the node at which the description holds.
fn roots(alloc: Global, root: usize) -> Result<Row<Option<usize>>, AllocError>
    ensures { IfOk result (λ r. r ≡ Some root ∷ []) }
{
    let mut roots = Vec::with_capacity(alloc, 1)?;
    roots.push(Some(root))?;
    Ok(Row::of(roots))
}

// The graph of the closure, with the node of the description as its root.
pub(crate) fn rooted(alloc: Global, closed: Closed) -> Result<Graph, AllocError>
    requires { node_of closed 0 < count closed.graph }
    ensures { IfOk result (λ g. g ≡ rooted closed) }
{
    let root = closed.node_of(0);
    let roots = roots(alloc, root)?;
    let Closed { graph, .. } = closed;
    let Graph { nodes, differ, .. } = graph;
    Ok(Graph {
        nodes,
        differ,
        roots,
    })
}
