use crate::node::Node;
use ale_signature::Row;
use std::marker::Model;

/// A typed feature structure: its nodes, the pairs of nodes that differ, and its roots.
#[derive(Debug, Drop)]
pub struct Graph {
    pub nodes: Row<Node>,
    pub differ: Row<(usize, usize)>,
    pub roots: Row<Option<usize>>,
}

impl Model for Graph {
    ghost use Rattle.std.specs.Prelude.{IsTrue};
    ghost use Rattle.ale_graph.specs.Structures.{Structure, is_formed};

    ghost Value = { Structure };

    ghost view = { λ g. record { nodes = g.nodes; differ = g.differ; roots = g.roots } };

    ghost inverse = { λ s. record { nodes = s.nodes; differ = s.differ; roots = s.roots } };

    ghost invariant = { λ g. IsTrue (is_formed (record { nodes = g.nodes; differ = g.differ; roots = g.roots })) };
}
