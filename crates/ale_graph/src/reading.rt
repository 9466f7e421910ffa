ghost use Rattle.std.specs.Prelude.{◌≡◌};
ghost use Rattle.ale_graph.specs.Structures.{type_of, value_of};

use crate::graph::Graph;
use crate::table::value_among;
use ale_signature::{FeatId, TypeId};

impl Graph {
    /// The type of a node; past the last node the most general one.
    pub fn type_of(&self, node: usize) -> TypeId
        ensures { result ≡ type_of self.now node }
    {
        match self.nodes.as_slice().get(node) {
            Some(found) => found.of,
            None => TypeId::of(0),
        }
    }

    /// The value of a node by a feature; None where the node has no such value.
    pub fn value(&self, node: usize, feature: FeatId) -> Option<usize>
        ensures { result ≡ value_of self.now node feature }
    {
        match self.nodes.as_slice().get(node) {
            Some(found) => value_among(found.values.as_slice(), feature),
            None => None,
        }
    }
}
