ghost use Rattle.std.specs.Prelude.{◌≡◌};
ghost use Rattle.ale_graph.specs.Closure.{place, class_of, node_of};

use crate::fact::Fact;
use crate::graph::Graph;
use crate::partition::class_of;
use ale_signature::Row;

/// A closure: the facts with those that it added, the next node, the class of each node, and the graph of
/// the classes.
#[derive(Debug, Drop)]
pub struct Closed {
    pub facts: Row<Fact>,
    pub next: usize,
    pub class: Row<usize>,
    pub graph: Graph,
}

impl Closed {
    /// The class of a node; a node of which the closure does not know is a class of its own.
    pub fn class_of(&self, node: usize) -> usize
        ensures { result ≡ class_of self.now node }
    {
        class_of(self.class.as_slice(), node)
    }

    /// The node of the graph that the class of a node is.
    pub fn node_of(&self, node: usize) -> usize
        ensures { result ≡ node_of self.now node }
    {
        self.count_below(self.class_of(node))
    }

    // How many classes are below a number.
    fn count_below(&self, top: usize) -> usize
        ensures { result ≡ place (class_of self.now) top }
    {
        let mut count = 0;
        for node in 0..top {
            if self.class_of(node) == node {
                count += 1;
            }
        }
        count
    }
}
