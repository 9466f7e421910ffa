ghost use Rattle.std.specs.Prelude.{◌≡◌, ◌↔◌, ◌<◌, IsTrue};
ghost use Rattle.ale_hierarchy.specs.Order.{hierarchy};
ghost use Rattle.ale_graph.specs.Structures.{count, is_formed};
ghost use Rattle.ale_graph.specs.Morphisms.{IsMorphism};
ghost use Rattle.ale_morphism.specs.Maps.{TypesInside, image};
ghost use Rattle.ale_morphism.specs.MorphismTest.{keeps_values, keeps_node, keeps_nodes, keeps_apart, keeps_root, keeps_roots, is_morphism};

use crate::order::is_above;
use ale_graph::Graph;
use ale_signature::{FeatId, Signature};

/// Where a map takes a node; past its end, to no node of the graph.
fn image(map: &[usize], g: &Graph, node: usize) -> usize
    ensures { result ≡ image map.now g.now node }
{
    match map.get(node) {
        Some(to) => *to,
        None => g.nodes.as_slice().len(),
    }
}

/// Whether the node has the values, through the map.
fn keeps_values(g: &Graph, map: &[usize], node: usize, values: &[(FeatId, usize)]) -> bool
    ensures { result ≡ keeps_values g.now (image map.now g.now) node values.now }
{
    for value in values {
        match g.value(node, value.0) {
            None => return false,
            Some(there) => {
                if there != image(map, g, value.1) {
                    return false;
                }
            }
        }
    }
    true
}

/// Whether the map takes the node to one of at least its type, with its values through the map.
fn keeps_node(sig: &Signature, f: &Graph, g: &Graph, map: &[usize], node: usize) -> bool
    requires below { node < count f.now }
    requires first { TypesInside (hierarchy sig.now) f.now }
    requires second { TypesInside (hierarchy sig.now) g.now }
    ensures { result ≡ keeps_node (hierarchy sig.now) f.now g.now (image map.now g.now) node }
{
    let to = image(map, g, node);
    to < g.nodes.as_slice().len()
        && is_above(sig, f.type_of(node), g.type_of(to))
        && keeps_values(g, map, to, f.nodes.as_slice()[node].values.as_slice())
}

/// Whether the map keeps each node.
fn keeps_nodes(sig: &Signature, f: &Graph, g: &Graph, map: &[usize]) -> bool
    requires first { TypesInside (hierarchy sig.now) f.now }
    requires second { TypesInside (hierarchy sig.now) g.now }
    ensures { result ≡ keeps_nodes (hierarchy sig.now) f.now g.now (image map.now g.now) }
{
    for node in 0..f.nodes.as_slice().len() {
        if !keeps_node(sig, f, g, map, node) {
            return false;
        }
    }
    true
}

/// Whether the map takes the two nodes of each pair to two nodes.
fn keeps_apart(g: &Graph, map: &[usize], pairs: &[(usize, usize)]) -> bool
    ensures { result ≡ keeps_apart (image map.now g.now) pairs.now }
{
    for pair in pairs {
        if image(map, g, pair.0) == image(map, g, pair.1) {
            return false;
        }
    }
    true
}

/// Whether a root that is bound goes to the other one.
fn keeps_root(g: &Graph, map: &[usize], from: Option<usize>, to: Option<usize>) -> bool
    ensures { result ≡ keeps_root (image map.now g.now) from to }
{
    match from {
        None => true,
        Some(node) => match to {
            None => false,
            Some(there) => there == image(map, g, node),
        },
    }
}

/// Whether each root that is bound goes to the root at its place.
fn keeps_roots(g: &Graph, map: &[usize], from: &[Option<usize>], to: &[Option<usize>]) -> bool
    ensures { result ≡ keeps_roots (image map.now g.now) from.now to.now }
{
    for (i, root) in from.iter().enumerate() {
        let there = match to.get(i) {
            None => None,
            Some(root) => *root,
        };
        if !keeps_root(g, map, *root, there) {
            return false;
        }
    }
    true
}

/// Whether the map keeps nodes, differing pairs and roots; and that the first graph is in order.
fn keeps_all(sig: &Signature, f: &Graph, g: &Graph, map: &[usize]) -> bool
    requires first { TypesInside (hierarchy sig.now) f.now }
    requires second { TypesInside (hierarchy sig.now) g.now }
    ensures value { result ≡ is_morphism (hierarchy sig.now) f.now g.now (image map.now g.now) }
    ensures formed { IsTrue (is_formed f.now) }
{
    keeps_nodes(sig, f, g, map)
        && keeps_apart(g, map, f.differ.as_slice())
        && keeps_roots(g, map, f.roots.as_slice(), g.roots.as_slice())
}

/// Whether the map takes each node of f to a node of g of at least its type, with its values, the nodes of
/// differing pairs to two nodes, and each bound root to the root at its place.
pub fn is_morphism(sig: &Signature, f: &Graph, g: &Graph, map: &[usize]) -> bool
    requires first { TypesInside (hierarchy sig.now) f.now }
    requires second { TypesInside (hierarchy sig.now) g.now }
    ensures { IsTrue result ↔ IsMorphism (hierarchy sig.now) f.now g.now (image map.now g.now) }
{
    keeps_all(sig, f, g, map)
}
