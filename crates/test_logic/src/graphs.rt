//! Typed feature structures as lines: a node, its type and its values a line.
use ale_graph::{Graph, Node};
use ale_signature::{FeatId, Signature, TypeId};
use std::alloc::AllocError;

/// The name of a type; `?` where the signature has no such type.
pub fn type_name(sig: &Signature, of: TypeId) -> &str {
    if of.index() < sig.type_count() {
        sig.type_name(of)
    } else {
        "?"
    }
}

/// The name of a feature; `?` where the signature has no such feature.
pub fn feature_name(sig: &Signature, feature: FeatId) -> &str {
    if feature.index() < sig.feat_count() {
        sig.feat_name(feature)
    } else {
        "?"
    }
}

/// Writes the type of a node and its values.
fn push_node(sig: &Signature, node: &Node, out: &mut String) -> Result<(), AllocError> {
    out.push_str(type_name(sig, node.of))?;
    for (feature, value) in node.values.as_slice() {
        let name = feature_name(sig, *feature);
        write!(out, " {name} {value}")?;
    }
    out.push('\n')
}

/// Writes the pairs of nodes that differ.
fn push_pairs(pairs: &[(usize, usize)], out: &mut String) -> Result<(), AllocError> {
    for (one, other) in pairs {
        write!(out, "{one} differs from {other}\n")?;
    }
    Ok(())
}

/// Writes a root; `-` where it is unbound.
fn push_root(root: &Option<usize>, out: &mut String) -> Result<(), AllocError> {
    match root {
        Some(node) => write!(out, "root {node}\n"),
        None => out.push_str("root -\n"),
    }
}

/// Writes a structure: its nodes, the pairs that differ and its roots, a line each.
pub fn push_graph(sig: &Signature, graph: &Graph, out: &mut String) -> Result<(), AllocError> {
    for (number, node) in graph.nodes.as_slice().iter().enumerate() {
        write!(out, "{number} ")?;
        push_node(sig, node, out)?;
    }
    push_pairs(graph.differ.as_slice(), out)?;
    for root in graph.roots.as_slice() {
        push_root(root, out)?;
    }
    Ok(())
}
