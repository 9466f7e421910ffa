//! Visible parts, and subsumption.
use crate::closing::closed_text;
use crate::graphs::push_graph;
use ale_graph::{Closed, Graph};
use ale_morphism::{is_rooted, subsumes, types_inside, visible};
use ale_signature::{Row, Signature};
use std::alloc::{AllocError, Global};

/// The closure's graph with one root; None where it has no such node.
fn rooted(alloc: Global, closed: Closed, root: usize) -> Result<Option<Graph>, AllocError> {
    let Closed { graph, .. } = closed;
    let Graph { nodes, differ, .. } = graph;
    if root >= nodes.as_slice().len() {
        return Ok(None);
    }
    let mut roots = Vec::new(alloc);
    roots.push(Some(root))?;
    Ok(Some(Graph {
        nodes,
        differ,
        roots: Row::of(roots),
    }))
}

/// The graph of the closure of the facts of a text, with one root.
fn graph_of(
    alloc: Global,
    sig: &Signature,
    text: &str,
    root: &str,
) -> Result<Option<Graph>, AllocError> {
    let Ok(root) = root.parse::<usize>() else {
        return Ok(None);
    };
    match closed_text(alloc, sig, text)? {
        Some(closed) => rooted(alloc, closed, root),
        None => Ok(None),
    }
}

/// Writes whether the roots of a graph reach all nodes.
fn push_rooted(alloc: Global, graph: &Graph, out: &mut String) -> Result<(), AllocError> {
    let all = is_rooted(alloc, graph)?;
    out.push_str(if all { "all\n" } else { "a part\n" })
}

/// Writes what is visible of a graph.
fn push_seen(
    alloc: Global,
    sig: &Signature,
    graph: &Graph,
    out: &mut String,
) -> Result<(), AllocError> {
    let seen = visible(alloc, graph)?;
    push_graph(sig, &seen, out)
}

/// Writes whether the root of a graph reaches all nodes, and what is visible of it.
fn push_visible(
    alloc: Global,
    sig: &Signature,
    graph: &Option<Graph>,
    out: &mut String,
) -> Result<(), AllocError> {
    match graph {
        Some(graph) => {
            push_rooted(alloc, graph, out)?;
            push_seen(alloc, sig, graph, out)
        }
        None => out.push_str("no graph\n"),
    }
}

/// Whether the root of the closure of the facts of a text reaches all nodes, and what is visible of it.
pub fn seen(alloc: Global, sig: &Signature, text: &str, root: &str) -> Result<String, AllocError> {
    let graph = graph_of(alloc, sig, text, root)?;
    let mut out = String::new(alloc);
    push_visible(alloc, sig, &graph, &mut out)?;
    Ok(out)
}

/// Where the nodes of one graph go in the other, if it subsumes that; no nodes where what the call asks for does not
/// hold.
fn send(
    alloc: Global,
    sig: &Signature,
    from: &Graph,
    to: &Graph,
) -> Result<Option<Vec<usize>>, AllocError> {
    let reached = is_rooted(alloc, from)?;
    if reached && types_inside(sig, from) && types_inside(sig, to) {
        subsumes(alloc, sig, from, to)
    } else {
        Ok(Some(Vec::new(alloc)))
    }
}

/// The same where both are there.
fn send_there(
    alloc: Global,
    sig: &Signature,
    from: &Option<Graph>,
    to: &Option<Graph>,
) -> Result<Option<Vec<usize>>, AllocError> {
    match (from, to) {
        (Some(from), Some(to)) => send(alloc, sig, from, to),
        _ => Ok(Some(Vec::new(alloc))),
    }
}

/// Writes where nodes go.
fn push_sent(sent: &Option<Vec<usize>>, out: &mut String) -> Result<(), AllocError> {
    match sent {
        Some(map) => {
            out.push_str("to")?;
            for node in map.as_slice() {
                write!(out, " {node}")?;
            }
            out.push('\n')
        }
        None => out.push_str("does not subsume\n"),
    }
}

/// Where the nodes of a graph go in another one, as a text.
fn sent_to(
    alloc: Global,
    sig: &Signature,
    from: &Option<Graph>,
    to: &Option<Graph>,
) -> Result<String, AllocError> {
    let map = send_there(alloc, sig, from, to)?;
    let mut out = String::new(alloc);
    push_sent(&map, &mut out)?;
    Ok(out)
}

/// Where the nodes of a graph go in that of the closure of a text's facts.
fn sent_from(
    alloc: Global,
    sig: &Signature,
    from: &Option<Graph>,
    to: &str,
) -> Result<String, AllocError> {
    let to = graph_of(alloc, sig, to, "0")?;
    sent_to(alloc, sig, from, &to)
}

/// Where the nodes of the closure of the one text's facts go in that of the other's; both have the root 0.
pub fn sent(alloc: Global, sig: &Signature, from: &str, to: &str) -> Result<String, AllocError> {
    let from = graph_of(alloc, sig, from, "0")?;
    sent_from(alloc, sig, &from, to)
}
