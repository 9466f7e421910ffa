//! Closures of facts.
use crate::closing::closed_text;
use crate::graphs::push_graph;
use ale_graph::Closed;
use ale_signature::Signature;
use std::alloc::{AllocError, Global};

/// Writes the class of each node and the graph of a closure.
fn push_closure(
    sig: &Signature,
    closed: &Option<Closed>,
    out: &mut String,
) -> Result<(), AllocError> {
    match closed {
        Some(found) => {
            out.push_str("classes")?;
            for class in found.class.as_slice() {
                write!(out, " {class}")?;
            }
            out.push('\n')?;
            push_graph(sig, &found.graph, out)
        }
        None => out.push_str("no closure\n"),
    }
}

/// The closure of the facts of a text.
pub fn closure(alloc: Global, sig: &Signature, text: &str) -> Result<String, AllocError> {
    let closed = closed_text(alloc, sig, text)?;
    let mut out = String::new(alloc);
    push_closure(sig, &closed, &mut out)?;
    Ok(out)
}

/// Writes how many nodes the graph of a closure has.
fn push_size(closed: &Option<Closed>, out: &mut String) -> Result<(), AllocError> {
    match closed {
        Some(found) => {
            let nodes = found.graph.nodes.as_slice().len();
            write!(out, "{nodes} nodes\n")
        }
        None => out.push_str("no closure\n"),
    }
}

/// How many nodes the closure of the facts of a text has.
pub fn closure_size(alloc: Global, sig: &Signature, text: &str) -> Result<String, AllocError> {
    let closed = closed_text(alloc, sig, text)?;
    let mut out = String::new(alloc);
    push_size(&closed, &mut out)?;
    Ok(out)
}
