//! Names and structures as they are written.
ghost use Rattle.std.specs.Prelude.{◌≡◌, IfOk, IfSome};
ghost use Rattle.ale_hierarchy.specs.Hierarchy.{Hierarchy};
ghost use Rattle.ale_hierarchy.specs.Order.{hierarchy};
ghost use Rattle.ale_graph.specs.Structures.{IsStructure, is_root};
ghost use Rattle.ale_declared.specs.Lists.{every};

use crate::closing::closed_text;
use ale_graph::{Closed, Graph};
use ale_print::{print_answer, print_name};
use ale_signature::{Row, Signature, Text};
use std::alloc::{AllocError, Global};

/// A text as a line.
fn line_of(alloc: Global, text: &str) -> Result<String, AllocError> {
    format!(in alloc; "{text}\n")
}

/// A name as it is written, as a line.
pub fn name_of(alloc: Global, name: &str) -> Result<String, AllocError> {
    let printed = print_name(alloc, name)?;
    line_of(alloc, printed.as_str())
}

/// The graph of the closure of the facts of a text; None where there is none.
fn graph_of(alloc: Global, sig: &Signature, text: &str) -> Result<Option<Graph>, AllocError>
    ensures { IfOk result (λ o. IfSome o (IsStructure (hierarchy sig.now))) }
{
    match closed_text(alloc, sig, text)? {
        None => Ok(None),
        Some(found) => {
            let Closed { graph, .. } = found;
            Ok(Some(graph))
        }
    }
}

/// Whether each root is unbound, or one of so many nodes.
fn are_roots(roots: &[Option<usize>], nodes: usize) -> bool
    ensures { result ≡ every (is_root nodes) roots.now }
{
    for root in roots {
        if let Some(node) = root
            && *node >= nodes
        {
            return false;
        }
    }
    true
}

/// The structure with these roots; None where it lacks a node of them.
fn with_roots(graph: Graph, roots: Row<Option<usize>>) -> Option<Graph>
    ensures { (h : Hierarchy) → IsStructure h graph → IfSome result (IsStructure h) }
{
    if !are_roots(roots.as_slice(), graph.nodes.as_slice().len()) {
        return None;
    }
    let Graph { nodes, differ, .. } = graph;
    Some(Graph {
        nodes,
        differ,
        roots,
    })
}

/// The roots of a text, with a space between them: numbers of nodes, and `_` for one that is unbound.
fn roots_of(alloc: Global, text: &str) -> Result<Row<Option<usize>>, AllocError> {
    let mut roots = Vec::new(alloc);
    for word in text.split(' ') {
        roots.push(word.parse::<usize>().ok())?;
    }
    Ok(Row::of(roots))
}

/// The names of a text, with a space between them.
fn names_of(alloc: Global, text: &str) -> Result<Vec<Text>, AllocError> {
    let mut names = Vec::new(alloc);
    for word in text.split(' ') {
        if !word.is_empty() {
            names.push(Text::of(String::from_str(alloc, word)?))?;
        }
    }
    Ok(names)
}

/// The text of a structure with these roots and their names.
fn printed_graph(
    alloc: Global,
    sig: &Signature,
    graph: Graph,
    roots: Row<Option<usize>>,
    names: &[Text],
) -> Result<String, AllocError>
    requires { IsStructure (hierarchy sig.now) graph }
{
    match with_roots(graph, roots) {
        Some(rooted) => print_answer(alloc, sig, &rooted, names),
        None => String::from_str(alloc, "no root\n"),
    }
}

/// The text of the closure of facts, with these roots and their names.
fn printed_facts(
    alloc: Global,
    sig: &Signature,
    facts: &str,
    roots: Row<Option<usize>>,
    names: &[Text],
) -> Result<String, AllocError> {
    match graph_of(alloc, sig, facts)? {
        Some(graph) => printed_graph(alloc, sig, graph, roots, names),
        None => String::from_str(alloc, "no closure\n"),
    }
}

/// The text of the closure of the facts of a text, with the roots and the names of texts.
pub fn printed(
    alloc: Global,
    sig: &Signature,
    facts: &str,
    roots: &str,
    names: &str,
) -> Result<String, AllocError> {
    let names = names_of(alloc, names)?;
    let roots = roots_of(alloc, roots)?;
    printed_facts(alloc, sig, facts, roots, names.as_slice())
}
