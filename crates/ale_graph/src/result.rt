ghost use Rattle.std.specs.Prelude.{◌≡◌, ◌≤◌, ◌<◌, true, suc, eqb, [], ◌∷◌, ◌++◌, IfOk, IsTrue, List, length, map, get_or, if◌then◌else◌};
ghost use Rattle.ale_declared.specs.Lists.{upto, every};
ghost use Rattle.ale_hierarchy.specs.Order.{hierarchy};
ghost use Rattle.ale_graph.specs.declared.fact.Fact.{Fact as OneFact};
ghost use Rattle.ale_graph.specs.Structures.{is_formed};
ghost use Rattle.ale_graph.specs.Closure.{is_kept_apart, classes_below, place, graph_of, closed_of};
ghost use Rattle.ale_graph.specs.Drafts.{class_in, mapped};
ghost use Rattle.ale_graph.specs.Working.{IsDraft, lists_of, filled_of};
ghost use Rattle.ale_graph.specs.Results.{place_in, node_in, pairs_of};

use crate::closed::Closed;
use crate::draft::Draft;
use crate::fact::Fact;
use crate::graph::Graph;
use crate::node::Node;
use crate::partition::{class_of, type_of};
use crate::table::values_of;
use ale_signature::{FeatId, Row, Signature};
use std::alloc::{AllocError, Global};

/// Whether the fact doesn't tell two nodes of one class to differ.
fn is_kept_apart(class: &[usize], fact: Fact) -> bool
    ensures { result ≡ is_kept_apart (class_in class.now) fact }
{
    match fact {
        Fact::Differ(a, b) => class_of(class, a) != class_of(class, b),
        Fact::OfType(_, _) => true,
        Fact::Value(_, _, _) => true,
        Fact::Same(_, _) => true,
    }
}

/// Whether no fact tells two nodes of one class to differ.
pub(crate) fn are_kept_apart(class: &[usize], facts: &[Fact]) -> bool
    ensures { result ≡ every (is_kept_apart (class_in class.now)) facts.now }
{
    for fact in facts {
        if !is_kept_apart(class, *fact) {
            return false;
        }
    }
    true
}

/// How many classes are below the node after this one.
fn place_after(class: &[usize], node: usize, before: usize) -> usize
    requires below { node < length class.now }
    requires place { before ≡ place (class_in class.now) node }
    requires low { before ≤ node }
    ensures place { result ≡ place (class_in class.now) (suc node) }
    ensures low { result ≤ suc node }
{
    if class_of(class, node) == node {
        before + 1
    } else {
        before
    }
}

/// How many classes are below each node.
fn places(alloc: Global, class: &[usize]) -> Result<Vec<usize>, AllocError>
    ensures { IfOk result (λ v. v.items ≡ map (place (class_in class.now)) (upto (length class.now))) }
{
    let mut places = Vec::with_capacity(alloc, class.len())?;
    let mut before = 0;
    for node in 0..class.len() {
        places.push(before)?;
        before = place_after(class, node, before);
    }
    Ok(places)
}

/// The place of a node's class.
fn place_of(places: &[usize], class: &[usize], node: usize) -> usize
    ensures { result ≡ place_in places.now class.now node }
{
    match places.get(class_of(class, node)) {
        Some(place) => *place,
        None => 0,
    }
}

/// The values with the places of their classes.
fn placed(
    alloc: Global,
    places: &[usize],
    class: &[usize],
    values: &[(FeatId, usize)],
) -> Result<Vec<(FeatId, usize)>, AllocError>
    ensures { IfOk result (λ v. v.items ≡ mapped (place_in places.now class.now) values.now) }
{
    let mut placed = Vec::with_capacity(alloc, values.len())?;
    for value in values {
        placed.push((value.0, place_of(places, class, value.1)))?;
    }
    Ok(placed)
}

/// Adds the node of the graph that a class is; of a node that is no class, none.
fn push_node(
    alloc: Global,
    nodes: &mut Vec<Node>,
    places: &[usize],
    draft: &Draft,
    class: usize,
) -> Result<(), AllocError>
    ensures { IfOk result (λ _. nodes.new.items ≡ (if eqb (class_in draft.now.class.items class) class
        then nodes.old.items ++ node_in places.now (lists_of draft.now) class ∷ [] else nodes.old.items)) }
{
    if class_of(draft.class.as_slice(), class) == class {
        let values = placed(
            alloc,
            places,
            draft.class.as_slice(),
            values_of(draft.values.as_slice(), class),
        )?;
        nodes.push(Node {
            of: type_of(draft.types.as_slice(), class),
            values: Row::of(values),
        })?;
    }
    Ok(())
}

/// The nodes of the graph: the classes, in order.
fn nodes(alloc: Global, places: &[usize], draft: &Draft) -> Result<Vec<Node>, AllocError>
    ensures { IfOk result (λ v. v.items
        ≡ map (node_in places.now (lists_of draft.now)) (classes_below (class_in draft.now.class.items) (length draft.now.class.items))) }
{
    let mut nodes = Vec::new(alloc);
    for class in 0..draft.class.len() {
        push_node(alloc, &mut nodes, places, draft, class)?;
    }
    Ok(nodes)
}

/// Adds the pair of nodes that the fact tells to differ, where it does.
fn push_pair(
    pairs: &mut Vec<(usize, usize)>,
    places: &[usize],
    class: &[usize],
    fact: Fact,
) -> Result<(), AllocError>
    ensures { IfOk result (λ _. (rest : List OneFact) → pairs.new.items ++ pairs_of (place_in places.now class.now) rest
        ≡ pairs.old.items ++ pairs_of (place_in places.now class.now) (fact ∷ rest)) }
{
    match fact {
        Fact::Differ(a, b) => {
            pairs.push((place_of(places, class, a), place_of(places, class, b)))?;
            Ok(())
        }
        Fact::OfType(_, _) => Ok(()),
        Fact::Value(_, _, _) => Ok(()),
        Fact::Same(_, _) => Ok(()),
    }
}

/// The pairs of nodes of the graph that the facts tell to differ, in order.
fn pairs(
    alloc: Global,
    places: &[usize],
    class: &[usize],
    facts: &[Fact],
) -> Result<Vec<(usize, usize)>, AllocError>
    ensures { IfOk result (λ v. v.items ≡ pairs_of (place_in places.now class.now) facts.now) }
{
    let mut pairs = Vec::new(alloc);
    for fact in facts {
        push_pair(&mut pairs, places, class, *fact)?;
    }
    Ok(pairs)
}

/// The graph of the classes.
fn graph(alloc: Global, sig: &Signature, draft: &Draft) -> Result<Graph, AllocError>
    requires draft { IsDraft (hierarchy sig.now) (lists_of draft.now) }
    requires formed { IsTrue (is_formed (graph_of (hierarchy sig.now) (filled_of (lists_of draft.now)))) }
    ensures { IfOk result (λ g. g ≡ graph_of (hierarchy sig.now) (filled_of (lists_of draft.now))) }
{
    let _ = sig;
    let places = places(alloc, draft.class.as_slice())?;
    let nodes = nodes(alloc, places.as_slice(), draft)?;
    let pairs = pairs(
        alloc,
        places.as_slice(),
        draft.class.as_slice(),
        draft.facts.as_slice(),
    )?;
    Ok(Graph {
        nodes: Row::of(nodes),
        differ: Row::of(pairs),
        roots: Row::of(Vec::new(alloc)),
    })
}

/// The closure that the working lists hold.
pub(crate) fn closed(alloc: Global, sig: &Signature, draft: Draft) -> Result<Closed, AllocError>
    requires draft { IsDraft (hierarchy sig.now) (lists_of draft) }
    requires formed { IsTrue (is_formed (graph_of (hierarchy sig.now) (filled_of (lists_of draft)))) }
    ensures { IfOk result (λ c. c ≡ closed_of (hierarchy sig.now) (filled_of (lists_of draft))) }
{
    let graph = graph(alloc, sig, &draft)?;
    let Draft { facts, class, .. } = draft;
    let next = class.len();
    Ok(Closed {
        facts: Row::of(facts),
        next,
        class: Row::of(class),
        graph,
    })
}
