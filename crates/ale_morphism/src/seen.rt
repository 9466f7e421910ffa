ghost use Rattle.std.specs.Prelude.{◌≡◌, ℕ, List, Option, ◌≤◌, ◌<◌, suc, eqb, ◌||◌, true, false, slice_set, ◌∷◌, ◌++◌, [], IfOk, IsTrue, length, map, option_map, get_or, if◌then◌else◌};
ghost use Rattle.ale_declared.specs.Lists.{upto};
ghost use Rattle.ale_graph.specs.Structures.{count, node_at, is_formed};
ghost use Rattle.ale_morphism.specs.Visible.{some, is_bound_to, is_start, is_reached, is_visible, visible_below, renumbered, visible};
ghost use Rattle.ale_morphism.specs.VisibleLaws.{IsPart};
ghost use Rattle.ale_morphism.specs.Reaching.{starting, marked, marked_by, spread, flags_of, number_in, numbered, built};
ghost use Rattle.ale_graph.specs.Drafts.{mapped};

use ale_graph::{Graph, Node};
use ale_signature::{FeatId, Row};
use std::alloc::{AllocError, Global};

/// Whether one of the roots is bound to the node.
pub(crate) fn is_root(roots: &[Option<usize>], node: usize) -> bool
    ensures { result ≡ some (is_bound_to node) roots.now }
{
    for root in roots {
        if let Some(bound) = *root {
            if node == bound {
                return true;
            }
        }
    }
    false
}

/// Whether the node stands in one of the pairs.
fn is_in_pair(pairs: &[(usize, usize)], node: usize) -> bool
    ensures { result ≡ some (λ p. eqb node p.0 || eqb node p.1) pairs.now }
{
    for pair in pairs {
        if node == pair.0 || node == pair.1 {
            return true;
        }
    }
    false
}

/// Whether the node is a root or stands in a differing pair.
fn is_start(g: &Graph, node: usize) -> bool
    ensures { result ≡ is_start g.now node }
{
    is_root(g.roots.as_slice(), node) || is_in_pair(g.differ.as_slice(), node)
}

/// The flags of the nodes that are roots or stand in a differing pair.
fn starts(alloc: Global, g: &Graph) -> Result<Vec<bool>, AllocError>
    ensures { IfOk result (λ v. v.items ≡ flags_of g.now (is_start g.now)) }
{
    let mut flags = Vec::with_capacity(alloc, g.nodes.as_slice().len())?;
    for node in 0..g.nodes.as_slice().len() {
        flags.push(is_start(g, node))?;
    }
    Ok(flags)
}

/// Flags a node.
fn set_flag(flags: &mut Vec<bool>, node: usize)
    ensures { flags.new.items ≡ slice_set flags.old.items node true }
{
    if let Some(flag) = flags.get_mut(node) {
        *flag = true;
    }
}

/// The flag of a node.
fn flag_of(flags: &[bool], node: usize) -> bool
    ensures { result ≡ get_or flags.now node false }
{
    match flags.get(node) {
        Some(flag) => *flag,
        None => false,
    }
}

/// Flags the values.
fn mark(flags: &mut Vec<bool>, values: &[(FeatId, usize)])
    ensures { flags.new.items ≡ marked values.now flags.old.items }
{
    for value in values {
        set_flag(flags, value.1);
    }
}

/// Flags the values of a node, where it was flagged before.
fn mark_by(g: &Graph, before: &[bool], node: usize, flags: &mut Vec<bool>)
    requires { node < count g.now }
    ensures { flags.new.items ≡ marked_by g.now before.now node flags.old.items }
{
    if flag_of(before, node) {
        mark(flags, g.nodes.as_slice()[node].values.as_slice());
    }
}

/// The flags with those of the values of all flagged nodes.
fn round(alloc: Global, g: &Graph, before: &[bool]) -> Result<Vec<bool>, AllocError>
    ensures { IfOk result (λ v. v.items ≡ spread g.now before.now (count g.now)) }
{
    let mut flags = Vec::from_slice(alloc, before)?;
    for node in 0..g.nodes.as_slice().len() {
        mark_by(g, before, node, &mut flags);
    }
    Ok(flags)
}

/// Flags what the flagged nodes lead to.
pub(crate) fn flags_from(
    alloc: Global,
    g: &Graph,
    mut flags: Vec<bool>,
) -> Result<Vec<bool>, AllocError>
    ensures { IfOk result (λ v. (differ : List (ℕ × ℕ)) (roots : List (Option ℕ)) →
        flags.items ≡ flags_of g.now (is_start (starting g.now differ roots)) → v.items ≡ flags_of g.now (is_visible (starting g.now differ roots))) }
{
    for _round in 0..g.nodes.as_slice().len() {
        let next = round(alloc, g, flags.as_slice())?;
        if next.as_slice() == flags.as_slice() {
            return Ok(flags);
        }
        flags = next;
    }
    Ok(flags)
}

/// The flags of the visible nodes.
fn flags(alloc: Global, g: &Graph) -> Result<Vec<bool>, AllocError>
    ensures { IfOk result (λ v. v.items ≡ flags_of g.now (is_visible g.now)) }
{
    let starts = starts(alloc, g)?;
    let flags = flags_from(alloc, g, starts)?;
    Ok(flags)
}

/// How many visible nodes are below the node after this one.
fn number_after(g: &Graph, flags: &[bool], node: usize, before: usize) -> usize
    requires flags { flags.now ≡ flags_of g.now (is_visible g.now) }
    requires below { node < length flags.now }
    requires number { before ≡ renumbered g.now node }
    requires low { before ≤ node }
    ensures number { result ≡ renumbered g.now (suc node) }
    ensures low { result ≤ suc node }
{
    let _ = g;
    if flag_of(flags, node) {
        before + 1
    } else {
        before
    }
}

/// How many visible nodes are below each node.
fn numbers(alloc: Global, g: &Graph, flags: &[bool]) -> Result<Vec<usize>, AllocError>
    requires { flags.now ≡ flags_of g.now (is_visible g.now) }
    ensures { IfOk result (λ v. v.items ≡ map (renumbered g.now) (upto (length flags.now))) }
{
    let mut numbers = Vec::with_capacity(alloc, flags.len())?;
    let mut before = 0;
    for node in 0..flags.len() {
        numbers.push(before)?;
        before = number_after(g, flags, node, before);
    }
    Ok(numbers)
}

/// The number of a node.
fn number_of(numbers: &[usize], node: usize) -> usize
    ensures { result ≡ number_in numbers.now node }
{
    match numbers.get(node) {
        Some(number) => *number,
        None => 0,
    }
}

/// The values, renumbered.
fn renumber_values(
    alloc: Global,
    numbers: &[usize],
    values: &[(FeatId, usize)],
) -> Result<Vec<(FeatId, usize)>, AllocError>
    ensures { IfOk result (λ v. v.items ≡ mapped (number_in numbers.now) values.now) }
{
    let mut renumbered = Vec::with_capacity(alloc, values.len())?;
    for value in values {
        renumbered.push((value.0, number_of(numbers, value.1)))?;
    }
    Ok(renumbered)
}

/// Adds the node, renumbered, where it is flagged.
fn push_node(
    alloc: Global,
    nodes: &mut Vec<Node>,
    g: &Graph,
    flags: &[bool],
    numbers: &[usize],
    node: usize,
) -> Result<(), AllocError>
    requires { node < count g.now }
    ensures { IfOk result (λ _. nodes.new.items ≡ (if get_or flags.now node false
        then nodes.old.items ++ numbered g.now numbers.now node ∷ [] else nodes.old.items)) }
{
    if flag_of(flags, node) {
        let found = &g.nodes.as_slice()[node];
        let values = renumber_values(alloc, numbers, found.values.as_slice())?;
        nodes.push(Node {
            of: found.of,
            values: Row::of(values),
        })?;
    }
    Ok(())
}

/// The flagged nodes, renumbered, in order.
fn nodes(
    alloc: Global,
    g: &Graph,
    flags: &[bool],
    numbers: &[usize],
) -> Result<Vec<Node>, AllocError>
    ensures { IfOk result (λ v. v.items ≡ built g.now flags.now numbers.now (count g.now)) }
{
    let mut nodes = Vec::new(alloc);
    for node in 0..g.nodes.as_slice().len() {
        push_node(alloc, &mut nodes, g, flags, numbers, node)?;
    }
    Ok(nodes)
}

/// The pairs, renumbered.
fn renumber_pairs(
    alloc: Global,
    numbers: &[usize],
    pairs: &[(usize, usize)],
) -> Result<Vec<(usize, usize)>, AllocError>
    ensures { IfOk result (λ v. v.items ≡ map (λ p. (number_in numbers.now p.0, number_in numbers.now p.1)) pairs.now) }
{
    let mut renumbered = Vec::with_capacity(alloc, pairs.len())?;
    for pair in pairs {
        renumbered.push((number_of(numbers, pair.0), number_of(numbers, pair.1)))?;
    }
    Ok(renumbered)
}

/// The root, renumbered.
fn renumber_root(numbers: &[usize], root: Option<usize>) -> Option<usize>
    ensures { result ≡ option_map (number_in numbers.now) root }
{
    match root {
        None => None,
        Some(node) => Some(number_of(numbers, node)),
    }
}

/// The roots, renumbered.
fn renumber_roots(
    alloc: Global,
    numbers: &[usize],
    roots: &[Option<usize>],
) -> Result<Vec<Option<usize>>, AllocError>
    ensures { IfOk result (λ v. v.items ≡ map (option_map (number_in numbers.now)) roots.now) }
{
    let mut renumbered = Vec::with_capacity(alloc, roots.len())?;
    for root in roots {
        renumbered.push(renumber_root(numbers, *root))?;
    }
    Ok(renumbered)
}

/// What is reached from a root or a node of a differing pair, renumbered in order.
pub fn visible(alloc: Global, g: &Graph) -> Result<Graph, AllocError>
    ensures value { IfOk result (λ v. v ≡ visible g.now) }
    ensures part { IfOk result (λ v. IsPart g.now v) }
{
    let flags = flags(alloc, g)?;
    let numbers = numbers(alloc, g, flags.as_slice())?;
    let nodes = nodes(alloc, g, flags.as_slice(), numbers.as_slice())?;
    let differ = renumber_pairs(alloc, numbers.as_slice(), g.differ.as_slice())?;
    let roots = renumber_roots(alloc, numbers.as_slice(), g.roots.as_slice())?;
    Ok(Graph {
        nodes: Row::of(nodes),
        differ: Row::of(differ),
        roots: Row::of(roots),
    })
}
