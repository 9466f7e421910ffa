ghost use Rattle.std.specs.Prelude.{◌≡◌, Some, None, IfOk, MatchOption, IsTrue, replicate, slice_set};
ghost use Rattle.ale_graph.specs.Structures.{node_at, is_formed};
ghost use Rattle.ale_morphism.specs.Matched.{HasNoMorphism, IsMatched};
ghost use Rattle.ale_morphism.specs.Rooted.{IsRooted};
ghost use Rattle.ale_morphism.specs.Walking.{lists_of, walking_of, known, send, send_to, send_values, send_root, send_roots, visit, target, targets};

use crate::walk::Walk;
use ale_graph::Graph;
use ale_signature::FeatId;
use std::alloc::{AllocError, Global};

/// Where a node must go, if that is known.
fn known(walk: &Walk, node: usize) -> Option<usize>
    ensures { result ≡ known (lists_of walk.now) node }
{
    match walk.images.get(node) {
        Some(image) => *image,
        None => None,
    }
}

/// Notes where a node must go.
fn set_image(images: &mut Vec<Option<usize>>, node: usize, to: usize)
    ensures { images.new.items ≡ slice_set images.old.items node (Some to) }
{
    if let Some(image) = images.get_mut(node) {
        *image = Some(to);
    }
}

/// Notes that a node must go there; false where it must go elsewhere.
fn send(walk: &mut Walk, node: usize, to: usize) -> Result<bool, AllocError>
    ensures { IfOk result (λ b. walking_of walk.new b ≡ send node to (lists_of walk.old)) }
{
    match known(walk, node) {
        Some(there) => Ok(there == to),
        None => {
            set_image(&mut walk.images, node, to);
            walk.waiting.push(node)?;
            Ok(true)
        }
    }
}

/// The same, where there is a node to go to.
fn send_to(walk: &mut Walk, node: usize, to: Option<usize>) -> Result<bool, AllocError>
    ensures { IfOk result (λ b. walking_of walk.new b ≡ send_to node to (lists_of walk.old)) }
{
    match to {
        None => Ok(false),
        Some(there) => send(walk, node, there),
    }
}

/// Notes that values must go to the values of a node of g.
fn send_values(
    walk: &mut Walk,
    g: &Graph,
    to: usize,
    values: &[(FeatId, usize)],
) -> Result<bool, AllocError>
    ensures { IfOk result (λ b. walking_of walk.new b ≡ send_values g.now to values.now (lists_of walk.old)) }
{
    for value in values {
        if !send_to(walk, value.1, g.value(to, value.0))? {
            return Ok(false);
        }
    }
    Ok(true)
}

/// Notes that a root, if it is bound, must go to the other one.
fn send_root(walk: &mut Walk, from: Option<usize>, to: Option<usize>) -> Result<bool, AllocError>
    ensures { IfOk result (λ b. walking_of walk.new b ≡ send_root from to (lists_of walk.old)) }
{
    match from {
        None => Ok(true),
        Some(node) => send_to(walk, node, to),
    }
}

/// Notes that roots must go to roots, in order.
fn send_roots(
    walk: &mut Walk,
    from: &[Option<usize>],
    to: &[Option<usize>],
) -> Result<bool, AllocError>
    ensures { IfOk result (λ b. walking_of walk.new b ≡ send_roots from.now to.now (lists_of walk.old)) }
{
    for (i, root) in from.iter().enumerate() {
        let there = match to.get(i) {
            None => None,
            Some(root) => *root,
        };
        if !send_root(walk, *root, there)? {
            return Ok(false);
        }
    }
    Ok(true)
}

/// The values of a node.
fn values_of(f: &Graph, node: usize) -> &[(FeatId, usize)]
    ensures { result.now ≡ (node_at f.now node).values }
{
    match f.nodes.as_slice().get(node) {
        None => &[],
        Some(found) => found.values.as_slice(),
    }
}

/// Notes where the values of a node must go.
fn visit(walk: &mut Walk, f: &Graph, g: &Graph, node: usize) -> Result<bool, AllocError>
    ensures { IfOk result (λ b. walking_of walk.new b ≡ visit f.now g.now node (lists_of walk.old)) }
{
    match known(walk, node) {
        None => Ok(true),
        Some(to) => send_values(walk, g, to, values_of(f, node)),
    }
}

/// Nothing known of `count` nodes.
fn nothing_known(alloc: Global, count: usize) -> Result<Vec<Option<usize>>, AllocError>
    ensures { IfOk result (λ v. v.items ≡ replicate count None) }
{
    let mut images = Vec::with_capacity(alloc, count)?;
    for _node in 0..count {
        images.push(None)?;
    }
    Ok(images)
}

/// Where each node of f must go in g, whatever the morphism; None where there is none.
pub(crate) fn match_from_roots(
    alloc: Global,
    f: &Graph,
    g: &Graph,
) -> Result<Option<Walk>, AllocError>
    requires { IsRooted f.now }
    ensures found { IfOk result (λ o. MatchOption o (HasNoMorphism f.now g.now) (λ w. IsMatched f.now g.now w.images.items)) }
    ensures formed { IsTrue (is_formed f.now) }
{
    let images = nothing_known(alloc, f.nodes.as_slice().len())?;
    let mut walk = Walk {
        images,
        waiting: Vec::new(alloc),
    };
    if !send_roots(&mut walk, f.roots.as_slice(), g.roots.as_slice())? {
        return Ok(None);
    }
    'nodes: while let Some(node) = walk.waiting.pop() {
        if !visit(&mut walk, f, g, node)? {
            return Ok(None);
        }
    }
    Ok(Some(walk))
}

/// The map from what is known.
pub(crate) fn targets(
    alloc: Global,
    g: &Graph,
    images: &[Option<usize>],
) -> Result<Vec<usize>, AllocError>
    ensures { IfOk result (λ v. v.items ≡ targets g.now images.now) }
{
    let mut map = Vec::with_capacity(alloc, images.len())?;
    for image in images {
        map.push(target(g, *image))?;
    }
    Ok(map)
}

/// Where a node goes; to no node of g where that isn't known.
fn target(g: &Graph, image: Option<usize>) -> usize
    ensures { result ≡ target g.now image }
{
    match image {
        None => g.nodes.as_slice().len(),
        Some(to) => to,
    }
}
