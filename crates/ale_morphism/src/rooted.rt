ghost use Rattle.std.specs.Prelude.{◌≡◌, ◌↔◌, IfOk, IsTrue};
ghost use Rattle.ale_declared.specs.Lists.{every};
ghost use Rattle.ale_hierarchy.specs.Order.{hierarchy};
ghost use Rattle.ale_morphism.specs.Maps.{TypesInside};
ghost use Rattle.ale_morphism.specs.Rooted.{IsRooted};
ghost use Rattle.ale_morphism.specs.Visible.{some, is_bound_to};
ghost use Rattle.ale_morphism.specs.Reaching.{flags_of};

use crate::order::is_inside;
use crate::seen::{flags_from, is_root};
use ale_graph::Graph;
use ale_signature::Signature;
use std::alloc::{AllocError, Global};

/// The flags of the nodes that are roots.
fn root_flags(alloc: Global, g: &Graph) -> Result<Vec<bool>, AllocError>
    ensures { IfOk result (λ v. v.items ≡ flags_of g.now (λ n. some (is_bound_to n) g.now.roots)) }
{
    let mut flags = Vec::with_capacity(alloc, g.nodes.as_slice().len())?;
    for node in 0..g.nodes.as_slice().len() {
        flags.push(is_root(g.roots.as_slice(), node))?;
    }
    Ok(flags)
}

/// Whether all flags are set.
fn are_set(flags: &[bool]) -> bool
    ensures { result ≡ every (λ b. b) flags.now }
{
    for flag in flags {
        if !*flag {
            return false;
        }
    }
    true
}

/// Whether the bound roots of a graph reach each of its nodes.
pub fn is_rooted(alloc: Global, g: &Graph) -> Result<bool, AllocError>
    ensures { IfOk result (λ b. IsTrue b ↔ IsRooted g.now) }
{
    let roots = root_flags(alloc, g)?;
    let flags = flags_from(alloc, g, roots)?;
    let _ = g.nodes.as_slice().len();
    Ok(are_set(flags.as_slice()))
}

/// Whether each node's type is one of the signature.
pub fn types_inside(sig: &Signature, g: &Graph) -> bool
    ensures { IsTrue result ↔ TypesInside (hierarchy sig.now) g.now }
{
    for node in 0..g.nodes.as_slice().len() {
        if !is_inside(sig, g.type_of(node)) {
            return false;
        }
    }
    true
}
