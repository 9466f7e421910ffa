ghost use Rattle.std.specs.Prelude.{◌≡◌, ◌<◌, ℕ, IfOk, IfSome, IsNone, length};
ghost use Rattle.ale_hierarchy.specs.Order.{hierarchy};
ghost use Rattle.ale_graph.specs.Structures.{count};
ghost use Rattle.ale_graph.specs.Morphisms.{IsMorphism};
ghost use Rattle.ale_graph.specs.Universal.{Agree};
ghost use Rattle.ale_morphism.specs.Maps.{TypesInside, image};
ghost use Rattle.ale_morphism.specs.Rooted.{IsRooted};

use crate::matching::{match_from_roots, targets};
use crate::morphism::is_morphism;
use ale_graph::Graph;
use ale_signature::Signature;
use std::alloc::{AllocError, Global};

/// The morphism from f to g, as the node of g for each node of f; None exactly where f doesn't subsume g.
/// Each node of f must be reachable from its bound roots, so that there is at most one morphism.
pub fn subsumes(
    alloc: Global,
    sig: &Signature,
    f: &Graph,
    g: &Graph,
) -> Result<Option<Vec<usize>>, AllocError>
    requires first { TypesInside (hierarchy sig.now) f.now }
    requires second { TypesInside (hierarchy sig.now) g.now }
    requires rooted { IsRooted f.now }
    ensures morphism { IfOk result (λ o. IfSome o (λ map. IsMorphism (hierarchy sig.now) f.now g.now (image map.items g.now))) }
    ensures none { IfOk result (λ o. IsNone o → (at : ℕ → ℕ) → IsMorphism (hierarchy sig.now) f.now g.now at → ⊥) }
    ensures only { IfOk result (λ o. IfSome o (λ map.
        (at : ℕ → ℕ) → IsMorphism (hierarchy sig.now) f.now g.now at → Agree (count f.now) at (image map.items g.now))) }
    ensures covers { IfOk result (λ o. IfSome o (λ map. length map.items ≡ count f.now)) }
{
    let Some(walk) = match_from_roots(alloc, f, g)? else {
        return Ok(None);
    };
    let map = targets(alloc, g, walk.images.as_slice())?;
    if is_morphism(sig, f, g, map.as_slice()) {
        Ok(Some(map))
    } else {
        Ok(None)
    }
}
