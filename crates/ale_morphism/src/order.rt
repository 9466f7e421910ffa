#![tactic(auto, unfolding(ale_hierarchy::specs::Order::hierarchy))]

ghost use Rattle.std.specs.Prelude.{◌≡◌, ◌<◌, ltb};
ghost use Rattle.ale_hierarchy.specs.Order.{hierarchy};

use ale_signature::{Signature, TypeId};

/// Whether `a` is `b`, or more general.
pub(crate) fn is_above(sig: &Signature, a: TypeId, b: TypeId) -> bool
    requires a { a < (hierarchy sig.now).types }
    requires b { b < (hierarchy sig.now).types }
    ensures { result ≡ (hierarchy sig.now).is_above a b }
{
    sig.subsumes(a, b)
}

/// Whether the type is one of the signature.
pub(crate) fn is_inside(sig: &Signature, t: TypeId) -> bool
    ensures { result ≡ ltb t (hierarchy sig.now).types }
{
    t.index() < sig.type_count()
}
