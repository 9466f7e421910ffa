#![tactic(auto, unfolding(ale_hierarchy::specs::Order::hierarchy))]

ghost use Rattle.std.specs.Prelude.{◌≡◌, ◌<◌, Bool, is_some, filter};
ghost use Rattle.ale_declared.specs.Lists.{upto};
ghost use Rattle.ale_hierarchy.specs.Hierarchy.{IsLawful};
ghost use Rattle.ale_hierarchy.specs.Order.{hierarchy};

use ale_signature::{FeatId, Signature, TypeId};

/// Whether `a` is `b`, or more general.
pub(crate) fn is_above(sig: &Signature, a: TypeId, b: TypeId) -> bool
    requires a { a < (hierarchy sig.now).types }
    requires b { b < (hierarchy sig.now).types }
    ensures { result ≡ (hierarchy sig.now).is_above a b }
{
    sig.subsumes(a, b)
}

/// The least common subtype of two types.
pub(crate) fn join(sig: &Signature, a: TypeId, b: TypeId) -> Option<TypeId>
    requires a { a < (hierarchy sig.now).types }
    requires b { b < (hierarchy sig.now).types }
    ensures { result ≡ (hierarchy sig.now).join a b }
{
    sig.join(a, b)
}

/// The restriction on the value by a feature at a type.
pub(crate) fn approp(sig: &Signature, f: FeatId, t: TypeId) -> Option<TypeId>
    requires f { f < (hierarchy sig.now).features }
    requires t { t < (hierarchy sig.now).types }
    ensures { result ≡ (hierarchy sig.now).approp f t }
{
    sig.approp(f, t)
}

/// The most general type to which a feature is appropriate.
pub(crate) fn intro(sig: &Signature, f: FeatId) -> TypeId
    requires { f < (hierarchy sig.now).features }
    ensures { result ≡ (hierarchy sig.now).intro f }
{
    sig.intro(f)
}

/// The features appropriate to a type, in feature order.
pub(crate) fn features(sig: &Signature, t: TypeId) -> &[FeatId]
    requires { t < (hierarchy sig.now).types }
    ensures { result.now ≡ filter (λ f. is_some ((hierarchy sig.now).approp f t)) (upto (hierarchy sig.now).features) }
{
    sig.features(t)
}

/// Whether nodes of a type are identified where all their values are the same.
pub(crate) fn is_ext(sig: &Signature, t: TypeId) -> bool
    requires { t < (hierarchy sig.now).types }
    ensures { result ≡ (hierarchy sig.now).is_ext t }
{
    sig.is_ext(t)
}

/// That the signature obeys the laws of a hierarchy.
pub(crate) fn lawful(sig: &Signature)
    ensures { IsLawful (hierarchy sig.now) }
{
    let _ = sig.type_count();
}
