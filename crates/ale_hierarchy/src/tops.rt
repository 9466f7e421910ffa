ghost use Rattle.std.specs.Prelude.{◌≡◌, ℕ, ◌<◌, IsTrue, IfSome, IfNone, [], length};
ghost use Rattle.ale_relation.specs.Has.{Has};
ghost use Rattle.ale_declared.specs.Lists.{first, every};
ghost use Rattle.ale_hierarchy.specs.Order.{is_above};
ghost use Rattle.ale_hierarchy.specs.Stages.{IsTop, are_below};

use crate::ids::TypeId;
use crate::order::Order;

/// The one of the types that is above all of them, where there is one.
pub fn most_general(order: &Order, types: &[TypeId]) -> Option<TypeId>
    requires { IsTrue (are_below (length order.now.types) types.now) }
    ensures { result ≡ first (λ t. every (λ u. is_above order.now t u) types.now) types.now }
{
    let top = highest(order, types)?;
    if is_above_all(order, top, types) {
        Some(top)
    } else {
        None
    }
}

/// One of the types: the one that is above all of them, where there is one.
fn highest(order: &Order, types: &[TypeId]) -> Option<TypeId>
    requires { IsTrue (are_below (length order.now.types) types.now) }
    ensures none { IfNone result (types.now ≡ []) }
    ensures some { IfSome result (λ t. Has types.now t) }
    ensures inside { IfSome result (λ t. t < length order.now.types) }
    ensures top { IfSome result (λ t. (u : ℕ) → IsTop order.now types.now u → u ≡ t) }
{
    let mut best = *types.first()?;
    for &t in types {
        best = order.higher(t, best);
    }
    Some(best)
}

/// Whether a type is above each of the types.
fn is_above_all(order: &Order, top: TypeId, types: &[TypeId]) -> bool
    requires top { top < length order.now.types }
    requires types { IsTrue (are_below (length order.now.types) types.now) }
    ensures { result ≡ every (λ u. is_above order.now top u) types.now }
{
    for &t in types {
        if !order.is_above(top.index(), t.index()) {
            return false;
        }
    }
    true
}
