//! The types and features of lists.
ghost use Rattle.std.specs.Prelude.{◌≡◌, ◌<◌, IfSome, length};
ghost use Rattle.std.specs.Str.{chars};
ghost use Rattle.ale_hierarchy.specs.Order.{hierarchy};
ghost use Rattle.ale_logic.specs.Fitting.{FitLists};
ghost use Rattle.ale_list.specs.Lists.{feature_at, lists_in, lists_or_none};

use ale_signature::{FeatId, Signature, TypeId};
use std::marker::Model;

/// The types and features of lists, where a signature has them.
#[derive(Debug, Clone, Copy)]
pub struct ListTypes {
    /// The type of the empty list.
    pub e_list: TypeId,
    /// The type of lists with members.
    pub ne_list: TypeId,
    /// The feature of the first member.
    pub hd: FeatId,
    /// The feature of the list of the others.
    pub tl: FeatId,
}

impl Model for ListTypes {
    ghost use Rattle.ale_logic.specs.Programs as programs;

    ghost Value = { programs.ListTypes };

    ghost view = { λ l. record { e_list = l.e_list; ne_list = l.ne_list; hd = l.hd; tl = l.tl } };

    ghost inverse = { λ l. record { e_list = l.e_list; ne_list = l.ne_list; hd = l.hd; tl = l.tl } };
}

/// The types and features of lists, as ALE names them. None exactly where a type `e_list` or `ne_list` is
/// lacking, or where `hd` or `tl` is no feature that is appropriate to `ne_list`.
#[tactic(auto, using(crate::proofs::ListNames::found_fit))]
pub fn list_types(sig: &Signature) -> Option<ListTypes>
    ensures value { result ≡ lists_in sig.now }
    ensures fits { IfSome result (λ l. FitLists (hierarchy sig.now) l) }
{
    sig.built_law();
    named_types(sig)
}

/// Those of the signature; where it has none, types and features of which no list is made.
pub fn list_types_or_none(sig: &Signature) -> ListTypes
    ensures { result ≡ lists_or_none sig.now }
{
    if let Some(lists) = list_types(sig) {
        return lists;
    }
    ListTypes {
        e_list: TypeId::of(0),
        ne_list: TypeId::of(0),
        hd: FeatId::of(0),
        tl: FeatId::of(0),
    }
}

/// The types and features by their names.
#[tactic(auto, using(crate::proofs::ListNames::list_names, crate::proofs::ListNames::named_below))]
fn named_types(sig: &Signature) -> Option<ListTypes>
    ensures { result ≡ lists_in sig.now }
{
    let e_list = sig.type_named("e_list")?;
    let ne_list = sig.type_named("ne_list")?;
    let hd = feature_at(sig, "hd", ne_list)?;
    let tl = feature_at(sig, "tl", ne_list)?;
    Some(ListTypes {
        e_list,
        ne_list,
        hd,
        tl,
    })
}

/// The feature of this name, where it is appropriate to the type.
fn feature_at(sig: &Signature, name: &str, t: TypeId) -> Option<FeatId>
    requires { t < length sig.now.types }
    ensures { result ≡ feature_at sig.now (chars name.now) t }
{
    let f = sig.feat_named(name)?;
    if sig.approp(f, t).is_some() {
        Some(f)
    } else {
        None
    }
}
