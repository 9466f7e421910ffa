ghost use Rattle.std.specs.Prelude.{◌≡◌, ◌≢◌, true, false, ◌<◌, ◌↔◌, ℕ, IfOk, IfErr, IsTrue, IfSome, IfNone, List, length, map, Some, None, slice_get, encode_utf8_all};
ghost use Rattle.std.specs.Str.{chars};
ghost use Rattle.ale_relation.specs.Has.{Has};
ghost use Rattle.ale_hierarchy.specs.Hierarchy.{IsLawful};

use crate::restrictions::{feature_lists, intros, restriction_at, restrictions};
use crate::sizes::check_fills;
use ale_declared::{Outline, SigDecl};
use ale_hierarchy::joins::{join_at, joins};
use ale_hierarchy::{FeatId, Order, SigError, TypeId, ext_flags};
use ale_text::Row;
use std::alloc::Global;
use std::marker::Model;

/// An accepted type signature.
#[derive(Drop)]
pub struct Signature {
    order: Order,
    /// The join of each type with each.
    joins: Row<Row<Option<TypeId>>>,
    /// The restriction on each feature at each type.
    restrictions: Row<Row<Option<TypeId>>>,
    /// The features of each type.
    lists: Row<Row<FeatId>>,
    /// The type that introduces each feature.
    intros: Row<TypeId>,
    /// Which types are extensional.
    ext: Row<bool>,
}

impl Model for Signature {
    ghost use Rattle.ale_declared.specs.Declarations.{Declared};
    ghost use Rattle.ale_hierarchy.specs.Stages.{IsTabled};

    ghost Value = { Declared };

    ghost view = { λ s. s.order };

    ghost invariant = { λ s. IsTabled s.order s.joins s.restrictions s.lists s.intros s.ext };
}

impl Signature {
    ghost use Rattle.ale_declared.specs.Declarations.{declared};
    ghost use Rattle.ale_hierarchy.specs.Order.{IsAbove, IsJoin, Introduces, IsRestriction, Applies, is_above, join, approp, intro, features, is_ext, hierarchy};
    ghost use Rattle.ale_hierarchy.specs.Accepted.{IsAccepted};
    ghost use Rattle.ale_hierarchy.specs.Faults.{accepts, fault_of};
    ghost use Rattle.ale_hierarchy.specs.Refusals.{IsFault, RefusesFor, RefusesWhere};
    ghost use Rattle.ale_hierarchy.specs.declared.fault.Fault.TheVariants.{TooManyTypes, TooManyFeatures, SubCycle, NoJoin, TwoIntros, ValueClash, Loop, ExtNotMaximal, FillTooLarge};
    ghost use Rattle.ale_declared.specs.Names.{named, name_of};
    ghost use Rattle.ale_declared.specs.declared.decl.Mention.{Mention};

    /// The signature that the declarations give. It is refused for the first of these that holds, by the names
    /// of the first types and features that show it; `NoMemory` may come in the place of each.
    pub fn build(alloc: Global, decls: &[SigDecl]) -> Result<Signature, SigError>
        ensures ok { IfOk result (λ s. s ≡ declared decls.now) }
        ensures accepts { IfOk result (λ s. accepts (declared decls.now) ≡ true) }
        ensures accepted { IfOk result (λ s. IsAccepted (declared decls.now)) }
        ensures lawful { IfOk result (λ s. IsLawful (hierarchy s)) }
        ensures no_fault { IfOk result (λ _. fault_of (declared decls.now) ≡ None) }
        ensures exact { IfErr result (λ e. RefusesFor (declared decls.now) (fault_of (declared decls.now)) e) }
        ensures refuses { IfErr result (λ e. e ≢ SigError.NoMemory → accepts (declared decls.now) ≡ false) }
        ensures too_many_types { RefusesWhere result SigError.TooManyTypes (IsFault (declared decls.now) TooManyTypes) }
        ensures too_many_features { RefusesWhere result SigError.TooManyFeatures (IsFault (declared decls.now) TooManyFeatures) }
        ensures sub_cycle { (x : List ℕ) → RefusesWhere result (SigError.SubCycle x)
            ((t : ℕ) × (x ≡ name_of (declared decls.now).types t) × IsFault (declared decls.now) (SubCycle t)) }
        ensures no_join { (x y z w : List ℕ) → RefusesWhere result (SigError.NoJoin x y z w)
            ((a b c e : ℕ) × (x ≡ name_of (declared decls.now).types a) × (y ≡ name_of (declared decls.now).types b)
            × (z ≡ name_of (declared decls.now).types c) × (w ≡ name_of (declared decls.now).types e) × IsFault (declared decls.now) (NoJoin a b c e)) }
        ensures two_intros { (x y z : List ℕ) → RefusesWhere result (SigError.TwoIntros x y z)
            ((f a b : ℕ) × (x ≡ name_of (declared decls.now).features f) × (y ≡ name_of (declared decls.now).types a)
            × (z ≡ name_of (declared decls.now).types b) × IsFault (declared decls.now) (TwoIntros f a b)) }
        ensures value_clash { (x y : List ℕ) → RefusesWhere result (SigError.ValueClash x y)
            ((t f : ℕ) × (x ≡ name_of (declared decls.now).types t) × (y ≡ name_of (declared decls.now).features f) × IsFault (declared decls.now) (ValueClash t f)) }
        ensures loop_back { (x : List ℕ) → RefusesWhere result (SigError.Loop x)
            ((t : ℕ) × (x ≡ name_of (declared decls.now).types t) × IsFault (declared decls.now) (Loop t)) }
        ensures ext_not_maximal { (x : List ℕ) → RefusesWhere result (SigError.ExtNotMaximal x)
            ((t : ℕ) × (x ≡ name_of (declared decls.now).types t) × IsFault (declared decls.now) (ExtNotMaximal t)) }
        ensures fill_too_large { (x : List ℕ) → RefusesWhere result (SigError.FillTooLarge x)
            ((t : ℕ) × (x ≡ name_of (declared decls.now).types t) × IsFault (declared decls.now) (FillTooLarge t)) }
    {
        Signature::of_decls(alloc, decls)
    }

    /// The signature that the declarations give, or why they give none.
    fn of_decls(alloc: Global, decls: &[SigDecl]) -> Result<Signature, SigError>
        ensures ok { IfOk result (λ s. s ≡ declared decls.now) }
        ensures no_fault { IfOk result (λ _. fault_of (declared decls.now) ≡ None) }
        ensures exact { IfErr result (λ e. RefusesFor (declared decls.now) (fault_of (declared decls.now)) e) }
    {
        let outline = Outline::read(alloc, decls)?;
        let order = Order::new(alloc, outline)?;
        Signature::of_order(alloc, order)
    }

    /// The signature of this order.
    fn of_order(alloc: Global, order: Order) -> Result<Signature, SigError>
        ensures ok { IfOk result (λ s. s ≡ order) }
        ensures no_fault { IfOk result (λ _. fault_of order ≡ None) }
        ensures exact { IfErr result (λ e. RefusesFor order (fault_of order) e) }
    {
        let joins = joins(alloc, &order)?;
        let intros = intros(alloc, &order)?;
        let restrictions = restrictions(alloc, &order, joins.as_slice())?;
        let lists = feature_lists(alloc, &order, restrictions.as_slice())?;
        check_fills(alloc, &order, restrictions.as_slice(), lists.as_slice())?;
        let ext = ext_flags(alloc, &order)?;
        Ok(Signature {
            order,
            joins: Row::of(joins),
            restrictions: Row::of(restrictions),
            lists: Row::of(lists),
            intros: Row::of(intros),
            ext: Row::of(ext),
        })
    }

    /// The law of signatures that are built: each is accepted, and so obeys the laws of a hierarchy.
    pub fn built_law(&self)
        ensures accepted { IsAccepted self.now }
        ensures lawful { IsLawful (hierarchy self.now) }
    {
        let _ = &self.joins;
    }

    /// Whether `a` is `b`, or more general.
    pub fn subsumes(&self, a: TypeId, b: TypeId) -> bool
        requires a { a < length self.now.types }
        requires b { b < length self.now.types }
        ensures value { result ≡ is_above self.now a b }
        ensures paths { IsTrue result ↔ IsAbove self.now a b }
    {
        let _ = &self.joins;
        self.order.is_above(a.index(), b.index())
    }

    /// How many types there are, with `bot`.
    pub fn type_count(&self) -> usize
        ensures value { result ≡ length self.now.types }
        ensures lawful { IsLawful (hierarchy self.now) }
    {
        let _ = &self.joins;
        self.order.type_count()
    }

    /// How many features there are.
    pub fn feat_count(&self) -> usize
        ensures { result ≡ length self.now.features }
    {
        self.order.feat_count()
    }

    /// The least common subtype of two types; None exactly where they have no common subtype.
    pub fn join(&self, a: TypeId, b: TypeId) -> Option<TypeId>
        requires a { a < length self.now.types }
        requires b { b < length self.now.types }
        ensures value { result ≡ join self.now a b }
        ensures least { IfSome result (λ j. IsJoin self.now a b j) }
        ensures none { IfNone result ((c : ℕ) → IsAbove self.now a c → IsAbove self.now b c → ⊥) }
    {
        join_at(&self.order, self.joins.as_slice(), a.index(), b.index())
    }

    /// The restriction on the value by a feature at a type; None exactly where the feature isn't
    /// appropriate to the type.
    pub fn approp(&self, f: FeatId, t: TypeId) -> Option<TypeId>
        requires f { f < length self.now.features }
        requires t { t < length self.now.types }
        ensures value { result ≡ approp self.now f t }
        ensures least { IfSome result (λ r. IsRestriction self.now f t r) }
        ensures none { IfNone result ((m : Mention) → Applies self.now f t m → ⊥) }
    {
        restriction_at(
            &self.order,
            self.restrictions.as_slice(),
            f.index(),
            t.index(),
        )
    }

    /// The most general type to which a feature is appropriate.
    pub fn intro(&self, f: FeatId) -> TypeId
        requires { f < length self.now.features }
        ensures value { result ≡ intro self.now f }
        ensures most_general { Introduces self.now f result }
    {
        self.intros.as_slice()[f.index()]
    }

    /// The features appropriate to a type, in feature order.
    pub fn features(&self, t: TypeId) -> &[FeatId]
        requires { t < length self.now.types }
        ensures { result.now ≡ features self.now t }
    {
        self.lists.as_slice()[t.index()].as_slice()
    }

    /// Whether nodes of a type are identified where all their values are the same.
    pub fn is_ext(&self, t: TypeId) -> bool
        requires { t < length self.now.types }
        ensures value { result ≡ is_ext self.now t }
        ensures declared { IsTrue result ↔ Has self.now.ext t }
    {
        self.ext.as_slice()[t.index()]
    }

    /// The type of this name; None exactly where there is none.
    pub fn type_named(&self, name: &str) -> Option<TypeId>
        ensures value { result ≡ named self.now.types (chars name.now) }
        ensures found { IfSome result (λ t. slice_get self.now.types t ≡ Some (chars name.now)) }
        ensures none { IfNone result (Has self.now.types (chars name.now) → ⊥) }
    {
        let t = self.order.outline().type_named(name)?;
        Some(TypeId::of(t as u16))
    }

    /// The feature of this name; None exactly where there is none.
    pub fn feat_named(&self, name: &str) -> Option<FeatId>
        ensures value { result ≡ named self.now.features (chars name.now) }
        ensures found { IfSome result (λ f. slice_get self.now.features f ≡ Some (chars name.now)) }
        ensures none { IfNone result (Has self.now.features (chars name.now) → ⊥) }
    {
        let f = self.order.outline().feat_named(name)?;
        Some(FeatId::of(f as u16))
    }

    /// The name of a type.
    pub fn type_name(&self, t: TypeId) -> &str
        requires { t < length self.now.types }
        ensures value { chars result.now ≡ name_of self.now.types t }
        ensures bytes { result.now ≡ encode_utf8_all (name_of self.now.types t) }
    {
        self.order.outline().type_name(t.index())
    }

    /// The name of a feature.
    pub fn feat_name(&self, f: FeatId) -> &str
        requires { f < length self.now.features }
        ensures value { chars result.now ≡ name_of self.now.features f }
        ensures bytes { result.now ≡ encode_utf8_all (name_of self.now.features f) }
    {
        self.order.outline().feat_name(f.index())
    }
}
