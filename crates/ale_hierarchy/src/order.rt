ghost use Rattle.std.specs.Prelude.{◌≡◌, ℕ, ◌<◌, ◌↔◌, true, false, IsTrue, IfOk, IfErr, length, if◌then◌else◌};
ghost use Rattle.ale_relation.specs.Rows.{holds};
ghost use Rattle.ale_hierarchy.specs.Order.{is_above, rank};
ghost use Rattle.ale_hierarchy.specs.Faults.{limit_fault, cycle_fault};
ghost use Rattle.ale_hierarchy.specs.Refusals.{RefusesFor};
ghost use Rattle.ale_declared.specs.Lists.{upto, first};
ghost use Rattle.std.specs.Option.{option_or};
ghost use Rattle.ale_declared.specs.Numbering.{IsWellNumbered};
ghost use Rattle.ale_hierarchy.specs.Stages.{IsOrdered, tabulated, directly_below, mentions_of};

use crate::error::SigError;
use crate::fault::Fault;
use crate::ids::TypeId;
use crate::naming::refusal;
use ale_declared::{Mention, Outline};
use ale_relation::{Relation, reachability};
use std::alloc::{AllocError, Global};
use std::marker::Model;

/// The most types that a signature may have.
const MOST_TYPES: usize = 4096;

/// The most features that a signature may have.
const MOST_FEATURES: usize = 1024;

/// What is declared, within the limits and without cycles, with its subtype order.
#[derive(Drop)]
pub struct Order {
    outline: Outline,
    leads: Relation,
}

impl Model for Order {
    ghost use Rattle.ale_declared.specs.Declarations.{Declared};
    ghost use Rattle.ale_hierarchy.specs.Stages.{IsOrdered, TellsLeads};

    ghost Value = { Declared };

    ghost view = { λ o. o.outline };

    ghost invariant = { λ o. record {
      ordered : IsOrdered o.outline;
      tells : TellsLeads o.outline o.leads;
    } };
}

impl Order {
    /// The order of what is declared; refused past a limit, and where the edges lead back to a type.
    pub fn new(alloc: Global, outline: Outline) -> Result<Order, SigError>
        requires { IsWellNumbered outline }
        ensures ok { IfOk result (λ o. o ≡ outline) }
        ensures refused { IfErr result (λ e. RefusesFor outline (option_or (limit_fault outline) (cycle_fault outline)) e) }
    {
        if let Some(fault) = past_limit(&outline) {
            return Err(refusal(alloc, &outline, fault));
        }
        let leads = reachability(alloc, outline.type_count(), outline.edges())?;
        if let Some(t) = first_cycle(&leads) {
            return Err(refusal(alloc, &outline, Fault::SubCycle(t)));
        }
        Ok(Order { outline, leads })
    }

    /// What is declared.
    pub fn outline(&self) -> &Outline
        ensures value { result.now ≡ self.now }
        ensures ordered { IsOrdered self.now }
    {
        &self.outline
    }

    /// How many types there are.
    pub fn type_count(&self) -> usize
        ensures value { result ≡ length self.now.types }
        ensures ordered { IsOrdered self.now }
    {
        self.outline.type_count()
    }

    /// How many features there are.
    pub fn feat_count(&self) -> usize
        ensures value { result ≡ length self.now.features }
        ensures ordered { IsOrdered self.now }
    {
        self.outline.feat_count()
    }

    /// Whether `a` is `b`, or more general.
    pub fn is_above(&self, a: usize, b: usize) -> bool
        requires a { a < length self.now.types }
        requires b { b < length self.now.types }
        ensures value { result ≡ is_above self.now a b }
        ensures ordered { IsOrdered self.now }
    {
        a == b || self.leads.holds(a, b)
    }

    /// The first of two types where it is above the other, and the other where not.
    pub fn higher(&self, a: TypeId, b: TypeId) -> TypeId
        requires a { a < length self.now.types }
        requires b { b < length self.now.types }
        ensures value { result ≡ (if is_above self.now a b then a else b) }
        ensures ordered { IsOrdered self.now }
    {
        if self.is_above(a.index(), b.index()) {
            a
        } else {
            b
        }
    }

    /// How many types are below a type.
    pub fn rank(&self, t: usize) -> usize
        requires { t < length self.now.types }
        ensures { result ≡ rank self.now t }
    {
        let mut count = 0;
        for u in 0..self.type_count() {
            if self.is_above(t, u) {
                count += 1;
            }
        }
        count
    }

    /// The ranks of all types.
    pub fn ranks(&self, alloc: Global) -> Result<Vec<usize>, AllocError>
        ensures { IfOk result (λ v. v.items ≡ tabulated (rank self.now) (length self.now.types)) }
    {
        let mut ranks = Vec::new(alloc);
        for t in 0..self.type_count() {
            ranks.push(self.rank(t))?;
        }
        Ok(ranks)
    }

    /// The types that are declared directly below a type.
    pub fn directly_below(&self, alloc: Global, t: usize) -> Result<Vec<usize>, AllocError>
        ensures { IfOk result (λ v. v.items ≡ directly_below self.now.edges t) }
    {
        let mut below = Vec::new(alloc);
        for &(from, to) in self.outline.edges() {
            if from == t {
                below.push(to)?;
            }
        }
        Ok(below)
    }

    /// The mentions of a feature.
    pub fn mentions_of(&self, alloc: Global, feature: usize) -> Result<Vec<Mention>, AllocError>
        ensures value { IfOk result (λ v. v.items ≡ mentions_of self.now.mentions feature) }
        ensures ordered { IsOrdered self.now }
    {
        let mut found = Vec::new(alloc);
        for &mention in self.outline.mentions() {
            if mention.feature == feature {
                found.push(mention)?;
            }
        }
        Ok(found)
    }
}

/// The limit that what is declared is past.
fn past_limit(outline: &Outline) -> Option<Fault>
    ensures { result ≡ limit_fault outline.now }
{
    if outline.type_count() > MOST_TYPES {
        return Some(Fault::TooManyTypes);
    }
    if outline.feat_count() > MOST_FEATURES {
        return Some(Fault::TooManyFeatures);
    }
    None
}

/// The first number that stands to itself.
pub fn first_cycle(leads: &Relation) -> Option<usize>
    ensures { result ≡ first (λ t. holds leads.now t t) (upto leads.now.size) }
{
    for t in 0..leads.size() {
        if leads.holds(t, t) {
            return Some(t);
        }
    }
    None
}
