ghost use Rattle.std.specs.Prelude.{◌≡◌, ◌<◌, IfOk, IfSome, IfNone, Some, length, slice_get, encode_utf8_all};
ghost use Rattle.std.specs.Str.{chars};
ghost use Rattle.ale_relation.specs.Has.{Has};

use crate::decl::{Mention, SigDecl};
use crate::names::Names;
use crate::written;
use std::alloc::{AllocError, Global};
use std::marker::Model;

/// What declarations declare, with names numbered in order of first mention.
#[derive(Drop)]
pub struct Outline {
    types: Names,
    features: Names,
    edges: Vec<(usize, usize)>,
    mentions: Vec<Mention>,
    ext: Vec<usize>,
}

impl Model for Outline {
    ghost use Rattle.ale_declared.specs.Declarations.{Declared};

    ghost Value = { Declared };

    ghost view = { λ o. record { types = o.types; features = o.features; edges = o.edges.items; mentions = o.mentions.items; ext = o.ext.items } };
}

impl Outline {
    ghost use Rattle.ale_declared.specs.Declarations.{declared};
    ghost use Rattle.ale_declared.specs.Names.{named, name_of};

    /// What the declarations declare, all of them together.
    pub fn read(alloc: Global, decls: &[SigDecl]) -> Result<Outline, AllocError>
        ensures { IfOk result (λ o. o ≡ declared decls.now) }
    {
        let types = written::types_of(alloc, decls)?;
        let features = written::features_of(alloc, decls)?;
        let mut edges = written::edges_of(alloc, &types, decls)?;
        written::push_tops(&mut edges, alloc, &types, decls)?;
        let mentions = written::mentions_of(alloc, &types, &features, decls)?;
        let ext = written::ext_of(alloc, &types, decls)?;
        Ok(Outline {
            types,
            features,
            edges,
            mentions,
            ext,
        })
    }

    /// How many types there are, with `bot`.
    pub fn type_count(&self) -> usize
        ensures { result ≡ length self.now.types }
    {
        self.types.count()
    }

    /// How many features there are.
    pub fn feat_count(&self) -> usize
        ensures { result ≡ length self.now.features }
    {
        self.features.count()
    }

    /// Which type stands directly above which.
    pub fn edges(&self) -> &[(usize, usize)]
        ensures { result.now ≡ self.now.edges }
    {
        self.edges.as_slice()
    }

    /// Which type mentions which feature, with which restriction.
    pub fn mentions(&self) -> &[Mention]
        ensures { result.now ≡ self.now.mentions }
    {
        self.mentions.as_slice()
    }

    /// The extensional types.
    pub fn ext(&self) -> &[usize]
        ensures { result.now ≡ self.now.ext }
    {
        self.ext.as_slice()
    }

    /// The type of this name; None exactly where there is none.
    pub fn type_named(&self, name: &str) -> Option<usize>
        ensures value { result ≡ named self.now.types (chars name.now) }
        ensures found { IfSome result (λ t. slice_get self.now.types t ≡ Some (chars name.now)) }
        ensures none { IfNone result (Has self.now.types (chars name.now) → ⊥) }
    {
        self.types.named(name)
    }

    /// The feature of this name; None exactly where there is none.
    pub fn feat_named(&self, name: &str) -> Option<usize>
        ensures value { result ≡ named self.now.features (chars name.now) }
        ensures found { IfSome result (λ f. slice_get self.now.features f ≡ Some (chars name.now)) }
        ensures none { IfNone result (Has self.now.features (chars name.now) → ⊥) }
    {
        self.features.named(name)
    }

    /// The name of a type.
    pub fn type_name(&self, t: usize) -> &str
        requires { t < length self.now.types }
        ensures value { chars result.now ≡ name_of self.now.types t }
        ensures bytes { result.now ≡ encode_utf8_all (name_of self.now.types t) }
    {
        self.types.name(t)
    }

    /// The name of a feature.
    pub fn feat_name(&self, f: usize) -> &str
        requires { f < length self.now.features }
        ensures value { chars result.now ≡ name_of self.now.features f }
        ensures bytes { result.now ≡ encode_utf8_all (name_of self.now.features f) }
    {
        self.features.name(f)
    }
}
