ghost use Rattle.std.specs.Prelude.{◌≡◌, ◌<◌, IfSome, IfNone, OnOk, OnErr, Some, [], ◌∷◌, length, slice_get, encode_utf8_all};
ghost use Rattle.std.specs.Str.{chars};
ghost use Rattle.ale_relation.specs.Has.{Has};

use ale_text::Text;
use indexmap::IndexSet;
use std::alloc::{AllocError, Global};
use std::marker::Model;

/// Names, numbered in the order in which they were added. Contracts see the list of them.
#[derive(Drop)]
pub struct Names {
    set: IndexSet<String>,
}

impl Model for Names {
    ghost use Rattle.std.specs.Prelude.{List, ℕ, map, string_bytes};
    ghost use Rattle.std.specs.Str.{chars};

    ghost Value = { List (List ℕ) };

    ghost view = { λ n. map (λ k. chars (string_bytes k)) n.set.keys };
}

impl Names {
    ghost use Rattle.ale_declared.specs.Names.{is_named, number, numbered, named, name_of};

    /// No names.
    pub fn new(alloc: Global) -> Names
        ensures { result ≡ [] }
    {
        Names {
            set: IndexSet::new(alloc),
        }
    }

    /// How many names there are.
    pub fn count(&self) -> usize
        ensures { result ≡ length self.now }
    {
        self.set.len()
    }

    /// Whether the name is there.
    pub fn has(&self, name: &str) -> bool
        ensures { result ≡ is_named (chars name.now) self.now }
    {
        self.set.contains(name)
    }

    /// The place of a name; None exactly where it is not there.
    pub fn named(&self, name: &str) -> Option<usize>
        ensures value { result ≡ named self.now (chars name.now) }
        ensures found { IfSome result (λ t. slice_get self.now t ≡ Some (chars name.now)) }
        ensures none { IfNone result (Has self.now (chars name.now) → ⊥) }
    {
        self.set.get_index_of(name)
    }

    /// The number of a name; the count where it is not there.
    pub fn number(&self, name: &Text) -> usize
        ensures { result ≡ number self.now name.now }
    {
        self.named(name.as_str()).unwrap_or(self.count())
    }

    /// The name with this number.
    pub fn name(&self, number: usize) -> &str
        requires { number < length self.now }
        ensures value { chars result.now ≡ name_of self.now number }
        ensures bytes { result.now ≡ encode_utf8_all (name_of self.now number) }
    {
        self.set.as_slice()[number].as_str()
    }

    /// Adds a name, where it is not there.
    pub fn add(&mut self, alloc: Global, name: &Text) -> Result<(), AllocError>
        ensures added { OnOk result (self.new ≡ numbered self.old (name.now ∷ [])) }
        ensures unchanged { OnErr result (self.new ≡ self.old) }
    {
        if !self.has(name.as_str()) {
            let own = String::from_str(alloc, name.as_str())?;
            self.set.insert(own)?;
        }
        Ok(())
    }
}
