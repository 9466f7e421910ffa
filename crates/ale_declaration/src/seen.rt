//! Names that came before, with an index.
ghost use Rattle.std.specs.Prelude.{◌≡◌, OnOk, [], ◌∷◌};

use ale_text::Text;
use indexmap::IndexSet;
use std::alloc::{AllocError, Global};
use std::marker::Model;

/// Names, each once, in the order in which they were added. Contracts see the list of them.
#[derive(Drop)]
pub(crate) struct Seen {
    set: IndexSet<String>,
}

impl Model for Seen {
    ghost use Rattle.std.specs.Prelude.{List, ℕ, map, string_bytes};
    ghost use Rattle.std.specs.Str.{chars};

    ghost Value = { List (List ℕ) };

    ghost view = { λ n. map (λ k. chars (string_bytes k)) n.set.keys };
}

impl Seen {
    ghost use Rattle.ale_declared.specs.Names.{is_named, numbered};

    /// None.
    pub(crate) fn new(alloc: Global) -> Seen
        ensures { result ≡ [] }
    {
        Seen {
            set: IndexSet::new(alloc),
        }
    }

    /// Whether the name is there.
    pub(crate) fn has(&self, name: &Text) -> bool
        ensures { result ≡ is_named name.now self.now }
    {
        self.set.contains(name.as_str())
    }

    /// Adds the name, where it is not there.
    pub(crate) fn add(&mut self, alloc: Global, name: &Text) -> Result<(), AllocError>
        ensures { OnOk result (self.new ≡ numbered self.old (name.now ∷ [])) }
    {
        if !self.has(name) {
            let own = String::from_str(alloc, name.as_str())?;
            self.set.insert(own)?;
        }
        Ok(())
    }
}
