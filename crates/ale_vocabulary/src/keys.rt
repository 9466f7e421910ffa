//! Names with numbers of arguments.
ghost use Rattle.std.specs.Prelude.{◌≡◌, ◌∷◌, [], IfOk, OnOk, OnErr, Some, map};
ghost use Rattle.std.specs.Str.{chars};
ghost use Rattle.ale_declared.specs.Names.{named, numbered};
ghost use Rattle.ale_declared.proofs.NameLemmas.{shown};
ghost use Rattle.ale_vocabulary.specs.Keys.{key};

use ale_text::Text;
use indexmap::IndexSet;
use std::alloc::{AllocError, Global};
use std::marker::Model;

/// Names with numbers of arguments, numbered in the order in which they were added. Contracts see the list of their keys.
#[derive(Drop)]
pub struct Keys {
    names: IndexSet<String>,
    /// The place of the name among the names, and the number of arguments.
    pairs: IndexSet<(usize, usize)>,
}

impl Model for Keys {
    ghost use Rattle.std.specs.Prelude.{List, ℕ, map};
    ghost use Rattle.ale_declared.proofs.NameLemmas.{shown};
    ghost use Rattle.ale_vocabulary.specs.Pairs.{keys_of, ArePaired};

    ghost Value = { List (List ℕ) };

    ghost view = { λ k. keys_of (map shown k.names.keys) k.pairs.keys };

    ghost invariant = { λ k. ArePaired (map shown k.names.keys) k.pairs.keys };
}

/// The place of a name among the names, where it is added if it is not there.
fn place(alloc: Global, names: &mut IndexSet<String>, name: &Text) -> Result<usize, AllocError>
    ensures place { IfOk result (λ n. named (map shown names.new.keys) name.now ≡ Some n) }
    ensures added { OnOk result (map shown names.new.keys ≡ numbered (map shown names.old.keys) (name.now ∷ [])) }
    ensures unchanged { OnErr result (names.new.keys ≡ names.old.keys) }
{
    if let Some(found) = names.get_index_of(name.as_str()) {
        return Ok(found);
    }
    let own = String::from_str(alloc, name.as_str())?;
    let place = names.len();
    names.insert(own)?;
    Ok(place)
}

impl Keys {
    /// No names.
    pub fn new(alloc: Global) -> Keys
        ensures { result ≡ [] }
    {
        Keys {
            names: IndexSet::new(alloc),
            pairs: IndexSet::new(alloc),
        }
    }

    /// The number of a name with so many arguments; None exactly where it is not there. It takes no memory.
    pub fn named(&self, name: &str, arity: usize) -> Option<usize>
        ensures { result ≡ named self.now (key (chars name.now) arity) }
    {
        let place = self.names.get_index_of(name)?;
        self.pairs.get_index_of(&(place, arity))
    }

    /// Adds a name with so many arguments, where it is not there.
    pub fn add(&mut self, alloc: Global, name: &Text, arity: usize) -> Result<(), AllocError>
        ensures { OnOk result (self.new ≡ numbered self.old (key name.now arity ∷ [])) }
    {
        let place = place(alloc, &mut self.names, name)?;
        self.pairs.insert((place, arity))?;
        Ok(())
    }
}
