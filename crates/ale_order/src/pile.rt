//! Lists that grow and shrink at their front.

ghost use Rattle.std.specs.Prelude.{◌≡◌, [], ◌∷◌, reverse, IfOk, IfSome, IfNone};

use std::alloc::{AllocError, Global};
use std::marker::Model;

/// A list that grows and shrinks at its front, which is the end of a `Vec`.
#[derive(Debug, Drop)]
pub struct Pile<T> {
    items: Vec<T>,
}

impl<T> Model for Pile<T> {
    ghost use Rattle.std.specs.Prelude.{List, reverse};
    ghost use Rattle.std.specs.Coded.{coded_list};

    ghost Value = { List T };

    ghost coded = { coded_list T.code };

    ghost view = { λ p. reverse p.items.items };
}

impl<T: Copy> Pile<T> {
    /// The empty pile.
    pub fn new(alloc: Global) -> Pile<T>
        ensures { result ≡ [] }
    {
        Pile {
            items: Vec::new(alloc),
        }
    }

    /// Puts a value at the front.
    pub fn push(&mut self, value: T) -> Result<(), AllocError>
        ensures { IfOk result (λ _. self.new ≡ value ∷ self.old) }
    {
        self.items.push(value)?;
        Ok(())
    }

    /// Takes the value at the front off.
    pub fn pop(&mut self) -> Option<T>
        ensures some { IfSome result (λ value. self.old ≡ value ∷ self.new) }
        ensures none { IfNone result (self.old ≡ []) }
        ensures none_kept { IfNone result (self.new ≡ []) }
    {
        self.items.pop()
    }

    /// The values, the front last.
    pub fn into_items(self) -> Vec<T>
        ensures { self ≡ reverse result.items }
    {
        let Pile { items } = self;
        items
    }
}
