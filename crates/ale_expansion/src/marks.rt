//! Variables and calls, each with a number of its own.
ghost use Rattle.std.specs.Prelude.{◌≡◌, [], length, IfOk, OnOk, OnErr};
ghost use Rattle.ale_expansion.specs.Marks.{place_of, with_mark};

use crate::mark::Mark;
use indexmap::IndexSet;
use std::alloc::{AllocError, Global};
use std::marker::Model;

/// Variables or calls, numbered in the order in which they were met. Contracts see the list of them.
#[derive(Drop)]
pub struct Marks {
    set: IndexSet<Mark>,
}

impl Model for Marks {
    ghost use Rattle.std.specs.Prelude.{List};
    ghost use Rattle.ale_expansion.specs.declared.mark.Mark.{Mark};

    ghost Value = { List Mark };

    ghost view = { λ m. m.set.keys };
}

impl Marks {
    /// None.
    pub fn new(alloc: Global) -> Marks
        ensures { result ≡ [] }
    {
        Marks {
            set: IndexSet::new(alloc),
        }
    }

    /// They in order.
    pub fn as_slice(&self) -> &[Mark]
        ensures { result.now ≡ self.now }
    {
        self.set.as_slice()
    }

    /// The number of this one, which is put last where it is new.
    pub fn number(&mut self, mark: Mark) -> Result<usize, AllocError>
        ensures number { IfOk result (λ k. k ≡ place_of self.old mark) }
        ensures added { OnOk result (self.new ≡ with_mark self.old mark) }
        ensures unchanged { OnErr result (self.new ≡ self.old) }
    {
        let (number, _) = self.set.insert_full(mark)?;
        Ok(number)
    }
}
