//! The paths of calls and the variables that were met.
ghost use Rattle.std.specs.Prelude.{◌≡◌, ◌<◌, [], ◌∷◌, ◌++◌, List, ℕ, length, IfOk, OnOk};
ghost use Rattle.ale_macro.specs.Slots.{slot_of, with_variable};
ghost use Rattle.ale_expansion.specs.Marks.{path_at, origins_of};
ghost use Rattle.ale_expansion.specs.Met.{AreBelow, AreDistinct};

use crate::mark::Mark;
use crate::marks::Marks;
use std::alloc::{AllocError, Global};
use std::marker::Model;

/// The paths of calls that were met, which have numbers from 1 on, since 0 is that of no calls; and the variables, which have
/// slots. Contracts see the list of each.
#[derive(Drop)]
pub struct Met {
    calls: Marks,
    slots: Marks,
}

impl Model for Met {
    ghost use Rattle.ale_expansion.specs.Marks.{paths_of, origins_of};
    ghost use Rattle.ale_expansion.specs.Met.{MetData, IsMet};

    ghost Value = { MetData };

    ghost view = { λ m. record { paths = paths_of m.calls; variables = origins_of (paths_of m.calls) m.slots } };

    ghost invariant = { λ m. IsMet m.calls m.slots };
}

impl Met {
    /// No variables, and the path of no calls.
    pub fn new(alloc: Global) -> Met
        ensures paths { result.paths ≡ [] ∷ [] }
        ensures variables { result.variables ≡ [] }
    {
        Met {
            calls: Marks::new(alloc),
            slots: Marks::new(alloc),
        }
    }

    /// The variables in order of their slots.
    pub fn slots(&self) -> &[Mark]
        ensures value { origins_of self.now.paths result.now ≡ self.now.variables }
        ensures below { AreBelow (length self.now.paths) result.now }
        ensures distinct { AreDistinct self.now.paths }
    {
        self.slots.as_slice()
    }

    /// The number of the path of no calls.
    pub fn root(&self) -> usize
        ensures zero { result ≡ 0 }
        ensures there { 0 < length self.now.paths }
        ensures path { path_at self.now.paths 0 ≡ [] }
    {
        // the first of the paths, whatever calls were met
        let _calls = &self.calls;
        0
    }

    /// The number of the path that goes on from this one by this call.
    pub fn path(&mut self, outer: usize, call: u32) -> Result<usize, AllocError>
        requires there { outer < length self.old.paths }
        ensures within { IfOk result (λ p. p < length self.new.paths) }
        ensures path { IfOk result (λ p. path_at self.new.paths p ≡ call ∷ path_at self.old.paths outer) }
        ensures more { OnOk result ((more : List (List ℕ)) × (self.new.paths ≡ self.old.paths ++ more)) }
        ensures variables { OnOk result (self.new.variables ≡ self.old.variables) }
    {
        let mark = Mark {
            path: outer,
            number: call,
        };
        let place = self.calls.number(mark)?;
        match place.checked_add(1) {
            Some(path) => Ok(path),
            None => Err(AllocError),
        }
    }

    /// The slot of the variable with this number in the scope to which the path leads.
    pub fn slot(&mut self, path: usize, number: u32) -> Result<usize, AllocError>
        requires there { path < length self.old.paths }
        ensures slot { IfOk result (λ s. s ≡ slot_of self.old.variables (path_at self.old.paths path, number)) }
        ensures added { OnOk result (self.new.variables ≡ with_variable self.old.variables (path_at self.old.paths path, number)) }
        ensures paths { OnOk result (self.new.paths ≡ self.old.paths) }
    {
        let slot = self.slots.number(Mark { path, number })?;
        Ok(slot)
    }
}
