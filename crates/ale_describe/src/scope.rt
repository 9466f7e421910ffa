//! The variables of one declaration.
ghost use Rattle.std.specs.Prelude.{◌≡◌, IfOk, length};
ghost use Rattle.ale_describe.specs.Scopes.{new_scope, slot_names};

use crate::slots::Slots;
use ale_expansion::Variables;
use ale_text::{Row, Text};
use std::alloc::{AllocError, Global};
use std::marker::Model;

/// The variables of a declaration met so far: as they are written, and those that have slots. Contracts see a ScopeData.
#[derive(Drop)]
pub struct Scope {
    pub(crate) written: Slots,
    pub(crate) variables: Variables,
}

impl Model for Scope {
    ghost use Rattle.ale_describe.specs.Scopes.{ScopeData};
    ghost use Rattle.ale_describe.specs.Codes.{scope_code};

    ghost Value = { ScopeData };

    ghost coded = { scope_code };

    ghost view = { λ s. record { written = s.written; slots = s.variables } };
}

impl Scope {
    /// No variables.
    pub fn new(alloc: Global) -> Scope
        ensures { result ≡ new_scope }
    {
        Scope {
            written: Slots::new(alloc),
            variables: Variables::new(alloc),
        }
    }

    /// How many slots there are.
    pub fn count(&self) -> usize
        ensures { result ≡ length self.now.slots }
    {
        self.variables.count()
    }

    /// The name of each slot: as its variable is written in the declaration, and `_` for one of a macro's own.
    pub fn slot_names(&self, alloc: Global) -> Result<Row<Text>, AllocError>
        ensures { IfOk result (λ names. names ≡ slot_names self.now) }
    {
        self.variables.names(alloc, self.written.names())
    }
}
