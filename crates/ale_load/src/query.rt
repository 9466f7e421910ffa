//! What a written description asks for.
ghost use Rattle.std.specs.Prelude.{◌≡◌, ◌+◌, IfOk};
ghost use Rattle.ale_term.specs.Terms.{term_data};
ghost use Rattle.ale_describe.specs.Limits.{parts_of};
ghost use Rattle.ale_load.specs.Commands.{asked_after};
ghost use Rattle.ale_load.specs.Views.{loaded_data, asked_data, HasParts};

use crate::grammar::Loaded;
use ale_describe::{Scope, limits_law};
use ale_logic::Desc;
use ale_term::Term;
use ale_text::{Row, Text};
use ale_vocabulary::{NameError, first_unknown};
use std::alloc::{AllocError, Global};

/// What a command asks for.
#[derive(Drop)]
pub struct Query {
    /// The description, whose variables have slots.
    pub desc: Desc,
    /// The name of each slot, in order: as the variable is written, and `_` for one of a macro's own.
    pub names: Row<Text>,
}

// What a description asks for, with how many parts there are then; or why it is refused.
#[derive(Drop)]
pub(crate) enum Asked {
    Query(Query, u64),
    Refused(NameError),
}

// What the description asks for, after so many parts in those before it.
pub(crate) fn query_after(
    alloc: Global,
    loaded: &Loaded,
    so_far: u64,
    term: &Term,
) -> Result<Asked, AllocError>
    ensures asked { IfOk result (λ a. asked_data a ≡ asked_after (loaded_data loaded.now) so_far (term_data term.now)) }
    ensures parts { IfOk result (λ a. HasParts a (so_far + parts_of loaded.now.signature loaded.now.names (term_data term.now))) }
{
    let sig = &loaded.signature;
    let names = &loaded.names;
    if let Some(error) = first_unknown(alloc, sig, names.vocabulary(), term)? {
        return Ok(Asked::Refused(error));
    }
    let Some(parts) = names.parts_after(alloc, sig, so_far, term)? else {
        return Ok(Asked::Refused(NameError::TooBig));
    };
    limits_law();
    let mut scope = Scope::new(alloc);
    let desc = names.describe(alloc, sig, &mut scope, term)?;
    let names = scope.slot_names(alloc)?;
    Ok(Asked::Query(Query { desc, names }, parts))
}
