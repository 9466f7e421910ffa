//! What written descriptions stand for.
ghost use Rattle.std.specs.Prelude.{IfOk};
ghost use Rattle.ale_hierarchy.specs.Order.{hierarchy};
ghost use Rattle.ale_term.specs.Terms.{term_data};
ghost use Rattle.ale_logic.specs.Descriptions.{description, FitsDescription};
ghost use Rattle.ale_vocabulary.specs.First.{AllRight};
ghost use Rattle.ale_vocabulary.specs.Knowing.{IsUnknown};
ghost use Rattle.ale_vocabulary.specs.Mentions.{mentions};
ghost use Rattle.ale_describe.specs.Laws.{FitsNames};

use ale_describe::{Names, Scope, describe_law};
use ale_logic::Desc;
use ale_signature::Signature;
use ale_stage::is_built;
use ale_term::Term;
use ale_text::{Row, Text};
use ale_vocabulary::{NameError, first_unknown};
use std::alloc::{AllocError, Global};

/// A description with its variables.
#[derive(Drop)]
pub struct Described {
    /// The description; a variable stands in it by its slot.
    pub desc: Desc,
    /// How many slots there are.
    pub slots: usize,
    /// The name of each slot.
    pub names: Row<Text>,
}

/// Why a written description stands for none.
#[derive(Drop)]
pub enum Refusal {
    /// It has a form that is not built.
    Unbuilt,
    /// A name stands for nothing, or it has too many parts.
    Name(NameError),
}

/// What a description stands for whose names are all known.
fn known(
    alloc: Global,
    sig: &Signature,
    names: &Names,
    term: &Term,
) -> Result<Described, AllocError>
    requires names { FitsNames sig.now names.now }
    requires known { AllRight (IsUnknown sig.now names.now.vocabulary) (mentions (term_data term.now)) }
    ensures { IfOk result (λ d. FitsDescription (hierarchy sig.now) d.slots (description d.desc)) }
{
    describe_law();
    let mut scope = Scope::new(alloc);
    let desc = names.describe(alloc, sig, &mut scope, term)?;
    let slots = scope.count();
    let names = scope.slot_names(alloc)?;
    Ok(Described { desc, slots, names })
}

/// What a description stands for whose names are all known, where it is not too large.
fn limited(
    alloc: Global,
    sig: &Signature,
    names: &Names,
    term: &Term,
) -> Result<Result<Described, Refusal>, AllocError>
    requires names { FitsNames sig.now names.now }
    requires known { AllRight (IsUnknown sig.now names.now.vocabulary) (mentions (term_data term.now)) }
    ensures { IfOk result (λ r. IfOk r (λ d. FitsDescription (hierarchy sig.now) d.slots (description d.desc))) }
{
    if names.parts_after(alloc, sig, 0, term)?.is_none() {
        return Ok(Err(Refusal::Name(NameError::TooBig)));
    }
    let found = known(alloc, sig, names, term)?;
    Ok(Ok(found))
}

/// What a written description stands for by what names mean, or why it stands for none.
pub fn meaning_of(
    alloc: Global,
    sig: &Signature,
    names: &Names,
    term: &Term,
) -> Result<Result<Described, Refusal>, AllocError>
    requires { FitsNames sig.now names.now }
    ensures { IfOk result (λ r. IfOk r (λ d. FitsDescription (hierarchy sig.now) d.slots (description d.desc))) }
{
    if !is_built(term) {
        return Ok(Err(Refusal::Unbuilt));
    }
    if let Some(error) = first_unknown(alloc, sig, names.vocabulary(), term)? {
        return Ok(Err(Refusal::Name(error)));
    }
    limited(alloc, sig, names, term)
}
