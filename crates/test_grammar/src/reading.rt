//! Declarations of all forms, from their texts.
ghost use Rattle.std.specs.Prelude.{OnOk, IfOk, map};
ghost use Rattle.ale_declaration.specs.Declarations.{declaration_data};
ghost use Rattle.ale_grammar.specs.Assembling.{HasBoundLines, HaveBoundLines};

use ale_declaration::{Declaration, read_declaration};
use ale_form::FormError;
use ale_grammar::bound_law;
use ale_token::tokens;
use std::alloc::Global;

/// The declaration that a text is, without its end.
fn declaration_of(alloc: Global, text: &str) -> Result<Declaration, FormError>
    ensures { IfOk result (λ d. HasBoundLines (declaration_data d)) }
{
    bound_law();
    match tokens(alloc, text) {
        Ok(list) => read_declaration(alloc, text, list.as_slice()),
        Err(_) => Err(FormError::NotADeclaration),
    }
}

/// Adds the declaration that a text is.
#[tactic(auto, using(ale_grammar::proofs::LinesAreBound::bound_after))]
fn read_next(alloc: Global, text: &str, read: &mut Vec<Declaration>) -> Result<(), FormError>
    requires { HaveBoundLines (map declaration_data read.now.items) }
    ensures { OnOk result (HaveBoundLines (map declaration_data read.new.items)) }
{
    let next = declaration_of(alloc, text)?;
    read.push(next)?;
    Ok(())
}

/// The declarations of a text, each before a `.`, which therefore stands in no name.
pub fn declarations(alloc: Global, text: &str) -> Result<Vec<Declaration>, FormError>
    ensures { IfOk result (λ read. HaveBoundLines (map declaration_data read.items)) }
{
    let mut read = Vec::new(alloc);
    for part in text.split('.') {
        if !part.trim().is_empty() {
            read_next(alloc, part, &mut read)?;
        }
    }
    Ok(read)
}
