//! Directives.
ghost use Rattle.std.specs.Prelude.{◌≡◌, IfOk};
ghost use Rattle.std.specs.Str.{chars};
ghost use Rattle.ale_term.specs.Reading.{atom_at};
ghost use Rattle.ale_declaration.specs.Declarations.{declaration_data};
ghost use Rattle.ale_declaration.specs.Directives.{numbered, name_or_dash, directive_of};

use crate::declaration::Declaration;
use ale_form::{held_number, number_at};
use ale_term::{Lexeme, Symbol, atom_at, past, past_word};
use ale_text::Text;
use std::alloc::{AllocError, Global};

/// The number in round brackets after this word of ASCII, where the lexemes are no more than these.
fn numbered(lexemes: &[Lexeme], word: &str) -> Option<u32>
    requires { chars word.now ≡ word.now }
    ensures { result ≡ numbered word.now lexemes.now }
{
    let behind = past_word(lexemes, word)?;
    let inner = past(behind, Symbol::OpenRound)?;
    let (digits, after) = number_at(inner)?;
    match past(after, Symbol::CloseRound)? {
        [] => Some(held_number(digits)),
        _ => None,
    }
}

/// The name of a directive that is passed over.
#[tactic(auto, using(crate::proofs::Words::word_rules))]
fn directive_name(alloc: Global, lexemes: &[Lexeme]) -> Result<Text, AllocError>
    ensures { IfOk result (λ name. name ≡ name_or_dash (atom_at lexemes.now)) }
{
    match atom_at(lexemes) {
        None => Ok(Text::of(String::from_str(alloc, "-")?)),
        Some((name, _)) => name.copy(alloc),
    }
}

/// The directive whose lexemes after `:-` these are.
#[tactic(auto, using(crate::proofs::Words::word_rules))]
pub(crate) fn directive(alloc: Global, lexemes: &[Lexeme]) -> Result<Declaration, AllocError>
    ensures { IfOk result (λ d. declaration_data d ≡ directive_of lexemes.now) }
{
    if let Some(depth) = numbered(lexemes, "lex_rule_depth") {
        return Ok(Declaration::LexDepth(depth));
    }
    if let Some(length) = numbered(lexemes, "chain_length") {
        return Ok(Declaration::ChainLength(length));
    }
    Ok(Declaration::PassedOver(directive_name(alloc, lexemes)?))
}
