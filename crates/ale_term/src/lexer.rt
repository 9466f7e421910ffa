//! What tokens stand for.
ghost use Rattle.std.specs.Prelude.{◌≡◌, IfOk};
ghost use Rattle.std.specs.List.{All};
ghost use Rattle.std.specs.Str.{chars, bytes_eq};
ghost use Rattle.ale_token.specs.Places.{spelling, Stands};
ghost use Rattle.ale_token.specs.Names.{name_of};
ghost use Rattle.ale_term.specs.Symbols.{symbol_of, short_symbol};
ghost use Rattle.ale_term.specs.Lexemes.{lexeme, lexemes, sign_of};

use crate::error::ReadError;
use crate::lexeme::Lexeme;
use crate::list::add;
use crate::symbol::Symbol;
use ale_text::Text;
use ale_token::{Kind, Token, name};
use std::alloc::{AllocError, Global};

/// Whether the text is this word of ASCII.
fn is(text: &str, word: &str) -> bool
    requires { chars word.now ≡ word.now }
    ensures { result ≡ bytes_eq (chars text.now) word.now }
{
    text == word
}

/// The symbol of one character that the text is.
#[tactic(auto, using(crate::proofs::Words::symbol_rules))]
fn short_symbol(text: &str) -> Option<Symbol>
    ensures { result ≡ short_symbol (chars text.now) }
{
    if is(text, "=") {
        return Some(Symbol::Equals);
    }
    if is(text, ":") {
        return Some(Symbol::Colon);
    }
    if is(text, ",") {
        return Some(Symbol::Comma);
    }
    if is(text, ";") {
        return Some(Symbol::Semicolon);
    }
    if is(text, "(") {
        return Some(Symbol::OpenRound);
    }
    if is(text, ")") {
        return Some(Symbol::CloseRound);
    }
    if is(text, "[") {
        return Some(Symbol::OpenSquare);
    }
    if is(text, "]") {
        return Some(Symbol::CloseSquare);
    }
    if is(text, "|") {
        return Some(Symbol::Bar);
    }
    if is(text, "@") {
        return Some(Symbol::MacroSign);
    }
    if is(text, "!") {
        return Some(Symbol::Exclamation);
    }
    if is(text, "/") {
        return Some(Symbol::Slash);
    }
    if is(text, ">") {
        return Some(Symbol::Greater);
    }
    None
}

/// The symbol that the text is.
#[tactic(auto, using(crate::proofs::Words::symbol_rules))]
fn symbol(text: &str) -> Option<Symbol>
    ensures { result ≡ symbol_of (chars text.now) }
{
    if is(text, "===>") {
        return Some(Symbol::RuleArrow);
    }
    if is(text, "--->") {
        return Some(Symbol::WordArrow);
    }
    if is(text, "+++>") {
        return Some(Symbol::FunctionArrow);
    }
    if is(text, "**>") {
        return Some(Symbol::LexRuleArrow);
    }
    if is(text, "=\\=") {
        return Some(Symbol::OtherThan);
    }
    if is(text, "==") {
        return Some(Symbol::SamePath);
    }
    if is(text, "=@") {
        return Some(Symbol::Identical);
    }
    if is(text, ":-") {
        return Some(Symbol::Neck);
    }
    if is(text, "->") {
        return Some(Symbol::Then);
    }
    if is(text, "\\+") {
        return Some(Symbol::NotProved);
    }
    short_symbol(text)
}

/// The lexeme of a token that is a symbol.
fn sign(text: &str) -> Lexeme
    ensures { result ≡ sign_of (symbol_of (chars text.now)) }
{
    match symbol(text) {
        None => Lexeme::Other,
        Some(symbol) => Lexeme::Sign(symbol),
    }
}

/// The name of a token.
fn name_text(alloc: Global, text: &str, token: &Token) -> Result<Text, AllocError>
    requires { Stands text.now token.now }
    ensures { IfOk result (λ name. name ≡ name_of token.now.kind (spelling text.now token.now)) }
{
    Ok(Text::of(name(alloc, text, token)?))
}

/// The lexeme of a token.
fn lexeme(alloc: Global, text: &str, token: &Token) -> Result<Lexeme, AllocError>
    requires { Stands text.now token.now }
    ensures { IfOk result (λ l. l ≡ lexeme text.now token.now) }
{
    match token.kind {
        Kind::Atom => Ok(Lexeme::Atom(name_text(alloc, text, token)?)),
        Kind::Quoted => Ok(Lexeme::Quoted(name_text(alloc, text, token)?)),
        Kind::Variable => Ok(Lexeme::Variable(name_text(alloc, text, token)?)),
        Kind::Number => Ok(Lexeme::Number(name_text(alloc, text, token)?)),
        Kind::Symbol => Ok(sign(token.text(text))),
        Kind::Other => Ok(Lexeme::Other),
        Kind::End => Ok(Lexeme::End),
    }
}

/// What the tokens of a text stand for, one lexeme for each. The tokens are ones that `ale_token::tokens` gives for
/// the text, such as those of one declaration.
pub fn lexemes(alloc: Global, text: &str, tokens: &[Token]) -> Result<Vec<Lexeme>, AllocError>
    requires { All (Stands text.now) tokens.now }
    ensures { IfOk result (λ v. v.items ≡ lexemes text.now tokens.now) }
{
    let mut found = Vec::new(alloc);
    for token in tokens {
        add(&mut found, lexeme(alloc, text, token)?)?;
    }
    Ok(found)
}
