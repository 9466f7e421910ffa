//! What stands at the start of lexemes.
ghost use Rattle.std.specs.Prelude.{◌≡◌, ◌+◌, ◌-◌, ◌^◌, ◌<◌, ◌≤◌, option_map, option_copied, IfSome};
ghost use Rattle.std.specs.Str.{chars, bytes_eq};
ghost use Rattle.ale_term.specs.Grammar.{atom_name};
ghost use Rattle.ale_term.specs.Behind.{opens, closes, one_less, depth_behind, behind};
ghost use Rattle.ale_term.specs.Reading.{past, past_word, atom_at, variable_at};

use crate::lexeme::Lexeme;
use crate::symbol::Symbol;
use ale_text::Text;

/// The lexemes after this symbol, where they begin with it.
pub fn past(lexemes: &[Lexeme], symbol: Symbol) -> Option<&[Lexeme]>
    ensures { option_copied result ≡ past symbol lexemes.now }
{
    match lexemes {
        [Lexeme::Sign(found), behind @ ..] if *found == symbol => Some(behind),
        _ => None,
    }
}

/// Whether the name is this word of ASCII.
pub fn is_word(name: &Text, word: &str) -> bool
    requires { chars word.now ≡ word.now }
    ensures { result ≡ bytes_eq name.now word.now }
{
    name.as_str() == word
}

/// The lexemes after this word of the language, where they begin with it. A word is ASCII, and is never quoted.
pub fn past_word<'a>(lexemes: &'a [Lexeme], word: &str) -> Option<&'a [Lexeme]>
    requires { chars word.now ≡ word.now }
    ensures { option_copied result ≡ past_word word.now lexemes.now }
{
    match lexemes {
        [Lexeme::Atom(name), behind @ ..] if is_word(name, word) => Some(behind),
        _ => None,
    }
}

/// The name that the lexeme is as an atom.
fn atom_name(lexeme: &Lexeme) -> Option<&Text>
    ensures { option_copied result ≡ atom_name lexeme.now }
{
    match lexeme {
        Lexeme::Atom(name) => Some(name),
        Lexeme::Quoted(name) => Some(name),
        _ => None,
    }
}

/// The name of the atom, plain or quoted, that the lexemes begin with, and those after it.
pub fn atom_at(lexemes: &[Lexeme]) -> Option<(&Text, &[Lexeme])>
    ensures { option_map (λ p. (p.0.now, p.1.now)) result ≡ atom_at lexemes.now }
{
    match lexemes {
        [] => None,
        [first, behind @ ..] => Some((atom_name(first)?, behind)),
    }
}

/// The name of the variable that the lexemes begin with, and those after it.
pub fn variable_at(lexemes: &[Lexeme]) -> Option<(&Text, &[Lexeme])>
    ensures { option_map (λ p. (p.0.now, p.1.now)) result ≡ variable_at lexemes.now }
{
    match lexemes {
        [Lexeme::Variable(name), behind @ ..] => Some((name, behind)),
        _ => None,
    }
}

/// Whether the symbol opens a bracket.
fn opens(symbol: Symbol) -> bool
    ensures { result ≡ opens symbol }
{
    matches!(symbol, Symbol::OpenRound | Symbol::OpenSquare)
}

/// Whether the symbol closes a bracket.
fn closes(symbol: Symbol) -> bool
    ensures { result ≡ closes symbol }
{
    matches!(symbol, Symbol::CloseRound | Symbol::CloseSquare)
}

/// One less, where there is one.
fn one_less(depth: usize) -> Option<usize>
    ensures value { result ≡ one_less depth }
    ensures within { IfSome result (λ d. d ≤ depth) }
{
    if depth == 0 { None } else { Some(depth - 1) }
}

/// How many brackets are open after the lexeme, where so many were before it; None where it closes the last.
fn depth_behind(lexeme: &Lexeme, depth: usize) -> Option<usize>
    requires { depth < 2 ^ 64 - 1 }
    ensures value { result ≡ depth_behind lexeme.now depth }
    ensures within { IfSome result (λ d. d ≤ depth + 1) }
{
    match lexeme {
        Lexeme::Sign(symbol) if opens(*symbol) => Some(depth + 1),
        Lexeme::Sign(symbol) if closes(*symbol) => one_less(depth),
        _ => Some(depth),
    }
}

/// The lexemes after the bracket that closes the one open before these.
pub(crate) fn behind_bracket(lexemes: &[Lexeme]) -> &[Lexeme]
    ensures { result.now ≡ behind 0 lexemes.now }
{
    let mut depth = 0;
    let mut rest = lexemes;
    while let [first, after @ ..] = rest {
        match depth_behind(first, depth) {
            None => return after,
            Some(inside) => depth = inside,
        }
        rest = after;
    }
    rest
}
