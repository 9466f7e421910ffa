//! Words that are left out.
ghost use Rattle.std.specs.Prelude.{◌≡◌, ◌||◌, ◌&&◌, IfOk};
ghost use Rattle.std.specs.Str.{chars, bytes_eq};
ghost use Rattle.ale_term.specs.declared.lexeme.Lexeme.TheVariants.{Atom};
ghost use Rattle.ale_form.specs.LeftOut.{begins, begins_call, begins_argument, is_call_word, is_guard, is_append, is_head_goal, is_left_out, left_out_sign, left_out_at, is_morphs, left_out};

use ale_term::{Lexeme, Symbol, atom_at, is_word, past, variable_at};
use ale_text::Text;
use std::alloc::{AllocError, Global};

/// This word of ASCII as a text.
fn word_text(alloc: Global, word: &str) -> Result<Text, AllocError>
    requires { chars word.now ≡ word.now }
    ensures { IfOk result (λ t. t ≡ word.now) }
{
    Ok(Text::of(String::from_str(alloc, word)?))
}

fn begins(lexemes: &[Lexeme], symbol: Symbol) -> bool
    ensures { result ≡ begins symbol lexemes.now }
{
    past(lexemes, symbol).is_some()
}

/// Whether an atom and `(` stand there.
fn begins_call(lexemes: &[Lexeme]) -> bool
    ensures { result ≡ begins_call lexemes.now }
{
    match atom_at(lexemes) {
        None => false,
        Some((_, behind)) => begins(behind, Symbol::OpenRound),
    }
}

/// Whether an atom, a variable or `(` stands there.
fn begins_argument(lexemes: &[Lexeme]) -> bool
    ensures { result ≡ begins_argument lexemes.now }
{
    atom_at(lexemes).is_some()
        || variable_at(lexemes).is_some()
        || begins(lexemes, Symbol::OpenRound)
}

#[tactic(auto, using(crate::proofs::Words::word_rules))]
fn is_call_word(word: &Text) -> bool
    ensures { result ≡ is_call_word word.now }
{
    is_word(word, "prolog") || is_word(word, "bagof") || is_word(word, "when")
}

#[tactic(auto, using(crate::proofs::Words::word_rules))]
fn is_guard(morphs: bool, word: &Text, behind: &[Lexeme]) -> bool
    ensures { result ≡ is_guard morphs word.now behind.now }
{
    morphs && is_word(word, "when") && begins_call(behind)
}

#[tactic(auto, using(crate::proofs::Words::word_rules))]
fn is_append(word: &Text, behind: &[Lexeme]) -> bool
    ensures { result ≡ is_append word.now behind.now }
{
    is_word(word, "a_") && begins_argument(behind)
}

#[tactic(auto, using(crate::proofs::Words::word_rules))]
fn is_head_goal(word: &Text, behind: &[Lexeme]) -> bool
    ensures { result ≡ is_head_goal word.now behind.now }
{
    is_word(word, "sem_goal") && begins(behind, Symbol::Greater)
}

/// Whether the atom with this name is left out before these lexemes.
fn is_left_out(morphs: bool, word: &Text, behind: &[Lexeme]) -> bool
    ensures { result ≡ is_left_out morphs word.now behind.now }
{
    (is_call_word(word) && begins(behind, Symbol::OpenRound))
        || is_guard(morphs, word, behind)
        || is_append(word, behind)
        || is_head_goal(word, behind)
}

/// The symbol at the start, where it is left out.
#[tactic(auto, using(crate::proofs::Words::word_rules))]
fn left_out_sign(alloc: Global, lexemes: &[Lexeme]) -> Result<Option<Text>, AllocError>
    ensures { IfOk result (λ o. o ≡ left_out_sign lexemes.now) }
{
    if begins(lexemes, Symbol::Identical) {
        return Ok(Some(word_text(alloc, "=@")?));
    }
    if begins(lexemes, Symbol::FunctionArrow) {
        return Ok(Some(word_text(alloc, "+++>")?));
    }
    Ok(None)
}

/// The name, where it is left out before these lexemes.
fn left_out_atom(
    alloc: Global,
    morphs: bool,
    name: &Text,
    behind: &[Lexeme],
) -> Result<Option<Text>, AllocError>
    ensures { IfOk result (λ o. o ≡ left_out_at morphs (Atom name.now) behind.now) }
{
    if is_left_out(morphs, name, behind) {
        return Ok(Some(name.copy(alloc)?));
    }
    Ok(None)
}

/// Whether the lexeme is the atom `morphs`.
#[tactic(auto, using(crate::proofs::Words::word_rules))]
fn is_morphs(lexeme: &Lexeme) -> bool
    ensures { result ≡ is_morphs lexeme.now }
{
    match lexeme {
        Lexeme::Atom(name) => is_word(name, "morphs"),
        _ => false,
    }
}

/// The first of the words that are left out.
pub(crate) fn left_out(alloc: Global, lexemes: &[Lexeme]) -> Result<Option<Text>, AllocError>
    ensures { IfOk result (λ o. o ≡ left_out lexemes.now) }
{
    let mut morphs = false;
    let mut rest = lexemes;
    while let [first, behind @ ..] = rest {
        let word = match first {
            Lexeme::Atom(name) => left_out_atom(alloc, morphs, name, behind)?,
            Lexeme::Sign(_) => left_out_sign(alloc, rest)?,
            _ => None,
        };
        if let Some(word) = word {
            return Ok(Some(word));
        }
        morphs = morphs || is_morphs(first);
        rest = behind;
    }
    Ok(None)
}
