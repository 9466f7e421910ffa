//! The reading of declarations.
ghost use Rattle.std.specs.Prelude.{◌≡◌, ◌≢◌, Ok, Err, IfOk, IfErr};
ghost use Rattle.std.specs.List.{All};
ghost use Rattle.ale_token.specs.Places.{Stands};
ghost use Rattle.ale_term.specs.Lexemes.{lexemes};
ghost use Rattle.ale_form.specs.declared.error.FormError.{FormError};
ghost use Rattle.ale_form.specs.declared.error.FormError.TheVariants.{NoMemory};
ghost use Rattle.ale_form.specs.Results.{Gives};
ghost use Rattle.ale_declaration.specs.Declarations.{DeclarationData, declaration_data};
ghost use Rattle.ale_declaration.specs.Answers.{DeclarationAnswers};
ghost use Rattle.ale_declaration.specs.Reading.{declaration_of};

use crate::declaration::Declaration;
use crate::directive::directive;
use crate::forms::first_fit;
use ale_form::{FormError, check, formed};
use ale_term::{Lexeme, Symbol, lexemes, past};
use ale_token::Token;
use std::alloc::Global;

/// The declaration that tokens of a text stand for, without the `.` that ends it: a directive after `:-`, which is never
/// refused, or the first form that fits. The tokens are ones that `ale_token::tokens` gives for the text. The calls nest
/// as deep as the tokens do, which is no deeper than 200.
///
/// The forms are those of the ALE 3.2 User's Guide in this project's own profile, which `specs/Forms.antt` has.
///
/// # Errors
///
/// `TooDeep` exactly where they nest deeper than 200; else `OutOfProfile(word)` exactly where a word is left out, with the
/// first; else `NotADeclaration` exactly where no form fits; and `NoMemory` where memory runs out.
pub fn read_declaration(
    alloc: Global,
    text: &str,
    tokens: &[Token],
) -> Result<Declaration, FormError>
    requires { All (Stands text.now) tokens.now }
    ensures exact { Gives declaration_data result (declaration_of (lexemes text.now tokens.now)) }
    ensures found { IfOk result (λ d. DeclarationAnswers (lexemes text.now tokens.now) (Ok (declaration_data d))) }
    ensures only { (d : DeclarationData) → DeclarationAnswers (lexemes text.now tokens.now) (Ok d) → Gives declaration_data result (Ok d) }
    ensures cause { IfErr result (λ e. e ≢ NoMemory → DeclarationAnswers (lexemes text.now tokens.now) (Err e)) }
    ensures refused { (e : FormError) → DeclarationAnswers (lexemes text.now tokens.now) (Err e) → Gives declaration_data result (Err e) }
{
    read_tokens(alloc, text, tokens)
}

/// The same, as a function.
fn read_tokens(alloc: Global, text: &str, tokens: &[Token]) -> Result<Declaration, FormError>
    requires { All (Stands text.now) tokens.now }
    ensures { Gives declaration_data result (declaration_of (lexemes text.now tokens.now)) }
{
    let found = lexemes(alloc, text, tokens)?;
    read_lexemes(alloc, &found)
}

/// The declaration that the lexemes are.
fn read_lexemes(alloc: Global, lexemes: &[Lexeme]) -> Result<Declaration, FormError>
    ensures { Gives declaration_data result (declaration_of lexemes.now) }
{
    if let Some(behind) = past(lexemes, Symbol::Neck) {
        return Ok(directive(alloc, behind)?);
    }
    check(alloc, lexemes)?;
    formed(first_fit(alloc, lexemes))
}
