//! The first form of declarations that fits.
ghost use Rattle.std.specs.Prelude.{◌≡◌};
ghost use Rattle.ale_term.specs.Results.{Gives};
ghost use Rattle.ale_declaration.specs.Declarations.{declaration_data};
ghost use Rattle.ale_declaration.specs.Forms.{in_order};
ghost use Rattle.ale_declaration.specs.Reading.{reading_of, first_of};

use crate::clauses::{
    read_clause, read_constraint, read_empty, read_macro, read_semantics, read_word,
};
use crate::declaration::Declaration;
use crate::form::Form;
use crate::rules::{read_lexical_rule, read_rule};
use crate::types::{read_extensional, read_types};
use ale_term::{Lexeme, ReadError};
use std::alloc::Global;

/// A declaration of this form.
fn read_form(alloc: Global, form: Form, lexemes: &[Lexeme]) -> Result<Declaration, ReadError>
    ensures { Gives declaration_data result (reading_of form lexemes.now) }
{
    match form {
        Form::Types => read_types(alloc, lexemes),
        Form::Extensional => read_extensional(alloc, lexemes),
        Form::Constraints => read_constraint(alloc, lexemes),
        Form::Macros => read_macro(alloc, lexemes),
        Form::Clauses => read_clause(alloc, lexemes),
        Form::Words => read_word(alloc, lexemes),
        Form::Empties => read_empty(alloc, lexemes),
        Form::LexicalRules => read_lexical_rule(alloc, lexemes),
        Form::Rules => read_rule(alloc, lexemes),
        Form::Semantic => read_semantics(alloc, lexemes),
    }
}

/// A declaration of the first of these forms that fits.
fn first_of(alloc: Global, forms: &[Form], lexemes: &[Lexeme]) -> Result<Declaration, ReadError>
    ensures { Gives declaration_data result (first_of forms.now lexemes.now) }
{
    for form in forms {
        match read_form(alloc, *form, lexemes) {
            Ok(found) => return Ok(found),
            Err(ReadError::NotTheForm) => {}
            Err(ReadError::NoMemory) => return Err(ReadError::NoMemory),
        }
    }
    Err(ReadError::NotTheForm)
}

/// A declaration of the first form that fits.
pub(crate) fn first_fit(alloc: Global, lexemes: &[Lexeme]) -> Result<Declaration, ReadError>
    ensures { Gives declaration_data result (first_of in_order lexemes.now) }
{
    let forms = [
        Form::Types,
        Form::Extensional,
        Form::Constraints,
        Form::Macros,
        Form::Clauses,
        Form::Words,
        Form::Empties,
        Form::LexicalRules,
        Form::Rules,
        Form::Semantic,
    ];
    first_of(alloc, &forms, lexemes)
}
