//! What holds of all declarations.
ghost use Rattle.std.specs.Prelude.{◌≡◌, ◌↔◌, List, Result};
ghost use Rattle.ale_term.specs.declared.lexeme.Lexeme.{Lexeme};
ghost use Rattle.ale_form.specs.declared.error.FormError.{FormError};
ghost use Rattle.ale_declaration.specs.Declarations.{DeclarationData};
ghost use Rattle.ale_declaration.specs.Answers.{DeclarationAnswers};
ghost use Rattle.ale_declaration.specs.Reading.{declaration_of};

/// Lexemes have one answer: a directive, one declaration, or one refusal.
pub fn one_declaration()
    ensures answered { (ls : List Lexeme) (r : Result DeclarationData FormError) → DeclarationAnswers ls r ↔ declaration_of ls ≡ r }
{}
