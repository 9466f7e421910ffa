//! Forms that are all of the lexemes.
ghost use Rattle.std.specs.Prelude.{◌≡◌};
ghost use Rattle.ale_term.specs.Results.{Gives};
ghost use Rattle.ale_term.specs.Terms.{term_data};
ghost use Rattle.ale_term.specs.Goals.{goal_data};
ghost use Rattle.ale_form.specs.Whole.{ended, description_of, goal_of, path_of};

use ale_term::{GoalTerm, Lexeme, ReadError, Term, atoms, description, goal};
use ale_text::{Row, Text};
use std::alloc::Global;

/// Whether no lexemes are left.
///
/// # Errors
///
/// `NotTheForm` where some are left.
pub fn ended(lexemes: &[Lexeme]) -> Result<(), ReadError>
    ensures { Gives (λ u. u) result (ended lexemes.now) }
{
    match lexemes {
        [] => Ok(()),
        _ => Err(ReadError::NotTheForm),
    }
}

/// The description that the lexemes are. The calls nest as deep as the lexemes do.
///
/// # Errors
///
/// `NotTheForm` where they are none, and `NoMemory` where memory runs out.
pub fn whole_description(alloc: Global, lexemes: &[Lexeme]) -> Result<Term, ReadError>
    ensures { Gives term_data result (description_of lexemes.now) }
{
    let (found, rest) = description(alloc, lexemes)?;
    ended(rest)?;
    Ok(found)
}

/// The goal that the lexemes are. The calls nest as deep as the lexemes do.
///
/// # Errors
///
/// `NotTheForm` where they are none, and `NoMemory` where memory runs out.
pub fn whole_goal(alloc: Global, lexemes: &[Lexeme]) -> Result<GoalTerm, ReadError>
    ensures { Gives goal_data result (goal_of lexemes.now) }
{
    let (found, rest) = goal(alloc, lexemes)?;
    ended(rest)?;
    Ok(found)
}

/// The atoms in square brackets that the lexemes are, which may be none.
///
/// # Errors
///
/// `NotTheForm` where they are no such list, and `NoMemory` where memory runs out.
pub fn whole_path(alloc: Global, lexemes: &[Lexeme]) -> Result<Row<Text>, ReadError>
    ensures { Gives (λ names. names) result (path_of lexemes.now) }
{
    let (found, rest) = atoms(alloc, lexemes)?;
    ended(rest)?;
    Ok(found)
}
