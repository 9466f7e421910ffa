//! Descriptions, calls and goals at the start of lexemes.
ghost use Rattle.std.specs.Prelude.{◌≡◌, ◌++◌, ℕ, List, None, IfOk, map};
ghost use Rattle.ale_term.specs.declared.symbol.Symbol.TheVariants.{OpenRound};
ghost use Rattle.ale_term.specs.declared.lexeme.Lexeme.{Lexeme};
ghost use Rattle.ale_term.specs.Results.{Gives};
ghost use Rattle.ale_term.specs.Terms.{TermData, term_data};
ghost use Rattle.ale_term.specs.Goals.{GoalData, goal_data};
ghost use Rattle.ale_term.specs.Grammar.{IsPath, IsDescription, IsPart, IsCall, IsGoal, IsGoalPart};
ghost use Rattle.ale_term.specs.Follows.{Front, HasRead, IsCallPair, EndsDescription, EndsPart, EndsGoal, EndsGoalPart};
ghost use Rattle.ale_term.specs.Reading.{past, path_at, description_at, element_at, call_at, goal_at, goal_element_at};

use crate::description_reader::{call_in, disjunction, part};
use crate::error::ReadError;
use crate::goal_reader::{goal_in, goal_part};
use crate::goal_term::GoalTerm;
use crate::lexeme::Lexeme;
use crate::list::path;
use crate::term::Term;
use ale_text::{Row, Text};
use sqlite_items::Items;
use std::alloc::Global;

/// The description at the start, as long as possible, with `;` and `,` between its parts; and the lexemes after it.
/// The calls nest as deep as the lexemes do.
///
/// # Errors
///
/// `NotTheForm` where no description stands at the start, and `NoMemory` where memory runs out.
pub fn description(alloc: Global, lexemes: &[Lexeme]) -> Result<(Term, &[Lexeme]), ReadError>
    ensures exact { Gives (λ p. (term_data p.0, p.1.now)) result (description_at lexemes.now) }
    ensures found { IfOk result (λ p. Front IsDescription lexemes.now (term_data p.0, p.1.now)) }
    ensures read { (xs rest : List Lexeme) (t : TermData) → lexemes.now ≡ xs ++ rest → IsDescription xs t → EndsDescription rest → HasRead (λ p. (term_data p.0, p.1.now)) result t rest }
{
    read_description(alloc, lexemes)
}

/// The description without `;` and `,` outside of brackets at the start, such as an element of a rule has; and the
/// lexemes after it.
///
/// # Errors
///
/// `NotTheForm` where none stands at the start, and `NoMemory` where memory runs out.
pub fn element(alloc: Global, lexemes: &[Lexeme]) -> Result<(Term, &[Lexeme]), ReadError>
    ensures exact { Gives (λ p. (term_data p.0, p.1.now)) result (element_at lexemes.now) }
    ensures found { IfOk result (λ p. Front IsPart lexemes.now (term_data p.0, p.1.now)) }
    ensures read { (xs rest : List Lexeme) (t : TermData) → lexemes.now ≡ xs ++ rest → IsPart xs t → EndsPart rest → HasRead (λ p. (term_data p.0, p.1.now)) result t rest }
{
    read_element(alloc, lexemes)
}

/// The name at the start with its arguments in round brackets, or without any; and the lexemes after it.
///
/// # Errors
///
/// `NotTheForm` where no call stands at the start, and `NoMemory` where memory runs out.
pub fn call(
    alloc: Global,
    lexemes: &[Lexeme],
) -> Result<((Text, Items<Term>), &[Lexeme]), ReadError>
    ensures exact { Gives (λ p. ((p.0.0, map term_data p.0.1), p.1.now)) result (call_at lexemes.now) }
    ensures found { IfOk result (λ p. Front IsCallPair lexemes.now ((p.0.0, map term_data p.0.1), p.1.now)) }
    ensures read { (xs rest : List Lexeme) (n : List ℕ) (ts : List TermData) → lexemes.now ≡ xs ++ rest → IsCall xs n ts → past OpenRound rest ≡ None → HasRead {B = List ℕ × List TermData} (λ p. ((p.0.0, map term_data p.0.1), p.1.now)) result (n, ts) rest }
{
    read_call(alloc, lexemes)
}

/// The goal at the start, as long as possible, with `;`, `->` and `,` between its parts; and the lexemes after it.
/// The calls nest as deep as the lexemes do.
///
/// # Errors
///
/// `NotTheForm` where no goal stands at the start, and `NoMemory` where memory runs out.
pub fn goal(alloc: Global, lexemes: &[Lexeme]) -> Result<(GoalTerm, &[Lexeme]), ReadError>
    ensures exact { Gives (λ p. (goal_data p.0, p.1.now)) result (goal_at lexemes.now) }
    ensures found { IfOk result (λ p. Front IsGoal lexemes.now (goal_data p.0, p.1.now)) }
    ensures read { (xs rest : List Lexeme) (g : GoalData) → lexemes.now ≡ xs ++ rest → IsGoal xs g → EndsGoal rest → HasRead (λ p. (goal_data p.0, p.1.now)) result g rest }
{
    read_goal(alloc, lexemes)
}

/// The goal without `;`, `->` and `,` outside of brackets at the start, such as an element of a rule has; and the
/// lexemes after it.
///
/// # Errors
///
/// `NotTheForm` where none stands at the start, and `NoMemory` where memory runs out.
pub fn goal_element(alloc: Global, lexemes: &[Lexeme]) -> Result<(GoalTerm, &[Lexeme]), ReadError>
    ensures exact { Gives (λ p. (goal_data p.0, p.1.now)) result (goal_element_at lexemes.now) }
    ensures found { IfOk result (λ p. Front IsGoalPart lexemes.now (goal_data p.0, p.1.now)) }
    ensures read { (xs rest : List Lexeme) (g : GoalData) → lexemes.now ≡ xs ++ rest → IsGoalPart xs g → EndsGoalPart rest → HasRead (λ p. (goal_data p.0, p.1.now)) result g rest }
{
    read_goal_element(alloc, lexemes)
}

/// The atoms in square brackets at the start, which may be none, with `,` between them; and the lexemes after them.
/// A path is such a list of features.
///
/// # Errors
///
/// `NotTheForm` where no such list stands at the start, and `NoMemory` where memory runs out.
pub fn atoms(alloc: Global, lexemes: &[Lexeme]) -> Result<(Row<Text>, &[Lexeme]), ReadError>
    ensures exact { Gives (λ p. (p.0, p.1.now)) result (path_at lexemes.now) }
    ensures found { IfOk result (λ p. Front IsPath lexemes.now (p.0, p.1.now)) }
    ensures read { (xs rest : List Lexeme) (ns : List (List ℕ)) → lexemes.now ≡ xs ++ rest → IsPath xs ns → HasRead (λ p. (p.0, p.1.now)) result ns rest }
{
    path(alloc, lexemes)
}

/// A description; no lexemes nest deeper than they are many.
fn read_description(alloc: Global, lexemes: &[Lexeme]) -> Result<(Term, &[Lexeme]), ReadError>
    ensures { Gives (λ p. (term_data p.0, p.1.now)) result (description_at lexemes.now) }
{
    disjunction(alloc, lexemes, lexemes.len())
}

fn read_element(alloc: Global, lexemes: &[Lexeme]) -> Result<(Term, &[Lexeme]), ReadError>
    ensures { Gives (λ p. (term_data p.0, p.1.now)) result (element_at lexemes.now) }
{
    part(alloc, lexemes, lexemes.len())
}

fn read_call(
    alloc: Global,
    lexemes: &[Lexeme],
) -> Result<((Text, Items<Term>), &[Lexeme]), ReadError>
    ensures { Gives (λ p. ((p.0.0, map term_data p.0.1), p.1.now)) result (call_at lexemes.now) }
{
    call_in(alloc, lexemes, lexemes.len())
}

fn read_goal(alloc: Global, lexemes: &[Lexeme]) -> Result<(GoalTerm, &[Lexeme]), ReadError>
    ensures { Gives (λ p. (goal_data p.0, p.1.now)) result (goal_at lexemes.now) }
{
    goal_in(alloc, lexemes, lexemes.len())
}

fn read_goal_element(alloc: Global, lexemes: &[Lexeme]) -> Result<(GoalTerm, &[Lexeme]), ReadError>
    ensures { Gives (λ p. (goal_data p.0, p.1.now)) result (goal_element_at lexemes.now) }
{
    goal_part(alloc, lexemes, lexemes.len())
}
