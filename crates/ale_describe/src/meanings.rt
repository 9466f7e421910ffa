//! What descriptions and goals mean by their names.
ghost use Rattle.std.specs.Prelude.{◌≡◌, MatchResult, Result};
ghost use Rattle.ale_term.specs.Terms.{term_data};
ghost use Rattle.ale_term.specs.Goals as written;
ghost use Rattle.ale_logic.specs.Descriptions.{Description};
ghost use Rattle.ale_logic.specs.Goals as plain;
ghost use Rattle.ale_vocabulary.specs.declared.error.NameError.{NameError};
ghost use Rattle.ale_describe.specs.Meanings.{Meaning, MeaningGives, IsMeant, IsMeantGoal, IsToldRefusal, desc_after, desc_meaning, goal_after, goal_meaning};

use crate::laws::meaning_law;
use crate::meaning_error::MeaningError;
use crate::names::Names;
use crate::scope::Scope;
use ale_logic::Desc;
use ale_program::Goal;
use ale_signature::Signature;
use ale_term::{GoalTerm, Term};
use ale_text::{Row, Text};
use ale_vocabulary::{NameError, first_unknown, first_unknown_in_goal};
use std::alloc::Global;

/// A description whose names were looked up.
#[derive(Debug, Drop)]
pub struct NamedDesc {
    /// The description, whose variables have slots.
    pub desc: Desc,
    /// The name of each slot, in order: as the variable is written, and `_` for one of a macro's own.
    pub names: Row<Text>,
    /// How many parts there are with it, when all is put in.
    pub parts: u64,
}

/// A goal whose names were looked up.
#[derive(Debug, Drop)]
pub struct NamedGoal {
    /// The goal, all of whose variables have slots.
    pub goal: Goal,
    /// The name of each slot, in order: as the variable is written, and `_` for one of a macro's own.
    pub names: Row<Text>,
    /// How many parts there are with it, when all is put in.
    pub parts: u64,
}

impl Names {
    /// What the description means, after so many parts in the descriptions before it. Slots count in order of first occurrence
    /// when all macros and lists are put in.
    ///
    /// # Errors
    ///
    /// `Name(e)` where `e` is the fault of the first name that is not known, from left to right: `UnknownType`,
    /// `UnknownFeature`, `UnknownMacro` or `NoListTypes`; else `Name(TooBig)` where it has more than 100,000 parts or is nested
    /// more than 4,000 deep when all macros and lists are put in, or there are more than 4,000,000 parts with it. `NoMemory`
    /// comes where memory runs out, also where there are more than 2^32 variables.
    pub fn desc(
        &self,
        alloc: Global,
        sig: &Signature,
        so_far: u64,
        term: &Term,
    ) -> Result<NamedDesc, MeaningError>
        ensures exact { MeaningGives desc_meaning result (desc_after sig.now self.now so_far (term_data term.now)) }
        ensures found { MatchResult result (λ m. IsMeant sig.now self.now so_far (term_data term.now) (Ok (desc_meaning m))) (λ e. IsToldRefusal (IsMeant sig.now self.now so_far (term_data term.now)) e) }
        ensures only { (answer : Result (Meaning Description) NameError) → IsMeant sig.now self.now so_far (term_data term.now) answer → MeaningGives desc_meaning result answer }
    {
        meaning_law();
        desc_meant(alloc, self, sig, so_far, term)
    }

    /// What the goal means, likewise: its slots count over the whole goal, and each argument of a call and each side of `=` is a
    /// description.
    ///
    /// # Errors
    ///
    /// As for a description; and `Name(UnknownPredicate)` where no clause is of a predicate that it calls.
    pub fn goal(
        &self,
        alloc: Global,
        sig: &Signature,
        so_far: u64,
        goal: &GoalTerm,
    ) -> Result<NamedGoal, MeaningError>
        ensures exact { MeaningGives goal_meaning result (goal_after sig.now self.now so_far (written.goal_data goal.now)) }
        ensures found { MatchResult result (λ m. IsMeantGoal sig.now self.now so_far (written.goal_data goal.now) (Ok (goal_meaning m))) (λ e. IsToldRefusal (IsMeantGoal sig.now self.now so_far (written.goal_data goal.now)) e) }
        ensures only { (answer : Result (Meaning plain.Goal) NameError) → IsMeantGoal sig.now self.now so_far (written.goal_data goal.now) answer → MeaningGives goal_meaning result answer }
    {
        meaning_law();
        goal_meant(alloc, self, sig, so_far, goal)
    }
}

/// What the description means.
fn desc_meant(
    alloc: Global,
    names: &Names,
    sig: &Signature,
    so_far: u64,
    term: &Term,
) -> Result<NamedDesc, MeaningError>
    ensures { MeaningGives desc_meaning result (desc_after sig.now names.now so_far (term_data term.now)) }
{
    if let Some(error) = first_unknown(alloc, sig, names.vocabulary(), term)? {
        return Err(MeaningError::Name(error));
    }
    let Some(parts) = names.parts_after(alloc, sig, so_far, term)? else {
        return Err(MeaningError::Name(NameError::TooBig));
    };
    let mut scope = Scope::new(alloc);
    let desc = names.describe(alloc, sig, &mut scope, term)?;
    let names = scope.slot_names(alloc)?;
    Ok(NamedDesc { desc, names, parts })
}

/// What the goal means.
fn goal_meant(
    alloc: Global,
    names: &Names,
    sig: &Signature,
    so_far: u64,
    goal: &GoalTerm,
) -> Result<NamedGoal, MeaningError>
    ensures { MeaningGives goal_meaning result (goal_after sig.now names.now so_far (written.goal_data goal.now)) }
{
    if let Some(error) = first_unknown_in_goal(alloc, sig, names.vocabulary(), goal)? {
        return Err(MeaningError::Name(error));
    }
    let Some(parts) = names.parts_after_goal(alloc, sig, so_far, goal)? else {
        return Err(MeaningError::Name(NameError::TooBig));
    };
    let mut scope = Scope::new(alloc);
    let goal = names.describe_goal(alloc, sig, &mut scope, goal)?;
    let names = scope.slot_names(alloc)?;
    Ok(NamedGoal { goal, names, parts })
}
