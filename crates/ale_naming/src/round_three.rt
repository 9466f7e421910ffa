//! The third round: descriptions that are too large when all macros and lists are put in.
ghost use Rattle.std.specs.Prelude.{◌≡◌, IfOk, map, Some, ◌∷◌, ◌++◌, []};
ghost use Rattle.std.specs.Option.{option_map};
ghost use Rattle.ale_term.specs.Terms.{term_data};
ghost use Rattle.ale_term.specs.Goals.{goal_data};
ghost use Rattle.ale_declaration.specs.Declarations.{declaration_data, element_data};
ghost use Rattle.ale_describe.specs.Limits.{sum_after, if_within_all, descriptions_in};
ghost use Rattle.ale_naming.specs.Answers.{Refuses};
ghost use Rattle.ale_naming.specs.Faults.{descriptions_in_some, descriptions_in_element, descriptions_in_elements, descriptions_of};
ghost use Rattle.ale_naming.specs.Known.{AreKnown, IsKnownSome, IsKnownElement, AreKnownElements, HasKnownParts, HaveKnownParts};
ghost use Rattle.ale_naming.specs.Rounds.{round_three};

use crate::fault::NameFault;
use ale_declaration::{Declaration, Part};
use ale_describe::Names;
use ale_signature::Signature;
use ale_term::{GoalTerm, Term};
use ale_vocabulary::NameError;
use std::alloc::{AllocError, Global};

/// The most parts of all descriptions.
const MOST_PARTS: u64 = 4_000_000;

/// The number, where it is no more than all descriptions may have.
fn if_within_all(so_far: u64) -> Option<u64>
    ensures { result ≡ if_within_all (Some so_far) }
{
    if so_far <= MOST_PARTS {
        Some(so_far)
    } else {
        None
    }
}

/// How many parts there are after the goal, which may be left out.
fn after_some_goal(
    alloc: Global,
    sig: &Signature,
    names: &Names,
    so_far: u64,
    goal: &Option<GoalTerm>,
) -> Result<Option<u64>, AllocError>
    requires known { IsKnownSome sig.now names.now.vocabulary (option_map goal_data goal.now) }
    ensures { IfOk result (λ sum. sum ≡ sum_after sig.now names.now (Some so_far) (descriptions_in_some (option_map goal_data goal.now))) }
{
    match goal {
        Some(goal) => names.parts_after_goal(alloc, sig, so_far, goal),
        None => Ok(if_within_all(so_far)),
    }
}

/// How many parts there are after these descriptions.
fn after_each(
    alloc: Global,
    sig: &Signature,
    names: &Names,
    so_far: u64,
    terms: &[Term],
) -> Result<Option<u64>, AllocError>
    requires known { AreKnown sig.now names.now.vocabulary (map term_data terms.now) }
    ensures { IfOk result (λ sum. sum ≡ sum_after sig.now names.now (Some so_far) (map term_data terms.now)) }
{
    let mut sum = so_far;
    for term in terms {
        match names.parts_after(alloc, sig, sum, term)? {
            Some(after) => sum = after,
            None => return Ok(None),
        }
    }
    Ok(if_within_all(sum))
}

/// How many parts there are after the element.
fn after_element(
    alloc: Global,
    sig: &Signature,
    names: &Names,
    so_far: u64,
    element: &Part,
) -> Result<Option<u64>, AllocError>
    requires known { IsKnownElement sig.now names.now.vocabulary (element_data element.now) }
    ensures { IfOk result (λ sum. sum ≡ sum_after sig.now names.now (Some so_far) (descriptions_in_element (element_data element.now))) }
{
    match element {
        Part::Cat(term) => names.parts_after(alloc, sig, so_far, term),
        Part::Cats(term) => names.parts_after(alloc, sig, so_far, term),
        Part::Goal(goal) => names.parts_after_goal(alloc, sig, so_far, goal),
        Part::Head(term) => names.parts_after(alloc, sig, so_far, term),
    }
}

/// How many parts there are after these elements.
fn after_elements(
    alloc: Global,
    sig: &Signature,
    names: &Names,
    so_far: u64,
    elements: &[Part],
) -> Result<Option<u64>, AllocError>
    requires known { AreKnownElements sig.now names.now.vocabulary (map element_data elements.now) }
    ensures { IfOk result (λ sum. sum ≡ sum_after sig.now names.now (Some so_far) (descriptions_in_elements (map element_data elements.now))) }
{
    let mut sum = so_far;
    for element in elements {
        match after_element(alloc, sig, names, sum, element)? {
            Some(after) => sum = after,
            None => return Ok(None),
        }
    }
    Ok(if_within_all(sum))
}

/// How many parts there are after the description and then the goal, which may be left out.
#[tactic(auto, using(crate::proofs::Adding::sum_goes))]
fn after_term_and_goal(
    alloc: Global,
    sig: &Signature,
    names: &Names,
    so_far: u64,
    term: &Term,
    goal: &Option<GoalTerm>,
) -> Result<Option<u64>, AllocError>
    requires term { AreKnown sig.now names.now.vocabulary (term_data term.now ∷ []) }
    requires goal { IsKnownSome sig.now names.now.vocabulary (option_map goal_data goal.now) }
    ensures { IfOk result (λ sum. sum ≡ sum_after sig.now names.now (Some so_far) (term_data term.now ∷ descriptions_in_some (option_map goal_data goal.now))) }
{
    match names.parts_after(alloc, sig, so_far, term)? {
        Some(sum) => after_some_goal(alloc, sig, names, sum, goal),
        None => Ok(None),
    }
}

/// How many parts there are after the descriptions of a lexical rule, and the goal, which may be left out.
#[tactic(auto, using(crate::proofs::Adding::sum_goes))]
fn after_lex_rule(
    alloc: Global,
    sig: &Signature,
    names: &Names,
    so_far: u64,
    input: &Term,
    output: &Term,
    goal: &Option<GoalTerm>,
) -> Result<Option<u64>, AllocError>
    requires input { AreKnown sig.now names.now.vocabulary (term_data input.now ∷ []) }
    requires output { AreKnown sig.now names.now.vocabulary (term_data output.now ∷ []) }
    requires goal { IsKnownSome sig.now names.now.vocabulary (option_map goal_data goal.now) }
    ensures { IfOk result (λ sum. sum ≡ sum_after sig.now names.now (Some so_far) (term_data input.now ∷ term_data output.now ∷ descriptions_in_some (option_map goal_data goal.now))) }
{
    match names.parts_after(alloc, sig, so_far, input)? {
        Some(sum) => after_term_and_goal(alloc, sig, names, sum, output, goal),
        None => Ok(None),
    }
}

/// How many parts there are after the mother and the elements of a rule.
#[tactic(auto, using(crate::proofs::Adding::sum_goes))]
fn after_rule(
    alloc: Global,
    sig: &Signature,
    names: &Names,
    so_far: u64,
    mother: &Term,
    elements: &[Part],
) -> Result<Option<u64>, AllocError>
    requires mother { AreKnown sig.now names.now.vocabulary (term_data mother.now ∷ []) }
    requires elements { AreKnownElements sig.now names.now.vocabulary (map element_data elements.now) }
    ensures { IfOk result (λ sum. sum ≡ sum_after sig.now names.now (Some so_far) (term_data mother.now ∷ descriptions_in_elements (map element_data elements.now))) }
{
    match names.parts_after(alloc, sig, so_far, mother)? {
        Some(sum) => after_elements(alloc, sig, names, sum, elements),
        None => Ok(None),
    }
}

/// How many parts there are after the arguments and the body of a clause.
#[tactic(auto, using(crate::proofs::Adding::list_goes))]
fn after_clause(
    alloc: Global,
    sig: &Signature,
    names: &Names,
    so_far: u64,
    arguments: &[Term],
    body: &GoalTerm,
) -> Result<Option<u64>, AllocError>
    requires arguments { AreKnown sig.now names.now.vocabulary (map term_data arguments.now) }
    requires body { IsKnownSome sig.now names.now.vocabulary (Some (goal_data body.now)) }
    ensures { IfOk result (λ sum. sum ≡ sum_after sig.now names.now (Some so_far) (map term_data arguments.now ++ descriptions_in (goal_data body.now))) }
{
    match after_each(alloc, sig, names, so_far, arguments)? {
        Some(sum) => names.parts_after_goal(alloc, sig, sum, body),
        None => Ok(None),
    }
}

/// How many parts there are after the declaration.
fn after_declaration(
    alloc: Global,
    sig: &Signature,
    names: &Names,
    so_far: u64,
    declaration: &Declaration,
) -> Result<Option<u64>, AllocError>
    requires known { HasKnownParts sig.now names.now.vocabulary (declaration_data declaration.now) }
    ensures { IfOk result (λ sum. sum ≡ sum_after sig.now names.now (Some so_far) (descriptions_of (declaration_data declaration.now))) }
{
    match declaration {
        Declaration::Cons(_, term, goal) => {
            after_term_and_goal(alloc, sig, names, so_far, term, goal)
        }
        Declaration::Clause(_, arguments, body) => {
            after_clause(alloc, sig, names, so_far, arguments.as_slice(), body)
        }
        Declaration::Word(_, term) => names.parts_after(alloc, sig, so_far, term),
        Declaration::Empty(term) => names.parts_after(alloc, sig, so_far, term),
        Declaration::LexRule(_, input, output, goal, _) => {
            after_lex_rule(alloc, sig, names, so_far, input, output, goal)
        }
        Declaration::Rule(_, mother, elements) => {
            after_rule(alloc, sig, names, so_far, mother, elements.as_slice())
        }
        _ => Ok(if_within_all(so_far)),
    }
}

/// Refuses the first declaration with which descriptions are too large.
pub(crate) fn round_three(
    alloc: Global,
    sig: &Signature,
    names: &Names,
    decls: &[Declaration],
) -> Result<(), NameFault>
    requires known { HaveKnownParts sig.now names.now.vocabulary (map declaration_data decls.now) }
    ensures { Refuses result (round_three sig.now names.now 1 0 (map declaration_data decls.now)) }
{
    let mut so_far = 0;
    for (index, declaration) in decls.iter().enumerate() {
        match after_declaration(alloc, sig, names, so_far, declaration)? {
            Some(after) => so_far = after,
            None => return Err(NameFault::At(index + 1, NameError::TooBig)),
        }
    }
    Ok(())
}
