//! Declarations that are built.
ghost use Rattle.std.specs.Prelude.{◌≡◌, map, option_map};
ghost use Rattle.ale_term.specs.Goals.{goal_data};
ghost use Rattle.ale_declaration.specs.Declarations.{declaration_data, element_data};
ghost use Rattle.ale_stage.specs.Stages.{some_goal_is_built, element_is_built, elements_are_built, declaration_is_built};

use crate::goal::goal_is_built;
use crate::stage::since;
use crate::term::{are_built, is_built};
use ale_declaration::{Declaration, Part};
use ale_declared::SigDecl;
use ale_term::GoalTerm;

/// Whether the goal, where there is one, is made of forms that are built.
fn some_goal_is_built(goal: &Option<GoalTerm>) -> bool
    ensures { result ≡ some_goal_is_built (option_map goal_data goal.now) }
{
    match goal {
        Some(goal) => goal_is_built(goal),
        None => true,
    }
}

/// Whether the element of a rule is.
fn element_is_built(element: &Part) -> bool
    ensures { result ≡ element_is_built (element_data element.now) }
{
    match element {
        Part::Cat(term) | Part::Cats(term) | Part::Head(term) => is_built(term),
        Part::Goal(goal) => goal_is_built(goal),
    }
}

/// Whether each of these elements is.
fn elements_are_built(elements: &[Part]) -> bool
    ensures { result ≡ elements_are_built (map element_data elements.now) }
{
    for element in elements {
        if !element_is_built(element) {
            return false;
        }
    }
    true
}

/// Whether the declaration is of a form, and made of forms, that are built.
pub fn declaration_is_built(declaration: &Declaration) -> bool
    ensures { result ≡ declaration_is_built (declaration_data declaration.now) }
{
    match declaration {
        Declaration::Sig(SigDecl::Kind { .. }) | Declaration::PassedOver(_) => since(2),
        Declaration::Macro(_, _, body) => is_built(body) && since(4),
        Declaration::Clause(_, arguments, body) => {
            are_built(arguments.as_slice()) && goal_is_built(body) && since(5)
        }
        Declaration::Sig(SigDecl::Ext { .. }) => since(6),
        Declaration::Cons(_, term, goal) => {
            is_built(term) && some_goal_is_built(goal) && since(7)
        }
        Declaration::Word(_, term) | Declaration::Empty(term) => is_built(term) && since(8),
        Declaration::LexRule(_, input, output, goal, _) => {
            is_built(input) && is_built(output) && some_goal_is_built(goal) && since(8)
        }
        Declaration::LexDepth(_) => since(8),
        Declaration::Rule(_, mother, elements) => {
            is_built(mother) && elements_are_built(elements.as_slice()) && since(9)
        }
        Declaration::Semantics(_) | Declaration::ChainLength(_) => since(10),
    }
}
