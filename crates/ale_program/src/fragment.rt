//! Whether the parts of a program are inside the fragment: without cut, negation and if-then.
ghost use Rattle.std.specs.Prelude.{◌↔◌, IsTrue};
ghost use Rattle.ale_program.specs.Fragment.{Each, IsPlainOption, IsPlainClause, IsPlainPred, IsPlainConstraint, IsPlainLexRule, IsPlainPart, IsPlainRule};

use crate::clause::{Clause, Constraint, Pred};
use crate::element::{Element, Rule};
use crate::goal::Goal;
use crate::lexical::LexRule;

/// Whether the goal, where there is one, is inside the fragment.
fn goal_in_fragment(goal: &Option<Goal>) -> bool
    ensures { IsTrue result ↔ IsPlainOption goal.now }
{
    match goal {
        Some(goal) => goal.in_fragment(),
        None => true,
    }
}

/// Whether the bodies of all clauses are inside the fragment.
fn clauses_in_fragment(clauses: &[Clause]) -> bool
    ensures { IsTrue result ↔ Each IsPlainClause clauses.now }
{
    for clause in clauses {
        if !clause.body.in_fragment() {
            return false;
        }
    }
    true
}

/// Whether the clauses of all predicates are inside the fragment.
pub fn preds_in_fragment(preds: &[Pred]) -> bool
    ensures { IsTrue result ↔ Each IsPlainPred preds.now }
{
    for pred in preds {
        if !clauses_in_fragment(pred.clauses.as_slice()) {
            return false;
        }
    }
    true
}

/// Whether the goals of all constraints are inside the fragment.
pub fn constraints_in_fragment(constraints: &[Constraint]) -> bool
    ensures { IsTrue result ↔ Each IsPlainConstraint constraints.now }
{
    for constraint in constraints {
        if !goal_in_fragment(&constraint.goal) {
            return false;
        }
    }
    true
}

/// Whether the goals of all lexical rules are inside the fragment.
pub fn lex_rules_in_fragment(rules: &[LexRule]) -> bool
    ensures { IsTrue result ↔ Each IsPlainLexRule rules.now }
{
    for rule in rules {
        if !goal_in_fragment(&rule.goal) {
            return false;
        }
    }
    true
}

/// Whether the goals among the elements are inside the fragment.
fn elements_in_fragment(elements: &[Element]) -> bool
    ensures { IsTrue result ↔ Each IsPlainPart elements.now }
{
    for element in elements {
        if let Element::Goal(goal) = element
            && !goal.in_fragment()
        {
            return false;
        }
    }
    true
}

/// Whether the elements of all rules are inside the fragment.
pub fn rules_in_fragment(rules: &[Rule]) -> bool
    ensures { IsTrue result ↔ Each IsPlainRule rules.now }
{
    for rule in rules {
        if !elements_in_fragment(rule.elements.as_slice()) {
            return false;
        }
    }
    true
}
