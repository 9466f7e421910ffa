//! Descriptions and goals as texts: a word for each form, before its parts.
use ale_form::FormError;
use ale_term::{GoalTerm, Lexeme, ReadError, Term};
use ale_text::Text;
use std::alloc::AllocError;

/// Writes a space and the name.
pub fn push_name(name: &Text, out: &mut String) -> Result<(), AllocError> {
    out.push_str(" ")?;
    out.push_str(name.as_str())
}

/// Writes the names between square brackets.
pub fn push_names(names: &[Text], out: &mut String) -> Result<(), AllocError> {
    out.push_str(" [")?;
    for name in names {
        push_name(name, out)?;
    }
    out.push_str(" ]")
}

/// Writes descriptions one after the other.
pub fn push_terms(terms: &[Term], out: &mut String) -> Result<(), AllocError> {
    for term in terms {
        push_term(term, out)?;
    }
    Ok(())
}

/// Writes a description.
pub fn push_term(term: &Term, out: &mut String) -> Result<(), AllocError> {
    out.push_str(" (")?;
    match term {
        Term::Name(name) => {
            out.push_str("type")?;
            push_name(name, out)?;
        }
        Term::Slot(name) => {
            out.push_str("variable")?;
            push_name(name, out)?;
        }
        Term::At(name, value) => {
            out.push_str("at")?;
            push_name(name, out)?;
            push_term(value.get(), out)?;
        }
        Term::All(terms) => {
            out.push_str("all")?;
            for part in terms.as_slice() {
                push_term(part, out)?;
            }
        }
        Term::Any(terms) => {
            out.push_str("any")?;
            for part in terms.as_slice() {
                push_term(part, out)?;
            }
        }
        Term::Differs(other) => {
            out.push_str("other")?;
            push_term(other.get(), out)?;
        }
        Term::Meet(left, right) => {
            out.push_str("meet")?;
            push_names(left.as_slice(), out)?;
            push_names(right.as_slice(), out)?;
        }
        Term::Macro(name, arguments) => {
            out.push_str("macro")?;
            push_name(name, out)?;
            for part in arguments.as_slice() {
                push_term(part, out)?;
            }
        }
        Term::List(items, rest) => {
            out.push_str("list")?;
            for part in items.as_slice() {
                push_term(part, out)?;
            }
            if let Some(others) = rest {
                out.push_str(" |")?;
                push_term(others.get(), out)?;
            }
        }
    }
    out.push_str(")")
}

/// Writes a goal.
pub fn push_goal(goal: &GoalTerm, out: &mut String) -> Result<(), AllocError> {
    out.push_str(" (")?;
    match goal {
        GoalTerm::Yes => out.push_str("holds")?,
        GoalTerm::Cut => out.push_str("cut")?,
        GoalTerm::All(goals) => {
            out.push_str("each")?;
            for part in goals.as_slice() {
                push_goal(part, out)?;
            }
        }
        GoalTerm::Any(goals) => {
            out.push_str("either")?;
            for part in goals.as_slice() {
                push_goal(part, out)?;
            }
        }
        GoalTerm::Equal(left, right) => {
            out.push_str("equal")?;
            push_term(left, out)?;
            push_term(right, out)?;
        }
        GoalTerm::Call(name, arguments) => {
            out.push_str("call")?;
            push_name(name, out)?;
            push_terms(arguments.as_slice(), out)?;
        }
        GoalTerm::Not(goal) => {
            out.push_str("not")?;
            push_goal(goal.get(), out)?;
        }
        GoalTerm::IfElse(condition, goal, other) => {
            out.push_str("if")?;
            push_goal(condition.get(), out)?;
            push_goal(goal.get(), out)?;
            push_goal(other.get(), out)?;
        }
        GoalTerm::Once(condition, goal) => {
            out.push_str("once")?;
            push_goal(condition.get(), out)?;
            push_goal(goal.get(), out)?;
        }
    }
    out.push_str(")")
}

/// Writes how many lexemes are left.
pub fn push_left(rest: &[Lexeme], out: &mut String) -> Result<(), AllocError> {
    let left = rest.len();
    write!(out, " {left} left")
}

/// Writes why nothing was read.
pub fn push_read_error(error: &ReadError, out: &mut String) -> Result<(), AllocError> {
    match error {
        ReadError::NotTheForm => out.push_str("NotTheForm"),
        ReadError::NoMemory => out.push_str("NoMemory"),
    }
}

/// Writes why a declaration or a command is refused.
pub fn push_form_error(error: &FormError, out: &mut String) -> Result<(), AllocError> {
    match error {
        FormError::TooDeep => out.push_str("TooDeep"),
        FormError::OutOfProfile(word) => {
            out.push_str("OutOfProfile")?;
            push_name(word, out)
        }
        FormError::NotADeclaration => out.push_str("NotADeclaration"),
        FormError::NoMemory => out.push_str("NoMemory"),
    }
}
