//! Parts of programs, a line each: how many slots, then what is described.
use crate::goals::{push_descs, push_goal, push_goal_of};
use ale_morph::{Line, Piece};
use ale_program::{Clause, Constraint, Element, EmptyDecl, LexRule, Pred, Rule, WordDecl};
use ale_signature::Signature;
use std::alloc::AllocError;
use test_writing::{push_desc, type_name};

/// Writes a clause.
fn push_clause(sig: &Signature, clause: &Clause, out: &mut String) -> Result<(), AllocError> {
    let slots = clause.slots;
    write!(out, "clause, {slots} slots:")?;
    push_descs(sig, clause.args.as_slice(), out)?;
    out.push_str(" if")?;
    push_goal(sig, &clause.body, out)?;
    out.push('\n')
}

/// Writes a predicate and its clauses.
pub fn push_pred(
    sig: &Signature,
    number: usize,
    pred: &Pred,
    out: &mut String,
) -> Result<(), AllocError> {
    let name = pred.name.as_str();
    let arity = pred.arity;
    write!(out, "predicate {number} {name}/{arity}\n")?;
    for clause in pred.clauses.as_slice() {
        push_clause(sig, clause, out)?;
    }
    Ok(())
}

/// Writes a constraint.
pub fn push_constraint(
    sig: &Signature,
    constraint: &Constraint,
    out: &mut String,
) -> Result<(), AllocError> {
    let name = type_name(sig, constraint.at);
    let slots = constraint.slots;
    write!(out, "constraint on {name}, {slots} slots:")?;
    push_desc(sig, &constraint.desc, out)?;
    push_goal_of(sig, &constraint.goal, out)?;
    out.push('\n')
}

/// Writes a word.
pub fn push_word(sig: &Signature, word: &WordDecl, out: &mut String) -> Result<(), AllocError> {
    let name = word.word.as_str();
    let slots = word.slots;
    write!(out, "word {name}, {slots} slots:")?;
    push_desc(sig, &word.desc, out)?;
    out.push('\n')
}

/// Writes a category without a word.
pub fn push_empty(sig: &Signature, empty: &EmptyDecl, out: &mut String) -> Result<(), AllocError> {
    let slots = empty.slots;
    write!(out, "empty, {slots} slots:")?;
    push_desc(sig, &empty.desc, out)?;
    out.push('\n')
}

/// Writes a side of a line.
fn push_side(pieces: &[Piece], out: &mut String) -> Result<(), AllocError> {
    for piece in pieces {
        match piece {
            Piece::Letters(letters) => {
                let letters = letters.as_str();
                write!(out, " letters {letters}")?;
            }
            Piece::Slot(number) => write!(out, " slot {number}")?,
        }
    }
    Ok(())
}

/// Writes a line of morphology.
fn push_line(line: &Line, out: &mut String) -> Result<(), AllocError> {
    out.push_str("line:")?;
    push_side(line.left.as_slice(), out)?;
    out.push_str(" becomes")?;
    push_side(line.right.as_slice(), out)?;
    out.push('\n')
}

/// Writes a lexical rule and its lines.
pub fn push_lex_rule(sig: &Signature, rule: &LexRule, out: &mut String) -> Result<(), AllocError> {
    let name = rule.name.as_str();
    let slots = rule.slots;
    write!(out, "lexical rule {name}, {slots} slots:")?;
    push_desc(sig, &rule.input, out)?;
    out.push_str(" becomes")?;
    push_desc(sig, &rule.output, out)?;
    push_goal_of(sig, &rule.goal, out)?;
    out.push('\n')?;
    for line in rule.lines.as_slice() {
        push_line(line, out)?;
    }
    Ok(())
}

/// Writes an element of a rule.
fn push_element(sig: &Signature, element: &Element, out: &mut String) -> Result<(), AllocError> {
    match element {
        Element::Cat(desc) => {
            out.push_str(" cat")?;
            push_desc(sig, desc, out)
        }
        Element::Cats(desc) => {
            out.push_str(" cats")?;
            push_desc(sig, desc, out)
        }
        Element::Goal(goal) => {
            out.push_str(" goal")?;
            push_goal(sig, goal, out)
        }
        Element::Head(desc) => {
            out.push_str(" sem_head")?;
            push_desc(sig, desc, out)
        }
    }
}

/// Writes a rule.
pub fn push_rule(sig: &Signature, rule: &Rule, out: &mut String) -> Result<(), AllocError> {
    let name = rule.name.as_str();
    let slots = rule.slots;
    write!(out, "rule {name}, {slots} slots:")?;
    push_desc(sig, &rule.mother, out)?;
    out.push_str(" ===>")?;
    for element in rule.elements.as_slice() {
        push_element(sig, element, out)?;
    }
    out.push('\n')
}
