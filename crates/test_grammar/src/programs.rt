//! Programs as lines.
use crate::parts::{push_constraint, push_empty, push_lex_rule, push_pred, push_rule, push_word};
use ale_program::Program;
use std::alloc::AllocError;

/// Writes predicates and constraints.
fn push_clauses(program: &Program, out: &mut String) -> Result<(), AllocError> {
    let sig = program.signature();
    for (number, pred) in program.preds().iter().enumerate() {
        push_pred(sig, number, pred, out)?;
    }
    for constraint in program.constraints() {
        push_constraint(sig, constraint, out)?;
    }
    Ok(())
}

/// Writes words, categories without words, and lexical rules.
fn push_lexicon(program: &Program, out: &mut String) -> Result<(), AllocError> {
    let sig = program.signature();
    for word in program.words() {
        push_word(sig, word, out)?;
    }
    for empty in program.empties() {
        push_empty(sig, empty, out)?;
    }
    for rule in program.lex_rules() {
        push_lex_rule(sig, rule, out)?;
    }
    Ok(())
}

/// Writes rules.
fn push_rules(program: &Program, out: &mut String) -> Result<(), AllocError> {
    let sig = program.signature();
    for rule in program.rules() {
        push_rule(sig, rule, out)?;
    }
    Ok(())
}

/// Writes what directives say, and whether no cut, negation or if-then stands in a program.
fn push_settings(program: &Program, out: &mut String) -> Result<(), AllocError> {
    match program.semantics() {
        Some(number) => write!(out, "semantics {number}, ")?,
        None => out.push_str("no semantics, ")?,
    }
    let depth = program.lex_depth();
    let length = program.chain_length();
    let side = if program.in_fragment() {
        "inside"
    } else {
        "outside"
    };
    write!(
        out,
        "lex_rule_depth {depth}, chain_length {length}, {side} the fragment\n"
    )
}

/// Writes a program.
pub fn push_program(program: &Program, out: &mut String) -> Result<(), AllocError> {
    push_clauses(program, out)?;
    push_lexicon(program, out)?;
    push_rules(program, out)?;
    push_settings(program, out)
}
