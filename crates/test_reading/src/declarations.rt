//! Declarations, each form of them, and each refusal.
use crate::show_terms::{push_form_error, push_goal, push_name, push_names, push_term, push_terms};
use ale_declaration::{Declaration, LinePart, MorphLine, Part, read_declaration};
use ale_declared::SigDecl;
use ale_form::FormError;
use ale_term::{GoalTerm, Term};
use ale_text::Text;
use ale_token::tokens;
use std::alloc::{AllocError, Global};

/// Writes a word and a name.
fn push_named(word: &str, name: &Text, out: &mut String) -> Result<(), AllocError> {
    out.push_str(word)?;
    push_name(name, out)
}

/// Writes a word and a description.
fn push_marked(word: &str, described: &Term, out: &mut String) -> Result<(), AllocError> {
    out.push_str(word)?;
    push_term(described, out)
}

/// Writes features with their restrictions.
fn push_features(features: &[(Text, Text)], out: &mut String) -> Result<(), AllocError> {
    for feature in features {
        push_name(&feature.0, out)?;
        push_name(&feature.1, out)?;
    }
    Ok(())
}

/// Writes a declaration of types.
fn push_types(types: &SigDecl, out: &mut String) -> Result<(), AllocError> {
    match types {
        SigDecl::Kind { name, subs, intros } => {
            out.push_str("types")?;
            push_name(name, out)?;
            push_names(subs.as_slice(), out)?;
            push_features(intros.as_slice(), out)
        }
        SigDecl::Ext { names } => {
            out.push_str("ext")?;
            push_names(names.as_slice(), out)
        }
    }
}

/// Writes a goal, if any.
fn push_goal_of(goal: &Option<GoalTerm>, out: &mut String) -> Result<(), AllocError> {
    match goal {
        None => Ok(()),
        Some(goal) => push_goal(goal, out),
    }
}

/// Writes a word, a name and a description.
fn push_described(
    word: &str,
    name: &Text,
    described: &Term,
    out: &mut String,
) -> Result<(), AllocError> {
    out.push_str(word)?;
    push_name(name, out)?;
    push_term(described, out)
}

/// Writes a part of a side of a line.
fn push_piece(part: &LinePart, out: &mut String) -> Result<(), AllocError> {
    match part {
        LinePart::Piece(letters) => push_named(" piece", letters, out),
        LinePart::Slot(name) => push_named(" variable", name, out),
    }
}

/// Writes a side of a line.
fn push_side(parts: &[LinePart], out: &mut String) -> Result<(), AllocError> {
    for part in parts {
        push_piece(part, out)?;
    }
    Ok(())
}

/// Writes a line of morphology.
fn push_line(line: &MorphLine, out: &mut String) -> Result<(), AllocError> {
    out.push_str(" :")?;
    push_side(line.left.as_slice(), out)?;
    out.push_str(" becomes")?;
    push_side(line.right.as_slice(), out)
}

/// Writes lines of morphology.
fn push_lines(lines: &[MorphLine], out: &mut String) -> Result<(), AllocError> {
    for line in lines {
        push_line(line, out)?;
    }
    Ok(())
}

/// Writes an element of a rule.
fn push_part(part: &Part, out: &mut String) -> Result<(), AllocError> {
    match part {
        Part::Cat(described) => push_marked(" cat", described, out),
        Part::Cats(described) => push_marked(" cats", described, out),
        Part::Goal(goal) => {
            out.push_str(" goal")?;
            push_goal(goal, out)
        }
        Part::Head(described) => push_marked(" sem_head", described, out),
    }
}

/// Writes the elements of a rule.
fn push_parts(parts: &[Part], out: &mut String) -> Result<(), AllocError> {
    for part in parts {
        push_part(part, out)?;
    }
    Ok(())
}

/// Writes a constraint.
fn push_constraint(
    name: &Text,
    described: &Term,
    goal: &Option<GoalTerm>,
    out: &mut String,
) -> Result<(), AllocError> {
    push_described("cons", name, described, out)?;
    push_goal_of(goal, out)
}

/// Writes a macro.
fn push_macro(
    name: &Text,
    parameters: &[Text],
    described: &Term,
    out: &mut String,
) -> Result<(), AllocError> {
    push_described("macro", name, described, out)?;
    push_names(parameters, out)
}

/// Writes a clause.
fn push_clause(
    name: &Text,
    arguments: &[Term],
    goal: &GoalTerm,
    out: &mut String,
) -> Result<(), AllocError> {
    push_named("clause", name, out)?;
    push_terms(arguments, out)?;
    push_goal(goal, out)
}

/// Writes a lexical rule.
fn push_lexical_rule(
    name: &Text,
    sides: (&Term, &Term),
    goal: &Option<GoalTerm>,
    lines: &[MorphLine],
    out: &mut String,
) -> Result<(), AllocError> {
    push_described("lex_rule", name, sides.0, out)?;
    push_term(sides.1, out)?;
    push_goal_of(goal, out)?;
    push_lines(lines, out)
}

/// Writes a rule.
fn push_rule(
    name: &Text,
    mother: &Term,
    parts: &[Part],
    out: &mut String,
) -> Result<(), AllocError> {
    push_described("rule", name, mother, out)?;
    push_parts(parts, out)
}

/// Writes a declaration.
fn push_declaration(declaration: &Declaration, out: &mut String) -> Result<(), AllocError> {
    match declaration {
        Declaration::Sig(types) => push_types(types, out),
        Declaration::Cons(name, described, goal) => push_constraint(name, described, goal, out),
        Declaration::Macro(name, parameters, described) => {
            push_macro(name, parameters.as_slice(), described, out)
        }
        Declaration::Clause(name, arguments, goal) => {
            push_clause(name, arguments.as_slice(), goal, out)
        }
        Declaration::Word(name, described) => push_described("word", name, described, out),
        Declaration::Empty(described) => push_marked("empty", described, out),
        Declaration::LexRule(name, input, output, goal, lines) => {
            push_lexical_rule(name, (input, output), goal, lines.as_slice(), out)
        }
        Declaration::Rule(name, mother, parts) => push_rule(name, mother, parts.as_slice(), out),
        Declaration::Semantics(name) => push_named("semantics", name, out),
        Declaration::LexDepth(depth) => write!(out, "lex_rule_depth {depth}"),
        Declaration::ChainLength(length) => write!(out, "chain_length {length}"),
        Declaration::PassedOver(name) => push_named("passed over", name, out),
    }
}

/// Writes what was read of a declaration.
fn push_declared(
    read: &Result<Declaration, FormError>,
    out: &mut String,
) -> Result<(), AllocError> {
    match read {
        Ok(declaration) => push_declaration(declaration, out),
        Err(error) => push_form_error(error, out),
    }
}

/// The declaration that a text is, without its end, as a text.
pub fn declared(alloc: Global, text: &str) -> Result<String, AllocError> {
    let mut out = String::new(alloc);
    match tokens(alloc, text) {
        Ok(list) => push_declared(&read_declaration(alloc, text, list.as_slice()), &mut out)?,
        Err(_) => out.push_str("no tokens")?,
    }
    Ok(out)
}
