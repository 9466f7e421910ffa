//! Lines of morphology.
ghost use Rattle.std.specs.Prelude.{◌≡◌, IfOk, Some, length, [], ◌∷◌};
ghost use Rattle.ale_declared.specs.Names.{numbered};
ghost use Rattle.ale_term.specs.declared.symbol.Symbol.TheVariants.{Comma};
ghost use Rattle.ale_term.specs.Results.{Gives};
ghost use Rattle.ale_term.specs.Reading.{more_at};
ghost use Rattle.ale_declaration.specs.Forms.{pieces};
ghost use Rattle.ale_declaration.specs.Distinct.{slots_in, is_told_by, is_bound_by};
ghost use Rattle.ale_declaration.specs.Reading.{piece_at, flat_behind, side_at, is_bound, line_at};

use crate::declaration::{LinePart, MorphLine};
use crate::list::{extend, some_atoms};
use crate::seen::Seen;
use ale_term::{Lexeme, ReadError, Symbol, add, atom_at, is_word, past, past_word, variable_at};
use ale_text::{Row, Text};
use std::alloc::{AllocError, Global};

/// The atoms one after the other.
fn letters(alloc: Global, names: &[Text]) -> Result<Vec<LinePart>, ReadError>
    ensures { Gives (λ v. v.items) result (Some (pieces names.now)) }
{
    let mut found = Vec::new(alloc);
    for name in names {
        add(&mut found, LinePart::Piece(name.copy(alloc)?))?;
    }
    Ok(found)
}

/// A side of one part.
fn lone(alloc: Global, part: LinePart) -> Result<Vec<LinePart>, ReadError>
    ensures { Gives (λ v. v.items) result (Some (part ∷ [])) }
{
    let mut found = Vec::new(alloc);
    add(&mut found, part)?;
    Ok(found)
}

/// A piece of a side.
fn piece(alloc: Global, lexemes: &[Lexeme]) -> Result<(Vec<LinePart>, &[Lexeme]), ReadError>
    ensures { Gives (λ p. (p.0.items, p.1.now)) result (piece_at lexemes.now) }
{
    if let Some((name, behind)) = atom_at(lexemes) {
        return Ok((lone(alloc, LinePart::Piece(name.copy(alloc)?))?, behind));
    }
    if let Some((name, behind)) = variable_at(lexemes) {
        return Ok((lone(alloc, LinePart::Slot(name.copy(alloc)?))?, behind));
    }
    let (names, behind) = some_atoms(alloc, lexemes)?;
    Ok((letters(alloc, names.as_slice())?, behind))
}

/// The parts of the further pieces, each after a `,`, after those that were read before.
fn more_pieces<'a>(
    alloc: Global,
    first: Vec<LinePart>,
    lexemes: &'a [Lexeme],
) -> Result<(Vec<LinePart>, &'a [Lexeme]), ReadError>
    ensures { Gives (λ p. (p.0.items, p.1.now)) result (flat_behind first.items (more_at (length lexemes.now) Comma piece_at lexemes.now)) }
{
    let mut found = first;
    let mut rest = lexemes;
    for _read in 0..lexemes.len() {
        let Some(behind) = past(rest, Symbol::Comma) else {
            return Ok((found, rest));
        };
        let (parts, after) = piece(alloc, behind)?;
        extend(&mut found, parts)?;
        rest = after;
    }
    Ok((found, rest))
}

/// A side of a line.
fn side(alloc: Global, lexemes: &[Lexeme]) -> Result<(Vec<LinePart>, &[Lexeme]), ReadError>
    ensures { Gives (λ p. (p.0.items, p.1.now)) result (side_at lexemes.now) }
{
    let Some(inner) = past(lexemes, Symbol::OpenRound) else {
        return piece(alloc, lexemes);
    };
    let (first, rest) = piece(alloc, inner)?;
    let (parts, rest) = more_pieces(alloc, first, rest)?;
    let behind = past(rest, Symbol::CloseRound).ok_or(ReadError::NotTheForm)?;
    Ok((parts, behind))
}

/// The variables of a side, each once.
fn slots_in(alloc: Global, parts: &[LinePart]) -> Result<Seen, AllocError>
    ensures { IfOk result (λ s. s ≡ numbered [] (slots_in parts.now)) }
{
    let mut slots = Seen::new(alloc);
    for part in parts {
        if let LinePart::Slot(name) = part {
            slots.add(alloc, name)?;
        }
    }
    Ok(slots)
}

/// Whether these variables tell what this part of a right side is.
#[tactic(auto, using(crate::proofs::Words::word_rules))]
fn is_told(slots: &Seen, part: &LinePart) -> bool
    ensures { result ≡ is_told_by slots.now part.now }
{
    match part {
        LinePart::Piece(_) => true,
        LinePart::Slot(name) => !is_word(name, "_") && slots.has(name),
    }
}

/// Whether they tell it of each part.
fn are_told(slots: &Seen, parts: &[LinePart]) -> bool
    ensures { result ≡ is_bound_by slots.now parts.now }
{
    for part in parts {
        if !is_told(slots, part) {
            return false;
        }
    }
    true
}

/// Whether what the left side matches tells what each part of the right side is.
fn is_bound(alloc: Global, left: &[LinePart], right: &[LinePart]) -> Result<bool, AllocError>
    ensures { IfOk result (λ bound. bound ≡ is_bound left.now right.now) }
{
    let slots = slots_in(alloc, left)?;
    Ok(are_told(&slots, right))
}

/// A line of morphology.
#[tactic(auto, using(crate::proofs::Words::word_rules))]
pub(crate) fn line(alloc: Global, lexemes: &[Lexeme]) -> Result<(MorphLine, &[Lexeme]), ReadError>
    ensures { Gives (λ p. (p.0, p.1.now)) result (line_at lexemes.now) }
{
    let (left, behind) = side(alloc, lexemes)?;
    let inner = past_word(behind, "becomes").ok_or(ReadError::NotTheForm)?;
    let (right, rest) = side(alloc, inner)?;
    if !is_bound(alloc, &left, &right)? {
        return Err(ReadError::NotTheForm);
    }
    let (left, right) = (Row::of(left), Row::of(right));
    Ok((MorphLine { left, right }, rest))
}
