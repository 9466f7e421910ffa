//! Lines of morphology whose variables have numbers.
ghost use Rattle.std.specs.Prelude.{◌≡◌, IfOk, map};
ghost use Rattle.ale_grammar.specs.Lines.{line_of, side_after};
ghost use Rattle.ale_grammar.specs.Building.{piece_after};

use ale_declaration::{LinePart, MorphLine};
use ale_describe::Slots;
use ale_morph::{Line, Piece};
use ale_text::Row;
use std::alloc::{AllocError, Global};

/// The piece, after the variables so far, to which its own is added.
fn piece_of(alloc: Global, slots: &mut Slots, part: &LinePart) -> Result<Piece, AllocError>
    ensures { IfOk result (λ p. (p, slots.new) ≡ piece_after slots.old part.now) }
{
    match part {
        LinePart::Piece(letters) => {
            let letters = letters.copy(alloc)?;
            Ok(Piece::Letters(letters))
        }
        LinePart::Slot(name) => {
            let number = slots.slot(alloc, name)?;
            Ok(Piece::Slot(number))
        }
    }
}

/// A side of a line, after the variables so far, to which its own are added.
fn side_of(alloc: Global, slots: &mut Slots, parts: &[LinePart]) -> Result<Row<Piece>, AllocError>
    ensures { IfOk result (λ ps. (ps, slots.new) ≡ side_after slots.old parts.now) }
{
    let mut pieces = Vec::new(alloc);
    for part in parts {
        let piece = piece_of(alloc, slots, part)?;
        pieces.push(piece)?;
    }
    Ok(Row::of(pieces))
}

/// The line. Its variables are numbered in order of first occurrence, those of the left side first; each `_` is one of its own.
/// The error is want of memory, also where there are more than 2^32 variables.
fn line_of(alloc: Global, line: &MorphLine) -> Result<Line, AllocError>
    ensures { IfOk result (λ l. l ≡ line_of line.now) }
{
    let mut slots = Slots::new(alloc);
    let left = side_of(alloc, &mut slots, line.left.as_slice())?;
    let right = side_of(alloc, &mut slots, line.right.as_slice())?;
    Ok(Line { left, right })
}

/// The lines, each with variables of its own.
pub(crate) fn lines_of(alloc: Global, lines: &[MorphLine]) -> Result<Row<Line>, AllocError>
    ensures { IfOk result (λ ls. ls ≡ map line_of lines.now) }
{
    let mut made = Vec::new(alloc);
    for line in lines {
        let new = line_of(alloc, line)?;
        made.push(new)?;
    }
    Ok(Row::of(made))
}
