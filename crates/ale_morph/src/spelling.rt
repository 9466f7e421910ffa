//! Texts that pieces spell.

ghost use Rattle.std.specs.Prelude.{◌≡◌, IfOk, OnOk};
ghost use Rattle.ale_morph.specs.Appending.{Appends};
ghost use Rattle.ale_morph.specs.Fits.{part, spell};
ghost use Rattle.ale_morph.specs.Search.{texts_of};
ghost use Rattle.ale_morph.specs.Stack.{fillings, top_first};

use crate::line::Piece;
use crate::stack::{OpenSlot, text_of};
use ale_text::Text;
use std::alloc::{AllocError, Global};

// Writes the characters.
fn push_characters(out: &mut String, text: &[char]) -> Result<(), AllocError>
    ensures { OnOk result (Appends out.old out.new text.now) }
{
    for c in text {
        out.push(*c)?;
    }
    Ok(())
}

// Writes what the piece spells.
fn push_piece(out: &mut String, stack: &[OpenSlot], piece: &Piece) -> Result<(), AllocError>
    ensures { OnOk result (Appends out.old out.new (part (texts_of (fillings (top_first stack.now))) piece.now)) }
{
    match piece {
        Piece::Letters(letters) => out.push_str(letters.as_str()),
        Piece::Slot(slot) => match text_of(stack, *slot) {
            Some(text) => push_characters(out, text),
            None => Ok(()),
        },
    }
}

// The text that the pieces spell with the texts of the open slots.
pub(crate) fn spell(alloc: Global, pieces: &[Piece], stack: &[OpenSlot]) -> Result<Text, AllocError>
    ensures { IfOk result (λ t. t ≡ spell (texts_of (fillings (top_first stack.now))) pieces.now) }
{
    let mut out = String::new(alloc);
    for piece in pieces {
        push_piece(&mut out, stack, piece)?;
    }
    Ok(Text::of(out))
}
