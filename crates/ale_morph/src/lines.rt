//! Lines of morphology applied to words.

ghost use Rattle.std.specs.Prelude.{◌≡◌, IfOk};
ghost use Rattle.std.specs.Str.{chars};
ghost use Rattle.ale_morph.specs.Fits.{Becomes};
ghost use Rattle.ale_morph.specs.Search.{made_by, becomes};

use crate::line::Line;
use crate::search::fit;
use crate::spelling::spell;
use ale_text::Text;
use std::alloc::{AllocError, Global};

// What the line makes of the word, where it fits.
fn by_line(alloc: Global, line: &Line, word: &[char]) -> Result<Option<Text>, AllocError>
    ensures { IfOk result (λ made. made ≡ made_by line.now word.now) }
{
    match fit(alloc, line.left.as_slice(), word)? {
        None => Ok(None),
        Some(stack) => Ok(Some(spell(alloc, line.right.as_slice(), stack.as_slice())?)),
    }
}

// What the first line that fits makes of the word.
fn by_first(alloc: Global, lines: &[Line], word: &[char]) -> Result<Option<Text>, AllocError>
    ensures { IfOk result (λ made. made ≡ becomes lines.now word.now) }
{
    for line in lines {
        let made = by_line(alloc, line, word)?;
        if made.is_some() {
            return Ok(made);
        }
    }
    Ok(None)
}

/// What the first line that fits makes of the word. Each slot of its left side takes a text of at least one
/// character, the same one wherever it stands, so that the left side spells the word; where there are several
/// ways, the first slot takes the shortest text with which there is one, then the second, and so on. The right
/// side is spelled with these texts. `None` exactly where no line fits. Lengths are counted in characters.
///
/// A slot of the right side that does not stand in the left side spells nothing: `Becomes` leaves its text open.
///
/// A line in which no slot stands twice takes time for at most its pieces times the square of the word's
/// length. A slot that stands twice can multiply that by the number of parts of the word that it could stand for.
pub fn apply(alloc: Global, lines: &[Line], word: &str) -> Result<Option<Text>, AllocError>
    ensures value { IfOk result (λ made. made ≡ becomes lines.now (chars word.now)) }
    ensures meaning { IfOk result (λ made. Becomes lines.now (chars word.now) made) }
{
    let characters: Vec<char> = word.chars().collect(alloc)?;
    by_first(alloc, lines, characters.as_slice())
}
