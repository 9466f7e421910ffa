//! Copies of texts and rows.
use ale_signature::{Row, Text};
use std::alloc::{AllocError, Global};

/// A copy of a text.
pub fn copied_text(alloc: Global, text: &str) -> Result<String, AllocError> {
    let original = Text::of(String::from_str(alloc, text)?);
    let copy = original.copy(alloc)?;
    let copy = copy.as_str();
    format!(in alloc; "{copy}\n")
}

/// The lengths of the words of a text.
fn lengths(alloc: Global, text: &str) -> Result<Row<usize>, AllocError> {
    let mut lengths = Vec::new(alloc);
    for word in text.split(' ') {
        lengths.push(word.len())?;
    }
    Ok(Row::of(lengths))
}

/// A copy of the row of the lengths of words.
pub fn copied_row(alloc: Global, text: &str) -> Result<String, AllocError> {
    let original = lengths(alloc, text)?;
    let copy = original.copy(alloc)?;
    let mut out = String::new(alloc);
    for length in copy.as_slice() {
        write!(out, "{length},")?;
    }
    out.push('\n')?;
    Ok(out)
}
