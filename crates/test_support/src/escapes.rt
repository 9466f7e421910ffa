//! Escapes in the texts of cases.
use std::alloc::{AllocError, Global};

/// The character that stands for the byte 0xff, which no text has.
const NO_TEXT: char = '\u{fffe}';

/// Writes a piece, with `number` in place of each `#` and the number after it in place of each `$`.
fn push_numbered(piece: &str, number: u32, out: &mut String) -> Result<(), AllocError> {
    for character in piece.chars() {
        match character {
            '#' => write!(out, "{number}")?,
            '$' => {
                let next = number.saturating_add(1);
                write!(out, "{next}")?;
            }
            other => out.push(other)?,
        }
    }
    Ok(())
}

/// Whether a piece is the same each time.
fn is_plain(piece: &str) -> bool {
    piece.split_once('#').is_none() && piece.split_once('$').is_none()
}

/// Writes a piece so many times.
fn push_times(piece: &str, times: u32, out: &mut String) -> Result<(), AllocError> {
    let plain = is_plain(piece);
    for number in 0..times {
        if plain {
            out.push_str(piece)?;
        } else {
            push_numbered(piece, number, out)?;
        }
    }
    Ok(())
}

/// Writes what `COUNT PIECE` stands for.
fn push_repeated(inside: &str, out: &mut String) -> Result<(), AllocError> {
    match inside.split_once(' ') {
        Some((count, piece)) => match count.parse::<u32>() {
            Ok(times) => push_times(piece, times, out),
            Err(_) => out.push_str("no count"),
        },
        None => out.push_str("no piece"),
    }
}

/// Writes what the escape before `rest` stands for, where it is a repetition; gives what comes after it.
fn push_braces<'a>(rest: &'a str, out: &mut String) -> Result<&'a str, AllocError> {
    match rest.split_once('}') {
        Some((inside, after)) => {
            push_repeated(inside, out)?;
            Ok(after)
        }
        None => Ok(rest),
    }
}

/// Writes what the escape at the start of `rest` stands for; gives what comes after it.
fn push_escaped<'a>(rest: &'a str, out: &mut String) -> Result<&'a str, AllocError> {
    if let Some(inside) = rest.strip_prefix('{') {
        return push_braces(inside, out);
    }
    if let Some(after) = rest.strip_prefix('n') {
        out.push('\n')?;
        return Ok(after);
    }
    if let Some(after) = rest.strip_prefix('t') {
        out.push('\t')?;
        return Ok(after);
    }
    if let Some(after) = rest.strip_prefix('r') {
        out.push('\r')?;
        return Ok(after);
    }
    if let Some(after) = rest.strip_prefix('s') {
        out.push('\u{a0}')?;
        return Ok(after);
    }
    if let Some(after) = rest.strip_prefix('b') {
        out.push(NO_TEXT)?;
        return Ok(after);
    }
    out.push('^')?;
    Ok(rest)
}

/// The text that a text of a case stands for: `^n`, `^t`, `^r` and `^s` are a line feed, a tabulator, a carriage
/// return and a space that does not break, `^b` is the byte 0xff (for `bytes_of`), `^{COUNT PIECE}` is the piece so
/// many times, in which `#` is the number of the time from 0 on and `$` the number after it. Any other `^` is itself.
pub fn expand(alloc: Global, text: &str) -> Result<String, AllocError> {
    let mut out = String::new(alloc);
    let mut rest = text;
    for _ in 0..text.len() {
        match rest.split_once('^') {
            None => break,
            Some((plain, escaped)) => {
                out.push_str(plain)?;
                rest = push_escaped(escaped, &mut out)?;
            }
        }
    }
    out.push_str(rest)?;
    Ok(out)
}

/// The bytes of an expanded text: 0xff for each `^b`, and else as they are.
pub fn bytes_of(alloc: Global, text: &str) -> Result<Vec<u8>, AllocError> {
    let mut bytes = Vec::new(alloc);
    for (index, part) in text.split(NO_TEXT).enumerate() {
        if index > 0 {
            bytes.push(0xff)?;
        }
        bytes.extend_from_slice(part.as_bytes())?;
    }
    Ok(bytes)
}
