//! A case of a table.
use crate::escapes::expand;
use std::alloc::{AllocError, Global};

/// A call, what it is given, and what it is to answer.
#[derive(Drop)]
pub struct Case {
    /// The word that says which call.
    pub call: String,
    /// The texts that the call is given.
    pub given: Vec<String>,
    /// What it answers: lines, each with its end.
    pub wanted: String,
}

/// The text without the space before it, if there is one.
fn after_space(text: &str) -> &str {
    text.strip_prefix(' ').unwrap_or(text)
}

/// Adds what the first line of a case says.
fn read_call(alloc: Global, line: &str, case: &mut Case) -> Result<(), AllocError> {
    match line.split_once(':') {
        Some((call, text)) => {
            case.call.push_str(call)?;
            let given = expand(alloc, after_space(text))?;
            case.given.push(given)?;
            Ok(())
        }
        None => case.call.push_str(line),
    }
}

/// Adds a line of what is wanted.
fn read_wanted(alloc: Global, line: &str, case: &mut Case) -> Result<(), AllocError> {
    let text = expand(alloc, line)?;
    case.wanted.push_str(text.as_str())?;
    case.wanted.push('\n')
}

/// Adds what a line says: `CALL: TEXT`, `+ TEXT` for a further text, `= TEXT` for a line that is wanted, or a comment
/// after `#`.
fn read_line(alloc: Global, line: &str, case: &mut Case) -> Result<(), AllocError> {
    if line.is_empty() || line.starts_with('#') {
        return Ok(());
    }
    if let Some(text) = line.strip_prefix('=') {
        return read_wanted(alloc, after_space(text), case);
    }
    if let Some(text) = line.strip_prefix('+') {
        let given = expand(alloc, after_space(text))?;
        case.given.push(given)?;
        return Ok(());
    }
    read_call(alloc, line, case)
}

impl Case {
    /// The case of a block of lines; without a call where they are comments alone.
    pub fn read(alloc: Global, block: &str) -> Result<Case, AllocError> {
        let mut case = Case {
            call: String::new(alloc),
            given: Vec::new(alloc),
            wanted: String::new(alloc),
        };
        for line in block.split('\n') {
            read_line(alloc, line, &mut case)?;
        }
        Ok(case)
    }

    /// The text with this number, from 0 on, that the call is given; empty where there is none.
    pub fn text(&self, number: usize) -> &str {
        match self.given.get(number) {
            Some(text) => text.as_str(),
            None => "",
        }
    }

    /// Whether this is what is wanted.
    pub fn is_wanted(&self, answer: &str) -> bool {
        self.wanted.as_str() == answer
    }
}
