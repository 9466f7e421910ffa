//! The trial of a table's cases.
use crate::cases::Case;
use std::alloc::{AllocError, Global};
use std::io::{self, BufRead, BufReader};
use std::process::ExitCode;

/// A room of tests: what its calls answer.
pub trait Room {
    /// What the case's call answers: lines, each with its end.
    fn answer(&self, alloc: Global, case: &Case) -> Result<String, AllocError>;
}

/// All of the standard input, with an end after each line.
fn table(rt: &HostRuntime, alloc: Global) -> io::Result<String> {
    let mut text = String::new(alloc);
    for line in BufReader::new(alloc, rt.reader())?.lines(alloc) {
        text.push_str(line?.as_str())?;
        text.push('\n')?;
    }
    Ok(text)
}

/// Whether the call of a block of lines answers what is wanted; what it answers otherwise is written. Comments alone
/// are no case: None.
fn is_answered<R: Room>(
    rt: &HostRuntime,
    alloc: Global,
    room: &R,
    block: &str,
) -> io::Result<Option<bool>> {
    let case = Case::read(alloc, block)?;
    if case.call.is_empty() {
        return Ok(None);
    }
    let answer = room.answer(alloc, &case)?;
    let answered = case.is_wanted(answer.as_str());
    if !answered {
        println!(rt; "{block}\nanswered:\n{answer}")?;
    }
    Ok(Some(answered))
}

/// Tries the cases that the standard input holds, with an empty line between them, and writes each that is answered
/// otherwise than it says, and how many were tried. Succeeds where there is none of those.
pub fn try_cases<R: Room>(rt: &HostRuntime, room: &R) -> io::Result<ExitCode> {
    let alloc = rt.alloc();
    let text = table(rt, alloc)?;
    let mut tried: u64 = 0;
    let mut other: u64 = 0;
    for block in text.as_str().split("\n\n") {
        match is_answered(rt, alloc, room, block)? {
            None => {}
            Some(answered) => {
                tried = tried.saturating_add(1);
                other = other.saturating_add(if answered { 0 } else { 1 });
            }
        }
    }
    println!(rt; "{tried} cases, {other} answered otherwise")?;
    Ok(if other == 0 {
        ExitCode::SUCCESS
    } else {
        ExitCode::FAILURE
    })
}
