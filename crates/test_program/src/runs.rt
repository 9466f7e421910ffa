//! Whole runs over memory.
use ale_base::{MemoryFiles, MemorySink};
use ale_top::{exit_number, run};
use std::alloc::{AllocError, Global};
use std::io::{self, ErrorKind};
use std::str;
use test_support::bytes_of;

/// The room of a sink, in bytes.
const ROOM: usize = 4_194_304;

/// Adds a file of this name with the bytes of a text.
fn add_file(
    alloc: Global,
    files: &mut MemoryFiles,
    name: &str,
    text: &str,
) -> Result<(), AllocError> {
    let bytes = bytes_of(alloc, text)?;
    files.add(name, bytes.as_slice())
}

/// The texts of the grammar and of the commands, as files.
fn files_of(
    alloc: Global,
    grammar: &str,
    commands: &str,
    failing: Vec<u64>,
) -> Result<MemoryFiles, AllocError> {
    let mut files = MemoryFiles::new(alloc, failing);
    add_file(alloc, &mut files, "g", grammar)?;
    add_file(alloc, &mut files, "c", commands)?;
    Ok(files)
}

/// The words of a command line, with a space between them.
fn words_of(alloc: Global, line: &str) -> Result<Vec<String>, AllocError> {
    let mut words = Vec::new(alloc);
    for word in line.split(' ') {
        if !word.is_empty() {
            words.push(String::from_str(alloc, word)?)?;
        }
    }
    Ok(words)
}

/// The numbers of calls, with a space between them; what is no number is left out.
fn numbers_of(alloc: Global, text: &str) -> Result<Vec<u64>, AllocError> {
    let mut numbers = Vec::new(alloc);
    for word in text.split(' ') {
        if let Ok(number) = word.parse::<u64>() {
            numbers.push(number)?;
        }
    }
    Ok(numbers)
}

/// What was written, and the exit status.
fn shown(alloc: Global, number: u8, sink: &MemorySink) -> Result<String, AllocError> {
    let mut out = String::new(alloc);
    match str::from_utf8(sink.bytes()) {
        Ok(text) => out.push_str(text)?,
        Err(_) => out.push_str("no text\n")?,
    }
    write!(out, "status {number}\n")?;
    Ok(out)
}

/// Runs a command line over files.
fn ran(
    alloc: Global,
    words: &str,
    files: MemoryFiles,
    sink: MemorySink,
) -> Result<String, AllocError> {
    let mut files = files;
    let mut sink = sink;
    let words = words_of(alloc, words)?;
    let status = run(alloc, words.as_slice(), &mut files, &mut sink);
    shown(alloc, status.number(), &sink)
}

/// Runs a command line over files with these texts, which are named `g` and `c`.
pub fn run_words(
    alloc: Global,
    words: &str,
    grammar: &str,
    commands: &str,
) -> Result<String, AllocError> {
    let files = files_of(alloc, grammar, commands, Vec::new(alloc))?;
    let sink = MemorySink::new(alloc, ROOM, 65_536, Vec::new(alloc))?;
    ran(alloc, words, files, sink)
}

/// Runs commands over a grammar.
pub fn run_texts(alloc: Global, grammar: &str, commands: &str) -> Result<String, AllocError> {
    run_words(alloc, "g c", grammar, commands)
}

/// The same where calls of the files fail, those with these numbers from 0 on.
pub fn run_failing_files(
    alloc: Global,
    failing: &str,
    grammar: &str,
    commands: &str,
) -> Result<String, AllocError> {
    let failing = numbers_of(alloc, failing)?;
    let files = files_of(alloc, grammar, commands, failing)?;
    let sink = MemorySink::new(alloc, ROOM, 65_536, Vec::new(alloc))?;
    ran(alloc, "g c", files, sink)
}

/// The same where calls of the sink, which takes ten bytes a call, fail.
pub fn run_failing_sink(
    alloc: Global,
    failing: &str,
    grammar: &str,
    commands: &str,
) -> Result<String, AllocError> {
    let failing = numbers_of(alloc, failing)?;
    let files = files_of(alloc, grammar, commands, Vec::new(alloc))?;
    let sink = MemorySink::new(alloc, ROOM, 10, failing)?;
    ran(alloc, "g c", files, sink)
}

/// Ends the process of a command line, whose first word is the program's name, over files with these texts.
pub fn exit_of(
    alloc: Global,
    arguments: &str,
    grammar: &str,
    commands: &str,
) -> Result<String, AllocError> {
    let mut files = files_of(alloc, grammar, commands, Vec::new(alloc))?;
    let mut sink = MemorySink::new(alloc, ROOM, 65_536, Vec::new(alloc))?;
    let arguments = words_of(alloc, arguments)?;
    let number = exit_number(alloc, Ok(arguments), &mut files, &mut sink);
    shown(alloc, number, &sink)
}

/// Ends the process where the system gives no arguments.
fn exit_without(alloc: Global, kind: ErrorKind) -> Result<String, AllocError> {
    let mut files = MemoryFiles::new(alloc, Vec::new(alloc));
    let mut sink = MemorySink::new(alloc, ROOM, 65_536, Vec::new(alloc))?;
    let number = exit_number(alloc, Err(io::Error::from(kind)), &mut files, &mut sink);
    shown(alloc, number, &sink)
}

/// The same by the word for the cause: that memory ran out, or another.
pub fn exit_without_arguments(alloc: Global, cause: &str) -> Result<String, AllocError> {
    if cause == "memory" {
        exit_without(alloc, ErrorKind::OutOfMemory)
    } else {
        exit_without(alloc, ErrorKind::InvalidInput)
    }
}
