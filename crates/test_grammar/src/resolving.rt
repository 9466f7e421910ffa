//! The program that a text makes, or its fault.
ghost use Rattle.std.specs.Prelude.{map};
ghost use Rattle.ale_declaration.specs.Declarations.{declaration_data};
ghost use Rattle.ale_grammar.specs.Assembling.{HaveBoundLines};

use crate::programs::push_program;
use crate::reading::declarations;
use crate::signatures::signature_of;
use ale_declaration::Declaration;
use ale_grammar::{Resolved, resolve};
use ale_naming::{NameFault, names_of};
use ale_signature::Signature;
use std::alloc::{AllocError, Global};
use test_writing::push_name_error;

/// What is asked of declarations.
#[derive(Clone, Copy)]
pub enum Question {
    /// Their program.
    Program,
    /// Whether names mean something: where the program is large.
    Names,
}

/// Writes a fault: the number of its declaration, and what it is.
fn push_fault(fault: &NameFault, out: &mut String) -> Result<(), AllocError> {
    match fault {
        NameFault::At(number, error) => {
            write!(out, "{number} ")?;
            push_name_error(error, out)?;
            out.push('\n')
        }
        NameFault::NoMemory => out.push_str("NoMemory\n"),
    }
}

/// What declarations are resolved to over a signature. It promises nothing, so that nothing of `resolve` is carried on.
fn resolved(
    alloc: Global,
    signature: Signature,
    decls: &[Declaration],
) -> Result<Resolved, NameFault>
    requires { HaveBoundLines (map declaration_data decls.now) }
{
    resolve(alloc, signature, decls)
}

/// Writes what declarations are resolved to over a signature.
fn push_resolved(
    alloc: Global,
    signature: Signature,
    decls: &[Declaration],
    out: &mut String,
) -> Result<(), AllocError>
    requires { HaveBoundLines (map declaration_data decls.now) }
{
    match resolved(alloc, signature, decls) {
        Ok(found) => push_program(&found.program, out),
        Err(fault) => push_fault(&fault, out),
    }
}

/// Writes whether names mean something over a signature.
fn push_names(
    alloc: Global,
    signature: &Signature,
    decls: &[Declaration],
    out: &mut String,
) -> Result<(), AllocError> {
    match names_of(alloc, signature, decls) {
        Ok(_names) => out.push_str("names\n"),
        Err(fault) => push_fault(&fault, out),
    }
}

/// Writes the answer over a signature.
fn push_answer(
    alloc: Global,
    question: Question,
    signature: Signature,
    decls: &[Declaration],
    out: &mut String,
) -> Result<(), AllocError>
    requires { HaveBoundLines (map declaration_data decls.now) }
{
    match question {
        Question::Program => push_resolved(alloc, signature, decls, out),
        Question::Names => push_names(alloc, &signature, decls, out),
    }
}

/// Writes the answer about declarations.
fn push_answer_about(
    alloc: Global,
    question: Question,
    decls: &[Declaration],
    out: &mut String,
) -> Result<(), AllocError>
    requires { HaveBoundLines (map declaration_data decls.now) }
{
    match signature_of(alloc, decls) {
        Ok(signature) => push_answer(alloc, question, signature, decls, out),
        Err(_error) => out.push_str("no signature\n"),
    }
}

/// The answer about declarations.
fn answer_about(
    alloc: Global,
    question: Question,
    decls: &[Declaration],
) -> Result<String, AllocError>
    requires { HaveBoundLines (map declaration_data decls.now) }
{
    let mut out = String::new(alloc);
    push_answer_about(alloc, question, decls, &mut out)?;
    Ok(out)
}

/// The answer about the declarations of a text.
pub fn answer_to(alloc: Global, question: Question, text: &str) -> Result<String, AllocError> {
    match &declarations(alloc, text) {
        Ok(decls) => answer_about(alloc, question, decls.as_slice()),
        Err(_) => String::from_str(alloc, "no declarations\n"),
    }
}
