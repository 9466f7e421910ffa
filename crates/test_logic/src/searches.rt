//! What searches for descriptions find, and the part of the output that a command has.
ghost use Rattle.ale_hierarchy.specs.Order.{hierarchy};
ghost use Rattle.ale_logic.specs.Descriptions.{description, FitsDescription};

use crate::graphs::push_graph;
use ale_logic::{Answer, Desc};
use ale_report::push_command;
use ale_search::{Found, find};
use ale_signature::Signature;
use std::alloc::{AllocError, Global};

/// Writes the node of a variable.
fn push_slot(slot: &Option<usize>, out: &mut String) -> Result<(), AllocError> {
    match slot {
        Some(node) => write!(out, "slot at {node}\n"),
        None => out.push_str("slot unbound\n"),
    }
}

/// Writes an answer of a search: its structure, and the nodes of the variables.
fn push_answer(sig: &Signature, answer: &Answer, out: &mut String) -> Result<(), AllocError> {
    out.push_str("answer\n")?;
    push_graph(sig, &answer.closed.graph, out)?;
    for slot in answer.env.as_slice() {
        push_slot(slot, out)?;
    }
    Ok(())
}

/// Writes what a search found.
fn push_found(sig: &Signature, found: &Found, out: &mut String) -> Result<(), AllocError> {
    for answer in found.answers.as_slice() {
        push_answer(sig, answer, out)?;
    }
    let visits = found.visits;
    let word = if found.finished {
        "complete"
    } else {
        "unfinished"
    };
    write!(out, "{visits} visits, {word}\n")
}

/// Writes what a search for a description finds.
pub fn push_search(
    alloc: Global,
    sig: &Signature,
    desc: &Desc,
    slots: usize,
    budget: u64,
    out: &mut String,
) -> Result<(), AllocError>
    requires { FitsDescription (hierarchy sig.now) slots (description desc.now) }
{
    let found = find(alloc, sig, desc, slots, budget)?;
    push_found(sig, &found, out)
}

/// Writes a line, then the part of the command with the number 7 that asks for what is described, and whether its
/// search ended within the budget.
pub fn push_part(
    alloc: Global,
    sig: &Signature,
    desc: &Desc,
    slots: usize,
    budget: u64,
    out: &mut String,
) -> Result<(), AllocError>
    requires { FitsDescription (hierarchy sig.now) slots (description desc.now) }
{
    out.push_str("before\n")?;
    let ended = push_command(alloc, out, sig, 7, desc, slots, budget)?;
    out.push_str(if ended { "ended\n" } else { "did not end\n" })
}
