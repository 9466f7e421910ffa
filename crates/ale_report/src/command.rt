//! What is written for a command.
ghost use Rattle.std.specs.Prelude.{◌≡◌, ◌<◌, ◌^◌, ◌++◌, codes, [], OnOk, IfOk, length, string_bytes};
ghost use Rattle.std.specs.Fmt.{decimal};
ghost use Rattle.ale_declared.specs.Lists.{Has};
ghost use Rattle.ale_hierarchy.specs.Order.{hierarchy};
ghost use Rattle.ale_graph.specs.Structures.{count};
ghost use Rattle.ale_logic.specs.declared.answer.Answer.{Answer};
ghost use Rattle.ale_logic.specs.Descriptions.{description, FitsDescription};
ghost use Rattle.ale_search.specs.Solutions.{IsAnswer};
ghost use Rattle.ale_print.specs.Texts as print;
ghost use Rattle.ale_report.specs.Parts.{searched, rooted, written, answer_text, answers_text, ending_text, command_text};
ghost use Rattle.ale_report.specs.Printing.{IsPrinted};
ghost use Rattle.ale_report.specs.Written.{AreCountable};

use crate::root::rooted;
use ale_logic::{Answer, Desc};
use ale_print::{print_answer, visible_texts};
use ale_search::{find, search_law};
use ale_signature::Signature;
use std::alloc::{AllocError, Global};

// The graph of an answer and the structure that is written of it have one text.
fn same_text(sig: &Signature, answer: &Answer)
    requires { IsPrinted (hierarchy sig.now) answer.now }
    ensures { print.answer_text sig.now [] (rooted answer.now.closed) ≡ print.answer_text sig.now [] (written answer.now) }
{
    visible_texts();
}

// Writes an answer with its number.
fn push_answer(
    alloc: Global,
    out: &mut String,
    sig: &Signature,
    number: usize,
    answer: Answer,
) -> Result<(), AllocError>
    requires { IsPrinted (hierarchy sig.now) answer }
    ensures text { OnOk result (string_bytes out.new ≡ string_bytes out.old ++ answer_text sig.now number answer) }
    ensures countable { OnOk result (count answer.closed.graph < 2 ^ 64) }
{
    same_text(sig, &answer);
    let _ = answer.closed.graph.nodes.as_slice().len();
    let graph = rooted(alloc, answer.closed)?;
    let text = print_answer(alloc, sig, &graph, &[])?;
    write!(out, "answer {number}\n")?;
    out.push_str(text.as_str())
}

// Writes the answers, each with its number.
fn push_answers(
    alloc: Global,
    out: &mut String,
    sig: &Signature,
    answers: Vec<Answer>,
) -> Result<(), AllocError>
    requires { (c : Answer) → Has answers.items c → IsPrinted (hierarchy sig.now) c }
    ensures text { OnOk result (string_bytes out.new ≡ string_bytes out.old ++ answers_text sig.now 1 answers.items) }
    ensures countable { OnOk result (AreCountable answers.items) }
{
    let count = answers.len();
    let mut rest = answers;
    rest.reverse();
    while let Some(answer) = rest.pop() {
        push_answer(alloc, out, sig, count - rest.len(), answer)?;
    }
    Ok(())
}

// Writes the line that ends a command's part.
fn push_ending(
    out: &mut String,
    answers: usize,
    visits: u64,
    finished: bool,
) -> Result<(), AllocError>
    ensures { OnOk result (string_bytes out.new ≡ string_bytes out.old ++ ending_text answers visits finished) }
{
    let word = if finished { "complete" } else { "unfinished" };
    write!(out, "answers {answers}, visits {visits}, {word}\n")
}

/// Searches for what satisfies the description, whose variables have slots below `slots`, with at most so many visits,
/// and writes the part of the command with this number. Tells whether the search ended within the budget. What is written
/// of an answer is what is visible of its graph from the node at which the description holds.
pub fn push_command(
    alloc: Global,
    out: &mut String,
    sig: &Signature,
    number: usize,
    desc: &Desc,
    slots: usize,
    budget: u64,
) -> Result<bool, AllocError>
    requires { FitsDescription (hierarchy sig.now) slots (description desc.now) }
    ensures text { OnOk result (string_bytes out.new ≡ string_bytes out.old ++ command_text sig.now number (searched sig.now budget slots (description desc.now))) }
    ensures finished { IfOk result (λ b. b ≡ (searched sig.now budget slots (description desc.now)).finished) }
    ensures countable { OnOk result (AreCountable (searched sig.now budget slots (description desc.now)).answers) }
{
    search_law();
    let _ = sig.type_count();
    let found = find(alloc, sig, desc, slots, budget)?;
    let answers = found.answers.into_vec();
    let count = answers.len();
    write!(out, "command {number}: mgsat\n")?;
    push_answers(alloc, out, sig, answers)?;
    push_ending(out, count, found.visits, found.finished)?;
    Ok(found.finished)
}
