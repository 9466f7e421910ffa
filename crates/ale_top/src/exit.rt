//! The exit status of the process.
ghost use Rattle.std.specs.Prelude.{◌≡◌, ◌≢◌, Some, IfOk, IfErr, drop, map, string_bytes};
ghost use Rattle.std.specs.IoError.{error_kind};
ghost use Rattle.ale_top.specs.Exits.{Exits};
ghost use Rattle.ale_top.specs.Jobs.{Job, job_of};
ghost use Rattle.ale_top.specs.Runs.{default_budget};

use crate::program::run;
use crate::status::Status;
use ale_base::{Files, Sink};
use std::alloc::Global;
use std::io::{self, ErrorKind};

/// The exit status where the system refuses the arguments for another cause than that memory ran out.
const NO_WORDS: u8 = 9;

/// The words after the program's name.
fn after_name(arguments: &[String]) -> &[String]
    ensures { result.now ≡ drop 1 arguments.now }
{
    match arguments {
        [_, words @ ..] => words,
        [] => arguments,
    }
}

/// The exit status where there are no arguments, by the kind of the system's error.
fn without_words(kind: ErrorKind) -> u8
    ensures memory { kind ≡ ErrorKind.OutOfMemory → result ≡ 7 }
    ensures other { kind ≢ ErrorKind.OutOfMemory → result ≡ 9 }
{
    if kind == ErrorKind::OutOfMemory {
        Status::NoMemory.number()
    } else {
        NO_WORDS
    }
}

/// Runs the words after the program's name, the first of the process's arguments, and answers the exit status: the number
/// of the status of the run; where the system gives no arguments, 7 if memory ran out, and else 9.
pub fn exit_number<F: Files, W: Sink>(
    alloc: Global,
    arguments: io::Result<Vec<String>>,
    files: &mut F,
    out: &mut W,
) -> u8
    requires { IfOk arguments (λ v. (job : Job) → job_of (map string_bytes (drop 1 v.items)) ≡ Some job
        → F.may_choose files.old job.grammar × F.may_choose files.old job.commands) }
    ensures run { IfOk arguments (λ v. Exits result (map string_bytes (drop 1 v.items)) default_budget (F.content files.old)
        (record { before = F.faults files.old; after = F.faults files.new }) (record { before = W.faults out.old; after = W.faults out.new })
        (W.written out.old) (W.written out.new)) }
    ensures no_memory { IfErr arguments (λ e. error_kind e ≡ ErrorKind.OutOfMemory → result ≡ 7) }
    ensures no_words { IfErr arguments (λ e. error_kind e ≢ ErrorKind.OutOfMemory → result ≡ 9) }
    ensures untouched { IfErr arguments (λ _. (F.faults files.new ≡ F.faults files.old) × (W.written out.new ≡ W.written out.old)
        × (W.faults out.new ≡ W.faults out.old)) }
{
    match arguments {
        Ok(arguments) => run(alloc, after_name(arguments.as_slice()), files, out).number(),
        Err(error) => without_words(error.kind()),
    }
}
