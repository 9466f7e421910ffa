//! The call that does all that the program does.
ghost use Rattle.std.specs.Prelude.{◌≡◌, ◌≢◌, ◌↔◌, ◌⊎◌, ℕ, List, [], ◌∷◌, Some, None, IfOk, IfErr, IsErrOf, map, not, string_bytes};
ghost use Rattle.std.specs.Option.{option_map};
ghost use Rattle.ale_base.specs.Faults.{ExactlyWhereRose};
ghost use Rattle.ale_top.specs.Jobs.{Job, job_of, begins_with_dash, usage};
ghost use Rattle.ale_top.specs.Named.{job_named};
ghost use Rattle.ale_top.specs.Meanings.{Sound, Complete, Subsumed, Enough, Budgeted, Fixed};
ghost use Rattle.ale_top.specs.Output.{Output};
ghost use Rattle.ale_top.specs.Reports.{IsInputOf, Reached, unread};
ghost use Rattle.ale_top.specs.Runs.{Wrote, IsEarly, IsOwed, IsExactly, IsAnswered, IsAcceptedGrammar, AreAccepted, Finishes, Unfinishes, StatedGrammar, Stated, RanOnSome, OfEachIn, OfEachCommand, default_budget};

use crate::running::{Input, report_on};
use crate::status::Status;
use ale_base::{Files, ReadError, Sink, read_all, write_all};
use ale_load::{FILE_LIMIT, commands_law, load_law};
use ale_report::written_law;
use ale_search::search_law;
use std::alloc::Global;

const USAGE: &str = "usage: ale [--budget N] GRAMMAR COMMANDS | ale [--budget N] --made N\n";

/// How many visits a search may make.
#[tactic(auto, unfolding(crate::specs::Runs::default_budget))]
fn default_budget() -> u64
    ensures { result ≡ default_budget }
{
    1_000_000
}

/// Whether a word can be the name of a file.
fn is_name(word: &str) -> bool
    ensures { result ≡ not (begins_with_dash word.now) }
{
    match word.as_bytes() {
        [b'-', ..] => false,
        _ => true,
    }
}

/// The names of the grammar and of the commands.
#[derive(Clone, Copy)]
struct Names<'a> {
    grammar: &'a str,
    commands: &'a str,
}

/// The names of the job for which the words stand.
fn names_of<'a>(words: &'a [String]) -> Option<Names<'a>>
    ensures { option_map job_named result ≡ job_of (map string_bytes words.now) }
{
    match words {
        [grammar, commands] => {
            let grammar = grammar.as_str();
            let commands = commands.as_str();
            if is_name(grammar) && is_name(commands) {
                Some(Names { grammar, commands })
            } else {
                None
            }
        }
        _ => None,
    }
}

/// What the reading of a file comes to: a file that is too long is read as such, and any other error is the status with
/// which the run ends.
fn unread(error: ReadError) -> Result<Input, Status>
    ensures { result ≡ unread error }
{
    match error {
        ReadError::TooLong => Ok(Input::TooLong),
        ReadError::Failed => Err(Status::ReadFault),
        ReadError::NoMemory => Err(Status::NoMemory),
    }
}

/// Reads a file; the error is the status with which the run ends.
fn read_input<F: Files>(alloc: Global, files: &mut F, name: &str) -> Result<Input, Status>
    requires { F.may_choose files.old name.now }
    ensures input { IfOk result (IsInputOf (F.content files.old name.now)) }
    ensures content { F.content files.new ≡ F.content files.old }
    ensures names { (other : List ℕ) → F.may_choose files.new other ↔ F.may_choose files.old other }
    ensures faults { ExactlyWhereRose (F.faults files.old) (F.faults files.new) (IsErrOf result Status.ReadFault) }
    ensures error { IfErr result IsEarly }
{
    match read_all(alloc, files, name, FILE_LIMIT) {
        Ok(bytes) => Ok(Input::Whole(bytes)),
        Err(error) => unread(error),
    }
}

/// Writes the text of a report, and answers how the run ended.
fn write_text<W: Sink>(out: &mut W, status: Status, text: &[u8]) -> Status
    requires { IsOwed status }
    ensures wrote { Wrote (status, text.now) result (W.written out.old) (W.written out.new) }
    ensures faults { ExactlyWhereRose (W.faults out.old) (W.faults out.new) (result ≡ Status.WriteFault) }
    ensures other { (result ≡ status) ⊎ (result ≡ Status.WriteFault) }
{
    match write_all(out, text) {
        Ok(()) => status,
        Err(_) => Status::WriteFault,
    }
}

/// Runs the job of two named files.
fn run_job<F: Files, W: Sink>(
    alloc: Global,
    names: &Names,
    files: &mut F,
    out: &mut W,
    budget: u64,
) -> Status
    requires grammar { F.may_choose files.old names.now.grammar.now }
    requires commands { F.may_choose files.old names.now.commands.now }
    ensures reached { Reached (F.content files.old) (job_named names.now) budget result (W.written out.old) (W.written out.new) }
    ensures read_fault { ExactlyWhereRose (F.faults files.old) (F.faults files.new) (result ≡ Status.ReadFault) }
    ensures write_fault { ExactlyWhereRose (W.faults out.old) (W.faults out.new) (result ≡ Status.WriteFault) }
    ensures in_form { result ≢ Status.Words }
    ensures unread { result ≡ Status.ReadFault → (W.written out.new ≡ W.written out.old) × (W.faults out.new ≡ W.faults out.old) }
{
    let grammar = match read_input(alloc, files, names.grammar) {
        Ok(grammar) => grammar,
        Err(status) => return status,
    };
    let commands = match read_input(alloc, files, names.commands) {
        Ok(commands) => commands,
        Err(status) => return status,
    };
    match report_on(alloc, &grammar, &commands, budget) {
        Ok(report) => write_text(out, report.status, report.text.as_bytes()),
        Err(_) => Status::NoMemory,
    }
}

/// Runs the job for which the words stand, or writes the usage line.
fn run_words<F: Files, W: Sink>(
    alloc: Global,
    words: &[String],
    files: &mut F,
    out: &mut W,
) -> Status
    requires { (job : Job) → job_of (map string_bytes words.now) ≡ Some job
        → F.may_choose files.old job.grammar × F.may_choose files.old job.commands }
    ensures usage { job_of (map string_bytes words.now) ≡ None
        → Wrote (Status.Words, usage) result (W.written out.old) (W.written out.new) }
    ensures words { IsExactly result Status.Words (job_of (map string_bytes words.now) ≡ None) }
    ensures files_stay { job_of (map string_bytes words.now) ≡ None → F.faults files.new ≡ F.faults files.old }
    ensures job { (job : Job) → job_of (map string_bytes words.now) ≡ Some job
        → Reached (F.content files.old) job default_budget result (W.written out.old) (W.written out.new) }
    ensures read_fault { ExactlyWhereRose (F.faults files.old) (F.faults files.new) (result ≡ Status.ReadFault) }
    ensures write_fault { ExactlyWhereRose (W.faults out.old) (W.faults out.new) (result ≡ Status.WriteFault) }
    ensures unread { result ≡ Status.ReadFault → (job_of (map string_bytes words.now) ≢ None)
        × (W.written out.new ≡ W.written out.old) × (W.faults out.new ≡ W.faults out.old) }
{
    match names_of(words) {
        None => write_text(out, Status::Words, USAGE.as_bytes()),
        Some(names) => run_job(alloc, &names, files, out, default_budget()),
    }
}

/// Runs the job for which the words stand: reads the grammar and the commands, and writes what is defined.
/// The words are those of the command line without the program's name.
pub fn run<F: Files, W: Sink>(alloc: Global, words: &[String], files: &mut F, out: &mut W) -> Status
    // Each name of the job may be chosen, and so no other name is.
    requires { (job : Job) → job_of (map string_bytes words.now) ≡ Some job
        → F.may_choose files.old job.grammar × F.may_choose files.old job.commands }

    // Words that stand for no job get the usage line, and no file is touched.
    ensures usage { job_of (map string_bytes words.now) ≡ None
        → Wrote (Status.Words, usage) result (W.written out.old) (W.written out.new) }
    ensures words { IsExactly result Status.Words (job_of (map string_bytes words.now) ≡ None) }
    ensures files_stay { job_of (map string_bytes words.now) ≡ None → F.faults files.new ≡ F.faults files.old }

    // A job is run of some texts, which are those that its files are stated to hold: it writes their defined output, each
    // status has its cause, and the text of each answer fixes the structure that is written.
    ensures job { (job : Job) → job_of (map string_bytes words.now) ≡ Some job
        → RanOnSome (F.content files.old) job default_budget result (W.written out.old) (W.written out.new) }

    // So of texts that are stated: a job writes their defined output, with its status.
    ensures output { (g c : List ℕ) → Stated (map string_bytes words.now) (F.content files.old) g c
        → (s : Status) (text : List ℕ) → Output g c default_budget s text
        → Wrote (s, text) result (W.written out.old) (W.written out.new) }
    ensures some { (g c : List ℕ) → (s : Status) × ((text : List ℕ) × Output g c default_budget s text) }
    ensures one { (g c : List ℕ) (s t : Status) (x y : List ℕ) → Output g c default_budget s x → Output g c default_budget t y
        → (s ≡ t) × (x ≡ y) }

    // Why each status comes. Whether the grammar is refused turns on its bytes alone.
    ensures grammar { (g : List ℕ) → StatedGrammar (map string_bytes words.now) (F.content files.old) g
        → IsExactly result Status.Grammar (IsAcceptedGrammar g → ⊥) }
    ensures commands { (g c : List ℕ) → Stated (map string_bytes words.now) (F.content files.old) g c
        → IsExactly result Status.Commands (IsAcceptedGrammar g × (AreAccepted g c → ⊥)) }
    ensures done { (g c : List ℕ) → Stated (map string_bytes words.now) (F.content files.old) g c
        → IsExactly result Status.Done (Finishes g c default_budget) }
    ensures unfinished { (g c : List ℕ) → Stated (map string_bytes words.now) (F.content files.old) g c
        → IsExactly result Status.Unfinished (Unfinishes g c default_budget) }
    ensures read_fault { ExactlyWhereRose (F.faults files.old) (F.faults files.new) (result ≡ Status.ReadFault) }
    ensures write_fault { ExactlyWhereRose (W.faults out.old) (W.faults out.new) (result ≡ Status.WriteFault) }

    // A fault of the files comes only of words that stand for a job, and before the sink is called.
    ensures unread { result ≡ Status.ReadFault → (job_of (map string_bytes words.now) ≢ None)
        × (W.written out.new ≡ W.written out.old) × (W.faults out.new ≡ W.faults out.old) }

    // What was written of an answer is the visible part of a solution, and its text fixes it.
    ensures visible { (g c : List ℕ) → Stated (map string_bytes words.now) (F.content files.old) g c
        → IsAnswered result → OfEachIn g c default_budget Fixed }

    // What the answers mean, whatever the texts.
    ensures sound { OfEachCommand default_budget Sound }
    ensures complete { OfEachCommand default_budget Complete }
    ensures subsumed { OfEachCommand default_budget Subsumed }
    ensures enough { OfEachCommand default_budget (Enough default_budget) }
    ensures budgeted { OfEachCommand default_budget (Budgeted default_budget) }
{
    search_law();
    load_law();
    commands_law();
    written_law();
    run_words(alloc, words, files, out)
}
