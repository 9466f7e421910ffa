//! The lines of refusals and of directives that are passed over.
ghost use Rattle.std.specs.Prelude.{◌≡◌, ◌++◌, [], ◌∷◌, codes, OnOk, map, encode_utf8_all, string_bytes};
ghost use Rattle.std.specs.Fmt.{decimal};
ghost use Rattle.std.specs.Str.{chars, bytes_eq};
ghost use Rattle.ale_load.specs.Views.{passed_data};
ghost use Rattle.ale_top.specs.Lines.{name_text, names_end, token_text, form_text, signature_text, grammar_line, fault_name, fault_end, arity_end, grammar_names, command_names, command_line, directive_text, passed_front, passed_line, passed_text, left_out_front};

use ale_form::FormError;
use ale_load::{CommandError, GrammarError, Passed};
use ale_print::print_name;
use ale_signature::SigError;
use ale_text::Text;
use ale_token::TokenError;
use ale_vocabulary::NameError;
use std::alloc::{AllocError, Global};

// Writes a name as it reads in the language.
fn push_name(alloc: Global, out: &mut String, name: &Text) -> Result<(), AllocError>
    ensures { OnOk result (string_bytes out.new ≡ string_bytes out.old ++ name_text name.now) }
{
    let text = print_name(alloc, name.as_str())?;
    out.push_str(text.as_str())
}

// Ends a line that names a type or a feature.
fn push_one(alloc: Global, out: &mut String, word: &str, name: &Text) -> Result<(), AllocError>
    ensures { OnOk result (string_bytes out.new ≡ string_bytes out.old ++ (word.now ++ names_end (name.now ∷ []))) }
{
    write!(out, "{word} ")?;
    push_name(alloc, out, name)?;
    out.push_str("\n")
}

// Ends a line that names two.
fn push_two(
    alloc: Global,
    out: &mut String,
    word: &str,
    first: &Text,
    second: &Text,
) -> Result<(), AllocError>
    ensures { OnOk result (string_bytes out.new ≡ string_bytes out.old ++ (word.now ++ names_end (first.now ∷ second.now ∷ []))) }
{
    write!(out, "{word} ")?;
    push_name(alloc, out, first)?;
    push_one(alloc, out, "", second)
}

// Ends a line that names three.
fn push_three(
    alloc: Global,
    out: &mut String,
    word: &str,
    first: &Text,
    second: &Text,
    third: &Text,
) -> Result<(), AllocError>
    ensures { OnOk result (string_bytes out.new ≡ string_bytes out.old ++ (word.now ++ names_end (first.now ∷ second.now ∷ third.now ∷ []))) }
{
    write!(out, "{word} ")?;
    push_name(alloc, out, first)?;
    push_two(alloc, out, "", second, third)
}

// Ends the line of two types without a join, and of the first two that could be it.
fn push_four(
    alloc: Global,
    out: &mut String,
    word: &str,
    first: &Text,
    second: &Text,
    third: &Text,
    fourth: &Text,
) -> Result<(), AllocError>
    ensures { OnOk result (string_bytes out.new ≡ string_bytes out.old ++ (word.now ++ names_end (first.now ∷ second.now ∷ third.now ∷ fourth.now ∷ []))) }
{
    write!(out, "{word} ")?;
    push_name(alloc, out, first)?;
    push_three(alloc, out, "", second, third, fourth)
}

// Ends the line of a signature that is refused.
fn push_signature(alloc: Global, out: &mut String, error: &SigError) -> Result<(), AllocError>
    ensures { OnOk result (string_bytes out.new ≡ string_bytes out.old ++ signature_text error.now) }
{
    match error {
        SigError::TooManyTypes => out.push_str("1 TooManyTypes\n"),
        SigError::TooManyFeatures => out.push_str("2 TooManyFeatures\n"),
        SigError::SubCycle(t) => push_one(alloc, out, "3 SubCycle", t),
        SigError::NoJoin(a, b, c, d) => push_four(alloc, out, "4 NoJoin", a, b, c, d),
        SigError::TwoIntros(f, a, b) => push_three(alloc, out, "5 TwoIntros", f, a, b),
        SigError::ValueClash(t, f) => push_two(alloc, out, "6 ValueClash", t, f),
        SigError::Loop(t) => push_one(alloc, out, "7 Loop", t),
        SigError::ExtNotMaximal(t) => push_one(alloc, out, "8 ExtNotMaximal", t),
        SigError::FillTooLarge(t) => push_one(alloc, out, "9 FillTooLarge", t),
        SigError::NoMemory => Ok(()),
    }
}

// Writes the line of a text that has no tokens, or whose tokens lack an end.
fn push_token(out: &mut String, error: TokenError) -> Result<(), AllocError>
    ensures { OnOk result (string_bytes out.new ≡ string_bytes out.old ++ token_text error) }
{
    match error {
        TokenError::BadToken(place) => {
            write!(out, "grammar refused: token 1 BadToken at {place}\n")
        }
        TokenError::NoEnd(place) => write!(out, "grammar refused: token 2 NoEnd at {place}\n"),
        TokenError::NoMemory => Ok(()),
    }
}

// Writes the line of a declaration that is refused.
fn push_form(out: &mut String, number: usize, error: &FormError) -> Result<(), AllocError>
    ensures { OnOk result (string_bytes out.new ≡ string_bytes out.old ++ form_text number error.now) }
{
    match error {
        FormError::TooDeep => {
            write!(
                out,
                "grammar refused: form 1 TooDeep declaration {number}\n"
            )
        }
        FormError::OutOfProfile(word) => push_left_out(out, number, word),
        FormError::NotADeclaration => {
            write!(
                out,
                "grammar refused: form 3 NotADeclaration declaration {number}\n"
            )
        }
        FormError::NoMemory => Ok(()),
    }
}

// Writes what stands before a word that is left out.
fn push_left_out_front(out: &mut String, number: usize) -> Result<(), AllocError>
    ensures { OnOk result (string_bytes out.new ≡ string_bytes out.old ++ left_out_front number) }
{
    write!(
        out,
        "grammar refused: form 2 OutOfProfile declaration {number} "
    )
}

// Writes the line of a declaration with a word that is left out.
fn push_left_out(out: &mut String, number: usize, word: &Text) -> Result<(), AllocError>
    ensures { OnOk result (string_bytes out.new ≡ string_bytes out.old ++ (left_out_front number ++ encode_utf8_all word.now ++ codes "\n")) }
{
    push_left_out_front(out, number)?;
    out.push_str(word.as_str())?;
    out.push_str("\n")
}

// Writes the number and the name of a fault of names.
fn push_fault_name(out: &mut String, error: &NameError) -> Result<(), AllocError>
    ensures { OnOk result (string_bytes out.new ≡ string_bytes out.old ++ fault_name error.now) }
{
    match error {
        NameError::UnknownType(_) => out.push_str("1 UnknownType"),
        NameError::UnknownFeature(_) => out.push_str("2 UnknownFeature"),
        NameError::UnknownMacro(_, _) => out.push_str("3 UnknownMacro"),
        NameError::MacroTwice(_, _) => out.push_str("4 MacroTwice"),
        NameError::MacroCycle(_, _) => out.push_str("5 MacroCycle"),
        NameError::TooBig => out.push_str("6 TooBig"),
        NameError::UnknownPredicate(_, _) => out.push_str("7 UnknownPredicate"),
        NameError::NoListTypes => out.push_str("8 NoListTypes"),
        NameError::TwoHeads(_) => out.push_str("9 TwoHeads"),
        NameError::NoDaughter(_) => out.push_str("10 NoDaughter"),
        NameError::BadDirective(_) => out.push_str("11 BadDirective"),
    }
}

// Ends a line that carries one name.
fn push_name_end(alloc: Global, out: &mut String, name: &Text) -> Result<(), AllocError>
    ensures { OnOk result (string_bytes out.new ≡ string_bytes out.old ++ names_end (name.now ∷ [])) }
{
    out.push_str(" ")?;
    push_name(alloc, out, name)?;
    out.push_str("\n")
}

// Ends a line that carries a macro or a predicate.
fn push_arity_end(
    alloc: Global,
    out: &mut String,
    name: &Text,
    arity: usize,
) -> Result<(), AllocError>
    ensures { OnOk result (string_bytes out.new ≡ string_bytes out.old ++ arity_end name.now arity) }
{
    out.push_str(" ")?;
    push_name(alloc, out, name)?;
    write!(out, "/{arity}\n")
}

// Writes what the fault carries, and ends the line.
fn push_fault_end(alloc: Global, out: &mut String, error: &NameError) -> Result<(), AllocError>
    ensures { OnOk result (string_bytes out.new ≡ string_bytes out.old ++ fault_end error.now) }
{
    match error {
        NameError::UnknownType(name)
        | NameError::UnknownFeature(name)
        | NameError::TwoHeads(name)
        | NameError::NoDaughter(name)
        | NameError::BadDirective(name) => push_name_end(alloc, out, name),
        NameError::UnknownMacro(name, arity)
        | NameError::MacroTwice(name, arity)
        | NameError::MacroCycle(name, arity)
        | NameError::UnknownPredicate(name, arity) => push_arity_end(alloc, out, name, *arity),
        NameError::TooBig | NameError::NoListTypes => out.push_str("\n"),
    }
}

// Writes why a grammar is refused one of whose declarations has a fault of names.
fn push_grammar_names(
    alloc: Global,
    out: &mut String,
    number: usize,
    error: &NameError,
) -> Result<(), AllocError>
    ensures { OnOk result (string_bytes out.new ≡ string_bytes out.old ++ grammar_names number error.now) }
{
    out.push_str("grammar refused: names ")?;
    push_fault_name(out, error)?;
    write!(out, " declaration {number}")?;
    push_fault_end(alloc, out, error)
}

// Writes why commands are refused one of which has a fault of names.
fn push_command_names(
    alloc: Global,
    out: &mut String,
    number: usize,
    error: &NameError,
) -> Result<(), AllocError>
    ensures { OnOk result (string_bytes out.new ≡ string_bytes out.old ++ command_names number error.now) }
{
    write!(out, "commands refused: 6 Name command {number} names ")?;
    push_fault_name(out, error)?;
    push_fault_end(alloc, out, error)
}

/// Writes why a grammar is refused; nothing where memory ran out.
pub(crate) fn push_grammar_line(
    alloc: Global,
    out: &mut String,
    error: &GrammarError,
) -> Result<(), AllocError>
    ensures { OnOk result (string_bytes out.new ≡ string_bytes out.old ++ grammar_line error.now) }
{
    match error {
        GrammarError::TooLong => out.push_str("grammar refused: file 1 TooLong\n"),
        GrammarError::NotText(place) => {
            write!(out, "grammar refused: file 2 NotText at {place}\n")
        }
        GrammarError::Token(error) => push_token(out, *error),
        GrammarError::Form(number, error) => push_form(out, *number, error),
        GrammarError::NotBuilt(number) => {
            write!(
                out,
                "grammar refused: stage 1 NotBuilt declaration {number}\n"
            )
        }
        GrammarError::Signature(error) => {
            out.push_str("grammar refused: signature ")?;
            push_signature(alloc, out, error)
        }
        GrammarError::Names(number, error) => push_grammar_names(alloc, out, *number, error),
        GrammarError::NoMemory => Ok(()),
    }
}

/// Writes why commands are refused; nothing where memory ran out.
pub(crate) fn push_command_line(
    alloc: Global,
    out: &mut String,
    error: &CommandError,
) -> Result<(), AllocError>
    ensures { OnOk result (string_bytes out.new ≡ string_bytes out.old ++ command_line error.now) }
{
    match error {
        CommandError::TooLong => out.push_str("commands refused: 1 TooLong\n"),
        CommandError::NotText(place) => write!(out, "commands refused: 2 NotText at {place}\n"),
        CommandError::BadToken(place) => write!(out, "commands refused: 3 BadToken at {place}\n"),
        CommandError::NoEnd(place) => write!(out, "commands refused: 4 NoEnd at {place}\n"),
        CommandError::BadCommand(number) => {
            write!(out, "commands refused: 5 BadCommand command {number}\n")
        }
        CommandError::NotBuilt(number) => {
            write!(out, "commands refused: 9 NotBuilt command {number}\n")
        }
        CommandError::Name(number, error) => push_command_names(alloc, out, *number, error),
        CommandError::NoMemory => Ok(()),
    }
}

// Whether the name is this word of ASCII.
fn is_word(name: &Text, word: &str) -> bool
    requires { chars word.now ≡ word.now }
    ensures { result ≡ bytes_eq name.now word.now }
{
    name.as_str() == word
}

// Writes the name of a directive.
#[tactic(auto, using(crate::proofs::Words::dash))]
fn push_directive(alloc: Global, out: &mut String, name: &Text) -> Result<(), AllocError>
    ensures { OnOk result (string_bytes out.new ≡ string_bytes out.old ++ directive_text name.now) }
{
    if is_word(name, "-") {
        return out.push_str("-");
    }
    push_name(alloc, out, name)
}

// Writes what stands before the name of a directive that was passed over.
fn push_passed_front(out: &mut String, number: usize) -> Result<(), AllocError>
    ensures { OnOk result (string_bytes out.new ≡ string_bytes out.old ++ passed_front number) }
{
    write!(out, "passed over: declaration {number} ")
}

// Writes the line of a directive that was passed over.
fn push_passed(alloc: Global, out: &mut String, passed: &Passed) -> Result<(), AllocError>
    ensures { OnOk result (string_bytes out.new ≡ string_bytes out.old ++ passed_line (passed_data passed.now)) }
{
    push_passed_front(out, passed.declaration)?;
    push_directive(alloc, out, &passed.name)?;
    out.push_str("\n")
}

/// Writes a line for each directive that was passed over.
pub(crate) fn push_all_passed(
    alloc: Global,
    out: &mut String,
    passed: &[Passed],
) -> Result<(), AllocError>
    ensures { OnOk result (string_bytes out.new ≡ string_bytes out.old ++ passed_text (map passed_data passed.now)) }
{
    for directive in passed {
        push_passed(alloc, out, directive)?;
    }
    Ok(())
}
