//! Names as they are written.
ghost use Rattle.std.specs.Prelude.{◌≡◌, OnOk, IfOk, encode_utf8_all, string_bytes};
ghost use Rattle.std.specs.Str.{chars};
ghost use Rattle.unicode_ident.specs.Ident.{is_xid_continue};
ghost use Rattle.ale_declared.specs.Lists.{every};
ghost use Rattle.ale_token.specs.Pieces.{starts_atom};
ghost use Rattle.ale_token.specs.Names.{doubled, in_quotes};
ghost use Rattle.ale_print.specs.Naming.{is_atom, printed_name};
ghost use Rattle.ale_print.specs.Appending.{Appends};

use std::alloc::{AllocError, Global};
use unicode_ident::{is_xid_continue, is_xid_start};

// Whether a plain name may begin with this.
fn starts_atom(c: char) -> bool
    ensures { result ≡ starts_atom c }
{
    is_xid_start(c) && !(c >= 'A' && c <= 'Z')
}

// Whether all of these may continue a name.
fn continues(rest: &[char]) -> bool
    ensures { result ≡ every is_xid_continue rest.now }
{
    for c in rest {
        if !is_xid_continue(*c) {
            return false;
        }
    }
    true
}

// Whether these are the characters of an atom.
fn is_atom(name: &[char]) -> bool
    ensures { result ≡ is_atom name.now }
{
    match name {
        [] => false,
        [first, rest @ ..] => starts_atom(*first) && continues(rest),
    }
}

// Writes the characters, with two quotes for each.
fn push_doubled(out: &mut String, name: &[char]) -> Result<(), AllocError>
    ensures { OnOk result (Appends out.old out.new (doubled name.now)) }
{
    for c in name {
        if *c == '\'' {
            out.push('\'')?;
        }
        out.push(*c)?;
    }
    Ok(())
}

// Writes the name between quotes.
fn push_in_quotes(out: &mut String, name: &[char]) -> Result<(), AllocError>
    ensures { OnOk result (Appends out.old out.new (in_quotes name.now)) }
{
    out.push('\'')?;
    push_doubled(out, name)?;
    out.push('\'')
}

// Writes the name.
pub(crate) fn push_name(alloc: Global, out: &mut String, name: &str) -> Result<(), AllocError>
    ensures { OnOk result (Appends out.old out.new (printed_name (chars name.now))) }
{
    let characters: Vec<char> = name.chars().collect(alloc)?;
    if is_atom(characters.as_slice()) {
        out.push_str(name)
    } else {
        push_in_quotes(out, characters.as_slice())
    }
}

/// The name as it is written: plain where it reads as an atom of the language, else between quotes, with two
/// quotes for each.
pub fn print_name(alloc: Global, name: &str) -> Result<String, AllocError>
    ensures value { IfOk result (λ text. chars (string_bytes text) ≡ printed_name (chars name.now)) }
    ensures bytes { IfOk result (λ text. string_bytes text ≡ encode_utf8_all (printed_name (chars name.now))) }
{
    let mut out = String::new(alloc);
    push_name(alloc, &mut out, name)?;
    Ok(out)
}
