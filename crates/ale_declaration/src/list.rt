//! Lists that are read, and the tests of names.
ghost use Rattle.std.specs.Prelude.{◌≡◌, ◌++◌, IfOk, OnOk};
ghost use Rattle.ale_term.specs.Results.{Gives};
ghost use Rattle.ale_declaration.specs.Distinct.{is_new, with_new};
ghost use Rattle.ale_declaration.specs.Reading.{atoms_at, are_distinct};

use crate::seen::Seen;
use ale_term::{Lexeme, ReadError, add, atoms, is_word};
use ale_text::{Row, Text};
use std::alloc::{AllocError, Global};

/// Appends the others to the items, in order.
pub(crate) fn extend<T: Drop>(items: &mut Vec<T>, others: Vec<T>) -> Result<(), AllocError>
    ensures { OnOk result (items.new.items ≡ items.old.items ++ others.items) }
{
    let mut others = others;
    items.append(&mut others)?;
    Ok(())
}

/// One atom or more in square brackets.
pub(crate) fn some_atoms(
    alloc: Global,
    lexemes: &[Lexeme],
) -> Result<(Row<Text>, &[Lexeme]), ReadError>
    ensures { Gives (λ p. (p.0, p.1.now)) result (atoms_at lexemes.now) }
{
    let (names, behind) = atoms(alloc, lexemes)?;
    if names.as_slice().is_empty() {
        return Err(ReadError::NotTheForm);
    }
    Ok((names, behind))
}

/// Adds the name to those that came before, unless it is `_`; whether it is new, which `_` always is.
#[tactic(auto, using(crate::proofs::Words::word_rules))]
fn add_new(alloc: Global, seen: &mut Seen, name: &Text) -> Result<bool, AllocError>
    ensures new { IfOk result (λ new. new ≡ is_new seen.old name.now) }
    ensures seen { OnOk result (seen.new ≡ with_new seen.old name.now) }
{
    if is_word(name, "_") {
        return Ok(true);
    }
    let known = seen.has(name);
    seen.add(alloc, name)?;
    Ok(!known)
}

/// Whether no name stands twice, apart from `_`.
pub(crate) fn are_distinct(alloc: Global, names: &[Text]) -> Result<bool, AllocError>
    ensures { IfOk result (λ distinct. distinct ≡ are_distinct names.now) }
{
    let mut seen = Seen::new(alloc);
    let mut rest = names;
    while let [name, others @ ..] = rest {
        if !add_new(alloc, &mut seen, name)? {
            return Ok(false);
        }
        rest = others;
    }
    Ok(true)
}
