//! Lists that are read.
ghost use Rattle.std.specs.Prelude.{◌≡◌, Some, [], ◌∷◌, ◌++◌, OnOk, length};
ghost use Rattle.ale_term.specs.declared.symbol.Symbol.TheVariants.{Comma};
ghost use Rattle.ale_term.specs.Results.{Gives};
ghost use Rattle.ale_term.specs.Reading.{more_at, list_at, atom_at};

use crate::error::ReadError;
use crate::lexeme::Lexeme;
use crate::place::{atom_at, past};
use crate::symbol::Symbol;
use ale_text::{Row, Text};
use std::alloc::{AllocError, Global};

/// Appends the item to the others.
pub fn add<T: Drop>(items: &mut Vec<T>, item: T) -> Result<(), AllocError>
    ensures { OnOk result (items.new.items ≡ items.old.items ++ item ∷ []) }
{
    items.push(item)?;
    Ok(())
}

/// The first item and the others, in order.
///
/// # Errors
///
/// `NoMemory` where memory runs out.
pub fn joined<T: Drop>(alloc: Global, first: T, others: Vec<T>) -> Result<Vec<T>, ReadError>
    ensures { Gives (λ v. v.items) result (Some (first ∷ others.items)) }
{
    let mut others = others;
    let mut all = Vec::new(alloc);
    add(&mut all, first)?;
    all.append(&mut others)?;
    Ok(all)
}

/// An atom.
fn atom(alloc: Global, lexemes: &[Lexeme]) -> Result<(Text, &[Lexeme]), ReadError>
    ensures { Gives (λ p. (p.0, p.1.now)) result (atom_at lexemes.now) }
{
    let (name, behind) = atom_at(lexemes).ok_or(ReadError::NotTheForm)?;
    Ok((name.copy(alloc)?, behind))
}

/// The further atoms of a list, each after a `,`.
fn more_atoms<'a>(
    alloc: Global,
    lexemes: &'a [Lexeme],
) -> Result<(Vec<Text>, &'a [Lexeme]), ReadError>
    ensures { Gives (λ p. (p.0.items, p.1.now)) result (more_at (length lexemes.now) Comma atom_at lexemes.now) }
{
    let mut found = Vec::new(alloc);
    let mut rest = lexemes;
    for _read in 0..lexemes.len() {
        let Some(behind) = past(rest, Symbol::Comma) else {
            return Ok((found, rest));
        };
        let (item, after) = atom(alloc, behind)?;
        add(&mut found, item)?;
        rest = after;
    }
    Ok((found, rest))
}

/// Atoms in square brackets, which may be none, with `,` between them.
pub(crate) fn path(alloc: Global, lexemes: &[Lexeme]) -> Result<(Row<Text>, &[Lexeme]), ReadError>
    ensures { Gives (λ p. (p.0, p.1.now)) result (list_at atom_at lexemes.now) }
{
    let inner = past(lexemes, Symbol::OpenSquare).ok_or(ReadError::NotTheForm)?;
    if let Some(behind) = past(inner, Symbol::CloseSquare) {
        return Ok((Row::of(Vec::new(alloc)), behind));
    }
    let (first, rest) = atom(alloc, inner)?;
    let (others, rest) = more_atoms(alloc, rest)?;
    let behind = past(rest, Symbol::CloseSquare).ok_or(ReadError::NotTheForm)?;
    Ok((Row::of(joined(alloc, first, others)?), behind))
}
