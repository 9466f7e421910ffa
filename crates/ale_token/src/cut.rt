//! The declarations of tokens.
ghost use Rattle.std.specs.Prelude.{◌≡◌, ◌↔◌, ◌+◌, ◌≤◌, ◌<◌, ℕ, List, length, slice_range, Ok, Err, IfOk, IfErr};
ghost use Rattle.std.specs.List.{All, flat_map};
ghost use Rattle.ale_token.specs.Answers.{Gives};
ghost use Rattle.ale_token.specs.Declarations.{is_end, declarations_of, Cuts, Unended, CutOrUnended, IsUnended, IsDeclaration, with_end};
ghost use Rattle.ale_token.specs.declared.token.Token.{Token};
ghost use Rattle.ale_token.specs.declared.token.TokenError.TheVariants.{NoEnd};

use crate::token::{Kind, Token, TokenError};
use std::alloc::Global;

/// The declarations of these tokens, each as the number of its first token and that of its end. The numbers
/// count from 0, and the end is not part of the declaration; a declaration may be empty.
///
/// # Errors
///
/// `NoEnd(p)` exactly where tokens stand after the last end, the first of them at the place `p`, and `NoMemory`
/// where memory runs out; never `BadToken`.
pub fn cut_declarations(alloc: Global, list: &[Token]) -> Result<Vec<(usize, usize)>, TokenError>
    ensures exact { Gives {A = ℕ × ℕ} (λ v. v.items) result (declarations_of list.now) }
    ensures found { IfOk result (λ v. Cuts 0 list.now v.items) }
    ensures only { (ranges : List (ℕ × ℕ)) → Cuts 0 list.now ranges → Gives {A = ℕ × ℕ} (λ v. v.items) result (Ok ranges) }
    ensures cause { IfErr result (IsUnended list.now) }
    ensures refused { (p : ℕ) → Unended list.now p → Gives {A = ℕ × ℕ} (λ v. v.items) result (Err (NoEnd p)) }
    ensures each { IfOk result (λ v. All {X = ℕ × ℕ} (IsDeclaration list.now) v.items) }
    ensures joined { IfOk result (λ v. flat_map {X = ℕ × ℕ} (with_end list.now) v.items ≡ list.now) }
{
    cut(alloc, list)
}

/// Tokens either are cut into declarations, in one way, or lack an end after one place; and the function that
/// `cut_declarations` carries out gives just this.
pub fn one_cutting()
    ensures either { (ts : List Token) → CutOrUnended 0 ts }
    ensures cuts { (ts : List Token) (ranges : List (ℕ × ℕ)) → Cuts 0 ts ranges ↔ declarations_of ts ≡ Ok ranges }
    ensures unended { (ts : List Token) (p : ℕ) → Unended ts p ↔ declarations_of ts ≡ Err (NoEnd p) }
{}

/// The declarations of these tokens.
fn cut(alloc: Global, list: &[Token]) -> Result<Vec<(usize, usize)>, TokenError>
    ensures { Gives {A = ℕ × ℕ} (λ v. v.items) result (declarations_of list.now) }
{
    let mut ranges = Vec::new(alloc);
    let mut from = 0;
    for (at, token) in list.iter().enumerate() {
        if is_end(token) {
            ranges.push((from, at))?;
            from = at + 1;
        }
    }
    match list.get(from) {
        None => Ok(ranges),
        Some(token) => Err(TokenError::NoEnd(token.from)),
    }
}

/// Whether this ends a declaration.
fn is_end(token: &Token) -> bool
    ensures { result ≡ is_end token.now.kind }
{
    matches!(token.kind, Kind::End)
}
