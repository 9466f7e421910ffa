//! Pairs of numbers as unordered pairs, in order.
ghost use Rattle.std.specs.Prelude.{◌≡◌, IfOk, map};
ghost use Rattle.ale_print.specs.Pairing.{lower_first, in_order};

use std::alloc::{AllocError, Global};

// The same pair with the lower number first.
fn lower_first(pair: (usize, usize)) -> (usize, usize)
    ensures { result ≡ lower_first pair }
{
    if pair.1 < pair.0 {
        (pair.1, pair.0)
    } else {
        pair
    }
}

// The pairs with the lower number first.
fn turned(alloc: Global, pairs: &[(usize, usize)]) -> Result<Vec<(usize, usize)>, AllocError>
    ensures { IfOk result (λ v. v.items ≡ map lower_first pairs.now) }
{
    let mut turned = Vec::with_capacity(alloc, pairs.len())?;
    for pair in pairs {
        turned.push(lower_first(*pair))?;
    }
    Ok(turned)
}

// The pairs in order, each once, the lower number first.
pub(crate) fn in_order(
    alloc: Global,
    pairs: &[(usize, usize)],
) -> Result<Vec<(usize, usize)>, AllocError>
    ensures { IfOk result (λ v. v.items ≡ in_order pairs.now) }
{
    let mut ordered = turned(alloc, pairs)?;
    ordered.sort_unstable();
    ordered.dedup();
    Ok(ordered)
}
