//! The order in which a search in depth along calls leaves the numbers.

ghost use Rattle.std.specs.Prelude.{◌≡◌, ℕ, ◌+◌, ◌^◌, ◌<◌, ◌↔◌, Bool, true, false, [], ◌∷◌, get_or, set, drop, length, IfOk, IfSome, IfNone, IsTrue, if◌then◌else◌};
ghost use Rattle.ale_relation.specs.Has.{Has};
ghost use Rattle.ale_relation.specs.Paths.{ends_below};
ghost use Rattle.ale_order.specs.Orders.{Distinct};
ghost use Rattle.ale_order.specs.Searches.{IsSettled, IsSearch, due};

use crate::graph::CallGraph;
use crate::pile::Pile;
use std::alloc::{AllocError, Global};

/// The numbers below `size` in the order in which a search in depth leaves them, the latest first.
pub fn left_in_depth(
    alloc: Global,
    size: usize,
    graph: &CallGraph,
) -> Result<Pile<usize>, AllocError>
    requires { IsTrue (ends_below size graph.now) }
    ensures settled { IfOk result (λ left. IsSettled graph.now left) }
    ensures once { IfOk result (λ left. Distinct left) }
    ensures each { IfOk result (λ left. (m : ℕ) → Has left m ↔ (m < size)) }
{
    let mut seen = nothing_seen(alloc, size)?;
    let mut left = Pile::new(alloc);
    for start in 0..size {
        search_from(alloc, graph, start, &mut seen, &mut left)?;
    }
    Ok(left)
}

/// A table that notes of no number that it is seen.
fn nothing_seen(alloc: Global, size: usize) -> Result<Vec<bool>, AllocError>
    ensures wide { IfOk result (λ seen. length seen.items ≡ size) }
    ensures none { IfOk result (λ seen. (m : ℕ) → get_or seen.items m false ≡ false) }
{
    let seen = vec![in alloc; false; size]?;
    Ok(seen)
}

/// Searches from `start` if it is not seen.
fn search_from(
    alloc: Global,
    graph: &CallGraph,
    start: usize,
    seen: &mut Vec<bool>,
    left: &mut Pile<usize>,
) -> Result<(), AllocError>
    requires within { IsTrue (ends_below (length seen.old.items) graph.now) }
    requires in_order { IsSearch graph.now seen.old.items left.old [] }
    requires start_in { start < length seen.old.items }
    ensures wide { IfOk result (λ _. length seen.new.items ≡ length seen.old.items) }
    ensures in_order { IfOk result (λ _. IsSearch graph.now seen.new.items left.new []) }
    ensures start { IfOk result (λ _. get_or seen.new.items start false ≡ true) }
    ensures kept { IfOk result (λ _. (m : ℕ) →
        get_or seen.old.items m false ≡ true → get_or seen.new.items m false ≡ true) }
{
    let mut path = Pile::new(alloc);
    enter(start, seen, &mut path)?;
    while step(graph, seen, left, &mut path)? {}
    Ok(())
}

/// Looks at the next call of the last on the path, or leaves it if there is none. Gives whether the path had one.
fn step(
    graph: &CallGraph,
    seen: &mut Vec<bool>,
    left: &mut Pile<usize>,
    path: &mut Pile<(usize, usize)>,
) -> Result<bool, AllocError>
    requires within { IsTrue (ends_below (length seen.old.items) graph.now) }
    requires in_order { IsSearch graph.now seen.old.items left.old path.old }
    ensures wide { IfOk result (λ _. length seen.new.items ≡ length seen.old.items) }
    ensures in_order { IfOk result (λ _. IsSearch graph.now seen.new.items left.new path.new) }
    ensures kept { IfOk result (λ _. (m : ℕ) →
        get_or seen.old.items m false ≡ true → get_or seen.new.items m false ≡ true) }
    ensures ended { IfOk result (λ more. more ≡ false → path.new ≡ []) }
    ensures fewer { IfOk result (λ more. more ≡ true →
        due graph.now seen.new.items path.new < due graph.now seen.old.items path.old) }
{
    let Some((m, at)) = path.pop() else {
        return Ok(false);
    };
    match entry_of(graph.called(m), at) {
        None => left.push(m)?,
        Some(k) => {
            path.push((m, at + 1))?;
            enter(k, seen, path)?;
        }
    }
    Ok(true)
}

/// Puts the number on the path if it is not seen.
fn enter(m: usize, seen: &mut Vec<bool>, path: &mut Pile<(usize, usize)>) -> Result<(), AllocError>
    ensures seen { IfOk result (λ _. seen.new.items ≡
        (if get_or seen.old.items m false then seen.old.items else set seen.old.items m true)) }
    ensures path { IfOk result (λ _. path.new ≡
        (if get_or seen.old.items m false then path.old else (m, 0) ∷ path.old)) }
{
    if !is_seen(seen, m) {
        set_seen(seen, m);
        path.push((m, 0))?;
    }
    Ok(())
}

/// The entry of a row at a place.
fn entry_of(row: &[usize], at: usize) -> Option<usize>
    ensures some { IfSome result (λ value. drop at row.now ≡ value ∷ drop (at + 1) row.now) }
    ensures some_in { IfSome result (λ _. at < 2 ^ 63) }
    ensures none { IfNone result (drop at row.now ≡ []) }
{
    row.get(at).copied()
}

/// Whether the number is seen.
fn is_seen(seen: &[bool], m: usize) -> bool
    ensures { result ≡ get_or seen.now m false }
{
    match seen.get(m) {
        Some(is_seen) => *is_seen,
        None => false,
    }
}

/// Notes that the number is seen.
fn set_seen(seen: &mut Vec<bool>, m: usize)
    ensures { seen.new.items ≡ set seen.old.items m true }
{
    if let Some(is_seen) = seen.get_mut(m) {
        *is_seen = true;
    }
}
