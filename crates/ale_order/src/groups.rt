//! Groups of numbers that lead to one another.

ghost use Rattle.std.specs.Prelude.{◌≡◌, ℕ, ◌<◌, ◌↔◌, List, [], ◌∷◌, length, set, Option, Some, None, get_or, IfOk, IfSome, IfNone, IsTrue};
ghost use Rattle.ale_relation.specs.Has.{Has};
ghost use Rattle.ale_relation.specs.Paths.{ends_below};
ghost use Rattle.ale_order.specs.Calls.{called};
ghost use Rattle.ale_order.specs.Orders.{Distinct};
ghost use Rattle.ale_order.specs.Searches.{IsSettled};
ghost use Rattle.ale_order.specs.Groups.{root, AreGroups, Collects, Collection, with_callers, HasInGroup, CallsOwn};

use crate::graph::CallGraph;
use crate::pile::Pile;
use std::alloc::{AllocError, Global};

/// For each number below `size` the root of its group: those that lead to one another have one root.
/// `left` has the numbers in the order in which a search in depth left them, the latest first.
pub fn groups(
    alloc: Global,
    size: usize,
    graph: &CallGraph,
    left: &[usize],
) -> Result<Vec<Option<usize>>, AllocError>
    requires within { IsTrue (ends_below size graph.now) }
    requires settled { IsSettled graph.now left.now }
    requires once { Distinct left.now }
    requires each { (m : ℕ) → Has left.now m ↔ (m < size) }
    ensures { IfOk result (λ groups. AreGroups graph.now size groups.items []) }
{
    let mut groups = no_groups(alloc, size)?;
    for &r in left {
        collect(alloc, graph, r, &mut groups)?;
    }
    Ok(groups)
}

/// A table in which no number has a group.
fn no_groups(alloc: Global, size: usize) -> Result<Vec<Option<usize>>, AllocError>
    ensures wide { IfOk result (λ groups. length groups.items ≡ size) }
    ensures none { IfOk result (λ groups. (m : ℕ) → root groups.items m ≡ None) }
{
    let groups = vec![in alloc; None; size]?;
    Ok(groups)
}

/// Collects the group of `r`, if it has none.
fn collect(
    alloc: Global,
    graph: &CallGraph,
    r: usize,
    groups: &mut Vec<Option<usize>>,
) -> Result<(), AllocError>
    requires root_in { r < length groups.old.items }
    requires within { IsTrue (ends_below (length groups.old.items) graph.now) }
    ensures wide { IfOk result (λ _. length groups.new.items ≡ length groups.old.items) }
    ensures collects { IfOk result
        (λ _. Collects graph.now (length groups.old.items) r groups.old.items groups.new.items) }
{
    if root_of(groups, r).is_some() {
        return Ok(());
    }
    set_root(groups, r, r);
    let mut waiting = Pile::new(alloc);
    waiting.push(r)?;
    while let Some(callee) = waiting.pop() {
        add_callers(graph.callers(callee), r, groups, &mut waiting)?;
    }
    Ok(())
}

/// Puts the callers that have no group into the group of `r`.
fn add_callers(
    callers: &[usize],
    r: usize,
    groups: &mut Vec<Option<usize>>,
    waiting: &mut Pile<usize>,
) -> Result<(), AllocError>
    ensures { IfOk result (λ _.
        with_callers r callers.now (record { groups = groups.old.items; waiting = waiting.old })
        ≡ (record { groups = groups.new.items; waiting = waiting.new })) }
{
    for &caller in callers {
        if root_of(groups, caller).is_none() {
            set_root(groups, caller, r);
            waiting.push(caller)?;
        }
    }
    Ok(())
}

/// The root of the number's group, if it has one.
fn root_of(groups: &[Option<usize>], m: usize) -> Option<usize>
    ensures { result ≡ root groups.now m }
{
    match groups.get(m) {
        Some(root) => *root,
        None => None,
    }
}

/// Puts the number into the group of a root.
fn set_root(groups: &mut Vec<Option<usize>>, m: usize, root: usize)
    ensures { groups.new.items ≡ set groups.old.items m (Some root) }
{
    if let Some(group) = groups.get_mut(m) {
        *group = Some(root);
    }
}

/// The first number below `size` that calls one of its own group.
pub fn first_in_own_group(size: usize, graph: &CallGraph, groups: &[Option<usize>]) -> Option<usize>
    ensures some { IfSome result (λ m. (m < size) × CallsOwn graph.now groups.now m
        × ((k : ℕ) → k < m → CallsOwn graph.now groups.now k → ⊥)) }
    ensures none { IfNone result ((k : ℕ) → k < size → CallsOwn graph.now groups.now k → ⊥) }
{
    for m in 0..size {
        if has_in_group(graph.called(m), groups, root_of(groups, m)) {
            return Some(m);
        }
    }
    None
}

/// Whether one of the row is in the group.
fn has_in_group(row: &[usize], groups: &[Option<usize>], group: Option<usize>) -> bool
    ensures { IsTrue result ↔ HasInGroup groups.now group row.now }
{
    for &k in row {
        if root_of(groups, k) == group {
            return true;
        }
    }
    false
}
