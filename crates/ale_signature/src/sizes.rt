//! How many nodes a node of each type has with all that is filled in below it.
ghost use Rattle.std.specs.Prelude.{◌≡◌, ℕ, ◌+◌, ◌<◌, ◌≤◌, ◌==◌, ◌++◌, IfOk, IfErr, IfSome, IfNone, OnOk, None, false, length, slice_index_or, slice_set};
ghost use Rattle.std.specs.List.{filter_map};
ghost use Rattle.std.specs.Option.{option_map};
ghost use Rattle.ale_declared.specs.Lists.{upto, first};
ghost use Rattle.ale_hierarchy.specs.Order.{approp, features, size, if_there, all_features};
ghost use Rattle.ale_hierarchy.specs.Limits.{most_nodes};
ghost use Rattle.ale_hierarchy.specs.Accepted.{restriction_edges};
ghost use Rattle.ale_hierarchy.specs.Faults.{loop_fault, fill_fault, filling_fault};
ghost use Rattle.ale_hierarchy.specs.Refusals.{RefusesFor};
ghost use Rattle.ale_hierarchy.specs.Stages.{restriction_rows, feature_lists, TellsSizes, KnowsTo, IsUnknown};

use crate::restrictions::restriction_at;
use ale_hierarchy::{Fault, FeatId, Order, SigError, TypeId, check_ext, first_cycle, refusal};
use ale_relation::reachability;
use ale_text::Row;
use std::alloc::{AllocError, Global};

/// The most nodes that one type's fill may have.
const MOST_NODES: usize = 4096;

/// Refuses where a type leads back to itself by restrictions, where another type is below an extensional one,
/// and where a type's fill has too many nodes.
pub fn check_fills(
    alloc: Global,
    order: &Order,
    restrictions: &[Row<Option<TypeId>>],
    lists: &[Row<FeatId>],
) -> Result<(), SigError>
    requires restrictions { restrictions.now ≡ restriction_rows order.now }
    requires lists { lists.now ≡ feature_lists order.now }
    ensures none { OnOk result (filling_fault order.now ≡ None) }
    ensures refused { IfErr result (λ e. RefusesFor order.now (filling_fault order.now) e) }
{
    let large = first_large(alloc, order, restrictions, lists)?;
    check_loops(alloc, order, restrictions, large)?;
    check_ext(alloc, order)?;
    match large {
        Some(fault) => Err(refusal(alloc, order.outline(), fault)),
        None => Ok(()),
    }
}

/// The first type whose fill has too many nodes.
fn first_large(
    alloc: Global,
    order: &Order,
    restrictions: &[Row<Option<TypeId>>],
    lists: &[Row<FeatId>],
) -> Result<Option<Fault>, AllocError>
    requires restrictions { restrictions.now ≡ restriction_rows order.now }
    requires lists { lists.now ≡ feature_lists order.now }
    ensures { IfOk result (λ r. r ≡ fill_fault order.now) }
{
    let sizes = find_sizes(alloc, order, restrictions, lists)?;
    match first_unknown(sizes.as_slice()) {
        Some(t) => Ok(Some(Fault::FillTooLarge(t))),
        None => Ok(None),
    }
}

/// The sizes of all types, 0 for one that is past the limit.
fn find_sizes(
    alloc: Global,
    order: &Order,
    restrictions: &[Row<Option<TypeId>>],
    lists: &[Row<FeatId>],
) -> Result<Vec<usize>, AllocError>
    requires restrictions { restrictions.now ≡ restriction_rows order.now }
    requires lists { lists.now ≡ feature_lists order.now }
    ensures len { IfOk result (λ v. length v.items ≡ length order.now.types) }
    ensures small { IfOk result (λ v. (t : ℕ) → t < length order.now.types → 0 < slice_index_or v.items t 0 → size order.now t ≤ most_nodes) }
    ensures large { IfOk result (λ v. (t : ℕ) → t < length order.now.types → slice_index_or v.items t 0 ≡ 0 → most_nodes < size order.now t) }
{
    let mut sizes = vec![in alloc; 0; order.type_count()]?;
    for round in 0..MOST_NODES {
        let _ = round;
        if !size_round(order, restrictions, lists, &mut sizes) {
            return Ok(sizes);
        }
    }
    Ok(sizes)
}

/// The first place at which there is 0.
fn first_unknown(sizes: &[usize]) -> Option<usize>
    ensures { result ≡ first (λ t. slice_index_or sizes.now t 0 == 0) (upto (length sizes.now)) }
{
    for t in 0..sizes.len() {
        if sizes[t] == 0 {
            return Some(t);
        }
    }
    None
}

/// Refuses where a type leads back to itself by restrictions, which is so only where a type's fill has too
/// many nodes.
fn check_loops(
    alloc: Global,
    order: &Order,
    restrictions: &[Row<Option<TypeId>>],
    large: Option<Fault>,
) -> Result<(), SigError>
    requires restrictions { restrictions.now ≡ restriction_rows order.now }
    requires large { large ≡ fill_fault order.now }
    ensures none { OnOk result (loop_fault order.now ≡ None) }
    ensures refused { IfErr result (λ e. RefusesFor order.now (loop_fault order.now) e) }
{
    let _ = order.type_count();
    if large.is_none() {
        return Ok(());
    }
    match first_loop(alloc, order, restrictions)? {
        Some(fault) => Err(refusal(alloc, order.outline(), fault)),
        None => Ok(()),
    }
}

/// The first type that leads back to itself by restrictions.
fn first_loop(
    alloc: Global,
    order: &Order,
    restrictions: &[Row<Option<TypeId>>],
) -> Result<Option<Fault>, AllocError>
    requires { restrictions.now ≡ restriction_rows order.now }
    ensures { IfOk result (λ r. r ≡ loop_fault order.now) }
{
    let edges = restriction_edges(alloc, order, restrictions)?;
    let leads = reachability(alloc, order.type_count(), edges.as_slice())?;
    match first_cycle(&leads) {
        Some(t) => Ok(Some(Fault::Loop(t))),
        None => Ok(None),
    }
}

/// From each type to the restriction on each of its features.
fn restriction_edges(
    alloc: Global,
    order: &Order,
    restrictions: &[Row<Option<TypeId>>],
) -> Result<Vec<(usize, usize)>, AllocError>
    requires { restrictions.now ≡ restriction_rows order.now }
    ensures { IfOk result (λ v. v.items ≡ restriction_edges order.now) }
{
    let mut edges = Vec::new(alloc);
    for t in 0..order.type_count() {
        push_edges_of(&mut edges, order, restrictions, t)?;
    }
    Ok(edges)
}

/// Adds the edges of one type.
fn push_edges_of(
    edges: &mut Vec<(usize, usize)>,
    order: &Order,
    restrictions: &[Row<Option<TypeId>>],
    t: usize,
) -> Result<(), AllocError>
    requires t { t < length order.now.types }
    requires restrictions { restrictions.now ≡ restriction_rows order.now }
    ensures { OnOk result (edges.new.items ≡ edges.old.items ++ filter_map (λ f. option_map (λ r. (t, r)) (approp order.now f t)) (all_features order.now)) }
{
    for f in 0..order.feat_count() {
        if let Some(r) = restriction_at(order, restrictions, f, t) {
            edges.push((t, r.index()))?;
        }
    }
    Ok(())
}

/// Finds the sizes of those types whose restrictions have known sizes, and answers whether there were some. A
/// size that isn't known is 0.
fn size_round(
    order: &Order,
    restrictions: &[Row<Option<TypeId>>],
    lists: &[Row<FeatId>],
    sizes: &mut Vec<usize>,
) -> bool
    requires restrictions { restrictions.now ≡ restriction_rows order.now }
    requires lists { lists.now ≡ feature_lists order.now }
    requires len { length sizes.old.items ≡ length order.now.types }
    requires tells { TellsSizes order.now sizes.old.items }
    ensures len { length sizes.new.items ≡ length order.now.types }
    ensures tells { TellsSizes order.now sizes.new.items }
    ensures more { (k : ℕ) → KnowsTo order.now k sizes.old.items → KnowsTo order.now (k + 1) sizes.new.items }
    ensures settled { result ≡ false → sizes.new.items ≡ sizes.old.items }
{
    let mut changed = false;
    for t in 0..order.type_count() {
        let size = size_of(
            order,
            restrictions,
            lists[t].as_slice(),
            t,
            sizes.as_slice(),
        );
        if note(sizes, t, size) {
            changed = true;
        }
    }
    changed
}

/// Writes a size, and answers whether it is another one.
fn note(sizes: &mut Vec<usize>, t: usize, size: usize) -> bool
    requires { t < length sizes.old.items }
    ensures written { sizes.new.items ≡ slice_set sizes.old.items t size }
    ensures same { result ≡ false → sizes.new.items ≡ sizes.old.items }
{
    if sizes[t] == size {
        return false;
    }
    sizes[t] = size;
    true
}

/// The size of a type, 0 where that of a restriction isn't known, or where it is past the limit.
fn size_of(
    order: &Order,
    restrictions: &[Row<Option<TypeId>>],
    listed: &[FeatId],
    t: usize,
    sizes: &[usize],
) -> usize
    requires t { t < length order.now.types }
    requires restrictions { restrictions.now ≡ restriction_rows order.now }
    requires listed { listed.now ≡ features order.now t }
    requires len { length sizes.now ≡ length order.now.types }
    requires tells { TellsSizes order.now sizes.now }
    ensures known { 0 < result → (size order.now t ≡ result) × (result ≤ most_nodes) }
    ensures unknown { result ≡ 0 → size order.now t ≤ most_nodes → (f : ℕ) × (f < length order.now.features) × IsUnknown order.now t sizes.now f }
{
    let known = sizes[t];
    if known > 0 {
        return known;
    }
    let mut total = 1;
    for &f in listed {
        match part_size(order, restrictions, f, t, sizes) {
            None => return 0,
            Some(part) => total += part,
        }
        if total > MOST_NODES {
            return 0;
        }
    }
    total
}

/// The size of what fills a feature's value at a type, None where it isn't known.
fn part_size(
    order: &Order,
    restrictions: &[Row<Option<TypeId>>],
    f: FeatId,
    t: usize,
    sizes: &[usize],
) -> Option<usize>
    requires t { t < length order.now.types }
    requires f { f < length order.now.features }
    requires restrictions { restrictions.now ≡ restriction_rows order.now }
    requires len { length sizes.now ≡ length order.now.types }
    requires tells { TellsSizes order.now sizes.now }
    ensures known { IfSome result (λ s. s ≡ if_there (size order.now) (approp order.now f t)) }
    ensures small { IfSome result (λ s. s ≤ most_nodes) }
    ensures unknown { IfNone result (IsUnknown order.now t sizes.now f) }
{
    match restriction_at(order, restrictions, f.index(), t) {
        None => Some(0),
        Some(r) => known_size(sizes, r.index()),
    }
}

/// A size, if it is known.
fn known_size(sizes: &[usize], t: usize) -> Option<usize>
    requires { t < length sizes.now }
    ensures known { IfSome result (λ s. (s ≡ slice_index_or sizes.now t 0) × (0 < s)) }
    ensures unknown { IfNone result (slice_index_or sizes.now t 0 ≡ 0) }
{
    let size = sizes[t];
    if size == 0 { None } else { Some(size) }
}
