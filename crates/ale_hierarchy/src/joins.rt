//! The joins of all types, by rows: a type's row is filled after those of the types below it.
ghost use Rattle.std.specs.Prelude.{◌≡◌, ◌≢◌, ℕ, ◌+◌, ◌<◌, ◌≤◌, IfOk, IfErr, IfSome, None, OnOk, IsErrOf, IsTrue, [], length, slice_index_or};
ghost use Rattle.std.specs.List.{filter_map};
ghost use Rattle.ale_relation.specs.Has.{Has};
ghost use Rattle.ale_hierarchy.specs.Order.{rank, join};
ghost use Rattle.ale_hierarchy.specs.Faults.{join_fault};
ghost use Rattle.ale_hierarchy.specs.Refusals.{RefusesFor};
ghost use Rattle.ale_hierarchy.specs.Stages.{entry, tabulated, are_below, directly_below, HasLeast, IsFilled, join_row, join_rows};

use crate::error::SigError;
use crate::ids::TypeId;
use crate::naming::refusal;
use crate::order::Order;
use crate::stop::Stop;
use crate::tops::most_general;
use crate::witnesses::no_join;
use ale_text::Row;
use std::alloc::{AllocError, Global};

/// The entry of a table.
pub fn entry(rows: &[Row<Option<TypeId>>], row: usize, column: usize) -> Option<TypeId>
    requires row { row < length rows.now }
    requires column { column < length (slice_index_or rows.now row []) }
    ensures { result ≡ entry rows.now row column }
{
    rows[row].as_slice()[column]
}

/// The join of two types, out of the table.
pub fn join_at(order: &Order, joins: &[Row<Option<TypeId>>], a: usize, b: usize) -> Option<TypeId>
    requires a { a < length order.now.types }
    requires b { b < length order.now.types }
    requires joins { joins.now ≡ join_rows order.now }
    ensures value { result ≡ join order.now a b }
    ensures inside { IfSome result (λ j. j < length order.now.types) }
{
    let _ = order.type_count();
    entry(joins, a, b)
}

/// The joins of all types; refused where two types have common subtypes and no least one.
pub fn joins(alloc: Global, order: &Order) -> Result<Vec<Row<Option<TypeId>>>, SigError>
    ensures rows { IfOk result (λ rows. rows.items ≡ join_rows order.now) }
    ensures least { IfOk result (λ _. (a b : ℕ) → a < length order.now.types → b < length order.now.types → HasLeast order.now a b) }
    ensures refused { IfErr result (λ e. RefusesFor order.now (join_fault order.now) e) }
{
    match all_joins(alloc, order) {
        Ok(rows) => Ok(rows),
        Err(Stop::NoMemory) => Err(SigError::NoMemory),
        Err(Stop::Refused) => Err(no_join_refusal(alloc, order)),
    }
}

/// The refusal where two types have common subtypes and no least one.
fn no_join_refusal(alloc: Global, order: &Order) -> SigError
    requires { join_fault order.now ≢ None }
    ensures { RefusesFor order.now (join_fault order.now) result }
{
    match no_join(alloc, order) {
        Ok(Some(fault)) => refusal(alloc, order.outline(), fault),
        Ok(None) => unreachable!(),
        Err(_) => SigError::NoMemory,
    }
}

/// The joins of all types, by ranks.
fn all_joins(alloc: Global, order: &Order) -> Result<Vec<Row<Option<TypeId>>>, Stop>
    ensures rows { IfOk result (λ rows. rows.items ≡ join_rows order.now) }
    ensures least { IfOk result (λ _. (a b : ℕ) → a < length order.now.types → b < length order.now.types → HasLeast order.now a b) }
    ensures refused { IsErrOf result Stop.Refused → join_fault order.now ≢ None }
{
    let ranks = order.ranks(alloc)?;
    let mut rows = empty_rows(alloc, order.type_count())?;
    for rank in 0..order.type_count() + 1 {
        fill_rank(alloc, order, ranks.as_slice(), rank, &mut rows)?;
    }
    Ok(rows)
}

/// So many rows with nothing in them.
fn empty_rows(alloc: Global, count: usize) -> Result<Vec<Row<Option<TypeId>>>, AllocError>
    ensures { IfOk result (λ rows. length rows.items ≡ count) }
{
    let mut rows = Vec::new(alloc);
    for _ in 0..count {
        rows.push(Row::of(Vec::new(alloc)))?;
    }
    Ok(rows)
}

/// Fills the rows of the types of a rank, where those of smaller ranks are filled.
fn fill_rank(
    alloc: Global,
    order: &Order,
    ranks: &[usize],
    due: usize,
    rows: &mut Vec<Row<Option<TypeId>>>,
) -> Result<(), Stop>
    requires ranks { ranks.now ≡ tabulated (rank order.now) (length order.now.types) }
    requires len { length rows.old.items ≡ length order.now.types }
    requires filled { (t : ℕ) → t < length order.now.types → rank order.now t < due → IsFilled order.now rows.old.items t }
    ensures len { OnOk result (length rows.new.items ≡ length order.now.types) }
    ensures filled { OnOk result ((t : ℕ) → t < length order.now.types → rank order.now t < due + 1 → IsFilled order.now rows.new.items t) }
    ensures refused { IsErrOf result Stop.Refused → join_fault order.now ≢ None }
{
    for a in 0..order.type_count() {
        fill_if_due(alloc, order, ranks[a], due, rows, a)?;
    }
    Ok(())
}

/// Fills the row of a type, if its rank is the one that is due.
fn fill_if_due(
    alloc: Global,
    order: &Order,
    own_rank: usize,
    due: usize,
    rows: &mut Vec<Row<Option<TypeId>>>,
    a: usize,
) -> Result<(), Stop>
    requires a { a < length order.now.types }
    requires own_rank { own_rank ≡ rank order.now a }
    requires len { length rows.old.items ≡ length order.now.types }
    requires filled { (t : ℕ) → t < length order.now.types → rank order.now t < due → IsFilled order.now rows.old.items t }
    ensures len { OnOk result (length rows.new.items ≡ length order.now.types) }
    ensures others { OnOk result ((t : ℕ) → t ≢ a → slice_index_or rows.new.items t [] ≡ slice_index_or rows.old.items t []) }
    ensures own { OnOk result (rank order.now a ≢ due → slice_index_or rows.new.items a [] ≡ slice_index_or rows.old.items a []) }
    ensures filled { OnOk result (rank order.now a ≡ due → IsFilled order.now rows.new.items a) }
    ensures refused { IsErrOf result Stop.Refused → join_fault order.now ≢ None }
{
    if own_rank == due {
        let row = join_row(alloc, order, rows.as_slice(), a)?;
        rows[a] = row;
    }
    Ok(())
}

/// The joins of a type with each type, where the rows of all types of smaller ranks are filled.
fn join_row(
    alloc: Global,
    order: &Order,
    rows: &[Row<Option<TypeId>>],
    a: usize,
) -> Result<Row<Option<TypeId>>, Stop>
    requires a { a < length order.now.types }
    requires len { length rows.now ≡ length order.now.types }
    requires filled { (t : ℕ) → t < length order.now.types → rank order.now t < rank order.now a → IsFilled order.now rows.now t }
    ensures row { IfOk result (λ row. row ≡ join_row order.now a) }
    ensures least { IfOk result (λ _. (b : ℕ) → b < length order.now.types → HasLeast order.now a b) }
    ensures refused { IsErrOf result Stop.Refused → join_fault order.now ≢ None }
{
    let below = order.directly_below(alloc, a)?;
    let mut candidates = Vec::new(alloc);
    let mut row = Vec::new(alloc);
    for b in 0..order.type_count() {
        row.push(join_of(order, rows, below.as_slice(), a, b, &mut candidates)?)?;
    }
    Ok(Row::of(row))
}

/// The join of two types, where the rows of the types directly below the first are filled. Candidates
/// for it are the joins of those with the second; the memory for them is lent.
fn join_of(
    order: &Order,
    rows: &[Row<Option<TypeId>>],
    below: &[usize],
    a: usize,
    b: usize,
    candidates: &mut Vec<TypeId>,
) -> Result<Option<TypeId>, Stop>
    requires a { a < length order.now.types }
    requires b { b < length order.now.types }
    requires len { length rows.now ≡ length order.now.types }
    requires below { below.now ≡ directly_below order.now.edges a }
    requires filled { (t : ℕ) → Has below.now t → IsFilled order.now rows.now t }
    ensures value { IfOk result (λ j. j ≡ join order.now a b) }
    ensures least { IfOk result (λ _. HasLeast order.now a b) }
    ensures refused { IsErrOf result Stop.Refused → join_fault order.now ≢ None }
{
    if order.is_above(b, a) {
        return Ok(Some(TypeId::of(a as u16)));
    }
    find_candidates(order, rows, below, b, candidates)?;
    let found = candidates.as_slice();
    if found.is_empty() {
        return Ok(None);
    }
    match most_general(order, found) {
        Some(j) => Ok(Some(j)),
        None => Err(Stop::Refused),
    }
}

/// The joins of a type with each of some others, whose rows are filled.
fn find_candidates(
    order: &Order,
    rows: &[Row<Option<TypeId>>],
    others: &[usize],
    b: usize,
    candidates: &mut Vec<TypeId>,
) -> Result<(), AllocError>
    requires b { b < length order.now.types }
    requires len { length rows.now ≡ length order.now.types }
    requires others { IsTrue (are_below (length order.now.types) others.now) }
    requires filled { (t : ℕ) → Has others.now t → IsFilled order.now rows.now t }
    ensures { OnOk result (candidates.new.items ≡ filter_map (λ t. join order.now t b) others.now) }
{
    candidates.clear();
    for &t in others {
        if let Some(j) = entry(rows, t, b) {
            candidates.push(j)?;
        }
    }
    Ok(())
}
