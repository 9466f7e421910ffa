//! Who calls whom, in rows.

ghost use Rattle.std.specs.Prelude.{◌≡◌, ℕ, List, [], length, map, IfOk, IsTrue};
ghost use Rattle.ale_relation.specs.Paths.{ends_below};
ghost use Rattle.ale_order.specs.Calls.{called, callers, row, with_value};

use std::alloc::{AllocError, Global};
use std::marker::Model;

/// Calls, with a row of those that it calls and one of those that call it for each number.
///
/// Contracts see the pairs of one that calls and one that it calls.
#[derive(Drop)]
pub struct CallGraph<'a> {
    calls: &'a [(usize, usize)],
    called: Vec<Vec<usize>>,
    callers: Vec<Vec<usize>>,
}

impl<'a> Model for CallGraph<'a> {
    ghost use Rattle.std.specs.Prelude.{ℕ, List, map};
    ghost use Rattle.ale_order.specs.Calls.{HasCalled, HasCallers};

    ghost Value = { List (ℕ × ℕ) };

    ghost view = { λ g. g.calls.now };

    ghost invariant = { λ g. HasCalled (map (λ r. r.items) g.called.items) g.calls.now
        × HasCallers (map (λ r. r.items) g.callers.items) g.calls.now };
}

impl<'a> CallGraph<'a> {
    /// The graph of calls between numbers below `size`.
    pub fn new(
        alloc: Global,
        size: usize,
        calls: &'a [(usize, usize)],
    ) -> Result<CallGraph<'a>, AllocError>
        requires { IsTrue (ends_below size calls.now) }
        ensures { IfOk result (λ g. g ≡ calls.now) }
    {
        let mut called = empty_rows(alloc, size)?;
        let mut callers = empty_rows(alloc, size)?;
        for &(caller, callee) in calls {
            push_at(&mut called, caller, callee)?;
            push_at(&mut callers, callee, caller)?;
        }
        Ok(CallGraph {
            calls,
            called,
            callers,
        })
    }

    /// Those that the number calls.
    pub fn called(&self, m: usize) -> &[usize]
        ensures { result.now ≡ called self.now m }
    {
        row_at(&self.called, m)
    }

    /// Those that call the number.
    pub fn callers(&self, m: usize) -> &[usize]
        ensures { result.now ≡ callers self.now m }
    {
        row_at(&self.callers, m)
    }
}

/// A table of empty rows.
fn empty_rows(alloc: Global, size: usize) -> Result<Vec<Vec<usize>>, AllocError>
    ensures wide { IfOk result (λ rows. length rows.items ≡ size) }
    ensures empty { IfOk result (λ rows. (m : ℕ) → row (map (λ r. r.items) rows.items) m ≡ []) }
{
    let mut rows = Vec::new(alloc);
    for _ in 0..size {
        rows.push(Vec::new(alloc))?;
    }
    Ok(rows)
}

/// The row of a number, or none beyond the table.
fn row_at(rows: &Vec<Vec<usize>>, m: usize) -> &[usize]
    ensures { result.now ≡ row (map (λ r. r.items) rows.now.items) m }
{
    match rows.get(m) {
        Some(row) => row.as_slice(),
        None => &[],
    }
}

/// Puts a number at the end of a row, if there is the row.
fn push_at(rows: &mut Vec<Vec<usize>>, at: usize, value: usize) -> Result<(), AllocError>
    ensures { IfOk result (λ _. map (λ r. r.items) rows.new.items
        ≡ with_value (map (λ r. r.items) rows.old.items) at value) }
{
    let Some(row) = rows.get_mut(at) else {
        return Ok(());
    };
    row.push(value)?;
    Ok(())
}
