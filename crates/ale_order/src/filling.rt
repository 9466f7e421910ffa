//! Tables with an entry for each number, made in an order of dependence.

ghost use Rattle.std.specs.Prelude.{◌≡◌, ℕ, ◌<◌, List, length, set, get_or, Option, Some, None, IfOk};
ghost use Rattle.ale_relation.specs.Has.{Has};
ghost use Rattle.ale_order.specs.Entries.{IsKnown, HasRight, RestsOnCalled};
ghost use Rattle.ale_order.specs.Orders.{IsOrder};

use std::alloc::{AllocError, Global};

/// What is found out of each number from what is known of those that it calls.
pub trait Entries {
    type Entry: Drop;

    // The pairs of one that calls and one that it calls.
    ghost calls: { Self → List (ℕ × ℕ) };

    // Whether an entry is right for a number, beside a table of entries.
    ghost is_right: { Self → ℕ → List (Option Self.Entry) → Self.Entry → Type 0 };

    /// The entry of a number, where those that it calls have theirs. The error is want of memory.
    fn entry(
        &self,
        alloc: Global,
        m: usize,
        known: &[Option<Self::Entry>],
    ) -> Result<Self::Entry, AllocError>
        requires { (k : ℕ) → Has (calls self.now) (m, k) → IsKnown known.now k }
        ensures { IfOk result (λ e. is_right self.now m known.now e) };

    // What is right rests on the entries of those that the number calls.
    ghost rests: { (x : Self) → RestsOnCalled (calls x) (is_right x) };
}

/// The entries of all numbers below `size`, made in an order of dependence. The error is want of memory.
pub fn fill<E: Entries>(
    alloc: Global,
    entries: &E,
    size: usize,
    order: &[usize],
) -> Result<Vec<Option<E::Entry>>, AllocError>
    requires { IsOrder (E.calls entries.now) size order.now }
    ensures wide { IfOk result (λ table. length table.items ≡ size) }
    ensures right { IfOk result (λ table. (m : ℕ) → m < size →
        HasRight (E.is_right entries.now) table.items m) }
{
    let mut table = nothing_known(alloc, size)?;
    for &m in order {
        let entry = entries.entry(alloc, m, &table)?;
        set_entry(&mut table, m, entry);
    }
    Ok(table)
}

/// A table with no entry.
fn nothing_known<T: Drop>(alloc: Global, size: usize) -> Result<Vec<Option<T>>, AllocError>
    ensures wide { IfOk result (λ table. length table.items ≡ size) }
    ensures none { IfOk result (λ table. (m : ℕ) → get_or table.items m None ≡ None) }
{
    let mut table = Vec::new(alloc);
    for _ in 0..size {
        table.push(None)?;
    }
    Ok(table)
}

/// Gives a number its entry.
fn set_entry<T: Drop>(table: &mut Vec<Option<T>>, m: usize, entry: T)
    ensures { table.new.items ≡ set table.old.items m (Some entry) }
{
    if let Some(known) = table.get_mut(m) {
        *known = Some(entry);
    }
}
