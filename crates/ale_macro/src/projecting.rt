//! Macros that stand for one of their parameters and nothing else.
ghost use Rattle.std.specs.Prelude.{◌≡◌, ℕ, ◌<◌, length, map, Option, IfOk};
ghost use Rattle.ale_order.specs.Entries.{HasRight};
ghost use Rattle.ale_order.specs.Orders.{IsOrder};
ghost use Rattle.ale_macro.specs.Templates.{template_data, macro_data};
ghost use Rattle.ale_macro.specs.Calls.{calls_of};
ghost use Rattle.ale_macro.specs.Projections.{projected, entry_at, IsEntry};
ghost use Rattle.ale_macro.specs.Resting.{entries_rest};

use crate::macros::Macro;
use crate::template::Template;
use ale_order::{Entries, fill};
use std::alloc::{AllocError, Global};

/// The entry of a table for a macro.
pub fn entry_at(known: &[Option<Option<u32>>], m: usize) -> Option<u32>
    ensures { result ≡ entry_at known.now m }
{
    match known.get(m) {
        Some(Some(entry)) => *entry,
        _ => None,
    }
}

/// The parameter for which the template stands, where it stands for one and nothing else.
#[tactic(auto, using(crate::proofs::Templates::template_rules))]
fn projected(template: &Template, parameters: u32, known: &[Option<Option<u32>>]) -> Option<u32>
    ensures { result ≡ projected (entry_at known.now) parameters (template_data template.now) }
{
    match template {
        Template::Variable(number) => {
            if *number < parameters {
                Some(*number)
            } else {
                None
            }
        }
        Template::Call(_, m, args) => {
            let place = entry_at(known, *m as usize)?;
            let arg = args.as_slice().get(place as usize)?;
            projected(arg, parameters, known)
        }
        _ => None,
    }
}

/// Macros whose parameters are found for which they stand.
#[derive(Clone, Copy)]
struct Bodies<'a> {
    macros: &'a [Macro],
}

impl<'a> Entries for Bodies<'a> {
    type Entry = Option<u32>;

    ghost calls = { λ x. calls_of (map macro_data x.macros.now) };

    ghost is_right = { λ x m table e. IsEntry (map macro_data x.macros.now) m table e };

    fn entry(
        &self,
        _alloc: Global,
        m: usize,
        known: &[Option<Option<u32>>],
    ) -> Result<Option<u32>, AllocError> {
        match self.macros.get(m) {
            Some(found) => Ok(projected(&found.body, found.parameters, known)),
            None => Ok(None),
        }
    }

    ghost rests = { λ x. entries_rest (map macro_data x.macros.now) };
}

/// For each macro the parameter for which it stands, where it stands for one and nothing else.
pub fn projections(
    alloc: Global,
    macros: &[Macro],
    order: &[usize],
) -> Result<Vec<Option<Option<u32>>>, AllocError>
    requires { IsOrder (calls_of (map macro_data macros.now)) (length macros.now) order.now }
    ensures { IfOk result (λ table. (m : ℕ) → m < length macros.now → HasRight {T = Option ℕ} (IsEntry (map macro_data macros.now)) table.items m) }
{
    fill(alloc, &Bodies { macros }, macros.len(), order)
}
