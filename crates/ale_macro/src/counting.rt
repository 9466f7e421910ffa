//! Counting the parts that templates will have, with nothing put in for it.
ghost use Rattle.std.specs.Prelude.{◌≡◌, ℕ, ◌<◌, length, get_or, map, IfOk};
ghost use Rattle.ale_order.specs.Entries.{HasRight};
ghost use Rattle.ale_order.specs.Orders.{IsOrder};
ghost use Rattle.ale_macro.specs.Templates.{template_data, macro_data};
ghost use Rattle.ale_macro.specs.Calls.{calls_of};
ghost use Rattle.ale_macro.specs.Sizes.{Counts, IsTally};
ghost use Rattle.ale_macro.specs.SizesRest.{tallies_rest};

use crate::macros::Macro;
use crate::tally::{Tally, product};
use crate::template::Template;
use ale_order::{Entries, fill};
use std::alloc::{AllocError, Global};

/// How often the argument at this place stands.
fn uses_at(uses: &[u64], place: usize) -> u64
    ensures { result ≡ get_or uses.now place 0 }
{
    match uses.get(place) {
        Some(times) => *times,
        None => 0,
    }
}

/// Counts the template so many times, by the tallies of the macros that it calls. What is dropped costs nothing.
#[tactic(auto, using(crate::proofs::Templates::template_rules))]
pub fn count(template: &Template, known: &[Option<Tally>], times: u64, tally: &mut Tally)
    ensures uses { length tally.new.uses.items ≡ length tally.old.uses.items }
    ensures parts { Counts known.now (template_data template.now) times tally.old tally.new }
{
    if times == 0 {
        return;
    }
    match template {
        Template::OfType(_) => tally.add(times),
        Template::Variable(number) => tally.put(*number, times),
        Template::At(_, inner) => {
            tally.add(times);
            count(inner.get(), known, times, tally);
        }
        Template::Differs(inner) => {
            tally.add(times);
            count(inner.get(), known, times, tally);
        }
        Template::All(templates) => {
            tally.add(times);
            for conjunct in templates.as_slice() {
                count(conjunct, known, times, tally);
            }
        }
        Template::Any(templates) => {
            tally.add(times);
            for disjunct in templates.as_slice() {
                count(disjunct, known, times, tally);
            }
        }
        Template::Meet(first, second) => {
            tally.add(times);
            tally.add(product(times, first.as_slice().len() as u64));
            tally.add(product(times, second.as_slice().len() as u64));
        }
        Template::Call(_, m, args) => {
            let Some(Some(called)) = known.get(*m as usize) else {
                tally.add(times);
                return;
            };
            tally.add(product(times, called.own));
            for (place, arg) in args.as_slice().iter().enumerate() {
                count(
                    arg,
                    known,
                    product(times, uses_at(&called.uses, place)),
                    tally,
                );
            }
        }
        Template::Cells(members, end) => {
            for member in members.as_slice() {
                tally.add(product(times, 4));
                count(member, known, times, tally);
            }
            count(end.get(), known, times, tally);
        }
    }
}

/// Macros whose calls are counted.
#[derive(Clone, Copy)]
struct Bodies<'a> {
    macros: &'a [Macro],
}

impl<'a> Entries for Bodies<'a> {
    type Entry = Tally;

    ghost calls = { λ x. calls_of (map macro_data x.macros.now) };

    ghost is_right = { λ x m table e. IsTally (map macro_data x.macros.now) m table e };

    fn entry(&self, alloc: Global, m: usize, known: &[Option<Tally>]) -> Result<Tally, AllocError> {
        let Some(found) = self.macros.get(m) else {
            return Ok(Tally {
                own: 1,
                uses: Vec::new(alloc),
            });
        };
        let mut tally = Tally::none(alloc, found.parameters)?;
        count(&found.body, known, 1, &mut tally);
        Ok(tally)
    }

    ghost rests = { λ x. tallies_rest (map macro_data x.macros.now) };
}

/// How many parts calls of each macro have.
pub fn tallies(
    alloc: Global,
    macros: &[Macro],
    order: &[usize],
) -> Result<Vec<Option<Tally>>, AllocError>
    requires { IsOrder (calls_of (map macro_data macros.now)) (length macros.now) order.now }
    ensures { IfOk result (λ table. (m : ℕ) → m < length macros.now → HasRight {T = Tally} (IsTally (map macro_data macros.now)) table.items m) }
{
    fill(alloc, &Bodies { macros }, macros.len(), order)
}
