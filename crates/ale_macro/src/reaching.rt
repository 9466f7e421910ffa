//! How deep templates will be nested, with nothing put in for it.
ghost use Rattle.std.specs.Prelude.{◌≡◌, ℕ, ◌<◌, length, get_or, map, None, IfOk};
ghost use Rattle.ale_order.specs.Entries.{HasRight};
ghost use Rattle.ale_order.specs.Orders.{IsOrder};
ghost use Rattle.ale_macro.specs.Templates.{template_data, macro_data};
ghost use Rattle.ale_macro.specs.Calls.{calls_of};
ghost use Rattle.ale_macro.specs.Sizes.{NearPlace, Reaches, IsDepth};
ghost use Rattle.ale_macro.specs.SizesRest.{depths_rest};

use crate::depth::{Depth, below};
use crate::macros::Macro;
use crate::template::Template;
use ale_order::{Entries, fill};
use std::alloc::{AllocError, Global};

/// How deep the argument at this place stands, if it does.
fn place_at(places: &[Option<u64>], place: usize) -> Option<u64>
    ensures { result ≡ get_or places.now place None }
{
    match places.get(place) {
        Some(depth) => *depth,
        None => None,
    }
}

/// The place below so many more.
fn place_below(above: u64, place: Option<u64>) -> Option<u64>
    ensures { NearPlace result above place }
{
    match place {
        Some(depth) => Some(below(above, depth)),
        None => None,
    }
}

/// Notes how deep the template is that stands below so many others, if it does at all, by the depths of the macros that it calls.
#[tactic(auto, using(crate::proofs::Templates::template_rules))]
pub fn reach(template: &Template, known: &[Option<Depth>], place: Option<u64>, depth: &mut Depth)
    ensures places { length depth.new.places.items ≡ length depth.old.places.items }
    ensures nesting { Reaches known.now (template_data template.now) place depth.old depth.new }
{
    let Some(above) = place else {
        return;
    };
    match template {
        Template::OfType(_) => depth.add(above),
        Template::Meet(_, _) => depth.add(above),
        Template::Variable(number) => depth.put(*number, above),
        Template::At(_, inner) => reach(inner.get(), known, Some(below(above, 1)), depth),
        Template::Differs(inner) => reach(inner.get(), known, Some(below(above, 1)), depth),
        Template::All(templates) => {
            let inside = below(above, 1);
            depth.add(inside);
            for conjunct in templates.as_slice() {
                reach(conjunct, known, Some(inside), depth);
            }
        }
        Template::Any(templates) => {
            let inside = below(above, 1);
            depth.add(inside);
            for disjunct in templates.as_slice() {
                reach(disjunct, known, Some(inside), depth);
            }
        }
        Template::Call(_, m, args) => {
            let Some(Some(called)) = known.get(*m as usize) else {
                depth.add(above);
                return;
            };
            depth.add(below(above, called.own));
            for (at, arg) in args.as_slice().iter().enumerate() {
                let under = place_below(above, place_at(&called.places, at));
                reach(arg, known, under, depth);
            }
        }
        Template::Cells(members, end) => {
            let mut inside = above;
            for member in members.as_slice() {
                inside = below(inside, 2);
                reach(member, known, Some(inside), depth);
            }
            reach(end.get(), known, Some(inside), depth);
        }
    }
}

/// Macros whose nesting is found.
#[derive(Clone, Copy)]
struct Bodies<'a> {
    macros: &'a [Macro],
}

impl<'a> Entries for Bodies<'a> {
    type Entry = Depth;

    ghost calls = { λ x. calls_of (map macro_data x.macros.now) };

    ghost is_right = { λ x m table e. IsDepth (map macro_data x.macros.now) m table e };

    fn entry(&self, alloc: Global, m: usize, known: &[Option<Depth>]) -> Result<Depth, AllocError> {
        let Some(found) = self.macros.get(m) else {
            return Depth::none(alloc, 0);
        };
        let mut depth = Depth::none(alloc, found.parameters)?;
        reach(&found.body, known, Some(0), &mut depth);
        Ok(depth)
    }

    ghost rests = { λ x. depths_rest (map macro_data x.macros.now) };
}

/// How deep calls of each macro are nested.
pub fn depths(
    alloc: Global,
    macros: &[Macro],
    order: &[usize],
) -> Result<Vec<Option<Depth>>, AllocError>
    requires { IsOrder (calls_of (map macro_data macros.now)) (length macros.now) order.now }
    ensures { IfOk result (λ table. (m : ℕ) → m < length macros.now → HasRight {T = Depth} (IsDepth (map macro_data macros.now)) table.items m) }
{
    fill(alloc, &Bodies { macros }, macros.len(), order)
}
