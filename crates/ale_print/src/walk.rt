//! The lines of a structure, by walking through it.
ghost use Rattle.std.specs.Prelude.{◌≡◌, ◌<◌, ◌∷◌, ◌++◌, [], IfOk, OnOk, false, true, map, get_or, slice_set, ◌^◌};
ghost use Rattle.ale_graph.specs.Structures.{count};
ghost use Rattle.ale_print.specs.Pairing.{in_order};
ghost use Rattle.ale_print.specs.Walking.{level_below, met_again, stop_below, line_of, root_stops, also_stops, lines_of};
ghost use Rattle.ale_print.specs.Steps.{from_top, to_come, IsUnderway};

use crate::flags::{flag_of, set_flag};
use crate::line::{Line, Place, Shown, Stop};
use ale_graph::Graph;
use ale_signature::FeatId;
use std::alloc::{AllocError, Global};

// How deep the values stand of a node that is met at the place.
fn level_below(place: Place) -> usize
    requires { level_below place < 2 ^ 64 }
    ensures { result ≡ level_below place }
{
    match place {
        Place::Root(_) => 1,
        Place::Value(level, _) => level + 1,
        Place::Also => 1,
    }
}

// Puts the values of a node before what waits, in order.
fn push_below(
    stack: &mut Vec<Stop>,
    level: usize,
    values: &[(FeatId, usize)],
) -> Result<(), AllocError>
    ensures { OnOk result (from_top stack.new.items ≡ map (stop_below level) values.now ++ from_top stack.old.items) }
{
    let mut left = values.len();
    while left > 0 {
        left -= 1;
        let value = values[left];
        stack.push(Stop {
            place: Place::Value(level, value.0),
            node: Some(value.1),
        })?;
    }
    Ok(())
}

// Puts both nodes of each pair before what waits, in order.
fn push_pairs(stack: &mut Vec<Stop>, pairs: &[(usize, usize)]) -> Result<(), AllocError>
    ensures { OnOk result (from_top stack.new.items ≡ also_stops pairs.now ++ from_top stack.old.items) }
{
    let mut left = pairs.len();
    while left > 0 {
        left -= 1;
        let pair = pairs[left];
        stack.push(Stop {
            place: Place::Also,
            node: Some(pair.1),
        })?;
        stack.push(Stop {
            place: Place::Also,
            node: Some(pair.0),
        })?;
    }
    Ok(())
}

// Puts the roots before what waits, in order.
fn push_roots(stack: &mut Vec<Stop>, roots: &[Option<usize>]) -> Result<(), AllocError>
    ensures { OnOk result (from_top stack.new.items ≡ root_stops 0 roots.now ++ from_top stack.old.items) }
{
    let mut left = roots.len();
    while left > 0 {
        left -= 1;
        stack.push(Stop {
            place: Place::Root(left),
            node: roots[left],
        })?;
    }
    Ok(())
}

// Adds the line of a node that is met again; the node of a differing pair has none then.
fn push_again(lines: &mut Vec<Line>, place: Place, node: usize) -> Result<(), AllocError>
    ensures { OnOk result (lines.new.items ≡ met_again lines.old.items place node) }
{
    match place {
        Place::Also => Ok(()),
        _ => push_line(lines, place, Shown::Again(node)),
    }
}

// Adds a line.
fn push_line(lines: &mut Vec<Line>, place: Place, shown: Shown) -> Result<(), AllocError>
    ensures { OnOk result (lines.new.items ≡ lines.old.items ++ line_of place shown ∷ []) }
{
    Ok(lines.push(Line { place, shown })?)
}

// Makes the stop: adds its line, and puts the values of a node that is met for the first time before what waits.
fn stop_at(
    g: &Graph,
    stop: Stop,
    met: &mut Vec<bool>,
    lines: &mut Vec<Line>,
    stack: &mut Vec<Stop>,
) -> Result<(), AllocError>
    requires { IsUnderway g.now met.now.items lines.now.items (stop ∷ from_top stack.now.items) }
    ensures underway { OnOk result (IsUnderway g.now met.new.items lines.new.items (from_top stack.new.items)) }
    ensures fewer { OnOk result (to_come g.now met.new.items (from_top stack.new.items)
        < to_come g.now met.old.items (stop ∷ from_top stack.old.items)) }
{
    let Some(node) = stop.node else {
        return push_line(lines, stop.place, Shown::Unbound);
    };
    if flag_of(met.as_slice(), node) {
        return push_again(lines, stop.place, node);
    }
    push_line(lines, stop.place, Shown::First(node))?;
    set_flag(met, node);
    let values = g.nodes.as_slice()[node].values.as_slice();
    push_below(stack, level_below(stop.place), values)
}

// The lines of the structure, whose differing pairs are handed over in order.
pub(crate) fn lines(
    alloc: Global,
    g: &Graph,
    pairs: &[(usize, usize)],
) -> Result<Vec<Line>, AllocError>
    requires { pairs.now ≡ in_order g.now.differ }
    ensures { IfOk result (λ v. v.items ≡ lines_of g.now) }
{
    let mut met = vec![in alloc; false; g.nodes.as_slice().len()]?;
    let mut stack = Vec::new(alloc);
    push_pairs(&mut stack, pairs)?;
    push_roots(&mut stack, g.roots.as_slice())?;
    let mut lines = Vec::new(alloc);
    while let Some(stop) = stack.pop() {
        stop_at(g, stop, &mut met, &mut lines, &mut stack)?;
    }
    Ok(lines)
}
