//! The text of lines.
ghost use Rattle.std.specs.Prelude.{◌≡◌, ◌<◌, ◌^◌, ◌++◌, ◌&&◌, ℕ, OnOk, codes, length, get_or, slice_get, true};
ghost use Rattle.std.specs.Str.{chars};
ghost use Rattle.ale_print.specs.Appending.{Appends};
ghost use Rattle.ale_print.specs.Texts.{indentation, root_front, front, tag_text, type_front, shown_text, line_text, pair_text};
ghost use Rattle.ale_print.specs.Naming.{printed_name};
ghost use Rattle.ale_print.specs.Steps.{is_shown_below, is_place_in, are_in, IsOf};
ghost use Rattle.std.specs.List.{flat_map};
ghost use Rattle.ale_graph.specs.Structures.{count, type_of};
ghost use Rattle.ale_declared.specs.Names.{name_of};

use crate::line::{Line, Place, Shown};
use crate::name::push_name;
use crate::tags::tag_of;
use ale_graph::Graph;
use ale_signature::{FeatId, Signature, TypeId};
use ale_text::Text;
use std::alloc::{AllocError, Global};

// Two spaces for each level.
fn push_indentation(out: &mut String, level: usize) -> Result<(), AllocError>
    ensures { OnOk result (Appends out.old out.new (indentation level)) }
{
    let mut left = level;
    while left > 0 {
        out.push_str("  ")?;
        left -= 1;
    }
    Ok(())
}

// The name of a root, where it has one.
fn push_root(out: &mut String, names: &[Text], root: usize) -> Result<(), AllocError>
    ensures { OnOk result (Appends out.old out.new (root_front (slice_get names.now root))) }
{
    match names.get(root) {
        Some(name) => push_root_name(out, name),
        None => Ok(()),
    }
}

// The name of a root.
fn push_root_name(out: &mut String, name: &Text) -> Result<(), AllocError>
    ensures { OnOk result (Appends out.old out.new (name.now ++ codes " = ")) }
{
    out.push_str(name.as_str())?;
    out.push_str(" = ")
}

// A feature, before its value.
fn push_feature(
    alloc: Global,
    out: &mut String,
    sig: &Signature,
    level: usize,
    feature: FeatId,
) -> Result<(), AllocError>
    requires { feature < length sig.now.features }
    ensures { OnOk result (Appends out.old out.new
        (indentation level ++ (printed_name (name_of sig.now.features feature) ++ codes ": "))) }
{
    push_indentation(out, level)?;
    push_name(alloc, out, sig.feat_name(feature))?;
    out.push_str(": ")
}

// What stands on a line before its node.
fn push_front(
    alloc: Global,
    out: &mut String,
    sig: &Signature,
    names: &[Text],
    place: Place,
) -> Result<(), AllocError>
    requires { is_place_in (length sig.now.features) place ≡ true }
    ensures { OnOk result (Appends out.old out.new (front sig.now names.now place)) }
{
    match place {
        Place::Root(root) => push_root(out, names, root),
        Place::Value(level, feature) => push_feature(alloc, out, sig, level, feature),
        Place::Also => out.push_str("also "),
    }
}

// A tag.
fn push_tag(out: &mut String, tag: usize) -> Result<(), AllocError>
    ensures { OnOk result (Appends out.old out.new (tag_text tag)) }
{
    write!(out, "[{tag}]")
}

// The tag of a node that has one, before its type.
fn push_type_front(out: &mut String, tag: usize) -> Result<(), AllocError>
    ensures { OnOk result (Appends out.old out.new (type_front tag)) }
{
    if tag == 0 {
        return Ok(());
    }
    push_tag(out, tag)?;
    out.push_str(" ")
}

// The type of a node.
fn push_type(alloc: Global, out: &mut String, sig: &Signature, of: TypeId) -> Result<(), AllocError>
    requires { of < length sig.now.types }
    ensures { OnOk result (Appends out.old out.new (printed_name (name_of sig.now.types of))) }
{
    push_name(alloc, out, sig.type_name(of))
}

// A node where it is met for the first time.
fn push_first(
    alloc: Global,
    out: &mut String,
    sig: &Signature,
    g: &Graph,
    tags: &[usize],
    node: usize,
) -> Result<(), AllocError>
    requires of { IsOf (length sig.now.types) (length sig.now.features) g.now }
    requires node { node < count g.now }
    ensures { OnOk result (Appends out.old out.new
        (type_front (get_or tags.now node 0) ++ printed_name (name_of sig.now.types (type_of g.now node)))) }
{
    push_type_front(out, tag_of(tags, node))?;
    push_type(alloc, out, sig, g.nodes.as_slice()[node].of)
}

// What a line shows.
fn push_shown(
    alloc: Global,
    out: &mut String,
    sig: &Signature,
    g: &Graph,
    tags: &[usize],
    shown: Shown,
) -> Result<(), AllocError>
    requires of { IsOf (length sig.now.types) (length sig.now.features) g.now }
    requires shown { is_shown_below (count g.now) shown ≡ true }
    ensures { OnOk result (Appends out.old out.new (shown_text sig.now (type_of g.now) (λ n. get_or tags.now n 0) shown)) }
{
    match shown {
        Shown::Unbound => out.push_str("_"),
        Shown::First(node) => push_first(alloc, out, sig, g, tags, node),
        Shown::Again(node) => push_tag(out, tag_of(tags, node)),
    }
}

// A line.
fn push_line(
    alloc: Global,
    out: &mut String,
    sig: &Signature,
    names: &[Text],
    g: &Graph,
    tags: &[usize],
    line: &Line,
) -> Result<(), AllocError>
    requires of { IsOf (length sig.now.types) (length sig.now.features) g.now }
    requires line { (is_shown_below (count g.now) line.now.shown && is_place_in (length sig.now.features) line.now.place) ≡ true }
    ensures { OnOk result (Appends out.old out.new
        (line_text sig.now names.now (type_of g.now) (λ n. get_or tags.now n 0) line.now)) }
{
    push_front(alloc, out, sig, names, line.place)?;
    push_shown(alloc, out, sig, g, tags, line.shown)?;
    out.push_str("\n")
}

// The lines.
pub(crate) fn push_lines(
    alloc: Global,
    out: &mut String,
    sig: &Signature,
    names: &[Text],
    g: &Graph,
    tags: &[usize],
    lines: &[Line],
) -> Result<(), AllocError>
    requires of { IsOf (length sig.now.types) (length sig.now.features) g.now }
    requires lines { are_in (count g.now) (length sig.now.features) lines.now ≡ true }
    ensures { OnOk result (Appends out.old out.new
        (flat_map (line_text sig.now names.now (type_of g.now) (λ n. get_or tags.now n 0)) lines.now)) }
{
    for line in lines {
        push_line(alloc, out, sig, names, g, tags, line)?;
    }
    Ok(())
}

// The line of a differing pair.
fn push_pair(out: &mut String, pair: (usize, usize)) -> Result<(), AllocError>
    ensures { OnOk result (Appends out.old out.new (pair_text pair)) }
{
    push_tag(out, pair.0)?;
    out.push_str(" =\\= ")?;
    push_tag(out, pair.1)?;
    out.push_str("\n")
}

// The lines of differing pairs.
pub(crate) fn push_pairs(out: &mut String, pairs: &[(usize, usize)]) -> Result<(), AllocError>
    ensures { OnOk result (Appends out.old out.new (flat_map pair_text pairs.now)) }
{
    for pair in pairs {
        push_pair(out, *pair)?;
    }
    Ok(())
}
