//! The text of a structure.
ghost use Rattle.std.specs.Prelude.{◌≡◌, ◌<◌, ℕ, IfOk, OnOk, map, get_or, length, encode_utf8_all, string_bytes};
ghost use Rattle.std.specs.Str.{chars};
ghost use Rattle.ale_hierarchy.specs.Order.{hierarchy};
ghost use Rattle.ale_graph.specs.Structures.{IsStructure, count};
ghost use Rattle.ale_print.specs.Appending.{Appends};
ghost use Rattle.ale_print.specs.Tagging.{tag_of};
ghost use Rattle.ale_print.specs.Texts.{answer_text, tag_pairs};

use crate::pairs::in_order;
use crate::tags::{tag_of, tags};
use crate::text::{push_lines, push_pairs};
use crate::walk::lines;
use ale_graph::Graph;
use ale_signature::Signature;
use ale_text::Text;
use std::alloc::{AllocError, Global};

// The pair, by its tags.
fn tag_pair(tags: &[usize], pair: (usize, usize)) -> (usize, usize)
    ensures { result ≡ (get_or tags.now pair.0 0, get_or tags.now pair.1 0) }
{
    (tag_of(tags, pair.0), tag_of(tags, pair.1))
}

// The pairs, by their tags.
fn tag_all(
    alloc: Global,
    tags: &[usize],
    pairs: &[(usize, usize)],
) -> Result<Vec<(usize, usize)>, AllocError>
    ensures { IfOk result (λ v. v.items ≡ map (λ p. (get_or tags.now p.0 0, get_or tags.now p.1 0)) pairs.now) }
{
    let mut tagged = Vec::with_capacity(alloc, pairs.len())?;
    for pair in pairs {
        tagged.push(tag_pair(tags, *pair))?;
    }
    Ok(tagged)
}

// The differing pairs by their tags, in order.
fn tag_pairs(alloc: Global, g: &Graph, tags: &[usize]) -> Result<Vec<(usize, usize)>, AllocError>
    requires { (n : ℕ) → n < count g.now → get_or tags.now n 0 ≡ tag_of g.now n }
    ensures { IfOk result (λ v. v.items ≡ tag_pairs g.now) }
{
    let tagged = tag_all(alloc, tags, g.differ.as_slice())?;
    in_order(alloc, tagged.as_slice())
}

// Writes the text of a structure.
fn push_answer(
    alloc: Global,
    out: &mut String,
    sig: &Signature,
    g: &Graph,
    names: &[Text],
) -> Result<(), AllocError>
    requires { IsStructure (hierarchy sig.now) g.now }
    ensures { OnOk result (Appends out.old out.new (answer_text sig.now names.now g.now)) }
{
    let _ = sig.type_count();
    let differ = g.differ.as_slice();
    let pairs = in_order(alloc, differ)?;
    let lines = lines(alloc, g, pairs.as_slice())?;
    let count = g.nodes.as_slice().len();
    let tags = tags(alloc, count, lines.as_slice(), differ)?;
    let tagged = tag_pairs(alloc, g, tags.as_slice())?;
    push_lines(alloc, out, sig, names, g, tags.as_slice(), lines.as_slice())?;
    push_pairs(out, tagged.as_slice())
}

/// The text of a structure with these names of its roots; the roots stand bare where there are no names.
///
/// Nodes are met depth first. Where a node is met for the first time its type stands, and each feature with its value on
/// a line of its own, indented by two spaces more; a node that is met twice or differs from another has a tag, by which
/// it stands where it is met again. A root that is unbound is `_`. Nodes that differ and that no root reaches follow
/// after `also`, and then the pairs that differ, by their tags. It takes time and memory in proportion to what is
/// visible, but for putting the pairs in order, and one flag and one number for each node.
pub fn print_answer(
    alloc: Global,
    sig: &Signature,
    g: &Graph,
    names: &[Text],
) -> Result<String, AllocError>
    requires { IsStructure (hierarchy sig.now) g.now }
    ensures value { IfOk result (λ text. chars (string_bytes text) ≡ answer_text sig.now names.now g.now) }
    ensures bytes { IfOk result (λ text. string_bytes text ≡ encode_utf8_all (answer_text sig.now names.now g.now)) }
{
    let mut out = String::new(alloc);
    push_answer(alloc, &mut out, sig, g, names)?;
    Ok(out)
}
