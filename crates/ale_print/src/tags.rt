//! The tags of nodes.
ghost use Rattle.std.specs.Prelude.{◌≡◌, ◌<◌, ◌^◌, ◌+◌, ◌≤◌, ℕ, IfOk, length, true, false, get_or, slice_set};
ghost use Rattle.ale_declared.specs.Lists.{every};
ghost use Rattle.ale_print.specs.Tagging.{tag_in};
ghost use Rattle.ale_print.specs.Steps.{AreOnce, is_shown_below, flag_lines, flag_pairs, tag_lines, Tags};

use crate::flags::{flag_of, set_flag};
use crate::line::{Line, Shown};
use std::alloc::{AllocError, Global};

// Flags the nodes that are met again.
fn flag_lines(flags: &mut Vec<bool>, lines: &[Line])
    ensures { flags.new.items ≡ flag_lines lines.now flags.old.items }
{
    for line in lines {
        if let Shown::Again(node) = line.shown {
            set_flag(flags, node);
        }
    }
}

// Flags the nodes of pairs.
fn flag_pairs(flags: &mut Vec<bool>, pairs: &[(usize, usize)])
    ensures { flags.new.items ≡ flag_pairs pairs.now flags.old.items }
{
    for pair in pairs {
        set_flag(flags, pair.0);
        set_flag(flags, pair.1);
    }
}

// Gives the node a tag.
fn set_tag(tags: &mut Vec<usize>, node: usize, tag: usize)
    ensures { tags.new.items ≡ slice_set tags.old.items node tag }
{
    if let Some(given) = tags.get_mut(node) {
        *given = tag;
    }
}

// The tag of a node, and 0 where it has none.
pub(crate) fn tag_of(tags: &[usize], node: usize) -> usize
    ensures { result ≡ get_or tags.now node 0 }
{
    match tags.get(node) {
        Some(tag) => *tag,
        None => 0,
    }
}

// Gives tags to the flagged nodes in order of first meeting.
fn tag_lines(tags: &mut Vec<usize>, flags: &[bool], lines: &[Line])
    ensures { tags.new.items ≡ (tag_lines flags.now lines.now (record { given = tags.old.items; used = 0 })).given }
{
    let mut used = 0;
    for line in lines {
        if let Shown::First(node) = line.shown {
            if flag_of(flags, node) {
                used += 1;
                set_tag(tags, node, used);
            }
        }
    }
}

// The tags by which these lines show nodes, one for each of the first nodes, so many of them.
pub(crate) fn tags(
    alloc: Global,
    count: usize,
    lines: &[Line],
    pairs: &[(usize, usize)],
) -> Result<Vec<usize>, AllocError>
    requires once { AreOnce lines.now }
    requires below { every (λ l. is_shown_below count l.shown) lines.now ≡ true }
    ensures { IfOk result (λ v. (n : ℕ) → n < count → get_or v.items n 0 ≡ tag_in lines.now pairs.now n) }
{
    let mut flags = vec![in alloc; false; count]?;
    flag_lines(&mut flags, lines);
    flag_pairs(&mut flags, pairs);
    let mut tags = vec![in alloc; 0; count]?;
    tag_lines(&mut tags, flags.as_slice(), lines);
    Ok(tags)
}
