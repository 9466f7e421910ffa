//! Relations of numbers, and what the edges of a graph lead to.
ghost use Rattle.std.specs.Prelude.{IfOk, IsTrue};
ghost use Rattle.ale_relation.specs.Paths.{ends_below};

use ale_relation::{Relation, reachability};
use std::alloc::{AllocError, Global};

/// The edge `FROM-TO` that a word is.
fn edge(word: &str) -> Option<(usize, usize)> {
    let (from, to) = word.split_once('-')?;
    let from = from.parse::<usize>().ok()?;
    let to = to.parse::<usize>().ok()?;
    Some((from, to))
}

/// The edges of a text whose ends are below the size, with a space between them.
fn edges_of(alloc: Global, size: usize, text: &str) -> Result<Vec<(usize, usize)>, AllocError>
    ensures { IfOk result (λ v. IsTrue (ends_below size v.items)) }
{
    let mut edges = Vec::new(alloc);
    for word in text.split(' ') {
        if let Some((from, to)) = edge(word)
            && from < size
            && to < size
        {
            edges.push((from, to))?;
        }
    }
    Ok(edges)
}

/// Writes the pairs of a relation, row by row.
fn push_pairs(relation: &Relation, out: &mut String) -> Result<(), AllocError> {
    out.push_str("pairs")?;
    for a in 0..relation.size() {
        for b in 0..relation.size() {
            if relation.holds(a, b) {
                write!(out, " {a}-{b}")?;
            }
        }
    }
    out.push('\n')
}

/// Writes how many numbers the first and the last stand to.
fn push_counts(relation: &Relation, out: &mut String) -> Result<(), AllocError> {
    let size = relation.size();
    if size > 0 {
        let first = relation.count(0);
        let last = relation.count(size - 1);
        write!(out, "counts {first} {last}\n")
    } else {
        out.push_str("counts\n")
    }
}

/// Writes the first number that both 0 and 1 stand to, and whether they stand to one to which 2 does not.
fn push_common(relation: &Relation, out: &mut String) -> Result<(), AllocError> {
    if relation.size() < 3 {
        return out.push_str("too small\n");
    }
    match relation.first_common(0, 1) {
        Some(number) => write!(out, "first {number}")?,
        None => out.push_str("none")?,
    }
    out.push_str(if relation.has_common_outside(0, 1, 2) {
        ", outside\n"
    } else {
        ", none outside\n"
    })
}

/// What the edges of `SIZE: EDGES` lead to; None where the text is not of this form.
fn relation_of(alloc: Global, text: &str) -> Result<Option<Relation>, AllocError> {
    let Some((size, edges)) = text.split_once(": ") else {
        return Ok(None);
    };
    let Ok(size) = size.parse::<usize>() else {
        return Ok(None);
    };
    if size > 65_536 {
        return Ok(None);
    }
    let edges = edges_of(alloc, size, edges)?;
    Ok(Some(reachability(alloc, size, edges.as_slice())?))
}

/// The pairs that edges lead from and to.
pub fn pairs_of(alloc: Global, text: &str) -> Result<String, AllocError> {
    let mut out = String::new(alloc);
    match &relation_of(alloc, text)? {
        Some(relation) => push_pairs(relation, &mut out)?,
        None => out.push_str("no relation\n")?,
    }
    Ok(out)
}

/// How many numbers edges lead to, from the first and from the last.
pub fn counts_of(alloc: Global, text: &str) -> Result<String, AllocError> {
    let mut out = String::new(alloc);
    match &relation_of(alloc, text)? {
        Some(relation) => push_counts(relation, &mut out)?,
        None => out.push_str("no relation\n")?,
    }
    Ok(out)
}

/// What edges lead to from both 0 and 1.
pub fn common_of(alloc: Global, text: &str) -> Result<String, AllocError> {
    let mut out = String::new(alloc);
    match &relation_of(alloc, text)? {
        Some(relation) => push_common(relation, &mut out)?,
        None => out.push_str("no relation\n")?,
    }
    Ok(out)
}

/// The pairs of a relation on the numbers below 130, to which two were added.
pub fn added_pairs(alloc: Global) -> Result<String, AllocError> {
    let mut relation = Relation::new(alloc, 130)?;
    relation.add(129, 64);
    relation.add(0, 129);
    let mut out = String::new(alloc);
    push_pairs(&relation, &mut out)?;
    Ok(out)
}
