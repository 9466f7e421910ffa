//! Facts as they are written in cases.
use ale_graph::Fact;
use ale_signature::Signature;
use std::alloc::{AllocError, Global};

/// The number that a word is.
fn number(word: &str) -> Option<usize> {
    word.parse::<usize>().ok()
}

/// The fact of these words about one node and a type, or two nodes.
fn short_fact(sig: &Signature, kind: &str, one: &str, other: &str) -> Option<Fact> {
    let one = number(one)?;
    match kind {
        "type" => Some(Fact::OfType(one, sig.type_named(other)?)),
        "same" => Some(Fact::Same(one, number(other)?)),
        "differ" => Some(Fact::Differ(one, number(other)?)),
        _ => None,
    }
}

/// The fact of these words about a value.
fn value_fact(sig: &Signature, node: &str, feature: &str, value: &str) -> Option<Fact> {
    let node = number(node)?;
    let feature = sig.feat_named(feature)?;
    Some(Fact::Value(node, feature, number(value)?))
}

/// The fact that words stand for.
fn fact(sig: &Signature, words: &[&str]) -> Option<Fact> {
    match words {
        [kind, one, other] => short_fact(sig, kind, one, other),
        ["value", node, feature, value] => value_fact(sig, node, feature, value),
        _ => None,
    }
}

/// The words of a text, with a space between them.
fn words<'a>(alloc: Global, text: &'a str) -> Result<Vec<&'a str>, AllocError> {
    let mut words = Vec::new(alloc);
    for word in text.split(' ') {
        words.push(word)?;
    }
    Ok(words)
}

/// The facts `type N T`, `value N F M`, `same N M` and `differ N M` of a text, with `, ` between them; what is no such
/// fact over the signature is left out.
pub fn facts_of(alloc: Global, sig: &Signature, text: &str) -> Result<Vec<Fact>, AllocError> {
    let mut facts = Vec::new(alloc);
    for part in text.split(", ") {
        let words = words(alloc, part)?;
        if let Some(found) = fact(sig, words.as_slice()) {
            facts.push(found)?;
        }
    }
    Ok(facts)
}
