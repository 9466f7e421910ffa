//! What descriptions mean: by types, features and slots, a word for each form before its parts.
use crate::graphs::{feature_name, type_name};
use crate::meanings::Described;
use ale_logic::Desc;
use ale_signature::{FeatId, Signature};
use std::alloc::AllocError;

/// Writes the features of a path.
fn push_path(sig: &Signature, path: &[FeatId], out: &mut String) -> Result<(), AllocError> {
    out.push_str(" [")?;
    for feature in path {
        let name = feature_name(sig, *feature);
        write!(out, " {name}")?;
    }
    out.push_str(" ]")
}

/// Writes a description, a word for each form before its parts.
fn push_desc(sig: &Signature, desc: &Desc, out: &mut String) -> Result<(), AllocError> {
    out.push_str(" (")?;
    match desc {
        Desc::OfType(of) => {
            let name = type_name(sig, *of);
            write!(out, "type {name}")?;
        }
        Desc::Slot(number) => write!(out, "slot {number}")?,
        Desc::At(feature, value) => {
            let name = feature_name(sig, *feature);
            write!(out, "at {name}")?;
            push_desc(sig, value.get(), out)?;
        }
        Desc::All(parts) => {
            out.push_str("all")?;
            for part in parts.as_slice() {
                push_desc(sig, part, out)?;
            }
        }
        Desc::Any(parts) => {
            out.push_str("any")?;
            for part in parts.as_slice() {
                push_desc(sig, part, out)?;
            }
        }
        Desc::Differs(other) => {
            out.push_str("differs")?;
            push_desc(sig, other.get(), out)?;
        }
        Desc::Meet(left, right) => {
            out.push_str("meet")?;
            push_path(sig, left.as_slice(), out)?;
            push_path(sig, right.as_slice(), out)?;
        }
    }
    out.push_str(")")
}

/// Writes what a description means, with the names of its variables.
pub fn push_meaning(
    sig: &Signature,
    described: &Described,
    out: &mut String,
) -> Result<(), AllocError> {
    let slots = described.slots;
    write!(out, "{slots} slots")?;
    for name in described.names.as_slice() {
        out.push_str(" ")?;
        out.push_str(name.as_str())?;
    }
    push_desc(sig, &described.desc, out)?;
    out.push('\n')
}
