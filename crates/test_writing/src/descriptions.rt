//! Descriptions by the names of their types and features.
use ale_logic::Desc;
use ale_signature::{FeatId, Signature, TypeId};
use std::alloc::AllocError;

/// The name of a type; `?` where the signature has no such type.
pub fn type_name(sig: &Signature, of: TypeId) -> &str {
    if of.index() < sig.type_count() {
        sig.type_name(of)
    } else {
        "?"
    }
}

/// The name of a feature; `?` where the signature has no such feature.
pub fn feature_name(sig: &Signature, feature: FeatId) -> &str {
    if feature.index() < sig.feat_count() {
        sig.feat_name(feature)
    } else {
        "?"
    }
}

/// Writes the features of a path.
fn push_path(sig: &Signature, path: &[FeatId], out: &mut String) -> Result<(), AllocError> {
    out.push_str(" [")?;
    for feature in path {
        let name = feature_name(sig, *feature);
        write!(out, " {name}")?;
    }
    out.push_str(" ]")
}

/// Writes a space and a description, a word for each form before its parts.
pub fn push_desc(sig: &Signature, desc: &Desc, out: &mut String) -> Result<(), AllocError> {
    out.push_str(" (")?;
    match desc {
        Desc::OfType(of) => {
            let name = type_name(sig, *of);
            write!(out, "type {name}")?;
        }
        Desc::Slot(number) => write!(out, "slot {number}")?,
        Desc::At(feature, value) => {
            let name = feature_name(sig, *feature);
            write!(out, "at {name}")?;
            push_desc(sig, value.get(), out)?;
        }
        Desc::All(parts) => {
            out.push_str("all")?;
            for part in parts.as_slice() {
                push_desc(sig, part, out)?;
            }
        }
        Desc::Any(parts) => {
            out.push_str("any")?;
            for part in parts.as_slice() {
                push_desc(sig, part, out)?;
            }
        }
        Desc::Differs(other) => {
            out.push_str("differs")?;
            push_desc(sig, other.get(), out)?;
        }
        Desc::Meet(left, right) => {
            out.push_str("meet")?;
            push_path(sig, left.as_slice(), out)?;
            push_path(sig, right.as_slice(), out)?;
        }
    }
    out.push_str(")")
}
