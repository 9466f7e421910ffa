//! Faults by the names of the types and features that show them.
ghost use Rattle.std.specs.Prelude.{◌≡◌, IfOk, Some};
ghost use Rattle.ale_declared.specs.Names.{name_of};
ghost use Rattle.ale_hierarchy.specs.Refusals.{named_fault, RefusesFor};

use crate::error::SigError;
use crate::fault::Fault;
use ale_declared::Outline;
use ale_text::Text;
use std::alloc::{AllocError, Global};

/// The refusal for a fault; `NoMemory` where there is no memory for the names.
pub fn refusal(alloc: Global, outline: &Outline, fault: Fault) -> SigError
    ensures { RefusesFor outline.now (Some fault) result }
{
    match named(alloc, outline, fault) {
        Ok(error) => error,
        Err(_) => SigError::NoMemory,
    }
}

/// A fault by names.
fn named(alloc: Global, outline: &Outline, fault: Fault) -> Result<SigError, AllocError>
    ensures { IfOk result (λ e. e ≡ named_fault outline.now fault) }
{
    let error = match fault {
        Fault::TooManyTypes => SigError::TooManyTypes,
        Fault::TooManyFeatures => SigError::TooManyFeatures,
        Fault::SubCycle(t) => SigError::SubCycle(type_text(alloc, outline, t)?),
        Fault::NoJoin(a, b, c, d) => no_join(alloc, outline, a, b, c, d)?,
        Fault::TwoIntros(f, a, b) => two_intros(alloc, outline, f, a, b)?,
        Fault::ValueClash(t, f) => value_clash(alloc, outline, t, f)?,
        Fault::Loop(t) => SigError::Loop(type_text(alloc, outline, t)?),
        Fault::ExtNotMaximal(t) => SigError::ExtNotMaximal(type_text(alloc, outline, t)?),
        Fault::FillTooLarge(t) => SigError::FillTooLarge(type_text(alloc, outline, t)?),
    };
    Ok(error)
}

/// That two types have no join, by names.
fn no_join(
    alloc: Global,
    outline: &Outline,
    a: usize,
    b: usize,
    c: usize,
    d: usize,
) -> Result<SigError, AllocError>
    ensures { IfOk result (λ e. e ≡ SigError.NoJoin (name_of outline.now.types a) (name_of outline.now.types b) (name_of outline.now.types c) (name_of outline.now.types d)) }
{
    let first = type_text(alloc, outline, a)?;
    let second = type_text(alloc, outline, b)?;
    let third = type_text(alloc, outline, c)?;
    let fourth = type_text(alloc, outline, d)?;
    Ok(SigError::NoJoin(first, second, third, fourth))
}

/// That a feature has two intros, by names.
fn two_intros(
    alloc: Global,
    outline: &Outline,
    f: usize,
    a: usize,
    b: usize,
) -> Result<SigError, AllocError>
    ensures { IfOk result (λ e. e ≡ SigError.TwoIntros (name_of outline.now.features f) (name_of outline.now.types a) (name_of outline.now.types b)) }
{
    let feature = feature_text(alloc, outline, f)?;
    let first = type_text(alloc, outline, a)?;
    let second = type_text(alloc, outline, b)?;
    Ok(SigError::TwoIntros(feature, first, second))
}

/// That restrictions clash, by names.
fn value_clash(alloc: Global, outline: &Outline, t: usize, f: usize) -> Result<SigError, AllocError>
    ensures { IfOk result (λ e. e ≡ SigError.ValueClash (name_of outline.now.types t) (name_of outline.now.features f)) }
{
    let at = type_text(alloc, outline, t)?;
    let feature = feature_text(alloc, outline, f)?;
    Ok(SigError::ValueClash(at, feature))
}

/// The name of a type; empty where there is no such type.
fn type_text(alloc: Global, outline: &Outline, t: usize) -> Result<Text, AllocError>
    ensures { IfOk result (λ x. x ≡ name_of outline.now.types t) }
{
    if t >= outline.type_count() {
        return Ok(Text::of(String::new(alloc)));
    }
    Ok(Text::of(String::from_str(alloc, outline.type_name(t))?))
}

/// The name of a feature; empty where there is no such feature.
fn feature_text(alloc: Global, outline: &Outline, f: usize) -> Result<Text, AllocError>
    ensures { IfOk result (λ x. x ≡ name_of outline.now.features f) }
{
    if f >= outline.feat_count() {
        return Ok(Text::of(String::new(alloc)));
    }
    Ok(Text::of(String::from_str(alloc, outline.feat_name(f))?))
}
