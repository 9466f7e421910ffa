//! The extensional types, below which no other may be.
ghost use Rattle.std.specs.Prelude.{◌≡◌, ◌<◌, ◌==◌, ◌&&◌, not, IfOk, IfErr, OnOk, None, length};
ghost use Rattle.ale_hierarchy.specs.Order.{is_above, is_ext, all_types};
ghost use Rattle.ale_declared.specs.Lists.{is_among};
ghost use Rattle.ale_hierarchy.specs.Faults.{some, ext_fault};
ghost use Rattle.ale_hierarchy.specs.Refusals.{RefusesFor};
ghost use Rattle.ale_hierarchy.specs.Stages.{tabulated};

use crate::error::SigError;
use crate::fault::Fault;
use crate::naming::refusal;
use crate::order::Order;
use std::alloc::{AllocError, Global};

/// Refuses where another type is below an extensional one.
pub fn check_ext(alloc: Global, order: &Order) -> Result<(), SigError>
    ensures none { OnOk result (ext_fault order.now ≡ None) }
    ensures refused { IfErr result (λ e. RefusesFor order.now (ext_fault order.now) e) }
{
    match not_maximal(order) {
        Some(fault) => Err(refusal(alloc, order.outline(), fault)),
        None => Ok(()),
    }
}

/// The first extensional type below which another is.
fn not_maximal(order: &Order) -> Option<Fault>
    ensures { result ≡ ext_fault order.now }
{
    for t in 0..order.type_count() {
        if is_among(t, order.outline().ext()) && !is_last(order, t) {
            return Some(Fault::ExtNotMaximal(t));
        }
    }
    None
}

/// Which types are extensional.
pub fn ext_flags(alloc: Global, order: &Order) -> Result<Vec<bool>, AllocError>
    ensures { IfOk result (λ v. v.items ≡ tabulated (is_ext order.now) (length order.now.types)) }
{
    let mut flags = Vec::new(alloc);
    for t in 0..order.type_count() {
        flags.push(is_among(t, order.outline().ext()))?;
    }
    Ok(flags)
}

/// Whether a number is among some.
fn is_among(x: usize, numbers: &[usize]) -> bool
    ensures { result ≡ is_among x numbers.now }
{
    for &y in numbers {
        if y == x {
            return true;
        }
    }
    false
}

/// Whether no other type is below a type.
fn is_last(order: &Order, t: usize) -> bool
    requires { t < length order.now.types }
    ensures { result ≡ not (some (λ u. not (t == u) && is_above order.now t u) (all_types order.now)) }
{
    for u in 0..order.type_count() {
        if t != u && order.is_above(t, u) {
            return false;
        }
    }
    true
}
