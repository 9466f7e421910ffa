ghost use Rattle.std.specs.Prelude.{◌≡◌, map, IfOk};
ghost use Rattle.ale_declared.specs.Lists.{upto};
ghost use Rattle.ale_graph.specs.Drafts.{class_in, type_in, renamed};
ghost use Rattle.ale_graph.specs.Joining.{merge};

use ale_signature::TypeId;
use std::alloc::{AllocError, Global};

/// The class of a node.
pub(crate) fn class_of(class: &[usize], node: usize) -> usize
    ensures { result ≡ class_in class.now node }
{
    match class.get(node) {
        Some(number) => *number,
        None => node,
    }
}

/// The type of a class.
pub(crate) fn type_of(types: &[TypeId], node: usize) -> TypeId
    ensures { result ≡ type_in types.now node }
{
    match types.get(node) {
        Some(of) => *of,
        None => TypeId::of(0),
    }
}

/// Each of the nodes below `next` as a class of its own.
pub(crate) fn own_classes(alloc: Global, next: usize) -> Result<Vec<usize>, AllocError>
    ensures { IfOk result (λ v. v.items ≡ upto next) }
{
    let mut class = Vec::with_capacity(alloc, next)?;
    for node in 0..next {
        class.push(node)?;
    }
    Ok(class)
}

/// One class number for another.
fn renamed(number: usize, from: usize, to: usize) -> usize
    ensures { result ≡ renamed from to number }
{
    if number == from { to } else { number }
}

/// Writes one class number for another.
fn rename(class: &mut Vec<usize>, from: usize, to: usize)
    ensures { class.new.items ≡ map (renamed from to) class.old.items }
{
    for number in class.iter_mut() {
        *number = renamed(*number, from, to);
    }
}

/// Puts all nodes of the two classes into the lower one.
pub(crate) fn merge(class: &mut Vec<usize>, a: usize, b: usize)
    ensures { class.new.items ≡ merge a b class.old.items }
{
    if a < b {
        rename(class, b, a);
    } else {
        rename(class, a, b);
    }
}
