ghost use Rattle.std.specs.Prelude.{◌≡◌, ◌<◌, IfOk, length, option_map};
ghost use Rattle.ale_declared.specs.Lists.{upto};
ghost use Rattle.ale_hierarchy.specs.Hierarchy.{IsLawful};
ghost use Rattle.ale_hierarchy.specs.Order.{hierarchy};
ghost use Rattle.ale_graph.specs.Settled.{first_some};
ghost use Rattle.ale_graph.specs.Collapsing.{double, first_double, collapse};
ghost use Rattle.ale_graph.specs.Drafts.{class_in, same_lists};
ghost use Rattle.ale_graph.specs.Keeping.{IsFull};
ghost use Rattle.ale_graph.specs.Working.{IsDraft, lists_of, filled_of, is_like, merge_in};

use crate::draft::Draft;
use crate::fact::Fact;
use crate::order::is_ext;
use crate::partition::{class_of, merge, type_of};
use crate::table::values_of;
use ale_signature::{FeatId, Signature};
use std::alloc::AllocError;

/// Whether both lists have the same features, with values of the same classes.
fn same_lists(class: &[usize], first: &[(FeatId, usize)], second: &[(FeatId, usize)]) -> bool
    ensures { result ≡ same_lists (class_in class.now) first.now second.now }
{
    for (i, value) in first.iter().enumerate() {
        match second.get(i) {
            None => return false,
            Some(other) => {
                if value.0.index() != other.0.index()
                    || class_of(class, value.1) != class_of(class, other.1)
                {
                    return false;
                }
            }
        }
    }
    second.len() <= first.len()
}

/// Whether b is a class that its type and values don't tell apart from class a.
fn is_like(draft: &Draft, a: usize, b: usize) -> bool
    ensures { result ≡ is_like (lists_of draft.now) a b }
{
    class_of(draft.class.as_slice(), b) == b
        && type_of(draft.types.as_slice(), a).index() == type_of(draft.types.as_slice(), b).index()
        && same_lists(
            draft.class.as_slice(),
            values_of(draft.values.as_slice(), a),
            values_of(draft.values.as_slice(), b),
        )
}

/// The first class that nothing tells apart from class `a`, and that is higher.
fn double_of(sig: &Signature, draft: &Draft, a: usize) -> Option<usize>
    requires draft { IsDraft (hierarchy sig.now) (lists_of draft.now) }
    requires below { a < length draft.now.class.items }
    ensures { option_map (λ b. (a, b)) result
        ≡ first_some (double (hierarchy sig.now) (filled_of (lists_of draft.now)) a) (upto (length draft.now.class.items)) }
{
    if class_of(draft.class.as_slice(), a) != a {
        return None;
    }
    if !is_ext(sig, type_of(draft.types.as_slice(), a)) {
        return None;
    }
    for b in a + 1..draft.class.len() {
        if is_like(draft, a, b) {
            return Some(b);
        }
    }
    None
}

/// The first two classes that nothing tells apart.
fn first_double(sig: &Signature, draft: &Draft) -> Option<(usize, usize)>
    requires { IsDraft (hierarchy sig.now) (lists_of draft.now) }
    ensures { result ≡ first_double (hierarchy sig.now) (filled_of (lists_of draft.now)) }
{
    for a in 0..draft.class.len() {
        if let Some(b) = double_of(sig, draft, a) {
            return Some((a, b));
        }
    }
    None
}

/// Tells two classes to be the same.
fn merge_in(draft: &mut Draft, a: usize, b: usize) -> Result<(), AllocError>
    ensures { IfOk result (λ _. lists_of draft.new ≡ merge_in a b (lists_of draft.old)) }
{
    draft.facts.push(Fact::Same(a, b))?;
    merge(&mut draft.class, a, b);
    Ok(())
}

/// Makes classes that nothing tells apart one, the first two each time.
pub(crate) fn collapse(sig: &Signature, draft: &mut Draft) -> Result<(), AllocError>
    requires lawful { IsLawful (hierarchy sig.now) }
    requires draft { IsDraft (hierarchy sig.now) (lists_of draft.old) }
    requires full { IsFull (hierarchy sig.now) (filled_of (lists_of draft.old)) }
    ensures value { IfOk result (λ _. filled_of (lists_of draft.new) ≡ collapse (hierarchy sig.now) (filled_of (lists_of draft.old))) }
    ensures draft { IfOk result (λ _. IsDraft (hierarchy sig.now) (lists_of draft.new)) }
{
    'doubles: while let Some((a, b)) = first_double(sig, draft) {
        merge_in(draft, a, b)?;
    }
    Ok(())
}
