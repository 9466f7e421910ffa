//! Flags of nodes.
ghost use Rattle.std.specs.Prelude.{◌≡◌, false, true, get_or, slice_set};

// Whether the node is flagged.
pub(crate) fn flag_of(flags: &[bool], node: usize) -> bool
    ensures { result ≡ get_or flags.now node false }
{
    match flags.get(node) {
        Some(flag) => *flag,
        None => false,
    }
}

// Flags the node.
pub(crate) fn set_flag(flags: &mut Vec<bool>, node: usize)
    ensures { flags.new.items ≡ slice_set flags.old.items node true }
{
    if let Some(flag) = flags.get_mut(node) {
        *flag = true;
    }
}
