//! Slots that stand in the sides of a line.

ghost use Rattle.std.specs.Prelude.{◌≡◌};
ghost use Rattle.ale_morph.specs.Bound.{stands, stand_in, is_bound};

use crate::line::{Line, Piece};

// Whether the slot is one of the pieces.
pub(crate) fn stands(slot: u32, pieces: &[Piece]) -> bool
    ensures { result ≡ stands slot pieces.now }
{
    for piece in pieces {
        if let Piece::Slot(other) = piece {
            if *other == slot {
                return true;
            }
        }
    }
    false
}

impl Line {
    /// Whether each slot of the right side stands in the left side.
    pub fn is_bound(&self) -> bool
        ensures { result ≡ is_bound self.now }
    {
        let left = self.left.as_slice();
        let right = self.right.as_slice();
        for piece in right {
            if let Piece::Slot(slot) = piece {
                if !stands(*slot, left) {
                    return false;
                }
            }
        }
        true
    }
}
