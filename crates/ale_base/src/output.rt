//! What is written.
ghost use Rattle.std.specs.Prelude.{◌≡◌, ◌<◌, ℕ, List, Option, length, IfOk, IsErr};
ghost use Rattle.std.specs.Io.{WritesAtMost};
ghost use Rattle.std.specs.Io.KnownBytes.{WriteAppends};
ghost use Rattle.ale_base.specs.Faults.{ExactlyWhereRose};

use crate::fault::Failed;

/// A place that bytes are written to.
pub trait Sink {
    // The bytes written so far, where they are told.
    ghost written: { Self → Option (List ℕ) };

    // How many calls failed, up to the last value of the count. It never falls.
    ghost faults: { Self → ℕ };

    /// Appends the first bytes of `piece`, and answers how many: at least one, unless `piece` is
    /// empty. Where it fails nothing was appended. Takes no memory.
    fn write(&mut self, piece: &[u8]) -> Result<usize, Failed>
        ensures bound { WritesAtMost result piece.now }
        ensures some { IfOk result (λ count. 0 < length piece.now → 0 < count) }
        ensures bytes { WriteAppends (written self.old) (written self.new) result piece.now }
        ensures faults { ExactlyWhereRose (faults self.old) (faults self.new) (IsErr result) };
}
