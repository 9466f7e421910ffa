//! The standard output.
ghost use Rattle.std.specs.Prelude.{◌≡◌, ◌<◌, None, length, IfOk, OnOk, OnErr, IsErr};
ghost use Rattle.std.specs.Io.{WritesAtMost};
ghost use Rattle.std.specs.Io.KnownBytes.{WriteAppends};
ghost use Rattle.ale_base.specs.Faults.{ExactlyWhereRose, next_count};

use crate::fault::Failed;
use crate::output::Sink;
use crate::system::taken;
use std::io::Print;

/// The standard output. What was written is not told.
#[derive(Drop)]
pub struct RealSink<'a, R: Print> {
    rt: &'a R,
    pub(crate) faults: u64,
}

impl<'a, R: Print> RealSink<'a, R> {
    /// Nothing failed yet.
    pub fn new(rt: &'a R) -> RealSink<'a, R>
        ensures { result.faults ≡ 0 }
    {
        RealSink { rt, faults: 0 }
    }
}

impl<'a, R: Print> Sink for RealSink<'a, R> {
    ghost written = { λ _. None };

    ghost faults = { λ sink. sink.faults };

    fn write(&mut self, piece: &[u8]) -> Result<usize, Failed>
        ensures bound { WritesAtMost result piece.now }
        ensures told { WriteAppends None None result piece.now }
        ensures some { IfOk result (λ count. 0 < length piece.now → 0 < count) }
        ensures faults { ExactlyWhereRose self.old.faults self.new.faults (IsErr result) }
        ensures ok { OnOk result (self.new.faults ≡ self.old.faults) }
        ensures failed { OnErr result (self.new.faults ≡ next_count self.old.faults) }
    {
        match taken(self.rt.write_some(piece), piece.len()) {
            Some(count) => Ok(count),
            None => {
                self.faults = self.faults.saturating_add(1);
                Err(Failed)
            }
        }
    }
}

#[cfg(test)]
mod tests {
    use super::*;

    #[test]
    fn writes_to_the_standard_output(rt: HostRuntime) {
        let mut sink = RealSink::new(&rt);
        assert_eq!(rt; sink.write(b""), Ok(0));
        assert_eq!(rt; sink.write(b"!\n"), Ok(2));
        assert_eq!(rt; sink.faults, 0);
    }
}
