//! Writing all of a text.
ghost use Rattle.std.specs.Prelude.{◌≡◌, ◌<◌, ℕ, take, length, OnOk, OnErr, IsErr};
ghost use Rattle.std.specs.Io.KnownBytes.{Appends};
ghost use Rattle.ale_base.specs.Faults.{ExactlyWhereRose};

use crate::fault::Failed;
use crate::output::Sink;
use thiserror::Error;

/// Why not all bytes were written.
#[derive(Clone, Copy, Debug, PartialEq, Eq, Error)]
pub enum WriteError {
    /// A call of the sink failed; its count of faults rose.
    #[error("Failed")]
    Failed,
}

impl From<Failed> for WriteError {
    fn from(_error: Failed) -> WriteError {
        WriteError::Failed
    }
}

/// Writes all of `bytes`. Takes no memory of its own.
///
/// # Errors
/// `Failed` where a call of the sink failed; then a part of `bytes` from its front was written.
pub fn write_all<W: Sink>(sink: &mut W, bytes: &[u8]) -> Result<(), WriteError>
    ensures whole { OnOk result (Appends (W.written sink.old) (W.written sink.new) bytes.now) }
    ensures part { OnErr result ((count : ℕ) × (count < length bytes.now)
        × Appends (W.written sink.old) (W.written sink.new) (take count bytes.now)) }
    ensures faults { ExactlyWhereRose (W.faults sink.old) (W.faults sink.new) (IsErr result) }
{
    let mut done = 0;
    while done < bytes.len() {
        let count = sink.write(&bytes[done..])?;
        done += count;
    }
    Ok(())
}

#[cfg(test)]
mod tests {
    use super::*;
    use crate::memory_sink::MemorySink;
    use std::alloc::AllocError;

    const TEXT: &[u8] = b"abcdefghijklmnopqrstuvwxy";

    #[test]
    fn writes_until_a_call_fails(rt: HostRuntime) -> Result<(), AllocError> {
        let alloc = rt.alloc();
        for (room, failing, want, kept) in [
            (25, 9, Ok(()), 25),
            (1_048_576, 2, Err(WriteError::Failed), 20),
            (13, 9, Err(WriteError::Failed), 13),
        ] {
            let mut sink = MemorySink::new(alloc, room, 10, vec![in alloc; failing]?)?;
            assert_eq!(rt; write_all(&mut sink, TEXT), want, "room {room}");
            assert_eq!(rt; sink.bytes(), &TEXT[..kept], "room {room}");
        }
        Ok(())
    }
}
