//! Reading a whole file.
ghost use Rattle.std.specs.Prelude.{◌≡◌, ◌↔◌, ◌⊎◌, ◌+◌, ◌^◌, ◌<◌, ◌≤◌, ℕ, List, [], Some, drop, length, vec_len, IfSome, IfOk, OnOk, IsErrOf};
ghost use Rattle.ale_base.specs.Faults.{ExactlyWhereRose};
ghost use Rattle.ale_base.specs.Readings.{TookAtMost};

use crate::fault::Failed;
use crate::input::{ChooseError, Files};
use std::alloc::{AllocError, Global};
use thiserror::Error;

/// Why a file was not read.
#[derive(Clone, Copy, Debug, PartialEq, Eq, Error)]
pub enum ReadError {
    /// A call of the files failed; their count of faults rose.
    #[error("Failed")]
    Failed,
    /// The file has more bytes than the limit, and one more than the limit were taken.
    #[error("TooLong")]
    TooLong,
    /// Memory ran out.
    #[error("NoMemory")]
    NoMemory,
}

impl From<AllocError> for ReadError {
    ghost use Rattle.std.specs.Prelude.{◌≡◌};
    ghost use Rattle.ale_base.specs.declared.reading.ReadError.TheVariants.{NoMemory};

    ghost from_gives = { λ _ error. error ≡ NoMemory };

    fn from(_error: AllocError) -> ReadError {
        ReadError::NoMemory
    }
}

impl From<Failed> for ReadError {
    ghost use Rattle.std.specs.Prelude.{◌≡◌};
    ghost use Rattle.ale_base.specs.declared.reading.ReadError.TheVariants as read;

    ghost from_gives = { λ _ error. error ≡ read.Failed };

    fn from(_error: Failed) -> ReadError {
        ReadError::Failed
    }
}

impl From<ChooseError> for ReadError {
    ghost use Rattle.std.specs.Prelude.{◌≡◌};
    ghost use Rattle.ale_base.specs.ReadErrors.{read_error};

    ghost from_gives = { λ refused error. error ≡ read_error refused };

    fn from(error: ChooseError) -> ReadError {
        match error {
            ChooseError::Failed => ReadError::Failed,
            ChooseError::NoMemory => ReadError::NoMemory,
        }
    }
}

// How many bytes are asked for at once.
const CHUNK: usize = 65_536;

/// Reads the whole file of this name, to its end. `limit` is the most bytes that the file may have.
///
/// # Errors
/// `Failed` exactly where a call of the files failed, `TooLong` exactly where `limit + 1` bytes were taken,
/// and `NoMemory` where memory ran out.
pub fn read_all<F: Files>(
    alloc: Global,
    files: &mut F,
    name: &str,
    limit: usize,
) -> Result<Vec<u8>, ReadError>
    requires limit { limit < 2 ^ 32 }
    requires may_choose { F.may_choose files.old name.now }
    ensures whole { IfSome (F.content files.old name.now)
        (λ all. IfOk result (λ bytes. bytes.items ≡ all)) }
    ensures ended { IfSome (F.content files.old name.now)
        (λ all. OnOk result (F.left files.new ≡ Some [])) }
    ensures length { IfOk result (λ bytes. vec_len bytes ≤ limit) }
    ensures too_long { IfSome (F.content files.old name.now) (λ all.
        IsErrOf result ReadError.TooLong → (limit < length all)
        × (F.left files.new ≡ Some (drop (limit + 1) all))) }
    // At every other answer no more than `limit` bytes were taken; where the file was not chosen none were.
    ensures within { IfSome (F.content files.old name.now) (λ all. IsErrOf result ReadError.TooLong
        ⊎ (F.left files.new ≡ F.left files.old) ⊎ TookAtMost limit all (F.left files.new)) }
    ensures content { F.content files.new ≡ F.content files.old }
    ensures names { (other : List ℕ) → F.may_choose files.new other ↔ F.may_choose files.old other }
    ensures faults { ExactlyWhereRose (F.faults files.old) (F.faults files.new)
        (IsErrOf result ReadError.Failed) }
{
    files.choose(name)?;
    let mut buffer = vec![in alloc; 0u8; CHUNK.min(limit + 1)]?;
    let mut bytes = Vec::new(alloc);
    'chunks: loop {
        let asked = (limit + 1 - bytes.len()).min(buffer.len());
        let chunk = &mut buffer[..asked];
        let count = files.read(chunk)?;
        if count == 0 {
            return Ok(bytes);
        }
        if bytes.len() + count > limit {
            return Err(ReadError::TooLong);
        }
        bytes.extend_from_slice(&chunk[..count])?;
    }
}

#[cfg(test)]
mod tests {
    use super::*;
    use crate::memory_files::MemoryFiles;

    // Reads a file of these bytes, where the calls in `failing` fail.
    fn read_of(
        alloc: Global,
        text: &[u8],
        limit: u32,
        failing: Vec<u64>,
    ) -> Result<Vec<u8>, ReadError> {
        let mut files = MemoryFiles::new(alloc, failing);
        files.add("grammar", text)?;
        read_all(alloc, &mut files, "grammar", limit as usize)
    }

    #[test]
    fn reads_up_to_the_limit(rt: HostRuntime) -> Result<(), AllocError> {
        let alloc = rt.alloc();
        let bytes = vec![in alloc; 7u8; 70_000]?;
        let text = bytes.as_slice();
        for (limit, failing, want) in [
            (70_000, 9, None),
            (70_001, 9, None),
            (69_999, 9, Some(ReadError::TooLong)),
            (0, 9, Some(ReadError::TooLong)),
            (70_000, 0, Some(ReadError::Failed)),
            (70_000, 2, Some(ReadError::Failed)),
        ] {
            match read_of(alloc, text, limit, vec![in alloc; failing]?) {
                Ok(read) => {
                    assert_eq!(rt; want, None, "at {limit}");
                    assert!(rt; read.as_slice() == text, "at {limit}");
                }
                Err(error) => assert_eq!(rt; want, Some(error), "at {limit}"),
            }
        }
        Ok(())
    }
}
