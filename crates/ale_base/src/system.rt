//! What the answers of the system mean. All that the files and the output of the system decide stands here;
//! what is left to them is to pass on what they were called with.
ghost use Rattle.std.specs.Prelude.{◌≡◌, ◌≢◌, ◌↔◌};
ghost use Rattle.ale_base.specs.Systems.{taken, given};

use crate::input::ChooseError;
use std::io::{self, ErrorKind};

/// How many bytes of a piece of `asked` bytes were written, by the system's answer: as many as it says.
/// `None` is a failure: an error, or no byte of a piece that is not empty.
pub fn taken(answer: io::Result<usize>, asked: usize) -> Option<usize>
    ensures { result ≡ taken answer asked }
{
    match answer {
        Ok(count) if count > 0 || asked == 0 => Some(count),
        _ => None,
    }
}

/// How many bytes were read, by the system's answer: as many as it says. `None` is a failure.
pub fn given(answer: io::Result<usize>) -> Option<usize>
    ensures { result ≡ given answer }
{
    answer.ok()
}

/// Why a file was not chosen, by the kind of the system's error: memory ran out only where the system says
/// so.
pub fn why_not_chosen(kind: ErrorKind) -> ChooseError
    ensures memory { (result ≡ ChooseError.NoMemory) ↔ (kind ≡ ErrorKind.OutOfMemory) }
    ensures failed { (result ≡ ChooseError.Failed) ↔ (kind ≢ ErrorKind.OutOfMemory) }
{
    if kind == ErrorKind::OutOfMemory {
        ChooseError::NoMemory
    } else {
        ChooseError::Failed
    }
}
