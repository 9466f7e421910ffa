//! What is read.
ghost use Rattle.std.specs.Prelude.{◌≡◌, ◌↔◌, ℕ, Bool, true, false, List, Option, Some, IfSome, OnOk, OnErr, IfOk, IsErr, IsErrOf};
ghost use Rattle.std.specs.Io.{ReadsAtMost};
ghost use Rattle.std.specs.Io.KnownBytes.{ReadConsumes};
ghost use Rattle.ale_base.specs.Faults.{ExactlyWhereRose};

use crate::fault::Failed;
use thiserror::Error;

/// Why a file was not chosen.
#[derive(Clone, Copy, Debug, PartialEq, Eq, Error)]
pub enum ChooseError {
    /// The file cannot be opened; the count of faults rose.
    #[error("Failed")]
    Failed,
    /// Memory ran out; the count of faults stays.
    #[error("NoMemory")]
    NoMemory,
}

/// Files that are read one after another, each chosen by its name.
pub trait Files {
    // The bytes of the file of a name, where they are told. No call changes them.
    ghost content: { Self → List ℕ → Option (List ℕ) };

    // The bytes that are left of the chosen file, where they are told.
    ghost left: { Self → Option (List ℕ) };

    // Whether a file is chosen.
    ghost is_chosen: { Self → Bool };

    // Which names may be chosen. No call changes it.
    ghost may_choose: { Self → List ℕ → Type 0 };

    // How many calls failed, up to the last value of the count. It never falls.
    ghost faults: { Self → ℕ };

    /// Makes the file of this name the one that is read, from its first byte on. At an error the file that
    /// was chosen stays, with what is left of it.
    fn choose(&mut self, name: &str) -> Result<(), ChooseError>
        requires { may_choose self.old name.now }
        ensures whole { OnOk result (IfSome (content self.old name.now)
            (λ bytes. left self.new ≡ Some bytes)) }
        ensures chosen { OnOk result (is_chosen self.new ≡ true) }
        ensures stays { OnErr result (left self.new ≡ left self.old) }
        ensures chosen_stays { OnErr result (is_chosen self.new ≡ is_chosen self.old) }
        ensures content { content self.new ≡ content self.old }
        ensures names { (other : List ℕ) → may_choose self.new other ↔ may_choose self.old other }
        ensures faults { ExactlyWhereRose (faults self.old) (faults self.new)
            (IsErrOf result ChooseError.Failed) }
        ensures memory { IsErrOf result ChooseError.NoMemory → faults self.new ≡ faults self.old };

    /// Reads the next bytes of the chosen file into the front of `buf`, and answers how many. For a
    /// buffer that is not empty, 0 is the end of the file. Where no file is chosen it reads nothing, and
    /// answers 0 or fails. Takes no memory.
    fn read(&mut self, buf: &mut [u8]) -> Result<usize, Failed>
        ensures bound { ReadsAtMost result buf.new }
        ensures bytes { ReadConsumes (left self.old) (left self.new) result buf.new }
        ensures chosen { is_chosen self.new ≡ is_chosen self.old }
        ensures unchosen { is_chosen self.old ≡ false → IfOk result (λ count. count ≡ 0) }
        ensures content { content self.new ≡ content self.old }
        ensures names { (other : List ℕ) → may_choose self.new other ↔ may_choose self.old other }
        ensures faults { ExactlyWhereRose (faults self.old) (faults self.new) (IsErr result) };
}
