//! The system's files.
ghost use Rattle.std.specs.Prelude.{◌≡◌, ◌↔◌, ⊤, ℕ, true, false, List, Option, None, is_some, IfSome, IsSomeAnd, OnOk, OnErr, IfOk, IsErr, IsErrOf, IsNone};
ghost use Rattle.std.specs.Io.{ReadsAtMost};
ghost use Rattle.std.specs.Io.KnownBytes.{ReadConsumes};
ghost use Rattle.ale_base.specs.Faults.{ExactlyWhereRose, next_count};

use crate::fault::Failed;
use crate::input::{ChooseError, Files};
use crate::system::{given, why_not_chosen};
use std::io::Read;
use std::{fs, rt};

/// The system's files. Every name may be chosen, and no content is told.
#[derive(Drop)]
pub struct RealFiles<'a, R: rt::Files> {
    rt: &'a R,
    chosen: Option<R::File>,
    pub(crate) faults: u64,
}

impl<'a, R: rt::Files> RealFiles<'a, R> {
    /// No file is chosen yet.
    pub fn new(rt: &'a R) -> RealFiles<'a, R>
        ensures faults { result.faults ≡ 0 }
        ensures chosen { IsNone result.chosen }
    {
        RealFiles {
            rt,
            chosen: None,
            faults: 0,
        }
    }
}

impl<'a, R: rt::Files> Files for RealFiles<'a, R> {
    ghost content = { λ _ _. None };

    ghost left = { λ _. None };

    ghost is_chosen = { λ files. is_some files.chosen };

    ghost may_choose = { λ _ _. ⊤ };

    ghost faults = { λ files. files.faults };

    // The first two clauses repeat the trait's, which say nothing where no content is told.
    fn choose(&mut self, name: &str) -> Result<(), ChooseError>
        ensures whole { OnOk result ⊤ }
        ensures chosen { OnOk result (is_some self.new.chosen ≡ true) }
        ensures stays { OnErr result (◌≡◌ {A = Option (List ℕ)} None None) }
        ensures chosen_stays { OnErr result (is_some self.new.chosen ≡ is_some self.old.chosen) }
        ensures names { (other : List ℕ) → ⊤ ↔ ⊤ }
        ensures faults { ExactlyWhereRose self.old.faults self.new.faults
            (IsErrOf result ChooseError.Failed) }
        ensures failed { IsErrOf result ChooseError.Failed
            → self.new.faults ≡ next_count self.old.faults }
        ensures memory { IsErrOf result ChooseError.NoMemory → self.new.faults ≡ self.old.faults }
        ensures ok { OnOk result (self.new.faults ≡ self.old.faults) }
    {
        match fs::open(self.rt, name) {
            Ok(file) => {
                self.chosen = Some(file);
                Ok(())
            }
            Err(error) => {
                let why = why_not_chosen(error.kind());
                if why == ChooseError::Failed {
                    self.faults = self.faults.saturating_add(1);
                }
                Err(why)
            }
        }
    }

    // `told` and `names` repeat the trait's clauses; `bytes` has what std tells of the open file.
    fn read(&mut self, buf: &mut [u8]) -> Result<usize, Failed>
        ensures bound { ReadsAtMost result buf.new }
        ensures told { ReadConsumes None None result buf.new }
        ensures chosen { is_some self.new.chosen ≡ is_some self.old.chosen }
        ensures names { (other : List ℕ) → ⊤ ↔ ⊤ }
        ensures faults { ExactlyWhereRose self.old.faults self.new.faults (IsErr result) }
        ensures ok { OnOk result (self.new.faults ≡ self.old.faults) }
        ensures failed { OnErr result (self.new.faults ≡ next_count self.old.faults) }
        ensures unchosen { is_some self.old.chosen ≡ false → IfOk result (λ count. count ≡ 0) }
        ensures nothing { IsNone self.old.chosen → result ≡ Ok 0 }
        ensures bytes { IfSome self.old.chosen (λ old. IsSomeAnd self.new.chosen (λ new.
            ReadConsumes (R.File.remaining old) (R.File.remaining new) result buf.new)) }
    {
        let read = match &mut self.chosen {
            Some(file) => given(file.read(buf)),
            None => Some(0),
        };
        match read {
            Some(count) => Ok(count),
            None => {
                self.faults = self.faults.saturating_add(1);
                Err(Failed)
            }
        }
    }
}

#[cfg(test)]
mod tests {
    use super::*;

    #[test]
    fn counts_a_file_that_does_not_exist(rt: HostRuntime) {
        let mut files = RealFiles::new(&rt);
        let mut buf = [0u8; 4];
        assert_eq!(rt; files.read(&mut buf), Ok(0));
        assert_eq!(rt; files.choose("no such file"), Err(ChooseError::Failed));
        assert_eq!(rt; files.faults, 1);
    }
}
