//! Files in memory, which fail at listed calls.
use crate::fault::Failed;
use crate::held_file::{HeldFile, copy_front, place_of, rest_at};
use crate::input::{ChooseError, Files};
use std::alloc::{AllocError, Global};
use std::marker::Model;

/// Files in memory. Their calls of `choose` and `read` are numbered together from 0; those whose
/// number is listed fail, and so does `choose` of a name that is not held.
#[derive(Drop)]
pub struct MemoryFiles {
    alloc: Global,
    held: Vec<HeldFile>,
    failing: Vec<u64>,
    calls: u64,
    faults: u64,
    chosen: Option<usize>,
    at: usize,
}

impl Model for MemoryFiles {
    ghost use Rattle.std.specs.Prelude.{vec_len, ◌<◌, is_some};
    ghost use Rattle.std.specs.Option.{ForSome};
    ghost use Rattle.ale_base.specs.HeldFiles.{HeldFiles, rest_of};
    ghost use Rattle.ale_base.specs.NamedBytes.{all_named};

    ghost Value = { HeldFiles };

    ghost view = { λ files. let held = all_named files.held.items in
        record {
          held = held;
          chosen = is_some files.chosen;
          left = rest_of held files.chosen files.at;
          failing = files.failing.items;
          calls = files.calls;
          faults = files.faults;
        } };

    ghost invariant = { λ files. ForSome files.chosen (λ place. place < vec_len files.held) };
}

impl MemoryFiles {
    ghost use Rattle.std.specs.Prelude.{◌≡◌, ◌≢◌, ℕ, false, List, [], Some, unwrap_or, IsSome, IsOk, OnOk, OnErr};
    ghost use Rattle.ale_base.specs.HeldFiles.{content_of, with_file};

    /// Holds no file, and fails at the calls whose numbers are in `failing`.
    pub fn new(alloc: Global, failing: Vec<u64>) -> MemoryFiles
        ensures { result ≡ record {
          held = [];
          chosen = false;
          left = [];
          failing = failing.items;
          calls = 0;
          faults = 0;
        } }
    {
        MemoryFiles {
            alloc,
            held: Vec::new(alloc),
            failing,
            calls: 0,
            faults: 0,
            chosen: None,
            at: 0,
        }
    }

    /// Makes these bytes the content of that name. Where the name is held already nothing changes,
    /// and no memory is taken. What is left of the chosen file stays. At an error nothing changes.
    pub fn add(&mut self, name: &str, bytes: &[u8]) -> Result<(), AllocError>
        ensures ok { OnOk result (self.new ≡ record self.old {
          held = with_file self.old.held name.now bytes.now;
        }) }
        ensures err { OnErr result (self.new ≡ self.old) }
        ensures held { IsSome (content_of self.old.held name.now) → IsOk result }
        ensures content { OnOk result (content_of self.new.held name.now
            ≡ Some (unwrap_or (content_of self.old.held name.now) bytes.now)) }
        ensures others { (other : List ℕ) → other ≢ name.now
            → content_of self.new.held other ≡ content_of self.old.held other }
    {
        match place_of(&self.held, name) {
            Some(_) => Ok(()),
            None => {
                let mut file = HeldFile {
                    name: String::from_str(self.alloc, name)?,
                    bytes: Vec::new(self.alloc),
                };
                file.bytes.extend_from_slice(bytes)?;
                self.held.push(file)?;
                Ok(())
            }
        }
    }
}

impl Files for MemoryFiles {
    ghost use Rattle.std.specs.Prelude.{◌≡◌, ◌↔◌, ◌++◌, ⊤, ℕ, Bool, true, false, List, Option, None, Some, min, take, drop, length, IfSome, IfOk, OnOk, OnErr, IsErr, IsErrOf, ◌≢◌};
    ghost use Rattle.std.specs.Result.{is_err};
    ghost use Rattle.std.specs.Io.{ReadsAtMost};
    ghost use Rattle.std.specs.Io.KnownBytes.{ReadConsumes};
    ghost use Rattle.ale_base.specs.Faults.{ExactlyWhereRose, next_count};
    ghost use Rattle.ale_base.specs.HeldFiles.{content_of, is_listed, choose_fails};

    ghost content = { λ files. content_of files.held };

    ghost left = { λ files. Some files.left };

    ghost is_chosen = { λ files. files.chosen };

    ghost may_choose = { λ _ _. ⊤ };

    ghost faults = { λ files. files.faults };

    fn choose(&mut self, name: &str) -> Result<(), ChooseError>
        ensures whole { OnOk result (IfSome (content_of self.old.held name.now)
            (λ bytes. Some self.new.left ≡ Some bytes)) }
        ensures chosen { OnOk result (self.new.chosen ≡ true) }
        ensures stays { OnErr result (Some self.new.left ≡ Some self.old.left) }
        ensures chosen_stays { OnErr result (self.new.chosen ≡ self.old.chosen) }
        ensures content { content_of self.new.held ≡ content_of self.old.held }
        ensures faults { ExactlyWhereRose self.old.faults self.new.faults
            (IsErrOf result ChooseError.Failed) }
        ensures memory { IsErrOf result ChooseError.NoMemory → self.new.faults ≡ self.old.faults }
        ensures fails { is_err result ≡ choose_fails self.old name.now }
        ensures no_memory { result ≢ Err ChooseError.NoMemory }
        ensures ok { OnOk result (IfSome (content_of self.old.held name.now) (λ bytes.
            self.new ≡ record self.old { chosen = true; left = bytes; calls = next_count self.old.calls })) }
        ensures err { OnErr result (self.new ≡ record self.old {
          calls = next_count self.old.calls;
          faults = next_count self.old.faults;
        }) }
    {
        let listed = self.failing.contains(&self.calls);
        self.calls = self.calls.saturating_add(1);
        match place_of(&self.held, name) {
            Some(place) if !listed => {
                self.chosen = Some(place);
                self.at = 0;
                Ok(())
            }
            _ => {
                self.faults = self.faults.saturating_add(1);
                Err(ChooseError::Failed)
            }
        }
    }

    fn read(&mut self, buf: &mut [u8]) -> Result<usize, Failed>
        ensures bound { ReadsAtMost result buf.new }
        ensures bytes { ReadConsumes (Some self.old.left) (Some self.new.left) result buf.new }
        ensures chosen { self.new.chosen ≡ self.old.chosen }
        ensures unchosen { self.old.chosen ≡ false → IfOk result (λ count. count ≡ 0) }
        ensures content { content_of self.new.held ≡ content_of self.old.held }
        ensures faults { ExactlyWhereRose self.old.faults self.new.faults (IsErr result) }
        ensures fails { is_err result ≡ is_listed self.old.failing self.old.calls }
        ensures ok { IfOk result (λ count. self.new ≡ record self.old {
          left = drop count self.old.left;
          calls = next_count self.old.calls;
        }) }
        ensures count { IfOk result (λ count. count ≡ min (length self.old.left) (length buf.old)) }
        ensures buffer { IfOk result (λ count. buf.new ≡ take count self.old.left ++ drop count buf.old) }
        ensures err { OnErr result (self.new ≡ record self.old {
          calls = next_count self.old.calls;
          faults = next_count self.old.faults;
        }) }
    {
        let listed = self.failing.contains(&self.calls);
        self.calls = self.calls.saturating_add(1);
        if listed {
            self.faults = self.faults.saturating_add(1);
            return Err(Failed);
        }
        let count = copy_front(rest_at(&self.held, self.chosen, self.at), buf);
        self.at += count;
        Ok(count)
    }
}

#[cfg(test)]
mod tests {
    use super::*;

    #[test]
    fn chooses_what_is_held(rt: HostRuntime) -> Result<(), AllocError> {
        let alloc = rt.alloc();
        let mut files = MemoryFiles::new(alloc, vec![in alloc; 3u64]?);
        assert_eq!(rt; files.add("a", b"first"), Ok(()));
        assert_eq!(rt; files.add("a", b"second"), Ok(()));
        assert_eq!(rt; files.choose("b"), Err(ChooseError::Failed));
        assert_eq!(rt; files.choose("a"), Ok(()));
        let mut buf = [0u8; 4];
        assert_eq!(rt; files.read(&mut buf), Ok(4));
        assert_eq!(rt; buf, *b"firs");
        assert_eq!(rt; files.read(&mut buf), Err(Failed));
        assert_eq!(rt; files.read(&mut buf), Ok(1));
        assert_eq!(rt; buf, *b"tirs");
        assert_eq!(rt; files.read(&mut buf), Ok(0));
        assert_eq!(rt; files.faults, 2);
        Ok(())
    }
}
