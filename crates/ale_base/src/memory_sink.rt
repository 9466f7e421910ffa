//! A sink in memory, which fails at listed calls.
use crate::fault::Failed;
use crate::output::Sink;
use std::alloc::{AllocError, Global};
use std::marker::Model;

/// A sink in memory with room for a number of bytes. Its calls of `write` are numbered from 0; those
/// whose number is listed fail, and so does a call with a piece that is not empty where no room is
/// left.
#[derive(Drop)]
pub struct MemorySink {
    bytes: Vec<u8>,
    room: usize,
    most: usize,
    failing: Vec<u64>,
    calls: u64,
    faults: u64,
}

impl Model for MemorySink {
    ghost use Rattle.std.specs.Prelude.{◌<◌, ◌≤◌, vec_len, vec_capacity};
    ghost use Rattle.ale_base.specs.MemorySinks.{KeptBytes};

    ghost Value = { KeptBytes };

    ghost view = { λ sink. record {
      bytes = sink.bytes.items;
      room = sink.room;
      most = sink.most;
      failing = sink.failing.items;
      calls = sink.calls;
      faults = sink.faults;
    } };

    ghost invariant = { λ sink. (0 < sink.most) × (vec_len sink.bytes ≤ sink.room)
        × (sink.room ≤ vec_capacity sink.bytes) };
}

impl MemorySink {
    ghost use Rattle.std.specs.Prelude.{◌≡◌, ◌≤◌, [], IfOk};

    /// Takes the memory for `room` bytes. Each call takes at most `most` bytes, and the calls whose
    /// numbers are in `failing` fail.
    pub fn new(
        alloc: Global,
        room: usize,
        most: usize,
        failing: Vec<u64>,
    ) -> Result<MemorySink, AllocError>
        requires { 1 ≤ most }
        ensures { IfOk result (λ sink. sink ≡ record {
          bytes = [];
          room = room;
          most = most;
          failing = failing.items;
          calls = 0;
          faults = 0;
        }) }
    {
        Ok(MemorySink {
            bytes: Vec::with_capacity(alloc, room)?,
            room,
            most,
            failing,
            calls: 0,
            faults: 0,
        })
    }

    /// What was written so far.
    pub fn bytes(&self) -> &[u8]
        ensures { result.now ≡ self.now.bytes }
    {
        self.bytes.as_slice()
    }
}

impl Sink for MemorySink {
    ghost use Rattle.std.specs.Prelude.{◌≡◌, ◌<◌, ◌++◌, List, Option, Some, take, length, IfOk, OnErr, IsErr};
    ghost use Rattle.std.specs.Result.{is_err};
    ghost use Rattle.std.specs.Io.{WritesAtMost};
    ghost use Rattle.std.specs.Io.KnownBytes.{WriteAppends};
    ghost use Rattle.ale_base.specs.Faults.{ExactlyWhereRose, next_count};
    ghost use Rattle.ale_base.specs.MemorySinks.{taken_len, write_fails};

    ghost written = { λ sink. Some sink.bytes };

    ghost faults = { λ sink. sink.faults };

    fn write(&mut self, piece: &[u8]) -> Result<usize, Failed>
        ensures bound { WritesAtMost result piece.now }
        ensures some { IfOk result (λ count. 0 < length piece.now → 0 < count) }
        ensures bytes { WriteAppends (Some self.old.bytes) (Some self.new.bytes) result piece.now }
        ensures faults { ExactlyWhereRose self.old.faults self.new.faults (IsErr result) }
        ensures fails { is_err result ≡ write_fails self.old piece.now }
        ensures count { IfOk result (λ count. count ≡ taken_len self.old piece.now) }
        ensures ok { IfOk result (λ count. self.new ≡ record self.old {
          bytes = self.old.bytes ++ take count piece.now;
          calls = next_count self.old.calls;
        }) }
        ensures err { OnErr result (self.new ≡ record self.old {
          calls = next_count self.old.calls;
          faults = next_count self.old.faults;
        }) }
    {
        let listed = self.failing.contains(&self.calls);
        self.calls = self.calls.saturating_add(1);
        let free = self.room - self.bytes.len();
        if listed || (!piece.is_empty() && free == 0) {
            self.faults = self.faults.saturating_add(1);
            return Err(Failed);
        }
        let count = piece.len().min(self.most).min(free);
        match self.bytes.extend_from_slice(&piece[..count]) {
            Ok(()) => Ok(count),
            Err(_) => unreachable!(),
        }
    }
}
