// A sink in memory, which fails where it is told to.
ghost use Rattle.std.specs.Prelude.{◌≡◌, ◌≤◌, ◌<◌, ◌⊎◌, ◌-◌, ◌↔◌, ◌^◌, IsTrue, IsErr, IfOk, OnOk, OnErr, Some, [], length, min, vec_len, vec_capacity};
ghost use Rattle.std.specs.Io.KnownBytes.{WriteAppends};

use crate::{Failed, Sink};
use ocr_base::Count;
use std::marker::Model;

/// A sink that takes bytes into memory, some at each call, and fails at the calls that it is told.
#[derive(Drop)]
pub struct MemorySink {
    room: Vec<u8>,
    start: usize,
    free: usize,
    most: usize,
    fails: Vec<u64>,
    calls: Count,
    faults: Count,
}

impl Model for MemorySink {
    ghost use Rattle.std.specs.Prelude.{◌≤◌, ◌<◌, ◌+◌, drop, length, vec_len, vec_capacity};
    ghost use Rattle.ocr_io.specs.MemorySink.{OutputState};

    ghost Value = { OutputState };

    ghost view = { λ s. record {
      taken = drop s.start s.room.items;
      free = s.free;
      most = s.most;
      fails = s.fails.items;
      calls = s.calls;
      faults = s.faults;
    } };

    ghost invariant = { λ s. (s.start ≤ length s.room.items)
        × (vec_len s.room + s.free ≤ vec_capacity s.room) × (0 < s.most) };
}

impl MemorySink {
    /// A sink that takes at most `most` bytes at a call, into the free capacity of `room`. Calls
    /// are numbered from 0. A call fails where its number stands in `fails` or no capacity is free.
    pub fn new(room: Vec<u8>, most: usize, fails: Vec<u64>) -> Self
        requires { 0 < most }
        ensures { result ≡ record {
          taken = [];
          free = vec_capacity room - vec_len room;
          most = most;
          fails = fails.items;
          calls = 0;
          faults = 0;
        } }
    {
        MemorySink {
            start: room.len(),
            free: room.capacity() - room.len(),
            room,
            most,
            fails,
            calls: Count::new(),
            faults: Count::new(),
        }
    }

    /// The bytes that were taken.
    pub fn bytes(&self) -> &[u8]
        ensures { result.now ≡ self.now.taken }
    {
        &self.room[self.start..]
    }
}

impl Sink for MemorySink {
    ghost use Rattle.std.specs.Prelude.{Some};
    ghost use Rattle.ocr_base.specs.Count.{Rose};
    ghost use Rattle.ocr_io.specs.MemorySink.{will_fail, after_write};

    ghost taken = { λ s. Some s.taken };

    ghost failures = { λ s. s.faults };

    /// Fails exactly at the calls that it was told and where no room is free, and else takes as
    /// many bytes as the piece, the most of a call and the room allow.
    fn write(&mut self, piece: &[u8]) -> Result<usize, Failed>
        requires { 0 < length piece.now }
        ensures bound { IfOk result (λ n. (0 < n) × (n ≤ length piece.now)) }
        ensures bytes { WriteAppends (Some self.old.taken) (Some self.new.taken) result piece.now }
        ensures failed { OnErr result (Rose self.old.faults self.new.faults) }
        ensures calm { OnOk result (self.new.faults ≡ self.old.faults) }
        ensures later { self.old.faults ≤ self.new.faults }
        ensures fails { IsErr result ↔ IsTrue (will_fail self.old) }
        ensures count { IfOk result (λ n. n
            ≡ min (min self.old.free self.old.most) (length piece.now)) }
        ensures state { self.new ≡ after_write self.old piece.now result }
    {
        let call = self.calls.number();
        self.calls.raise();
        if self.free == 0 || self.fails.as_slice().contains(&call) {
            self.faults.raise();
            return Err(Failed);
        }
        let count = self.free.min(self.most).min(piece.len());
        match self.room.extend_from_slice(&piece[..count]) {
            Ok(()) => {
                self.free -= count;
                Ok(count)
            }
            // There is room for these bytes.
            Err(_) => unreachable!(),
        }
    }

    fn faults(&self) -> u64 {
        self.faults.number()
    }
}
