// A source in memory, which fails where it is told to.
ghost use Rattle.std.specs.Prelude.{◌≡◌, ◌≤◌, ◌<◌, ◌↔◌, ◌^◌, IsTrue, IsErr, IfOk, OnOk, OnErr, Some, length, min};
ghost use Rattle.std.specs.Io.{ReadsAtMost};
ghost use Rattle.std.specs.Io.KnownBytes.{ReadConsumes};

use crate::{Failed, Source};
use ocr_base::Count;
use std::marker::Model;

/// A source that gives bytes of memory, some at each call, and fails at the calls that it is told.
#[derive(Drop)]
pub struct MemorySource {
    bytes: Vec<u8>,
    at: usize,
    most: usize,
    fails: Vec<u64>,
    calls: Count,
    faults: Count,
}

impl Model for MemorySource {
    ghost use Rattle.std.specs.Prelude.{◌≤◌, ◌<◌, drop, length};
    ghost use Rattle.ocr_io.specs.MemorySource.{InputState};

    ghost Value = { InputState };

    ghost view = { λ s. record {
      left = drop s.at s.bytes.items;
      most = s.most;
      fails = s.fails.items;
      calls = s.calls;
      given = s.at;
      faults = s.faults;
    } };

    ghost invariant = { λ s. (s.at ≤ length s.bytes.items) × (0 < s.most) };
}

impl MemorySource {
    ghost use Rattle.ocr_io.specs.MemorySource.{InputState};

    /// A source of these bytes, which gives at most `most` of them at a call. Calls are numbered
    /// from 0, and a call fails where its number stands in `fails`.
    pub fn new(bytes: Vec<u8>, most: usize, fails: Vec<u64>) -> Self
        requires { 0 < most }
        ensures { result ≡ record {
          left = bytes.items;
          most = most;
          fails = fails.items;
          calls = 0;
          given = 0;
          faults = 0;
        } }
    {
        MemorySource {
            bytes,
            at: 0,
            most,
            fails,
            calls: Count::new(),
            faults: Count::new(),
        }
    }
}

impl Source for MemorySource {
    ghost use Rattle.std.specs.Prelude.{Some};
    ghost use Rattle.ocr_base.specs.Count.{Rose, RoseBy};
    ghost use Rattle.ocr_io.specs.MemorySource.{is_listed, after_read};

    ghost left = { λ s. Some s.left };

    ghost given = { λ s. s.given };

    ghost failures = { λ s. s.faults };

    /// Fails exactly at the calls that it was told, and else gives as many bytes as the buffer, the
    /// most of a call and the bytes that are left allow.
    fn read(&mut self, buf: &mut [u8]) -> Result<usize, Failed>
        ensures bound { ReadsAtMost result buf.new }
        ensures bytes { ReadConsumes (Some self.old.left) (Some self.new.left) result buf.new }
        ensures given { IfOk result (λ n. RoseBy self.old.given self.new.given n) }
        ensures failed { OnErr result (Rose self.old.faults self.new.faults) }
        ensures calm { OnOk result (self.new.faults ≡ self.old.faults) }
        ensures later { self.old.faults ≤ self.new.faults }
        ensures fails { IsErr result ↔ IsTrue (is_listed self.old.fails self.old.calls) }
        ensures count { IfOk result (λ n. n
            ≡ min (min (length self.old.left) self.old.most) (length buf.old)) }
        ensures state { self.new ≡ after_read self.old result }
    {
        let call = self.calls.number();
        self.calls.raise();
        if self.fails.as_slice().contains(&call) {
            self.faults.raise();
            return Err(Failed);
        }
        let from = self.at;
        let count = (self.bytes.len() - from).min(self.most).min(buf.len());
        buf[..count].copy_from_slice(&self.bytes[from..from + count]);
        self.at = from + count;
        Ok(count)
    }

    fn faults(&self) -> u64 {
        self.faults.number()
    }
}
