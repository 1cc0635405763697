// A sink in memory that fails at a chosen call.
ghost use Rattle.std.specs.Prelude.{◌≡◌, ◌<◌, ◌≤◌, ◌↔◌, [], ◌++◌, length, take, IfOk, IsErr, OnOk, OnErr, Some};
ghost use Rattle.std.specs.Io.KnownBytes.{Appends};
ghost use Rattle.ck_io.specs.Faults.{one_more, Rose};
ghost use Rattle.ck_io.specs.MemSink.{taken_of, IsFailingPut};

use crate::calls::Calls;
use crate::files::Failed;
use crate::sink::Sink;
use ck_base::NoMemory;
use std::alloc::Global;
use std::marker::Model;

/// A sink in memory, of which chosen puts fail. It takes all its memory when it is made.
#[derive(Drop)]
pub struct MemSink {
    /// How many bytes a put takes at most.
    per_call: usize,
    /// How many bytes the sink takes in all.
    room: usize,
    bytes: Vec<u8>,
    faults: u64,
    calls: Calls,
}

impl Model for MemSink {
    ghost use Rattle.std.specs.Prelude.{◌≤◌, ◌<◌, length, vec_capacity};
    ghost use Rattle.ck_io.specs.MemSink.{SinkInMemory};

    ghost Value = { SinkInMemory };

    ghost view = { λ sink. record {
      per_call = sink.per_call;
      room = sink.room;
      bytes = sink.bytes.items;
      faults = sink.faults;
      calls = sink.calls.made;
      fails = sink.calls.fails.items;
    } };

    ghost invariant = { λ sink. (0 < sink.per_call)
        × (length sink.bytes.items ≤ sink.room) × (sink.room ≤ vec_capacity sink.bytes) };
}

impl MemSink {
    /// A sink with room for `room` bytes, of which a put takes `per_call` at most. The puts with
    /// the numbers in `fails` will fail; the first one has the number 1.
    pub fn new(
        alloc: Global,
        per_call: usize,
        room: usize,
        fails: Vec<u64>,
    ) -> Result<MemSink, NoMemory>
        requires { 0 < per_call }
        ensures { IfOk result (λ sink. sink ≡ record {
          per_call = per_call;
          room = room;
          bytes = [];
          faults = 0;
          calls = 0;
          fails = fails.items;
        }) }
    {
        Ok(MemSink {
            per_call,
            room,
            bytes: Vec::with_capacity(alloc, room)?,
            faults: 0,
            calls: Calls::new(fails),
        })
    }

    /// All bytes that the sink has taken.
    pub fn bytes(&self) -> &[u8]
        ensures { result.now ≡ self.now.bytes }
    {
        self.bytes.as_slice()
    }
}

impl Sink for MemSink {
    ghost written = { λ sink. Some sink.bytes };

    ghost faults = { λ sink. sink.faults };

    fn put(&mut self, bytes: &[u8]) -> Result<usize, Failed>
        requires { 0 < length bytes.now }
        ensures some { IfOk result (λ n. 0 < n) }
        ensures later { self.old.faults ≤ self.new.faults }

        // Beyond what all `Sink`s promise: which puts fail, and what a put leaves.
        ensures failing { IsErr result ↔ IsFailingPut self.old }
        ensures taken { IfOk result (λ n. n ≡ taken_of self.old bytes.now) }
        ensures ok { IfOk result (λ n. self.new ≡ record self.old {
          bytes = self.old.bytes ++ take n bytes.now;
          calls = one_more self.old.calls;
        }) }
        ensures err { OnErr result (self.new ≡ record self.old {
          faults = one_more self.old.faults;
          calls = one_more self.old.calls;
        }) }
    {
        let left = self.room - self.bytes.len();
        if self.calls.fails_next() || left == 0 {
            self.faults = self.faults.saturating_add(1);
            return Err(Failed);
        }
        let n = bytes.len().min(self.per_call).min(left);
        self.bytes.extend_from_slice(&bytes[..n]).unwrap();
        Ok(n)
    }
}
