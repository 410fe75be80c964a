ghost use Rattle.std.specs.Prelude.{◌≡◌, ℕ, ◌+◌, ◌-◌, ◌^◌, ◌<◌, ◌≤◌, min, List, [], length, Some, IfOk, OnErr, is_err, if◌then◌else◌, vec_len, vec_capacity};
ghost use Rattle.std.specs.Io.{WritesAtMost};

use crate::{Failed, Sink};
use jp_base::Memory;
use std::alloc::Global;

/// A sink in memory, and the numbers of the calls that are to fail. Calls are numbered from 1.
#[derive(Debug, Drop)]
pub struct MemSink {
    taken: Vec<u8>,
    piece: usize,
    room: usize,
    failing: Vec<u64>,
    calls: u64,
    failed: u64,
    ghost takes_some: { 0 < piece },
    ghost in_room: { vec_len taken ≤ room },
    ghost has_memory: { room ≤ vec_capacity taken },
}

impl MemSink {
    ghost use Rattle.jp_io.specs.MemSink.{taken_bytes, fault_count, call_count, failing_calls, piece_size, room_left};

    /// A sink that takes at most `piece` bytes in a call and `room` bytes in all, with the memory for them.
    pub fn new(
        alloc: Global,
        piece: usize,
        room: usize,
        failing: Vec<u64>,
    ) -> Result<MemSink, Memory>
        requires { 1 ≤ piece }
        ensures taken { IfOk result (λ s. taken_bytes s ≡ []) }
        ensures faults { IfOk result (λ s. fault_count s ≡ 0) }
        ensures calls { IfOk result (λ s. call_count s ≡ 0) }
        ensures fails { IfOk result (λ s. failing_calls s ≡ failing.items) }
        ensures piece { IfOk result (λ s. piece_size s ≡ piece) }
        ensures room { IfOk result (λ s. room_left s ≡ room) }
    {
        match Vec::with_capacity(alloc, room) {
            Ok(taken) => Ok(MemSink {
                taken,
                piece,
                room,
                failing,
                calls: 0,
                failed: 0,
            }),
            Err(_) => Err(Memory),
        }
    }

    /// What it took.
    pub fn bytes(&self) -> &[u8]
        ensures { result.now ≡ taken_bytes self.now }
    {
        self.taken.as_slice()
    }
}

impl Sink for MemSink {
    ghost use Rattle.jp_io.specs.MemSink.{taken_bytes, fault_count, call_count, failing_calls, piece_size, room_left, sure_room, fails_at, takes_of};
    ghost use Rattle.jp_io.specs.Files.{one_more};
    ghost use Rattle.jp_io.specs.Sinks.{Rose, TakesFirst, WritesSurely};

    ghost taken = { λ s. Some (taken_bytes s) };

    ghost faults = { fault_count };

    ghost room = { sure_room };

    fn write(&mut self, bytes: &[u8]) -> Result<usize, Failed>
        ensures bound { WritesAtMost result bytes.now }
        ensures some { IfOk result (λ n. 0 < length bytes.now → 0 < n) }
        ensures takes { TakesFirst (Some (taken_bytes self.old)) (Some (taken_bytes self.new)) result bytes.now }
        ensures kept { fault_count self.old ≤ fault_count self.new }
        ensures cause { OnErr result (Rose (fault_count self.old) (fault_count self.new)) }
        ensures sure { WritesSurely (sure_room self.old) (sure_room self.new)
            (fault_count self.old) (fault_count self.new) result bytes.now }
        ensures calls { call_count self.new ≡ one_more (call_count self.old) }
        ensures counts { fault_count self.new ≡ (if is_err result then one_more (fault_count self.old)
            else fault_count self.old) }
        ensures failing { failing_calls self.new ≡ failing_calls self.old }
        ensures piece { piece_size self.new ≡ piece_size self.old }
        ensures left { IfOk result (λ n. room_left self.new ≡ room_left self.old - n) }
        ensures fails { is_err result ≡ fails_at self.old (call_count self.new) (length bytes.now) }
        ensures count { IfOk result (λ n. n ≡ takes_of self.old (length bytes.now)) }
    {
        self.calls = self.calls.saturating_add(1);
        let left = self.room - self.taken.len();
        if self.failing.contains(&self.calls) || (!bytes.is_empty() && left == 0) {
            self.failed = self.failed.saturating_add(1);
            return Err(Failed);
        }
        let n = self.piece.min(left).min(bytes.len());
        match self.taken.extend_from_slice(&bytes[..n]) {
            Ok(()) => Ok(n),
            Err(_) => unreachable!(),
        }
    }
}
