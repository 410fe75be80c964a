ghost use Rattle.std.specs.Prelude.{◌≡◌, ℕ, ◌+◌, ◌<◌, ◌≤◌, List, length, take, Option, Some, None, IfOk, IfErr, OnOk, OnErr, IsOk};
ghost use Rattle.std.specs.Io.{WritesAtMost};
ghost use Rattle.jp_io.specs.Sinks.{Rose, TookMore, TakesFirst, HasRoom, less_room, WritesSurely};
ghost use Rattle.jp_io.specs.declared.writing.SinkError.{SinkError};

use crate::Failed;

/// What takes bytes.
pub trait Sink {
    /// The bytes taken so far, where they are told.
    ghost taken: { Self → Option (List ℕ) };

    /// How many writes have failed.
    ghost faults: { Self → ℕ };

    /// How many bytes it is known to take without a fault. Nothing need be known.
    ghost room: { Self → Option ℕ } = { λ _. None };

    /// Takes some of the first bytes, and says how many: at least one of a nonempty piece. After `Failed`
    /// it took none.
    fn write(&mut self, bytes: &[u8]) -> Result<usize, Failed>
        ensures bound { WritesAtMost result bytes.now }
        ensures some { IfOk result (λ n. 0 < length bytes.now → 0 < n) }
        ensures takes { TakesFirst (taken self.old) (taken self.new) result bytes.now }
        ensures kept { faults self.old ≤ faults self.new }
        ensures cause { OnErr result (Rose (faults self.old) (faults self.new)) }
        ensures sure { WritesSurely (room self.old) (room self.new) (faults self.old) (faults self.new)
            result bytes.now };
}

/// Why not all bytes were written.
#[derive(Clone, Copy, Debug, PartialEq, Eq)]
pub enum SinkError {
    /// A write failed, and the sink's count of faults rose. The sink took the first so many bytes.
    Failed(u64),
}

/// Writes all bytes, in as many pieces as the sink takes them. It takes no memory.
pub fn write_all<S: Sink>(sink: &mut S, bytes: &[u8]) -> Result<(), SinkError>
    ensures kept { S.faults sink.old ≤ S.faults sink.new }
    ensures cause { OnErr result (Rose (S.faults sink.old) (S.faults sink.new)) }
    ensures all { OnOk result (TookMore (S.taken sink.old) bytes.now (S.taken sink.new)) }
    ensures part { (n : ℕ) → result ≡ Err (SinkError.Failed n) →
        (n < length bytes.now) × TookMore (S.taken sink.old) (take n bytes.now) (S.taken sink.new) }
    ensures sure { HasRoom (S.room sink.old) (length bytes.now) → IsOk result
        × (S.faults sink.new ≡ S.faults sink.old)
        × (S.room sink.new ≡ less_room (S.room sink.old) (length bytes.now)) }
{
    let mut at = 0;
    'pieces: while at < bytes.len() {
        match sink.write(&bytes[at..]) {
            Ok(n) => at += n,
            Err(Failed) => return Err(SinkError::Failed(at as u64)),
        }
    }
    Ok(())
}
