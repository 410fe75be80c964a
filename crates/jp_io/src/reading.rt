ghost use Rattle.std.specs.Prelude.{◌≡◌, ℕ, ◌+◌, ◌-◌, ◌<◌, ◌≤◌, max, Bool, true, false, List, length, Option, IfOk, OnErr, IsErrOf, vec_len};
ghost use Rattle.std.specs.Io.{ReadsAtMost};
ghost use Rattle.jp_io.specs.Files.{Rose, NoneFalls, StaysSound, ReadsAt, ReadsWhole, count_read, IsStartOf, IsEndOf, PassesLimit};

use std::alloc::Global;

/// A read or a write failed. The count of faults says so too.
#[derive(Clone, Copy, Debug, PartialEq, Eq)]
pub struct Failed;

/// Files that can be read by name.
pub trait Files {
    /// The bytes of each name, where they are told: None for a name that isn't there.
    ghost contents: { Self → Option (List ℕ → Option (List ℕ)) };

    /// How many reads of a name have failed.
    ghost faults: { Self → List ℕ → ℕ };

    /// Whether it is known that no read of this name counts a fault. Nothing need be known.
    ghost is_sound: { Self → List ℕ → Bool } = { λ _ _. false };

    /// A bound on how many bytes the reads gave in all. Nothing need be counted.
    ghost given: { Self → ℕ } = { λ _. 0 };

    /// A bound on the place behind the last byte that was asked for. Nothing need be counted.
    ghost reach: { Self → ℕ } = { λ _. 0 };

    /// Reads at the place `at`, counted from 0, and says how many bytes it put at the start of `into`.
    /// Into a nonempty buffer it puts none only at or past the end. After `Failed` the buffer may hold
    /// anything.
    fn read(&mut self, name: &str, at: u64, into: &mut [u8]) -> Result<usize, Failed>
        ensures bound { ReadsAtMost result into.new }
        ensures same { contents self.new ≡ contents self.old }
        ensures kept { NoneFalls (faults self.old) (faults self.new) }
        ensures cause { OnErr result (Rose (faults self.old name.now) (faults self.new name.now)) }
        ensures bytes { ReadsAt (contents self.old) name.now at result into.new }
        ensures sound { StaysSound (is_sound self.old) (is_sound self.new) (faults self.old) (faults self.new) }
        ensures given { given self.new ≤ given self.old + count_read result }
        ensures reach { reach self.new ≤ max (reach self.old) (at + length into.new) };
}

/// Why a file wasn't read.
#[derive(Clone, Copy, Debug, PartialEq, Eq)]
pub enum FileError {
    /// A read of it failed, and its count of faults rose.
    Failed,
    /// A byte past the limit was read.
    TooLarge,
    /// Memory was refused.
    Memory,
}

/// How many bytes a read asks for at most.
const PIECE: usize = 65536;

/// The whole content of the file, where it has at most `limit` bytes. No byte past the place `limit` is
/// asked for, so at most `limit + 1` bytes are read.
pub fn read_file<F: Files>(
    alloc: Global,
    files: &mut F,
    name: &str,
    limit: u64,
) -> Result<Vec<u8>, FileError>
    requires { limit ≤ 67108864 }
    ensures same { F.contents files.new ≡ F.contents files.old }
    ensures kept { NoneFalls (F.faults files.old) (F.faults files.new) }
    ensures cause { IsErrOf result FileError.Failed →
        Rose (F.faults files.old name.now) (F.faults files.new name.now) }
    ensures sound { StaysSound (F.is_sound files.old) (F.is_sound files.new)
        (F.faults files.old) (F.faults files.new) }
    ensures whole { ReadsWhole (F.contents files.old) name.now limit result }
    ensures within { IfOk result (λ v. vec_len v ≤ limit) }
    ensures given { F.given files.new ≤ F.given files.old + (limit + 1) }
    ensures reach { F.reach files.new ≤ max (F.reach files.old) (limit + 1) }
{
    let mut piece = [0; PIECE];
    let mut bytes = Vec::new(alloc);
    'pieces: loop {
        if !read_more(files, name, limit, &mut piece, &mut bytes)? {
            return Ok(bytes);
        }
    }
}

/// Reads on behind what was read. False says that the file has ended.
fn read_more<F: Files>(
    files: &mut F,
    name: &str,
    limit: u64,
    piece: &mut [u8],
    bytes: &mut Vec<u8>,
) -> Result<bool, FileError>
    requires small { limit ≤ 67108864 }
    requires short { vec_len bytes.old ≤ limit }
    requires some { 0 < length piece.old }
    ensures same { F.contents files.new ≡ F.contents files.old }
    ensures kept { NoneFalls (F.faults files.old) (F.faults files.new) }
    ensures cause { IsErrOf result FileError.Failed →
        Rose (F.faults files.old name.now) (F.faults files.new name.now) }
    ensures sound { StaysSound (F.is_sound files.old) (F.is_sound files.new)
        (F.faults files.old) (F.faults files.new) }
    ensures large { IsErrOf result FileError.TooLarge →
        IsStartOf (F.contents files.old) name.now bytes.old.items →
        PassesLimit (F.contents files.old) name.now limit }
    ensures start { IsStartOf (F.contents files.old) name.now bytes.old.items →
        IsStartOf (F.contents files.old) name.now bytes.new.items }
    ensures more { result ≡ Ok true → (vec_len bytes.old < vec_len bytes.new) × (vec_len bytes.new ≤ limit)
        × (F.given files.new ≤ F.given files.old + (vec_len bytes.new - vec_len bytes.old)) }
    ensures given { F.given files.new ≤ F.given files.old + (limit + 1 - vec_len bytes.old) }
    ensures reach { F.reach files.new ≤ max (F.reach files.old) (limit + 1) }
    ensures sized { length piece.new ≡ length piece.old }
    ensures end { result ≡ Ok false → (bytes.new.items ≡ bytes.old.items)
        × IsEndOf (F.contents files.old) name.now (vec_len bytes.old) }
{
    let filled = bytes.len();
    let asked = piece.len().min(limit as usize + 1 - filled);
    let n = match files.read(name, filled as u64, &mut piece[..asked]) {
        Ok(n) => n,
        Err(Failed) => return Err(FileError::Failed),
    };
    if n == 0 {
        return Ok(false);
    }
    if filled + n > limit as usize {
        return Err(FileError::TooLarge);
    }
    match bytes.extend_from_slice(&piece[..n]) {
        Ok(()) => Ok(true),
        Err(_) => Err(FileError::Memory),
    }
}
