ghost use Rattle.std.specs.Prelude.{◌≡◌, ℕ, ◌+◌, ◌-◌, ◌^◌, ◌<◌, ◌≤◌, min, List, length, take, drop, Option, Some, option_map, IfOk, OnErr, is_err, ◌&&◌, if◌then◌else◌};
ghost use Rattle.std.specs.Io.{ReadsAtMost};
ghost use Rattle.jp_io.specs.Files.{Rose, one_more, NoneFalls, StaysSound, ReadsAt, ReadsBytes};
ghost use Rattle.jp_io.specs.MemFiles.{first_named, told_files, holds_name, held_count, other_count, fault_count, call_count, failing_calls, is_surely_read, fails_at};

use crate::{Failed, Files};
use jp_base::Txt;

/// Files in memory, and the numbers of the calls that are to fail. Calls are numbered from 1.
#[derive(Debug, Drop)]
pub struct MemFiles {
    files: Vec<(Txt, Vec<u8>)>,
    failing: Vec<u64>,
    calls: u64,
    held_faults: u64,
    other_faults: u64,
}

impl MemFiles {
    /// These files, of which the first of two equal names counts.
    pub fn new(files: Vec<(Txt, Vec<u8>)>, failing: Vec<u64>) -> MemFiles
        ensures told { told_files result ≡ first_named files.items }
        ensures fails { failing_calls result ≡ failing.items }
        ensures calls { call_count result ≡ 0 }
        ensures faults { (name : List ℕ) → fault_count result name ≡ 0 }
    {
        MemFiles {
            files,
            failing,
            calls: 0,
            held_faults: 0,
            other_faults: 0,
        }
    }
}

impl Files for MemFiles {
    ghost contents = { λ s. Some (told_files s) };

    ghost faults = { fault_count };

    ghost is_sound = { is_surely_read };

    fn read(&mut self, name: &str, at: u64, into: &mut [u8]) -> Result<usize, Failed>
        ensures bound { ReadsAtMost result into.new }
        ensures same { told_files self.new ≡ told_files self.old }
        ensures kept { NoneFalls (fault_count self.old) (fault_count self.new) }
        ensures cause { OnErr result (Rose (fault_count self.old name.now) (fault_count self.new name.now)) }
        ensures bytes { ReadsBytes (told_files self.old name.now) at result into.new }
        ensures sound { StaysSound (is_surely_read self.old) (is_surely_read self.new)
            (fault_count self.old) (fault_count self.new) }
        ensures calls { call_count self.new ≡ one_more (call_count self.old) }
        ensures failing { failing_calls self.new ≡ failing_calls self.old }
        ensures held { held_count self.new ≡ (if is_err result && holds_name self.old name.now
            then one_more (held_count self.old) else held_count self.old) }
        ensures others { other_count self.new ≡ (if holds_name self.old name.now
            then other_count self.old else one_more (other_count self.old)) }
        ensures fails { is_err result ≡ fails_at self.old (call_count self.new) name.now }
    {
        self.calls = self.calls.saturating_add(1);
        let is_listed = self.failing.contains(&self.calls);
        match find_file(self.files.as_slice(), name) {
            None => {
                self.other_faults = self.other_faults.saturating_add(1);
                Err(Failed)
            }
            Some(_) if is_listed => {
                self.held_faults = self.held_faults.saturating_add(1);
                Err(Failed)
            }
            Some(bytes) => Ok(copy_from(bytes, at, into)),
        }
    }
}

/// The bytes of the first file of this name.
fn find_file<'a>(files: &'a [(Txt, Vec<u8>)], name: &str) -> Option<&'a [u8]>
    ensures { option_map (λ bytes. bytes.now) result ≡ first_named files.now name.now }
{
    files
        .iter()
        .find(|file| file.0.as_str() == name)
        .map(|file| file.1.as_slice())
}

/// Copies what stands from the place `at` on, as far as it and the buffer reach.
fn copy_from(bytes: &[u8], at: u64, into: &mut [u8]) -> usize
    ensures count { result ≡ min (length into.new) (length bytes.now - at) }
    ensures copied { take result into.new ≡ take result (drop at bytes.now) }
{
    let start = bytes.len().min(at as usize);
    let n = into.len().min(bytes.len() - start);
    into[..n].copy_from_slice(&bytes[start..start + n]);
    n
}
