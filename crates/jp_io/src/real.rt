ghost use Rattle.std.specs.Prelude.{◌≡◌, ℕ, List, None};
ghost use Rattle.std.specs.Io.{ReadsAtMost, WritesAtMost};

use crate::{Failed, Files, Sink};
use std::io::{Read, Seek, SeekFrom, Write};
use std::{fs, io, rt};

/// The files of the system. They tell no content. One number is the count of every name.
#[derive(Drop)]
pub struct RealFiles<'r, R: rt::Files> {
    rt: &'r R,
    failed_reads: u64,
}

impl<'r, R: rt::Files> RealFiles<'r, R> {
    /// No read has failed yet.
    pub fn new(rt: &'r R) -> RealFiles<'r, R>
        ensures { (name : List ℕ) → ⟦<RealFiles<'r, R> as Files>⟧.faults result name ≡ 0 }
    {
        RealFiles {
            rt,
            failed_reads: 0,
        }
    }
}

impl<R: rt::Files> Files for RealFiles<'_, R> {
    ghost contents = { λ _. None };

    ghost faults = { λ s _. s.failed_reads };

    fn read(&mut self, name: &str, at: u64, into: &mut [u8]) -> Result<usize, Failed> {
        match read_at(self.rt, name, at, into) {
            Ok(n) => Ok(n),
            Err(_) => {
                self.failed_reads = self.failed_reads.saturating_add(1);
                Err(Failed)
            }
        }
    }
}

fn read_at<R: rt::Files>(rt: &R, name: &str, at: u64, into: &mut [u8]) -> io::Result<usize>
    ensures { ReadsAtMost result into.new }
{
    let mut file = fs::open(rt, name)?;
    file.seek(SeekFrom::Start(at))?;
    file.read(into)
}

/// A writer of the system, flushed after each write. It tells nothing of what it took.
#[derive(Drop)]
pub struct RealSink<W: Write + Drop> {
    writer: W,
    failed_writes: u64,
}

impl<W: Write + Drop> RealSink<W> {
    /// No write has failed yet.
    pub fn new(writer: W) -> RealSink<W>
        ensures { ⟦<RealSink<W> as Sink>⟧.faults result ≡ 0 }
    {
        RealSink {
            writer,
            failed_writes: 0,
        }
    }
}

impl<W: Write + Drop> Sink for RealSink<W> {
    ghost taken = { λ _. None };

    ghost faults = { λ s. s.failed_writes };

    fn write(&mut self, bytes: &[u8]) -> Result<usize, Failed> {
        match write_through(&mut self.writer, bytes) {
            Ok(n) if n > 0 || bytes.is_empty() => Ok(n),
            _ => {
                self.failed_writes = self.failed_writes.saturating_add(1);
                Err(Failed)
            }
        }
    }
}

fn write_through<W: Write>(writer: &mut W, bytes: &[u8]) -> io::Result<usize>
    ensures { WritesAtMost result bytes.now }
{
    let n = writer.write(bytes)?;
    writer.flush()?;
    Ok(n)
}
