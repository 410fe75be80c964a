ghost use Rattle.std.specs.Prelude.{◌≡◌, Some, IsSome, IsErrOf, IfOk};
ghost use Rattle.jp_io.specs.MemFiles.{first_named};
ghost use Rattle.jp_io.specs.MemSink.{taken_bytes};

use crate::{
    Failed, FileError, MemFiles, MemSink, RealFiles, RealSink, Sink, SinkError, read_file,
    write_all,
};
use jp_base::{Memory, Txt};
use std::alloc::Global;
use std::io;
use std::io::Write;
use std::test::Fail;

/// A caller's use of the counts: where no call is to fail, a file that is held is read without a fault.
fn read_calm(alloc: Global, files: Vec<(Txt, Vec<u8>)>, name: &str) -> Result<Vec<u8>, FileError>
    requires { IsSome (first_named files.items name.now) }
    ensures calm { IsErrOf result FileError.Failed → ⊥ }
    ensures whole { IfOk result (λ v. first_named files.items name.now ≡ Some v.items) }
{
    let mut files = MemFiles::new(files, Vec::new(alloc));
    let outcome = read_file(alloc, &mut files, name, 100);
    outcome
}

/// The same of a sink with room for all that is written.
fn write_calm(alloc: Global, bytes: &[u8]) -> Result<MemSink, Memory>
    ensures { IfOk result (λ s. taken_bytes s ≡ bytes.now) }
{
    let mut sink = MemSink::new(alloc, 4, bytes.len(), Vec::new(alloc))?;
    match write_all(&mut sink, bytes) {
        Ok(()) => Ok(sink),
        Err(_) => unreachable!(),
    }
}

/// Two files of one name, of which the first counts, and an empty one.
fn some_files(alloc: Global, failing: Vec<u64>) -> Result<MemFiles, Fail> {
    let mut files = Vec::new(alloc);
    files.push((Txt::new(alloc, "a.csv")?, b"id\n1\n".to_vec(alloc)?))?;
    files.push((Txt::new(alloc, "a.csv")?, b"other".to_vec(alloc)?))?;
    files.push((Txt::new(alloc, "empty")?, Vec::new(alloc)))?;
    Ok(MemFiles::new(files, failing))
}

#[test]
fn reads_from_memory(rt: HostRuntime) -> Result<(), Fail> {
    let alloc = rt.alloc();
    let mut files = some_files(alloc, Vec::new(alloc))?;
    let whole = read_file(alloc, &mut files, "a.csv", 5)?;
    assert_eq!(rt; whole.as_slice(), b"id\n1\n".as_slice());
    let nothing = read_file(alloc, &mut files, "empty", 0)?;
    assert_eq!(rt; nothing.len(), 0);
    let large = read_file(alloc, &mut files, "a.csv", 4);
    assert_eq!(rt; large.err(), Some(FileError::TooLarge));
    let missing = read_file(alloc, &mut files, "b.csv", 5);
    assert_eq!(rt; missing.err(), Some(FileError::Failed));
    Ok(())
}

#[test]
fn a_late_fault_is_no_end(rt: HostRuntime) -> Result<(), Fail> {
    let alloc = rt.alloc();
    let mut files = some_files(alloc, [2].to_vec(alloc)?)?;
    let cut = read_file(alloc, &mut files, "a.csv", 100);
    assert_eq!(rt; cut.err(), Some(FileError::Failed));
    let whole = read_file(alloc, &mut files, "a.csv", 100)?;
    assert_eq!(rt; whole.as_slice(), b"id\n1\n".as_slice());
    Ok(())
}

#[test]
fn writes_to_memory(rt: HostRuntime) -> Result<(), Fail> {
    let alloc = rt.alloc();
    let mut calm = MemSink::new(alloc, 4, 9, Vec::new(alloc))?;
    assert_eq!(rt; write_all(&mut calm, b"id\n2\n"), Ok(()));
    assert_eq!(rt;
        write_all(&mut calm, b"10\n11\n"),
        Err(SinkError::Failed(4))
    );
    assert_eq!(rt; calm.bytes(), b"id\n2\n10\n1".as_slice());
    let sink = write_calm(alloc, b"id\n2\n")?;
    assert_eq!(rt; sink.bytes(), b"id\n2\n".as_slice());
    let mut second = MemSink::new(alloc, 4, 100, [2].to_vec(alloc)?)?;
    assert_eq!(rt;
        write_all(&mut second, b"id\n2\n"),
        Err(SinkError::Failed(4))
    );
    assert_eq!(rt; second.bytes(), b"id\n2".as_slice());
    Ok(())
}

#[test]
fn reads_real_files(rt: HostRuntime) -> Result<(), Fail> {
    let mut files = RealFiles::new(&rt);
    let missing = read_file(rt.alloc(), &mut files, "no such file", 5);
    assert_eq!(rt; missing.err(), Some(FileError::Failed));
    let nothing = read_file(rt.alloc(), &mut files, "/dev/null", 0)?;
    assert_eq!(rt; nothing.len(), 0);
    let endless = read_file(rt.alloc(), &mut files, "/dev/zero", 100_000);
    assert_eq!(rt; endless.err(), Some(FileError::TooLarge));
    Ok(())
}

/// Takes all, but fails when it is to hand it on, or takes nothing.
#[derive(Drop)]
struct Stuck {
    takes_all: bool,
}

impl Write for Stuck {
    fn write(&mut self, bytes: &[u8]) -> io::Result<usize> {
        if self.takes_all {
            Ok(bytes.len())
        } else {
            Ok(0)
        }
    }

    fn flush(&mut self) -> io::Result<()> {
        if self.takes_all {
            return Err(io::Error::from(io::ErrorKind::StorageFull));
        }
        Ok(())
    }
}

#[test]
fn writes_through_real_sinks(rt: HostRuntime) -> Result<(), Fail> {
    let mut bytes = Vec::new(rt.alloc());
    assert_eq!(rt; write_all(&mut RealSink::new(&mut bytes), b"id\n"), Ok(()));
    assert_eq!(rt; bytes.as_slice(), b"id\n".as_slice());
    assert_eq!(rt; RealSink::new(rt.stdout()).write(b""), Ok(0));
    assert_eq!(rt; RealSink::new(rt.stderr()).write(b""), Ok(0));
    assert_eq!(rt;
        RealSink::new(Stuck { takes_all: true }).write(b"a"),
        Err(Failed)
    );
    assert_eq!(rt;
        RealSink::new(Stuck { takes_all: false }).write(b"a"),
        Err(Failed)
    );
    Ok(())
}
