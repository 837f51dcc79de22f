//! Whole files, sinks, and the edge to the machine.

ghost use Rattle.std.specs.Prelude.{◌≡◌, ◌-◌, ◌<◌, ◌^◌, ◌≤◌, true, Some, length, IfSome, IsOkUnless, OnOk};

use io_edge::fault::Failed;
use io_edge::files::Files;
use io_edge::machine::{RealFiles, RealSink};
use io_edge::memory::MemFiles;
use io_edge::sink::Sink;
use io_edge::whole::{ReadAllError, read_all};
use std::alloc::{AllocError, Global};
use std::io::Write;
use std::test::Fail;
use std::{env, fs, io};

/// Files of 5 and no bytes, and a second one with the first one's name.
fn three_files(alloc: Global) -> Result<Vec<(String, Vec<u8>)>, AllocError> {
    let mut files = Vec::new(alloc);
    files.push((String::from_str(alloc, "five")?, b"hello".to_vec(alloc)?))?;
    files.push((String::from_str(alloc, "none")?, Vec::new(alloc)))?;
    files.push((String::from_str(alloc, "five")?, b"second".to_vec(alloc)?))?;
    Ok(files)
}

/// A caller over any source: a sound one gives a file that is there and not too long, if memory does.
fn read_sound<F: Files>(
    files: &mut F,
    name: &str,
    limit: u64,
    into: &mut Vec<u8>,
) -> Result<(), ReadAllError>
    requires { limit < 2 ^ 64 - 1 }
    ensures ok { (F.state files.old).sound ≡ true → IfSome ((F.state files.old).bytes name.now)
        (λ bytes. length bytes ≤ limit → IsOkUnless result ReadAllError.NoMemory) }
    ensures whole { (F.state files.old).sound ≡ true
        → OnOk result ((F.state files.old).bytes name.now ≡ Some into.new.items) }
{
    read_all(files, name, limit, into)
}

#[test]
fn reads_whole_files_under_a_limit(rt: HostRuntime) -> Result<(), Fail> {
    let alloc = rt.alloc();
    let mut into = Vec::new(alloc);
    for (name, limit, failing, want, bytes) in [
        ("five", 5, 0, Ok(()), "hello"),
        ("five", 99, 0, Ok(()), "hello"),
        ("five", 4, 0, Err(ReadAllError::TooLong), ""),
        ("five", 0, 0, Err(ReadAllError::TooLong), ""),
        ("none", 0, 0, Ok(()), ""),
        ("absent", 9, 0, Err(ReadAllError::ReadFault), ""),
        ("five", 9, 1, Err(ReadAllError::ReadFault), ""),
        ("five", 9, 2, Err(ReadAllError::ReadFault), ""),
        ("five", 9, 3, Err(ReadAllError::ReadFault), ""),
        ("five", 9, 4, Ok(()), "hello"),
        ("five", 4, 3, Err(ReadAllError::TooLong), ""),
    ] {
        let mut files = MemFiles::new(three_files(alloc)?, vec![in alloc; failing]?);
        assert_eq!(rt;
            read_all(&mut files, name, limit, &mut into),
            want,
            "{name} {limit} {failing}"
        );
        assert_eq!(rt;
            into.as_slice(),
            bytes.as_bytes(),
            "{name} {limit} {failing}"
        );
    }
    let mut files = MemFiles::new(three_files(alloc)?, Vec::new(alloc));
    assert_eq!(rt; read_sound(&mut files, "five", 5, &mut into), Ok(()));
    Ok(())
}

/// A writer that takes one byte at a time, and none after so many.
#[derive(Drop)]
struct Drip {
    left: u8,
}

impl Write for Drip {
    fn write(&mut self, buf: &[u8]) -> io::Result<usize> {
        if self.left == 0 || buf.is_empty() {
            return Ok(0);
        }
        self.left -= 1;
        Ok(1)
    }

    fn flush(&mut self) -> io::Result<()> {
        Ok(())
    }
}

#[test]
fn reaches_the_machine(rt: HostRuntime) -> Result<(), Fail> {
    let alloc = rt.alloc();
    let mut path = env::temp_dir(&rt)?;
    path.push("io_edge_reaches_the_machine")?;
    fs::write(&rt, path.as_str(), "some text")?;
    let mut files = RealFiles::new(&rt);
    let mut into = Vec::new(alloc);
    assert_eq!(rt; read_all(&mut files, path.as_str(), 9, &mut into), Ok(()));
    assert_eq!(rt; into.as_slice(), b"some text".as_slice());
    let less = read_all(&mut files, path.as_str(), 8, &mut into);
    assert_eq!(rt; less, Err(ReadAllError::TooLong));
    fs::remove_file(&rt, path.as_str())?;
    let gone = read_all(&mut files, path.as_str(), 9, &mut into);
    assert_eq!(rt; gone, Err(ReadAllError::ReadFault));

    let mut written = Vec::new(alloc);
    let mut sink = RealSink::new(alloc, &mut written)?;
    assert_eq!(rt; sink.write(b"one"), Ok(()));
    assert_eq!(rt; sink.write(b" two"), Ok(()));
    assert_eq!(rt; sink.flush(), Ok(()));
    drop(sink);
    assert_eq!(rt; written.as_slice(), b"one two".as_slice());

    let mut drip = Drip { left: 4 };
    let mut slow = RealSink::new(alloc, &mut drip)?;
    assert_eq!(rt; slow.write(b"one"), Ok(()));
    assert_eq!(rt; slow.flush(), Ok(()));
    assert_eq!(rt; slow.write(b"two"), Ok(()));
    assert_eq!(rt; slow.flush(), Err(Failed));
    assert_eq!(rt; slow.flush(), Ok(()));
    Ok(())
}
