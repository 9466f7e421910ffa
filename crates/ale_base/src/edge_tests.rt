//! The system's files and output, over a printer and files that are made for these tests.
ghost use Rattle.std.specs.Prelude.{IsErr};

use crate::Failed;
use crate::input::{ChooseError, Files};
use crate::output::Sink;
use crate::reading::{ReadError, read_all};
use crate::real_files::RealFiles;
use crate::real_sink::RealSink;
use crate::writing::{WriteError, write_all};
use std::alloc::{AllocError, Allocator};
use std::cell::Cell;
use std::fmt::Display;
use std::fs::{Metadata, OpenFile, OpenOptions};
use std::io::{self, ErrorKind, Print, Read, Seek, SeekFrom, Write};
use std::rt;

fn refused<T>() -> io::Result<T>
    ensures { IsErr result }
{
    Err(io::Error::from(ErrorKind::Unsupported))
}

// A printer that takes one byte a call, as long as there is room, and keeps the last one.
#[derive(Drop)]
struct Printer {
    room: Cell<u32>,
    last: Cell<u8>,
}

impl Print for Printer {
    fn print<D: Display + Drop>(&self, _value: D) -> io::Result<()> {
        refused()
    }

    fn println<D: Display + Drop>(&self, _value: D) -> io::Result<()> {
        refused()
    }

    fn write_all(&self, _bytes: &[u8]) -> io::Result<()> {
        refused()
    }

    fn write_some(&self, bytes: &[u8]) -> io::Result<usize> {
        match (bytes, self.room.get()) {
            ([], _) => Ok(0),
            (_, 0) => Err(io::Error::from(ErrorKind::BrokenPipe)),
            ([first, ..], room) => {
                self.room.set(room.saturating_sub(1));
                self.last.set(*first);
                Ok(1)
            }
        }
    }
}

#[test]
fn a_short_write_is_a_short_write(rt: HostRuntime) {
    let printer = Printer {
        room: Cell::new(3),
        last: Cell::new(0),
    };
    let mut sink = RealSink::new(&printer);
    assert_eq!(rt; sink.write(b"abc"), Ok(1));
    assert_eq!(rt; write_all(&mut sink, b"bc"), Ok(()));
    assert_eq!(rt; printer.last.get(), b'c');
    assert_eq!(rt; write_all(&mut sink, b""), Ok(()));
    assert_eq!(rt; sink.faults, 0);
    assert_eq!(rt; write_all(&mut sink, b"d"), Err(WriteError::Failed));
    assert_eq!(rt; sink.write(b"d"), Err(Failed));
    assert_eq!(rt; sink.faults, 2);
}

// A file of `len` bytes `x`, which are read one a call; then each call fails, or it is the end.
#[derive(Drop)]
struct Source {
    left: u32,
    ends: bool,
}

impl Read for Source {
    fn read(&mut self, buf: &mut [u8]) -> io::Result<usize> {
        match buf {
            [] => Ok(0),
            [first, ..] if self.left > 0 => {
                self.left = self.left.saturating_sub(1);
                *first = b'x';
                Ok(1)
            }
            _ if self.ends => Ok(0),
            _ => Err(io::Error::from(ErrorKind::TimedOut)),
        }
    }
}

impl Write for Source {
    fn write(&mut self, _buf: &[u8]) -> io::Result<usize> {
        refused()
    }

    fn flush(&mut self) -> io::Result<()> {
        refused()
    }
}

impl Seek for Source {
    fn seek(&mut self, _to: SeekFrom) -> io::Result<u64> {
        refused()
    }
}

impl OpenFile for Source {
    fn metadata(&self) -> io::Result<Metadata> {
        refused()
    }

    fn set_len(&self, _size: u64) -> io::Result<()> {
        refused()
    }

    fn sync_all(&self) -> io::Result<()> {
        refused()
    }

    fn sync_data(&self) -> io::Result<()> {
        refused()
    }
}

// Files of which one opens, by exactly its path; every other path is refused with `kind`.
#[derive(Drop)]
struct Folder<'a> {
    path: &'a str,
    ends: bool,
    kind: ErrorKind,
}

impl<'a> rt::Files for Folder<'a> {
    type File = Source;

    type Dir = Source;

    fn open_file(&self, how: &OpenOptions, path: &str) -> io::Result<Source> {
        if path == self.path && how.asks_read() && !how.asks_write() {
            Ok(Source {
                left: 3,
                ends: self.ends,
            })
        } else {
            Err(io::Error::from(self.kind))
        }
    }

    fn open_dir(&self, _path: &str) -> io::Result<Source> {
        refused()
    }

    fn metadata(&self, _path: &str) -> io::Result<Metadata> {
        refused()
    }

    fn symlink_metadata(&self, _path: &str) -> io::Result<Metadata> {
        refused()
    }

    fn copy(&self, _from: &str, _to: &str) -> io::Result<u64> {
        refused()
    }

    fn rename(&self, _from: &str, _to: &str) -> io::Result<()> {
        refused()
    }

    fn remove_file(&self, _path: &str) -> io::Result<()> {
        refused()
    }

    fn create_dir(&self, _path: &str) -> io::Result<()> {
        refused()
    }

    fn remove_dir(&self, _path: &str) -> io::Result<()> {
        refused()
    }

    fn remove_dir_all<B: Allocator>(&self, _alloc: B, _path: &str) -> io::Result<()> {
        refused()
    }
}

#[test]
fn the_path_is_the_name(rt: HostRuntime) -> Result<(), AllocError> {
    let alloc = rt.alloc();
    let folder = Folder {
        path: " a/b .ale\n",
        ends: true,
        kind: ErrorKind::NotFound,
    };
    let mut files = RealFiles::new(&folder);
    for other in ["a/b .ale", " a/b .ale", "a/b .ale\n", "", " a/B .ale\n"] {
        assert_eq!(rt; files.choose(other), Err(ChooseError::Failed));
    }
    assert_eq!(rt; files.faults, 5);
    match read_all(alloc, &mut files, " a/b .ale\n", 3) {
        Ok(bytes) => assert!(rt; bytes.as_slice() == b"xxx".as_slice()),
        Err(error) => assert_eq!(rt; Some(error), None),
    }
    assert_eq!(rt;
        read_all(alloc, &mut files, " a/b .ale\n", 2).err(),
        Some(ReadError::TooLong)
    );
    assert_eq!(rt; files.faults, 5);
    Ok(())
}

#[test]
fn a_read_that_fails_is_a_fault(rt: HostRuntime) {
    let folder = Folder {
        path: "a",
        ends: false,
        kind: ErrorKind::NotFound,
    };
    let mut files = RealFiles::new(&folder);
    assert_eq!(rt;
        read_all(rt.alloc(), &mut files, "a", 9).err(),
        Some(ReadError::Failed)
    );
    assert_eq!(rt; files.faults, 1);
}

#[test]
fn only_out_of_memory_is_out_of_memory(rt: HostRuntime) {
    for (kind, why, faults) in [
        (ErrorKind::OutOfMemory, ChooseError::NoMemory, 0u64),
        (ErrorKind::NotFound, ChooseError::Failed, 1),
        (ErrorKind::PermissionDenied, ChooseError::Failed, 1),
        (ErrorKind::IsADirectory, ChooseError::Failed, 1),
    ] {
        let folder = Folder {
            path: "a",
            ends: true,
            kind,
        };
        let mut files = RealFiles::new(&folder);
        assert_eq!(rt; files.choose("b"), Err(why));
        assert_eq!(rt; files.faults, faults);
    }
}
