//! The real objects. What a file or a stream holds is nothing that a contract can say, so they
//! tell their counts of faults alone.

ghost use Rattle.std.specs.Prelude.{◌≡◌, ◌≤◌, IfOk, None, length};

use crate::sink::Sink;
use crate::source::{ReadFault, Source};
use al_value::Failed;
use std::alloc::Global;
use std::fs;
use std::io::{ErrorKind, Read, Write};
use std::rt::Files;

/// Reads once, and again where a signal interrupted the read.
fn read_again<T: Read>(file: &mut T, buf: &mut [u8]) -> Result<usize, Failed>
    ensures len { length buf.new ≡ length buf.old }
    ensures bound { IfOk result (λ n. n ≤ length buf.new) }
{
    for _ in 0..u64::MAX {
        match file.read(buf) {
            Ok(n) => return Ok(n),
            Err(e) if e.kind() == ErrorKind::Interrupted => {}
            Err(_) => return Err(Failed),
        }
    }
    Err(Failed)
}

/// Writes once, and again where a signal interrupted the write.
fn write_again<W: Write>(stream: &mut W, piece: &[u8]) -> Result<usize, Failed>
    ensures { IfOk result (λ n. n ≤ length piece.now) }
{
    for _ in 0..u64::MAX {
        match stream.write(piece) {
            Ok(n) => return Ok(n),
            Err(e) if e.kind() == ErrorKind::Interrupted => {}
            Err(_) => return Err(Failed),
        }
    }
    Err(Failed)
}

/// The files of the working folder.
#[derive(Drop)]
pub struct FolderSource<'a, R: Files> {
    rt: &'a R,
    file: Option<R::File>,
    faults: u64,
}

impl<'a, R: Files> FolderSource<'a, R> {
    /// No file is open.
    pub fn new(rt: &'a R, _alloc: Global) -> FolderSource<'a, R>
        ensures closed { result.file ≡ None }
        ensures faults { result.faults ≡ 0 }
    {
        FolderSource {
            rt,
            file: None,
            faults: 0,
        }
    }
}

impl<R: Files> Source for FolderSource<'_, R> {
    ghost use Rattle.std.specs.Prelude.{None, is_some};

    ghost files = { λ _. None };

    ghost rest = { λ _. None };

    ghost is_open = { λ s. is_some s.file };

    ghost faults = { λ s. s.faults };

    fn open(&mut self, name: &str) -> Result<bool, ReadFault> {
        self.file = None;
        match fs::open(self.rt, name) {
            Ok(file) => {
                self.file = Some(file);
                Ok(true)
            }
            Err(e) => match e.kind() {
                ErrorKind::NotFound => Ok(false),
                ErrorKind::OutOfMemory => Err(ReadFault::NoMemory),
                _ => {
                    self.faults = self.faults.saturating_add(1);
                    Err(ReadFault::Failed)
                }
            },
        }
    }

    fn read(&mut self, buf: &mut [u8]) -> Result<usize, Failed> {
        if let Some(file) = &mut self.file {
            if let Ok(n) = read_again(file, buf) {
                return Ok(n);
            }
        }
        self.file = None;
        self.faults = self.faults.saturating_add(1);
        Err(Failed)
    }
}

/// Standard output, standard error or another stream.
#[derive(Drop)]
pub struct StreamSink<W: Write + Drop> {
    stream: W,
    faults: u64,
}

impl<W: Write + Drop> StreamSink<W> {
    pub fn new(stream: W, _alloc: Global) -> StreamSink<W>
        ensures faults { result.faults ≡ 0 }
    {
        StreamSink { stream, faults: 0 }
    }
}

impl<W: Write + Drop> Sink for StreamSink<W> {
    ghost use Rattle.std.specs.Prelude.{None};

    ghost written = { λ _. None };

    ghost faults = { λ s. s.faults };

    fn write(&mut self, piece: &[u8]) -> Result<usize, Failed> {
        if let Ok(n) = write_again(&mut self.stream, piece) {
            if n > 0 {
                return Ok(n);
            }
        }
        self.faults = self.faults.saturating_add(1);
        Err(Failed)
    }
}
