ghost use Rattle.std.specs.Prelude.{◌≡◌, ◌++◌, ◌∷◌, [], OnOk, OnErr, IfOk, None, option_map, vec_capacity, ◌≤◌, ◌<◌, ◌-◌, ◌↔◌, length, min, take, Some, Ok, IsTrue, true, false};
ghost use Rattle.std.specs.List.{Contains};
ghost use Rattle.al_value.specs.Outside.{Counted, Told, failed};
ghost use Rattle.al_io.specs.Outside.{Moves, Opens, is_failed};
ghost use Rattle.al_io.specs.Mem.{Fails, calls_in, content_in, file_of, files_in, faults_in, failing_in, is_open_in, next_call};

use crate::sink::Sink;
use crate::source::{ReadFault, Source};
use al_value::{Failed, List, Name, NoMemory};
use std::alloc::Global;

/// A file in memory.
#[derive(Debug, Drop)]
pub struct MemFile {
    pub name: Name,
    pub bytes: List<u8>,
}

/// Files in memory, of which chosen calls fail. Calls of `open` and `read` are numbered together,
/// from 0.
#[derive(Debug, Drop)]
pub struct MemSource {
    alloc: Global,
    files: List<MemFile>,
    failing: List<u64>,
    calls: u64,
    faults: u64,
    content: List<u8>,
    at: usize,
    opened: bool,
}

/// Whether this call is to fail; it is counted.
fn counts(failing: &[u64], calls: &mut u64) -> bool
    ensures fails { IsTrue result ↔ Contains failing.now calls.old }
    ensures counted { calls.new ≡ next_call calls.old }
{
    let number = *calls;
    *calls = number.saturating_add(1);
    failing.contains(&number)
}

fn copy_bytes(alloc: Global, bytes: &[u8]) -> Result<List<u8>, NoMemory>
    ensures { IfOk result (λ copy. copy ≡ bytes.now) }
{
    let mut copy = List::new(alloc);
    copy.extend(bytes)?;
    Ok(copy)
}

/// The first file of a name.
fn find<'a>(files: &'a [MemFile], name: &str) -> Option<&'a MemFile>
    ensures { option_map (λ f. f.now.bytes) result ≡ file_of files.now name.now }
{
    match files {
        [] => None,
        [f, rest @ ..] => {
            if f.name.as_str() == name {
                Some(f)
            } else {
                find(rest, name)
            }
        }
    }
}

impl MemSource {
    /// No file, and no call that fails.
    pub fn new(alloc: Global) -> MemSource
        ensures files { files_in result ≡ [] }
        ensures failing { failing_in result ≡ [] }
        ensures calls { calls_in result ≡ 0 }
        ensures faults { faults_in result ≡ 0 }
    {
        MemSource {
            alloc,
            files: List::new(alloc),
            failing: List::new(alloc),
            calls: 0,
            faults: 0,
            content: List::new(alloc),
            at: 0,
            opened: false,
        }
    }

    /// Adds a file. Of two files of one name the first counts.
    pub fn add_file(&mut self, name: &str, bytes: &[u8]) -> Result<(), NoMemory>
        ensures ok { OnOk result (files_in self.new ≡ files_in self.old ++ (record { name = name.now; bytes = bytes.now } ∷ [])) }
        ensures err { OnErr result (files_in self.new ≡ files_in self.old) }
        ensures failing { failing_in self.new ≡ failing_in self.old }
        ensures calls { calls_in self.new ≡ calls_in self.old }
        ensures faults { faults_in self.new ≡ faults_in self.old }
    {
        let name = Name::new(self.alloc, name)?;
        let bytes = copy_bytes(self.alloc, bytes)?;
        self.files.push(MemFile { name, bytes })
    }

    /// Lets the call of a number fail. The next call of `open` or `read` has as its number how many
    /// there were.
    pub fn fail_call(&mut self, number: u64) -> Result<(), NoMemory>
        ensures ok { OnOk result (failing_in self.new ≡ failing_in self.old ++ (number ∷ [])) }
        ensures err { OnErr result (failing_in self.new ≡ failing_in self.old) }
        ensures files { files_in self.new ≡ files_in self.old }
        ensures calls { calls_in self.new ≡ calls_in self.old }
        ensures faults { faults_in self.new ≡ faults_in self.old }
    {
        self.failing.push(number)
    }
}

impl Source for MemSource {
    ghost use Rattle.std.specs.Prelude.{Some, drop};
    ghost use Rattle.al_io.specs.Mem.{file_of};

    ghost files = { λ s. Some (file_of s.files) };

    ghost rest = { λ s. Some (drop s.at s.content) };

    ghost is_open = { λ s. s.opened };

    ghost faults = { λ s. s.faults };

    fn open(&mut self, name: &str) -> Result<bool, ReadFault>
        ensures files { files_in self.new ≡ files_in self.old }
        ensures opens { Opens (Some (file_of (files_in self.old))) name.now result (Some (content_in self.new)) }
        ensures opened { IsTrue (is_open_in self.new) ↔ (result ≡ Ok true) }
        ensures cause { Counted (is_failed result) (faults_in self.old) (faults_in self.new) }
        ensures fails { IsTrue (is_failed result) ↔ Fails self.old }
        ensures failing { failing_in self.new ≡ failing_in self.old }
        ensures calls { calls_in self.new ≡ next_call (calls_in self.old) }
    {
        self.opened = false;
        if counts(self.failing.as_slice(), &mut self.calls) {
            self.faults = self.faults.saturating_add(1);
            return Err(ReadFault::Failed);
        }
        match find(self.files.as_slice(), name) {
            None => Ok(false),
            Some(file) => {
                self.content = copy_bytes(self.alloc, file.bytes.as_slice())?;
                self.at = 0;
                self.opened = true;
                Ok(true)
            }
        }
    }

    fn read(&mut self, buf: &mut [u8]) -> Result<usize, Failed>
        requires opened { IsTrue (is_open_in self.old) }
        requires room { 0 < length buf.old }
        ensures files { files_in self.new ≡ files_in self.old }
        ensures opened { OnOk result (IsTrue (is_open_in self.new)) }
        ensures closed { OnErr result (is_open_in self.new ≡ false) }
        ensures bound { IfOk result (λ n. n ≤ length buf.new) }
        ensures moves { IfOk result (λ n. Moves (Some (content_in self.old)) (Some (content_in self.new)) buf.new n) }
        ensures cause { Counted (failed result) (faults_in self.old) (faults_in self.new) }
        ensures fits { IfOk result (λ n. n ≡ min (length (content_in self.old)) (length buf.old)) }
        ensures fails { IsTrue (failed result) ↔ Fails self.old }
        ensures failing { failing_in self.new ≡ failing_in self.old }
        ensures calls { calls_in self.new ≡ next_call (calls_in self.old) }
    {
        if counts(self.failing.as_slice(), &mut self.calls) {
            self.faults = self.faults.saturating_add(1);
            self.opened = false;
            return Err(Failed);
        }
        let left = self.content.len().saturating_sub(self.at);
        let n = left.min(buf.len());
        let content = self.content.as_slice();
        for i in 0..n {
            buf[i] = content[self.at + i];
        }
        self.at += n;
        Ok(n)
    }
}

/// What is written stays in memory, as far as there is room.
#[derive(Drop)]
pub struct MemSink {
    bytes: Vec<u8>,
    room: usize,
    faults: u64,
    ghost roomy: { room ≤ vec_capacity bytes },
}

impl MemSink {
    /// Reserves the room for as many bytes.
    pub fn new(alloc: Global, room: usize) -> Result<MemSink, NoMemory>
        ensures { IfOk result (λ s. (s.bytes.items ≡ []) × (s.room ≡ room) × (s.faults ≡ 0)) }
    {
        Ok(MemSink {
            bytes: Vec::with_capacity(alloc, room)?,
            room,
            faults: 0,
        })
    }

    pub fn bytes(&self) -> &[u8]
        ensures { result.now ≡ self.now.bytes.items }
    {
        self.bytes.as_slice()
    }
}

impl Sink for MemSink {
    ghost use Rattle.std.specs.Prelude.{Some};

    ghost written = { λ s. Some s.bytes.items };

    ghost faults = { λ s. s.faults };

    fn write(&mut self, piece: &[u8]) -> Result<usize, Failed>
        requires { 0 < length piece.now }
        ensures bound { IfOk result (λ n. (0 < n) × (n ≤ length piece.now)) }
        ensures gains { IfOk result (λ n. self.new.bytes.items ≡ self.old.bytes.items ++ take n piece.now) }
        ensures err { OnErr result (self.new.bytes.items ≡ self.old.bytes.items) }
        ensures cause { Counted (failed result) self.old.faults self.new.faults }
        ensures fits { IfOk result (λ n. n ≡ min (self.old.room - length self.old.bytes.items) (length piece.now)) }
        ensures fails { IsTrue (failed result) ↔ (self.old.room ≤ length self.old.bytes.items) }
        ensures room { self.new.room ≡ self.old.room }
    {
        let left = self.room.saturating_sub(self.bytes.len());
        let n = left.min(piece.len());
        if n == 0 {
            self.faults = self.faults.saturating_add(1);
            return Err(Failed);
        }
        self.bytes.extend_from_slice(&piece[..n]).unwrap();
        Ok(n)
    }
}
