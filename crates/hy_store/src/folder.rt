//! Runs in real files. What a file holds is nothing that a contract can say, so these objects tell which runs are live,
//! how many frames each has, and their counts of faults alone.
ghost use Rattle.std.specs.Prelude.{◌≡◌, ◌≢◌, ◌+◌, ◌-◌, ◌^◌, ◌<◌, ◌≤◌, [], length, IfOk, OnOk, OnErr, IsErrOf};
ghost use Rattle.al_value.specs.Outside.{Counted};
ghost use Rattle.hy_store.specs.Faults.{is_failed};
ghost use Rattle.hy_store.specs.Runs.{IsLive, Created, Grown};
ghost use Rattle.hy_store.specs.Folder.{count_in, runs_in, GrewByOne};

use crate::fault::StoreFault;
use crate::slots::count_live;
use crate::store::RunStore;
use al_value::{Failed, List};
use byteorder::{BigEndian, ByteOrder};
use hy_frame::{Frame, LoadFault};
use std::alloc::Global;
use std::fs::OpenOptions;
use std::io::{ErrorKind, Read, Seek, SeekFrom, Write};
use std::rt::Files;
use std::{fs, io};

/// The folder of the runs, in the working folder.
const FOLDER: &str = "algebricks-runs";

/// A run in a file: frames, each after its length in 4 bytes.
#[derive(Drop)]
pub(crate) struct FolderRun {
    path: String,
    // Where each frame's length stands, and where the next one's will.
    starts: List<u64>,
    end: u64,
}

/// Runs as files of a folder.
#[derive(Drop)]
pub struct FolderStore<'a, R: Files> {
    rt: &'a R,
    alloc: Global,
    // The store's number among those of its shelf.
    number: u64,
    // A slot for each run that was made, by its number.
    runs: Vec<Option<FolderRun>>,
    bytes: Vec<u8>,
    faults: u64,
}

/// Why a call of the system was not served.
fn fault_of(e: &io::Error) -> StoreFault {
    match e.kind() {
        ErrorKind::OutOfMemory => StoreFault::NoMemory,
        _ => StoreFault::Failed,
    }
}

/// Makes the folder where it isn't there.
fn make_folder(rt: &impl Files) -> Result<(), StoreFault> {
    match fs::create_dir(rt, FOLDER) {
        Ok(()) => Ok(()),
        Err(e) if e.kind() == ErrorKind::AlreadyExists => Ok(()),
        Err(e) => Err(fault_of(&e)),
    }
}

/// Makes the file of a run, empty.
fn make_file(rt: &impl Files, path: &str) -> Result<(), StoreFault> {
    match fs::create(rt, path) {
        Ok(_file) => Ok(()),
        Err(e) => Err(fault_of(&e)),
    }
}

/// Writes a frame's length and bytes into a file, from one place on.
fn write_at(rt: &impl Files, path: &str, start: u64, bytes: &[u8]) -> io::Result<()>
    requires { length bytes.now < 2 ^ 32 }
{
    let mut length = [0; 4];
    BigEndian::write_u32(&mut length, bytes.len() as u32);
    let mut file = OpenOptions::new().write(true).open(rt, path)?;
    file.seek(SeekFrom::Start(start))?;
    file.write_all(&length)?;
    file.write_all(bytes)
}

/// Reads what stands behind a length in a file, if that is this many bytes.
fn read_at(rt: &impl Files, path: &str, start: u64, bytes: &mut [u8]) -> io::Result<bool>
    ensures { length bytes.new ≡ length bytes.old }
{
    let mut length = [0; 4];
    let mut file = fs::open(rt, path)?;
    file.seek(SeekFrom::Start(start))?;
    file.read_exact(&mut length)?;
    if BigEndian::read_u32(&length) as usize != bytes.len() {
        return Ok(false);
    }
    file.read_exact(bytes)?;
    Ok(true)
}

impl FolderRun {
    /// A run without frames, whose file is made.
    fn make(rt: &impl Files, alloc: Global, path: String) -> Result<FolderRun, StoreFault>
        ensures { IfOk result (λ run. run.starts ≡ []) }
    {
        make_folder(rt)?;
        make_file(rt, path.as_str())?;
        Ok(FolderRun {
            path,
            starts: List::new(alloc),
            end: 0,
        })
    }

    /// Writes a frame's bytes behind those that are there.
    fn append(&mut self, rt: &impl Files, bytes: &[u8]) -> Result<(), StoreFault>
        requires { length bytes.now < 2 ^ 32 }
        ensures ok { OnOk result (count_in self.new ≡ count_in self.old + 1) }
        ensures err { OnErr result (self.new ≡ self.old) }
    {
        let Some(end) = self.end.checked_add(bytes.len() as u64 + 4) else {
            return Err(StoreFault::Failed);
        };
        if let Err(e) = write_at(rt, self.path.as_str(), self.end, bytes) {
            return Err(fault_of(&e));
        }
        self.starts.push(self.end)?;
        self.end = end;
        Ok(())
    }

    /// How many bytes the frame in this place has, by where the next one begins.
    fn length(&self, k: usize) -> u64
        requires { k < count_in self.now }
    {
        let starts = self.starts.as_slice();
        let next = if k + 1 < starts.len() {
            starts[k + 1]
        } else {
            self.end
        };
        next.saturating_sub(starts[k]).saturating_sub(4)
    }

    /// Reads the frame in this place, by way of a buffer.
    fn read(
        &self,
        rt: &impl Files,
        k: usize,
        bytes: &mut Vec<u8>,
        into: &mut Frame,
    ) -> Result<(), StoreFault>
        requires { k < count_in self.now }
        ensures shape { (into.new.arity ≡ into.old.arity) × (into.new.unit ≡ into.old.unit) }
        ensures err { OnErr result (into.new ≡ into.old) }
    {
        let start = self.starts.as_slice()[k];
        bytes.clear();
        bytes.resize(self.length(k) as usize, 0)?;
        match read_at(rt, self.path.as_str(), start, bytes.as_mut_slice()) {
            Ok(true) => {}
            Ok(false) => return Err(StoreFault::Failed),
            Err(e) => return Err(fault_of(&e)),
        }
        match into.load(bytes.as_slice()) {
            Ok(()) => Ok(()),
            Err(LoadFault::NotFrame) => Err(StoreFault::Failed),
            Err(LoadFault::NoMemory) => Err(StoreFault::NoMemory),
        }
    }
}

/// Writes a frame's bytes at the end of the run in a slot.
fn append_to(rt: &impl Files, slot: &mut Option<FolderRun>, bytes: &[u8]) -> Result<(), StoreFault>
    requires { length bytes.now < 2 ^ 32 }
    ensures ok { OnOk result (GrewByOne slot.old slot.new) }
    ensures err { OnErr result (slot.new ≡ slot.old) }
{
    match slot {
        Some(run) => run.append(rt, bytes),
        None => Ok(()),
    }
}

impl<'a, R: Files> FolderStore<'a, R> {
    /// A store of this number, without runs.
    pub(crate) fn new(rt: &'a R, alloc: Global, number: u64) -> FolderStore<'a, R>
        ensures runs { result.runs.items ≡ [] }
        ensures faults { result.faults ≡ 0 }
    {
        FolderStore {
            rt,
            alloc,
            number,
            runs: Vec::new(alloc),
            bytes: Vec::new(alloc),
            faults: 0,
        }
    }

    /// How many runs are live.
    pub(crate) fn live(&self) -> u64
        ensures { result ≡ length (runs_in self.now.runs.items).live }
    {
        count_live(self.runs.as_slice()) as u64
    }

    /// How many calls failed.
    pub(crate) fn faults(&self) -> u64
        ensures { result ≡ self.now.faults }
    {
        self.faults
    }

    /// Counts an answer that is a failure.
    fn counted<T: Drop>(&mut self, answer: Result<T, StoreFault>) -> Result<T, StoreFault>
        ensures same { result ≡ answer }
        ensures runs { self.new.runs ≡ self.old.runs }
        ensures cause { Counted (is_failed answer) self.old.faults self.new.faults }
    {
        if let Err(StoreFault::Failed) = &answer {
            self.faults = self.faults.saturating_add(1);
        }
        answer
    }

    /// Makes a run and its file, without counting a failure.
    fn make(&mut self) -> Result<u32, StoreFault>
        ensures ok { IfOk result (λ run. Created run (runs_in self.old.runs.items) (runs_in self.new.runs.items)) }
        ensures full { 2 ^ 32 - 1 ≤ length self.old.runs.items → IsErrOf result StoreFault.Failed }
        ensures err { OnErr result (self.new.runs.items ≡ self.old.runs.items) }
        ensures faults { self.new.faults ≡ self.old.faults }
    {
        let run = self.runs.len();
        if run >= u32::MAX as usize {
            return Err(StoreFault::Failed);
        }
        let path = format!(in self.alloc; "{FOLDER}/{}-{run}", self.number)?;
        let made = FolderRun::make(self.rt, self.alloc, path)?;
        self.runs.push(Some(made))?;
        Ok(run as u32)
    }

    /// Writes a frame at the end of a run, without counting a failure.
    fn append(&mut self, run: u32, frame: &Frame) -> Result<(), StoreFault>
        requires live { IsLive (runs_in self.old.runs.items) run }
        requires holds { frame.now.rows ≢ [] }
        ensures ok { OnOk result (Grown run frame.now (runs_in self.old.runs.items) (runs_in self.new.runs.items)) }
        ensures err { OnErr result (self.new.runs.items ≡ self.old.runs.items) }
        ensures faults { self.new.faults ≡ self.old.faults }
    {
        append_to(self.rt, &mut self.runs[run as usize], frame.bytes())
    }

    /// Reads the frame in this place of a run, without counting a failure.
    fn read(&mut self, run: u32, k: u64, into: &mut Frame) -> Result<(), StoreFault>
        requires live { IsLive (runs_in self.old.runs.items) run }
        requires place { k < (runs_in self.old.runs.items).count run }
        ensures shape { (into.new.arity ≡ into.old.arity) × (into.new.unit ≡ into.old.unit) }
        ensures err { OnErr result (into.new ≡ into.old) }
        ensures runs { self.new.runs ≡ self.old.runs }
        ensures faults { self.new.faults ≡ self.old.faults }
    {
        match &self.runs[run as usize] {
            Some(found) => found.read(self.rt, k as usize, &mut self.bytes, into),
            None => Ok(()),
        }
    }

    /// Removes the file of a run.
    fn remove_file(&self, run: u32) -> io::Result<()>
        requires { IsLive (runs_in self.now.runs.items) run }
    {
        match &self.runs[run as usize] {
            Some(found) => fs::remove_file(self.rt, found.path.as_str()),
            None => Ok(()),
        }
    }
}

impl<R: Files + Sync> RunStore for FolderStore<'_, R> {
    ghost use Rattle.hy_store.specs.Folder.{runs_in};

    ghost runs = { λ s. runs_in s.runs.items };

    ghost faults = { λ s. s.faults };

    fn create(&mut self) -> Result<u32, StoreFault> {
        let made = self.make();
        self.counted(made)
    }

    fn append_frame(&mut self, run: u32, frame: &Frame) -> Result<(), StoreFault> {
        let appended = self.append(run, frame);
        self.counted(appended)
    }

    fn frames(&self, run: u32) -> u64 {
        match &self.runs[run as usize] {
            Some(found) => found.starts.len() as u64,
            None => 0,
        }
    }

    fn read_frame(&mut self, run: u32, k: u64, into: &mut Frame) -> Result<(), StoreFault> {
        let read = self.read(run, k, into);
        self.counted(read)
    }

    fn remove(&mut self, run: u32) -> Result<(), Failed> {
        if self.remove_file(run).is_err() {
            self.faults = self.faults.saturating_add(1);
            return Err(Failed);
        }
        self.runs[run as usize] = None;
        Ok(())
    }

    fn made(&self) -> u64 {
        self.runs.len() as u64
    }
}
