ghost use Rattle.std.specs.Prelude.{◌≡◌, ℕ, ◌<◌, ◌≤◌, ◌↔◌, Bool, true, false, Option, Some, Ok, length, IsTrue, IfOk, OnErr, OnOk};
ghost use Rattle.al_value.specs.Outside.{Counted, failed, Told};
ghost use Rattle.al_io.specs.Outside.{Files, Bytes, is_failed, Opens, Moves, IsWholeOf};
ghost use Rattle.al_io.specs.FileRead.{IsLimited, TellsFile};

use al_value::{Failed, List, NoMemory};
use std::alloc::Global;

/// Why a file is not read: the outside did not serve a call, or no memory was left.
#[derive(Clone, Copy, Debug, PartialEq, Eq)]
pub enum ReadFault {
    Failed,
    NoMemory,
}

impl From<Failed> for ReadFault {
    ghost use Rattle.al_io.specs.declared.source.ReadFault.TheVariants as fault;

    ghost from_gives = { λ _ e. e ≡ fault.Failed };

    fn from(_e: Failed) -> ReadFault {
        ReadFault::Failed
    }
}

impl From<NoMemory> for ReadFault {
    ghost use Rattle.al_io.specs.declared.source.ReadFault.TheVariants as fault;

    ghost from_gives = { λ _ e. e ≡ fault.NoMemory };

    fn from(_e: NoMemory) -> ReadFault {
        ReadFault::NoMemory
    }
}

/// Files that are read from their begin to their end, one at a time.
pub trait Source {
    /// The content of each file, where the source tells it.
    ghost files: { Self → Option Files };

    /// What is left to read of the open file, where the source tells it.
    ghost rest: { Self → Option Bytes };

    ghost is_open: { Self → Bool };

    /// How many calls the outside did not serve.
    ghost faults: { Self → ℕ };

    /// Opens the file of a name in place of the one that is open. `false` is the answer where
    /// there is no such file.
    fn open(&mut self, name: &str) -> Result<bool, ReadFault>
        ensures files { files self.new ≡ files self.old }
        ensures opens { Opens (files self.old) name.now result (rest self.new) }
        ensures opened { IsTrue (is_open self.new) ↔ (result ≡ Ok true) }
        ensures cause { Counted (is_failed result) (faults self.old) (faults self.new) };

    /// Moves the next bytes of the open file to the front of `buf`, and answers how many.
    fn read(&mut self, buf: &mut [u8]) -> Result<usize, Failed>
        requires opened { IsTrue (is_open self.old) }
        requires room { 0 < length buf.old }
        ensures files { files self.new ≡ files self.old }
        ensures opened { OnOk result (IsTrue (is_open self.new)) }
        ensures closed { OnErr result (is_open self.new ≡ false) }
        ensures bound { IfOk result (λ n. n ≤ length buf.new) }
        ensures moves { IfOk result (λ n. Moves (rest self.old) (rest self.new) buf.new n) }
        ensures cause { Counted (failed result) (faults self.old) (faults self.new) };
}

/// The bytes of a file, or as many as were read before the limit was passed.
#[derive(Debug, Drop)]
pub struct Whole {
    pub bytes: List<u8>,
    pub past: bool,
}

/// Reads the open file to its end, or until more than `limit` bytes came.
pub fn read_whole<S: Source>(
    alloc: Global,
    source: &mut S,
    limit: usize,
) -> Result<Whole, ReadFault>
    requires { IsTrue (S.is_open source.old) }
    ensures files { S.files source.new ≡ S.files source.old }
    ensures past { IfOk result (λ w. IsTrue w.past ↔ (limit < length w.bytes)) }
    ensures whole { IfOk result (λ w. Told (S.rest source.old) (IsWholeOf w.past w.bytes)) }
    ensures cause { Counted (is_failed result) (S.faults source.old) (S.faults source.new) }
{
    let mut bytes = List::new(alloc);
    let mut buf = [0u8; 4096];
    loop {
        let n = source.read(&mut buf)?;
        if n == 0 {
            return Ok(Whole { bytes, past: false });
        }
        bytes.extend(&buf[..n])?;
        if bytes.len() > limit {
            return Ok(Whole { bytes, past: true });
        }
    }
}

/// What a file of a name holds, up to a limit.
#[derive(Debug, Drop)]
pub enum FileRead {
    /// There is no such file.
    Absent,
    /// It has more bytes than the limit.
    TooLarge,
    Bytes(List<u8>),
}

/// Opens and reads the file of a name.
pub fn read_file<S: Source>(
    alloc: Global,
    source: &mut S,
    name: &str,
    limit: usize,
) -> Result<FileRead, ReadFault>
    ensures files { S.files source.new ≡ S.files source.old }
    ensures tells { IfOk result (λ found. Told (S.files source.old) (λ fs. TellsFile (fs name.now) limit found)) }
    ensures limited { IfOk result (IsLimited limit) }
    ensures cause { Counted (is_failed result) (S.faults source.old) (S.faults source.new) }
{
    if !source.open(name)? {
        return Ok(FileRead::Absent);
    }
    let whole = read_whole(alloc, source, limit)?;
    if whole.past {
        return Ok(FileRead::TooLarge);
    }
    Ok(FileRead::Bytes(whole.bytes))
}
