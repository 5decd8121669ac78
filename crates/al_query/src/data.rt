//! The datasets of a plan file.

ghost use Rattle.std.specs.Prelude.{◌≡◌, ◌≤◌, ◌+◌, false, length, All, IfOk, IfErr};
ghost use Rattle.al_value.specs.Outside.{Counted, Told};
ghost use Rattle.al_query.specs.Served as served;
ghost use Rattle.al_query.specs.Served.{of_file};
ghost use Rattle.al_query.specs.Tells.{AreSetsOf, IsStop, Refuses, TellsBytes, TellsData, TellsSet, is_source_fault};

use crate::status::{DataRefused, Status};
use al_csv::{BadRecord, DataKind, Decl, LoadRefused, load};
use al_io::{FileRead, ReadFault, Source, read_file};
use al_plain::Data;
use al_value::{List, NoMemory};
use std::alloc::Global;

/// The most bytes of a data file.
pub const MAX_DATA: usize = 33_554_432;

/// The most bytes of all data files.
pub const MAX_ALL_DATA: usize = 67_108_864;

/// A dataset, and how many bytes its file has.
#[derive(Debug, Drop)]
pub struct Loaded {
    pub data: Data,
    pub size: usize,
}

/// Reads and loads the datasets in the order of their declaration, used or not.
pub fn load_all<S: Source>(
    alloc: Global,
    decls: &[Decl],
    source: &mut S,
) -> Result<List<Data>, Status>
    ensures files { S.files source.new ≡ S.files source.old }
    ensures tells { Told (S.files source.old) (λ fs. TellsData fs decls.now result) }
    ensures sets { IfOk result (AreSetsOf decls.now) }
    ensures stops { IfErr result IsStop }
    ensures cause { Counted (is_source_fault result) (S.faults source.old) (S.faults source.new) }
{
    let mut sets = List::new(alloc);
    let mut before = 0;
    for decl in decls {
        let loaded = match load_one(alloc, before, decl, source) {
            Ok(loaded) => loaded,
            Err(status) => return Err(status),
        };
        before += loaded.size;
        match sets.push(loaded.data) {
            Ok(()) => {}
            Err(NoMemory) => return Err(Status::NoMemory),
        }
    }
    Ok(sets)
}

/// The most bytes of a file behind so many bytes of others.
fn room_behind(before: usize) -> usize
    requires { before ≤ MAX_ALL_DATA }
    ensures { result ≡ served.room_behind before }
{
    MAX_DATA.min(MAX_ALL_DATA - before)
}

/// Reads and loads the file of a dataset, behind so many bytes of others.
fn load_one<S: Source>(
    alloc: Global,
    before: usize,
    decl: &Decl,
    source: &mut S,
) -> Result<Loaded, Status>
    requires { before ≤ MAX_ALL_DATA }
    ensures files { S.files source.new ≡ S.files source.old }
    ensures tells { Told (S.files source.old) (λ fs. TellsSet before decl.now (fs decl.now.file) result) }
    ensures wide { IfOk result (λ l. All (λ row. length row ≡ length decl.now.columns) l.data.rows) }
    ensures named { IfOk result (λ l. l.data.name ≡ decl.now.name) }
    ensures room { IfOk result (λ l. before + l.size ≤ MAX_ALL_DATA) }
    ensures stops { IfErr result IsStop }
    ensures cause { Counted (is_source_fault result) (S.faults source.old) (S.faults source.new) }
{
    match read_file(alloc, source, decl.file.as_str(), room_behind(before)) {
        Ok(FileRead::Bytes(bytes)) => load_bytes(alloc, decl, bytes.as_slice()),
        Ok(FileRead::TooLarge) => Err(file_refused(alloc, decl, DataKind::TooLarge)),
        Ok(FileRead::Absent) => Err(file_refused(alloc, decl, DataKind::Absent)),
        Err(ReadFault::Failed) => Err(Status::SourceFault),
        Err(ReadFault::NoMemory) => Err(Status::NoMemory),
    }
}

/// Loads the bytes of a dataset's file.
fn load_bytes(alloc: Global, decl: &Decl, bytes: &[u8]) -> Result<Loaded, Status>
    ensures tells { TellsBytes decl.now bytes.now result }
    ensures wide { IfOk result (λ l. All (λ row. length row ≡ length decl.now.columns) l.data.rows) }
    ensures stops { IfErr result IsStop }
    ensures cause { is_source_fault result ≡ false }
{
    let rows = match load(alloc, decl, bytes) {
        Ok(rows) => rows,
        Err(LoadRefused::Bad(bad)) => return Err(data_refused(alloc, decl, bad)),
        Err(LoadRefused::NoMemory) => return Err(Status::NoMemory),
    };
    match decl.name.copy(alloc) {
        Ok(name) => Ok(Loaded {
            data: Data { name, rows },
            size: bytes.len(),
        }),
        Err(NoMemory) => Err(Status::NoMemory),
    }
}

/// The refusal of a whole data file.
fn file_refused(alloc: Global, decl: &Decl, kind: DataKind) -> Status
    ensures { Refuses decl.now (of_file kind) result }
{
    let bad = BadRecord {
        kind,
        number: 0,
        column: 0,
    };
    data_refused(alloc, decl, bad)
}

fn data_refused(alloc: Global, decl: &Decl, bad: BadRecord) -> Status
    ensures { Refuses decl.now bad result }
{
    match decl.file.copy(alloc) {
        Ok(file) => Status::DataRefused(DataRefused { file, bad }),
        Err(NoMemory) => Status::NoMemory,
    }
}
