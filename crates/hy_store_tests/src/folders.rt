ghost use Rattle.std.specs.Prelude.{◌≡◌, ◌≢◌, ◌<◌, [], IfOk};
ghost use Rattle.hy_store.specs.Runs.{IsLive, HaveShape};

use crate::frames::one;
use crate::trips::comes_back;
use al_value::Failed;
use hy_frame::{Bank, Frame};
use hy_store::{FolderShelf, RunStore, Shelf, StoreFault};
use std::fs;
use std::test::Fail;

/// The file of the first run of the first store.
const FILE: &str = "algebricks-runs/0-0";

/// A new run with a frame.
fn run_of<S: RunStore>(store: &mut S, frame: &Frame) -> Result<u32, StoreFault>
    requires { frame.now.rows ≢ [] }
    ensures live { IfOk result (λ run. IsLive (S.runs store.new) run) }
    ensures count { IfOk result (λ run. (S.runs store.new).count run ≡ 1) }
{
    let run = store.create()?;
    store.append_frame(run, frame)?;
    Ok(run)
}

#[test]
fn keeps_runs(rt: HostRuntime) -> Result<(), Fail> {
    let alloc = rt.alloc();
    let mut bank = Bank::new(256, 3);
    let ann = one(alloc, &mut bank, b"\x04Ann")?;
    let null = one(alloc, &mut bank, b"\x00")?;
    let mut into = one(alloc, &mut bank, b"\x01")?;
    let mut shelf = FolderShelf::new(&rt, alloc);
    let mut store = shelf.open_store()?;
    assert!(rt; !fs::exists(&rt, "algebricks-runs")?);
    let back = comes_back(&mut store, &ann, &null, &mut into)?;
    assert!(rt; back);
    let again = comes_back(&mut store, &null, &ann, &mut into)?;
    assert!(rt; again);
    shelf.take_back(store);
    assert_eq!(rt; shelf.made(), 2);
    fs::remove_dir_all(&rt, "algebricks-runs")?;
    Ok(())
}

#[test]
fn a_run_is_a_file(rt: HostRuntime) -> Result<(), Fail> {
    let alloc = rt.alloc();
    let mut bank = Bank::new(256, 1);
    let ann = one(alloc, &mut bank, b"\x04Ann")?;
    let mut whole = Vec::new(alloc);
    whole.extend_from_slice(b"\x00\x00\x01\x00")?;
    whole.extend_from_slice(ann.bytes())?;
    let mut shelf = FolderShelf::new(&rt, alloc);
    let mut store = shelf.open_store()?;
    let run = run_of(&mut store, &ann)?;
    let file = fs::read(&rt, FILE)?;
    assert_eq!(rt; file.as_slice(), whole.as_slice());
    assert_eq!(rt; store.remove(run), Ok(()));
    assert!(rt; !fs::exists(&rt, FILE)?);
    shelf.take_back(store);
    fs::remove_dir_all(&rt, "algebricks-runs")?;
    Ok(())
}

#[test]
fn stores_beside_each_other(rt: HostRuntime) -> Result<(), Fail> {
    let alloc = rt.alloc();
    let mut bank = Bank::new(256, 2);
    let ann = one(alloc, &mut bank, b"\x04Ann")?;
    let null = one(alloc, &mut bank, b"\x00")?;
    let mut shelf = FolderShelf::new(&rt, alloc);
    let mut first = shelf.open_store()?;
    let mut second = shelf.open_store()?;
    run_of(&mut first, &ann)?;
    run_of(&mut second, &null)?;
    let file = fs::read(&rt, FILE)?;
    let other = fs::read(&rt, "algebricks-runs/1-0")?;
    assert!(rt; file.ends_with(ann.bytes()));
    assert!(rt; other.ends_with(null.bytes()));
    shelf.take_back(first);
    shelf.take_back(second);
    assert_eq!(rt; shelf.made(), 2);
    fs::remove_dir_all(&rt, "algebricks-runs")?;
    Ok(())
}

#[test]
fn a_folder_that_is_a_file(rt: HostRuntime) -> Result<(), Fail> {
    fs::write(&rt, "algebricks-runs", "")?;
    let mut shelf = FolderShelf::new(&rt, rt.alloc());
    let mut store = shelf.open_store()?;
    assert_eq!(rt; store.create(), Err(StoreFault::Failed));
    shelf.take_back(store);
    assert_eq!(rt; shelf.made(), 0);
    fs::remove_file(&rt, "algebricks-runs")?;
    Ok(())
}

#[test]
fn a_folder_that_is_gone(rt: HostRuntime) -> Result<(), Fail> {
    let alloc = rt.alloc();
    let mut bank = Bank::new(256, 1);
    let ann = one(alloc, &mut bank, b"\x04Ann")?;
    let mut shelf = FolderShelf::new(&rt, alloc);
    let mut store = shelf.open_store()?;
    let run = store.create()?;
    fs::remove_dir_all(&rt, "algebricks-runs")?;
    assert_eq!(rt; store.append_frame(run, &ann), Err(StoreFault::Failed));
    assert_eq!(rt; store.remove(run), Err(Failed));
    shelf.take_back(store);
    Ok(())
}

/// What reading a run's first frame answers once its file was made this.
fn damaged<S: RunStore>(
    rt: &HostRuntime,
    store: &mut S,
    run: u32,
    file: &[u8],
    into: &mut Frame,
) -> Result<Result<(), StoreFault>, Fail>
    requires live { IsLive (S.runs store.old) run }
    requires some { 0 < (S.runs store.old).count run }
    requires shape { HaveShape (S.runs store.old) run into.old.arity into.old.unit }
    ensures runs { S.runs store.new ≡ S.runs store.old }
    ensures into { (into.new.arity ≡ into.old.arity) × (into.new.unit ≡ into.old.unit) }
{
    fs::write(rt, FILE, file)?;
    Ok(store.read_frame(run, 0, into))
}

/// The first bytes, as many of these as there are.
fn front(bytes: &[u8], most: usize) -> &[u8] {
    &bytes[..most.min(bytes.len())]
}

#[test]
fn a_run_that_is_cut_off(rt: HostRuntime) -> Result<(), Fail> {
    let alloc = rt.alloc();
    let mut bank = Bank::new(256, 2);
    let ann = one(alloc, &mut bank, b"\x04Ann")?;
    let mut into = one(alloc, &mut bank, b"\x01")?;
    let mut shelf = FolderShelf::new(&rt, alloc);
    let mut store = shelf.open_store()?;
    let run = run_of(&mut store, &ann)?;
    let whole = fs::read(&rt, FILE)?;
    let read = damaged(&rt, &mut store, run, front(&whole, 100), &mut into)?;
    assert_eq!(rt; read, Err(StoreFault::Failed));
    shelf.take_back(store);
    fs::remove_dir_all(&rt, "algebricks-runs")?;
    Ok(())
}

#[test]
fn a_run_that_is_cut_off_in_its_length(rt: HostRuntime) -> Result<(), Fail> {
    let alloc = rt.alloc();
    let mut bank = Bank::new(256, 2);
    let ann = one(alloc, &mut bank, b"\x04Ann")?;
    let mut into = one(alloc, &mut bank, b"\x01")?;
    let mut shelf = FolderShelf::new(&rt, alloc);
    let mut store = shelf.open_store()?;
    let run = run_of(&mut store, &ann)?;
    let whole = fs::read(&rt, FILE)?;
    let read = damaged(&rt, &mut store, run, front(&whole, 3), &mut into)?;
    assert_eq!(rt; read, Err(StoreFault::Failed));
    shelf.take_back(store);
    fs::remove_dir_all(&rt, "algebricks-runs")?;
    Ok(())
}

#[test]
fn a_run_whose_file_is_empty(rt: HostRuntime) -> Result<(), Fail> {
    let alloc = rt.alloc();
    let mut bank = Bank::new(256, 2);
    let ann = one(alloc, &mut bank, b"\x04Ann")?;
    let mut into = one(alloc, &mut bank, b"\x01")?;
    let mut shelf = FolderShelf::new(&rt, alloc);
    let mut store = shelf.open_store()?;
    let run = run_of(&mut store, &ann)?;
    let read = damaged(&rt, &mut store, run, b"", &mut into)?;
    assert_eq!(rt; read, Err(StoreFault::Failed));
    shelf.take_back(store);
    fs::remove_dir_all(&rt, "algebricks-runs")?;
    Ok(())
}

#[test]
fn a_run_of_another_length(rt: HostRuntime) -> Result<(), Fail> {
    let alloc = rt.alloc();
    let mut bank = Bank::new(256, 2);
    let ann = one(alloc, &mut bank, b"\x04Ann")?;
    let mut into = one(alloc, &mut bank, b"\x01")?;
    let mut shelf = FolderShelf::new(&rt, alloc);
    let mut store = shelf.open_store()?;
    let run = run_of(&mut store, &ann)?;
    let zeros = vec![in alloc; 0u8; 260]?;
    let read = damaged(&rt, &mut store, run, &zeros, &mut into)?;
    assert_eq!(rt; read, Err(StoreFault::Failed));
    shelf.take_back(store);
    fs::remove_dir_all(&rt, "algebricks-runs")?;
    Ok(())
}

#[test]
fn a_run_that_is_no_frame(rt: HostRuntime) -> Result<(), Fail> {
    let alloc = rt.alloc();
    let mut bank = Bank::new(256, 2);
    let ann = one(alloc, &mut bank, b"\x04Ann")?;
    let mut into = one(alloc, &mut bank, b"\x01")?;
    let mut shelf = FolderShelf::new(&rt, alloc);
    let mut store = shelf.open_store()?;
    let run = run_of(&mut store, &ann)?;
    let mut ones = vec![in alloc; 1u8; 260]?;
    ones[..4].copy_from_slice(b"\x00\x00\x01\x00");
    let read = damaged(&rt, &mut store, run, &ones, &mut into)?;
    assert_eq!(rt; read, Err(StoreFault::Failed));
    shelf.take_back(store);
    fs::remove_dir_all(&rt, "algebricks-runs")?;
    Ok(())
}
