use crate::frames::one;
use crate::trips::{comes_back, served};
use al_value::{Failed, NoMemory};
use hy_frame::Bank;
use hy_store::{
    MemShelf, OpFault, RunStore, Shelf, StoreFault, field_laws, store_cases, store_laws,
};
use std::test::Fail;

#[test]
fn keeps_runs(rt: HostRuntime) -> Result<(), Fail> {
    let alloc = rt.alloc();
    field_laws();
    store_laws();
    store_cases();
    let mut bank = Bank::new(256, 3);
    let ann = one(alloc, &mut bank, b"\x04Ann")?;
    let null = one(alloc, &mut bank, b"\x00")?;
    let mut into = one(alloc, &mut bank, b"\x01")?;
    let mut shelf = MemShelf::new(alloc);
    let mut store = shelf.open_store()?;
    let back = comes_back(&mut store, &ann, &null, &mut into)?;
    assert!(rt; back);
    let again = comes_back(&mut store, &null, &ann, &mut into)?;
    assert!(rt; again);
    shelf.take_back(store);
    assert_eq!(rt; (shelf.live(), shelf.made()), (0, 2));
    Ok(())
}

#[test]
fn the_named_call_fails(rt: HostRuntime) -> Result<(), Fail> {
    let alloc = rt.alloc();
    let mut bank = Bank::new(256, 2);
    let ann = one(alloc, &mut bank, b"\x04Ann")?;
    // The call that fails, and how many runs are made and left.
    for (call, made, live) in [(0, 0, 0), (1, 1, 1), (2, 1, 1), (3, 1, 1), (4, 1, 0)] {
        let mut bank = Bank::new(256, 1);
        let mut into = one(alloc, &mut bank, b"\x01")?;
        let mut shelf = MemShelf::new(alloc);
        shelf.fail_call(call)?;
        let mut store = shelf.open_store()?;
        let first = served(&mut store, &ann, &mut into);
        shelf.take_back(store);
        assert_eq!(rt; (first, shelf.made(), shelf.live()), (call, made, live));
    }
    Ok(())
}

#[test]
fn stores_beside_each_other(rt: HostRuntime) -> Result<(), Fail> {
    let mut shelf = MemShelf::new(rt.alloc());
    let mut store = shelf.open_store()?;
    let mut other = shelf.open_store()?;
    let run = store.create()?;
    let next = store.create()?;
    let alone = other.create()?;
    assert_eq!(rt; (run, next, alone), (0, 1, 0));
    shelf.take_back(store);
    assert_eq!(rt; shelf.live(), 2);
    shelf.take_back(other);
    assert_eq!(rt; (shelf.live(), shelf.made()), (3, 3));
    Ok(())
}

#[test]
fn faults_of_a_store_are_faults_of_an_operator(rt: HostRuntime) -> Result<(), Fail> {
    assert!(rt; matches!(OpFault::from(StoreFault::Failed), OpFault::Store));
    assert!(rt; matches!(OpFault::from(StoreFault::NoMemory), OpFault::NoMemory));
    assert_eq!(rt; StoreFault::from(Failed), StoreFault::Failed);
    assert_eq!(rt; StoreFault::from(NoMemory), StoreFault::NoMemory);
    Ok(())
}
