//! Wires that merge: sorted and empty senders.
ghost use Rattle.std.specs.Prelude.{◌≡◌, ◌<◌, ◌≤◌, ◌+◌, IfOk};
ghost use Rattle.hy_connect.specs.Merges.{IsMerging};
ghost use Rattle.hy_connect.specs.Routes.{HasColumns};
ghost use Rattle.hy_wire_runs.specs.Desks.{AreFree, IsDesk};

use crate::rows::{Came, Pair, rows_of, shown};
use al_value::{List, SortKey};
use hy_job::Wire;
use hy_mail::Desk;
use hy_wire_runs::{line_into, merged, new_desk};
use std::alloc::Global;
use std::test::Fail;

/// A wire that merges by the first of two fields.
fn by_key(alloc: Global, descending: bool) -> Result<Wire, Fail>
    ensures columns { IfOk result (HasColumns 2) }
    ensures merging { IfOk result IsMerging }
{
    let mut keys = List::new(alloc);
    keys.push(SortKey {
        column: 0,
        descending,
    })?;
    Ok(Wire::Merge(keys))
}

/// A sender writes its frames into its mailbox, and closes.
fn send(
    alloc: Global,
    desk: Desk,
    wire: &Wire,
    sender: u32,
    frames: &[&[Pair]],
) -> Result<Desk, Fail>
    requires desk { IsDesk desk }
    requires free { AreFree sender desk }
    requires wire { HasColumns 2 wire.now }
    requires few { sender < 4 }
    ensures desk { IfOk result IsDesk }
    ensures free { IfOk result (AreFree (sender + 1)) }
{
    let mut line = line_into(alloc, desk, wire, sender, 1, 256)?;
    for pairs in frames {
        line.write(alloc, &rows_of(alloc, pairs)?)?;
    }
    line.close();
    line.put(100)?;
    Ok(line.into_desk(sender + 1)?)
}

/// The mailboxes with what the senders put.
fn sent(alloc: Global, wire: &Wire, senders: &[&[&[Pair]]]) -> Result<Desk, Fail>
    requires { HasColumns 2 wire.now }
    ensures { IfOk result IsDesk }
{
    let mut desk = new_desk(alloc)?;
    for s in 0..senders.len().min(4) {
        desk = send(alloc, desk, wire, s as u32, senders[s])?;
    }
    Ok(desk)
}

/// The rows that the senders' wire gives, as text.
fn answer(alloc: Global, descending: bool, senders: &[&[&[Pair]]]) -> Result<String, Fail> {
    let wire = by_key(alloc, descending)?;
    let mut desk = sent(alloc, &wire, senders)?;
    let mut came = Came::none(alloc);
    let count = senders.len().min(4) as u32;
    merged(alloc, &mut desk, &wire, count, 256, &mut came)?;
    shown(alloc, &came)
}

/// Whether the order is downwards, what each sender writes, frame by frame, and the rows that come. Of rows with equal
/// keys that of the first sender comes first.
const MERGES: [(bool, &[&[&[Pair]]], &str); 7] = [
    (
        false,
        &[
            &[
                &[(None, 10), (Some(1), 11)],
                &[(Some(2), 12), (Some(2), 13)],
            ],
            &[],
            &[&[(None, 30)], &[(Some(1), 31), (Some(3), 32)]],
        ],
        "-,10;-,30;1,11;1,31;2,12;2,13;3,32",
    ),
    (
        true,
        &[
            &[&[(Some(3), 10)], &[(Some(1), 11), (None, 12)]],
            &[&[(Some(4), 20), (Some(3), 21)], &[(Some(3), 22)]],
        ],
        "4,20;3,10;3,21;3,22;1,11;-,12",
    ),
    (
        false,
        &[&[&[(Some(1), 10)], &[], &[(Some(5), 11)]]],
        "1,10;5,11",
    ),
    (
        false,
        &[
            &[&[(Some(7), 10)]],
            &[&[(Some(5), 20)]],
            &[&[(Some(6), 30)]],
            &[&[(Some(4), 40), (Some(8), 41)]],
        ],
        "4,40;5,20;6,30;7,10;8,41",
    ),
    (false, &[&[], &[], &[&[]], &[]], ""),
    (false, &[&[]], ""),
    (false, &[], ""),
];

#[test]
fn senders_are_merged(rt: HostRuntime) -> Result<(), Fail> {
    let alloc = rt.alloc();
    for (descending, senders, wanted) in MERGES {
        assert_eq!(rt; answer(alloc, descending, senders)?.as_str(), wanted);
    }
    Ok(())
}
