//! Wires that don't merge: what comes to each of one to four receivers.
ghost use Rattle.std.specs.Prelude.{◌≡◌, ◌<◌, ◌≤◌, IfOk, OnOk};
ghost use Rattle.hy_connect.specs.Routes.{HasColumns};
ghost use Rattle.hy_connect.specs.Takers.{ComesAsPut};
ghost use Rattle.hy_frame.specs.declared.writer.WriterState.{WriterState};
ghost use Rattle.hy_wire_runs.specs.Lines.{IsLine, IsWriting};

use crate::rows::{Came, Pair, long_row, long_text, rows_of, shown};
use al_value::List;
use hy_job::Wire;
use hy_wire_runs::{Left, Line, line_into, new_desk, read, reader_of};
use std::alloc::Global;
use std::process::Abort;
use std::test::Fail;

/// Eight rows in frames, one of which has none.
const FRAMES: [&[Pair]; 4] = [
    &[(None, 1), (Some(0), 2), (Some(1), 3)],
    &[(Some(2), 4), (Some(3), 5), (None, 6)],
    &[],
    &[(Some(4), 7), (Some(1), 8)],
];

/// They as text.
const ALL: &str = "-,1;0,2;1,3;2,4;3,5;-,6;4,7;1,8";

/// More parcels than any of these writers puts.
const MANY: u32 = 100;

/// A wire that splits by the first of two fields.
fn by_hash(alloc: Global) -> Result<Wire, Fail>
    ensures columns { IfOk result (HasColumns 2) }
    ensures as_put { IfOk result ComesAsPut }
{
    let mut columns = List::new(alloc);
    columns.push(0)?;
    Ok(Wire::Hash(columns))
}

/// A writer to so many receivers, with frames of 256 bytes.
fn begun(alloc: Global, wire: &Wire, receivers: u32) -> Result<Line, Fail>
    requires columns { HasColumns 2 wire.now }
    requires few { receivers ≤ 4 }
    ensures line { IfOk result IsWriting }
    ensures opened { IfOk result (λ line. line.writer.state ≡ WriterState.Opened) }
{
    Ok(line_into(alloc, new_desk(alloc)?, wire, 0, receivers, 256)?)
}

/// One that has written frames.
fn written(alloc: Global, wire: &Wire, receivers: u32, frames: &[&[Pair]]) -> Result<Line, Fail>
    requires columns { HasColumns 2 wire.now }
    requires few { receivers ≤ 4 }
    ensures line { IfOk result IsWriting }
    ensures opened { IfOk result (λ line. line.writer.state ≡ WriterState.Opened) }
{
    let mut line = begun(alloc, wire, receivers)?;
    for pairs in frames {
        line.write(alloc, &rows_of(alloc, pairs)?)?;
    }
    Ok(line)
}

/// Closes a writer, and gives how many parcels were put.
fn closed(line: &mut Line) -> Result<u32, Fail>
    requires line { IsWriting line.old }
    requires opened { line.old.writer.state ≡ WriterState.Opened }
    ensures { OnOk result (IsLine line.new) }
{
    line.close();
    Ok(line.put(MANY)?)
}

/// What comes to a receiver to its end: the rows as text, and the numbers of frames and of failures.
fn came_to(
    alloc: Global,
    line: &mut Line,
    wire: &Wire,
    receiver: u32,
) -> Result<(String, u32, u32), Fail>
    requires line { IsLine line.old }
    requires wire { ComesAsPut wire.now }
    requires there { receiver < 4 }
    ensures { OnOk result (IsLine line.new) }
{
    let mut came = Came::none(alloc);
    let mut reader = reader_of(alloc, wire, receiver, 256)?;
    let Left::End = read(alloc, line, &mut reader, &mut came)? else {
        return Err(Fail::from("no end"));
    };
    Ok((shown(alloc, &came)?, reader.frames, reader.fails))
}

/// Each receiver gets all rows in the frames in which they were written, those without rows left out.
fn all_come(rt: &impl Abort, alloc: Global, wire: &Wire, receivers: u32) -> Result<(), Fail>
    requires columns { HasColumns 2 wire.now }
    requires as_put { ComesAsPut wire.now }
    requires few { receivers ≤ 4 }
{
    let mut line = written(alloc, wire, receivers, &FRAMES)?;
    assert_eq!(rt; closed(&mut line)?, 5 * receivers);
    assert_eq!(rt; line.frames_out(), 0);
    for k in 0..receivers {
        let (text, frames, fails) = came_to(alloc, &mut line, wire, k)?;
        assert_eq!(rt; (text.as_str(), frames, fails), (ALL, 3, 0));
    }
    Ok(())
}

#[test]
fn a_broadcast_goes_to_all(rt: HostRuntime) -> Result<(), Fail> {
    for receivers in 1..5 {
        all_come(&rt, rt.alloc(), &Wire::Broadcast, receivers)?;
    }
    Ok(())
}

#[test]
fn one_receiver_gets_all(rt: HostRuntime) -> Result<(), Fail> {
    let alloc = rt.alloc();
    all_come(&rt, alloc, &Wire::OneToOne, 1)?;
    all_come(&rt, alloc, &Wire::Gather, 1)
}

/// What comes to each of one to four receivers of a hash wire. The key NULL has the hash 1 modulo 2, 3 and 4, and the
/// keys from 0 to 4 have 0, 1, 0, 1, 0 modulo 2; 0, 1, 2, 0, 2 modulo 3; and 0, 3, 2, 1, 0 modulo 4.
const PARTS: [&[&str]; 4] = [
    &[ALL],
    &["0,2;2,4;4,7", "-,1;1,3;3,5;-,6;1,8"],
    &["0,2;3,5", "-,1;1,3;-,6;1,8", "2,4;4,7"],
    &["0,2;4,7", "-,1;3,5;-,6", "2,4", "1,3;1,8"],
];

/// Each receiver gets its rows in one frame.
fn parts_come(rt: &impl Abort, alloc: Global, parts: &[&str]) -> Result<(), Fail> {
    let wire = by_hash(alloc)?;
    let receivers = parts.len();
    if receivers > 4 {
        return Err(Fail::from("not that many"));
    }
    let mut line = written(alloc, &wire, receivers as u32, &FRAMES)?;
    assert_eq!(rt; closed(&mut line)?, 3 * receivers as u32);
    assert_eq!(rt; line.frames_out(), 0);
    for k in 0..receivers {
        let (text, frames, fails) = came_to(alloc, &mut line, &wire, k as u32)?;
        assert_eq!(rt; (text.as_str(), frames, fails), (parts[k], 1, 0));
    }
    Ok(())
}

#[test]
fn a_hash_splits(rt: HostRuntime) -> Result<(), Fail> {
    for parts in PARTS {
        parts_come(&rt, rt.alloc(), parts)?;
    }
    Ok(())
}

/// Twenty rows with the key 0.
const ZEROS: [&[Pair]; 3] = [
    &[
        (Some(0), 1),
        (Some(0), 2),
        (Some(0), 3),
        (Some(0), 4),
        (Some(0), 5),
        (Some(0), 6),
        (Some(0), 7),
    ],
    &[
        (Some(0), 8),
        (Some(0), 9),
        (Some(0), 10),
        (Some(0), 11),
        (Some(0), 12),
        (Some(0), 13),
        (Some(0), 14),
    ],
    &[
        (Some(0), 15),
        (Some(0), 16),
        (Some(0), 17),
        (Some(0), 18),
        (Some(0), 19),
        (Some(0), 20),
    ],
];

/// A row of two ints takes 30 bytes of a frame, and a frame 4 beside its rows: eight rows fill one of 256 bytes. The
/// receiver of no row gets an Open and a Close alone.
#[test]
fn frames_are_filled(rt: HostRuntime) -> Result<(), Fail> {
    let alloc = rt.alloc();
    let wire = by_hash(alloc)?;
    let mut line = written(alloc, &wire, 2, &ZEROS)?;
    assert_eq!(rt; closed(&mut line)?, 7);
    let (text, frames, fails) = came_to(alloc, &mut line, &wire, 0)?;
    let all =
        "0,1;0,2;0,3;0,4;0,5;0,6;0,7;0,8;0,9;0,10;0,11;0,12;0,13;0,14;0,15;0,16;0,17;0,18;0,19;0,20";
    assert_eq!(rt; (text.as_str(), frames, fails), (all, 3, 0));
    let (text, frames, fails) = came_to(alloc, &mut line, &wire, 1)?;
    assert_eq!(rt; (text.as_str(), frames, fails), ("", 0, 0));
    Ok(())
}

/// A row with a text of 32,000 bytes between short ones.
fn long_written(alloc: Global, wire: &Wire) -> Result<Line, Fail>
    requires { HasColumns 2 wire.now }
    ensures line { IfOk result IsWriting }
    ensures opened { IfOk result (λ line. line.writer.state ≡ WriterState.Opened) }
{
    let mut line = begun(alloc, wire, 2)?;
    line.write(alloc, &rows_of(alloc, &[(Some(1), 7), (Some(0), 5)])?)?;
    line.write_alone(alloc, &long_row(alloc, 1)?)?;
    line.write(alloc, &rows_of(alloc, &[(Some(1), 9), (Some(0), 6)])?)?;
    Ok(line)
}

#[test]
fn a_long_row_travels_alone(rt: HostRuntime) -> Result<(), Fail> {
    let alloc = rt.alloc();
    let wire = by_hash(alloc)?;
    let mut line = long_written(alloc, &wire)?;
    assert_eq!(rt; closed(&mut line)?, 8);
    let (text, frames, fails) = came_to(alloc, &mut line, &wire, 0)?;
    assert_eq!(rt; (text.as_str(), frames, fails), ("0,5;0,6", 1, 0));
    let (text, frames, fails) = came_to(alloc, &mut line, &wire, 1)?;
    let long = long_text(alloc)?;
    let all = format!(in alloc; "1,7;1,{};1,9", long.as_str())?;
    assert_eq!(rt; (text.as_str(), frames, fails), (all.as_str(), 3, 0));
    Ok(())
}

#[test]
fn a_long_row_is_broadcast(rt: HostRuntime) -> Result<(), Fail> {
    let alloc = rt.alloc();
    let mut line = long_written(alloc, &Wire::Broadcast)?;
    assert_eq!(rt; closed(&mut line)?, 10);
    let long = long_text(alloc)?;
    let all = format!(in alloc; "1,7;0,5;1,{};1,9;0,6", long.as_str())?;
    for k in 0..2 {
        let (text, frames, fails) = came_to(alloc, &mut line, &Wire::Broadcast, k)?;
        assert_eq!(rt; (text.as_str(), frames, fails), (all.as_str(), 3, 0));
    }
    Ok(())
}

/// A writer to two receivers that has failed behind its rows and closed, and how many parcels were put.
fn failed(alloc: Global, wire: &Wire) -> Result<(Line, u32), Fail>
    requires { HasColumns 2 wire.now }
    ensures { IfOk result (λ x. IsLine x.0) }
{
    let mut line = written(alloc, wire, 2, &FRAMES)?;
    line.fail();
    line.close();
    let put = line.put(MANY)?;
    Ok((line, put))
}

/// A frame that is being filled is lost, and each receiver is told of the failure.
#[test]
fn a_failure_is_told(rt: HostRuntime) -> Result<(), Fail> {
    let alloc = rt.alloc();
    let wire = by_hash(alloc)?;
    let (mut line, put) = failed(alloc, &wire)?;
    assert_eq!(rt; (put, line.frames_out()), (6, 0));
    for k in 0..2 {
        let (text, frames, fails) = came_to(alloc, &mut line, &wire, k)?;
        assert_eq!(rt; (text.as_str(), frames, fails), ("", 0, 1));
    }
    Ok(())
}

/// Frames that wait to be put come before it.
#[test]
fn a_failure_comes_behind_what_waits(rt: HostRuntime) -> Result<(), Fail> {
    let alloc = rt.alloc();
    let (mut line, put) = failed(alloc, &Wire::Broadcast)?;
    assert_eq!(rt; (put, line.frames_out()), (12, 0));
    for k in 0..2 {
        let (text, frames, fails) = came_to(alloc, &mut line, &Wire::Broadcast, k)?;
        assert_eq!(rt; (text.as_str(), frames, fails), (ALL, 3, 1));
    }
    Ok(())
}

/// A writer that has closed, of whose parcels so many were put.
fn part_put(alloc: Global, most: u32) -> Result<Line, Fail>
    ensures { IfOk result IsLine }
{
    let mut line = written(alloc, &Wire::OneToOne, 1, &FRAMES)?;
    line.close();
    if line.put(most)? != most {
        return Err(Fail::from("not that many"));
    }
    Ok(line)
}

/// An Open and three frames: the rows come before the Close is put.
#[test]
fn rows_come_before_the_end(rt: HostRuntime) -> Result<(), Fail> {
    let alloc = rt.alloc();
    let mut line = part_put(alloc, 4)?;
    let mut came = Came::none(alloc);
    let mut reader = reader_of(alloc, &Wire::OneToOne, 0, 256)?;
    assert_eq!(rt;
        read(alloc, &mut line, &mut reader, &mut came)?,
        Left::Empty
    );
    assert_eq!(rt; shown(alloc, &came)?.as_str(), ALL);
    assert_eq!(rt; line.put(MANY)?, 1);
    assert_eq!(rt; read(alloc, &mut line, &mut reader, &mut came)?, Left::End);
    assert_eq!(rt; shown(alloc, &came)?.as_str(), ALL);
    Ok(())
}
