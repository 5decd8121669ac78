//! How the rows of a frame go to the receivers of a writer.
ghost use Rattle.std.specs.Prelude.{◌≡◌, ◌≢◌, ◌+◌, ◌<◌, ◌≤◌, ℕ, [], ◌∷◌, length, map, None, All, IfOk, OnOk, OnErr};
ghost use Rattle.hy_driver.specs.Rows.{values_of};
ghost use Rattle.hy_frame.specs.Row.{IsRow, row_size};
ghost use Rattle.hy_connect.specs.Filling.{AllStay, AllStop};
ghost use Rattle.hy_connect.specs.declared.route.Route.TheVariants.{Whole, ByHash as Hashed};
ghost use Rattle.hy_connect.specs.Outlets.{Exports, Grows, Lent, Sends, frames_in, frames_waiting, held_of};
ghost use Rattle.hy_connect.specs.Many.{AreOutlets, FillNone, FrontAdds, MoreWait, Rips, RipsTo, Spreads, SpreadsTo};

use crate::outlet::Outlet;
use crate::route::part;
use hy_frame::{Bank, Frame, NoMemory, RowBuf, RowRef};
use std::alloc::Global;

/// A frame of the bank with the same rows.
fn copy_of(alloc: Global, bank: &mut Bank, frame: &Frame) -> Result<Frame, NoMemory>
    requires unit { frame.now.unit ≡ bank.old.unit }
    requires room { bank.old.out < bank.old.limit }
    ensures copy { IfOk result (λ f. f ≡ frame.now) }
    ensures ok { OnOk result (Lent 0 1 bank.old bank.new) }
    ensures err { OnErr result (Lent 0 0 bank.old bank.new) }
    ensures exports { (bank.new.exported ≡ bank.old.exported) × (bank.new.imported ≡ bank.old.imported) }
{
    let mut copy = bank.take(alloc, frame.arity(), 0)?;
    match copy.copy_from(frame) {
        Ok(()) => Ok(copy),
        Err(fault) => {
            bank.give(copy);
            Err(fault)
        }
    }
}

/// Sends a copy of the frame.
fn send_copy(
    alloc: Global,
    outlet: &mut Outlet,
    bank: &mut Bank,
    frame: &Frame,
) -> Result<(), NoMemory>
    requires unit { frame.now.unit ≡ bank.old.unit }
    requires room { bank.old.out < bank.old.limit }
    ensures ok { OnOk result (Sends outlet.old frame.now outlet.new) }
    ensures err { OnErr result (Grows outlet.old outlet.new) }
    ensures bank { Lent 0 0 bank.old bank.new }
    ensures exports { Exports (frames_in outlet.old.waits) (frames_in outlet.new.waits) bank.old bank.new }
{
    let copy = copy_of(alloc, bank, frame)?;
    outlet.send(bank, copy)
}

/// Sends copies of the frame to the receivers before this place.
fn send_copies(
    alloc: Global,
    outlets: &mut [Outlet],
    last: usize,
    bank: &mut Bank,
    frame: &Frame,
) -> Result<(), NoMemory>
    requires last { last < length outlets.old }
    requires outlets { AreOutlets frame.now.arity outlets.old }
    requires filling { FillNone outlets.old }
    requires rows { frame.now.rows ≢ [] }
    requires unit { frame.now.unit ≡ bank.old.unit }
    requires room { bank.old.out < bank.old.limit }
    ensures ok { OnOk result (FrontAdds frame.now.arity last outlets.old (map values_of frame.now.rows) outlets.new) }
    ensures err { OnErr result (Rips Whole frame.now.arity outlets.old (map values_of frame.now.rows) outlets.new) }
    ensures none { FillNone outlets.new }
    ensures parcels { MoreWait 1 outlets.old outlets.new }
    ensures bank { Lent 0 0 bank.old bank.new }
    ensures exports { Exports (frames_waiting outlets.old) (frames_waiting outlets.new) bank.old bank.new }
{
    for k in 0..last {
        send_copy(alloc, &mut outlets[k], bank, frame)?;
    }
    Ok(())
}

/// Sends all rows of a frame to each receiver: the last of them gets the frame, the others copies. Where memory is
/// wanting the frame goes back.
pub(crate) fn spread_whole(
    alloc: Global,
    outlets: &mut [Outlet],
    bank: &mut Bank,
    frame: Frame,
) -> Result<(), NoMemory>
    requires some { 0 < length outlets.old }
    requires outlets { AreOutlets frame.arity outlets.old }
    requires filling { FillNone outlets.old }
    requires unit { frame.unit ≡ bank.old.unit }
    requires out { 0 < bank.old.out }
    requires room { bank.old.out < bank.old.limit }
    ensures ok { OnOk result (Spreads Whole frame.arity outlets.old (map values_of frame.rows) outlets.new) }
    ensures err { OnErr result (Rips Whole frame.arity outlets.old (map values_of frame.rows) outlets.new) }
    ensures none { FillNone outlets.new }
    ensures parcels { MoreWait 1 outlets.old outlets.new }
    ensures bank { Lent 1 0 bank.old bank.new }
    ensures exports { Exports (frames_waiting outlets.old) (frames_waiting outlets.new) bank.old bank.new }
{
    if frame.rows() == 0 {
        bank.give(frame);
        return Ok(());
    }
    let last = outlets.len() - 1;
    match send_copies(alloc, outlets, last, bank, &frame) {
        Ok(()) => outlets[last].send(bank, frame),
        Err(fault) => {
            bank.give(frame);
            Err(fault)
        }
    }
}

/// Adds a row to what is filled for the receiver in this place.
fn spread_row(
    alloc: Global,
    outlets: &mut [Outlet],
    k: usize,
    buffer: &mut RowBuf,
    bank: &mut Bank,
    row: &RowRef<'_>,
) -> Result<(), NoMemory>
    requires there { k < length outlets.old }
    requires few { length row.now ≤ 1024 }
    requires outlets { AreOutlets (length row.now) outlets.old }
    requires held { held_of outlets.old ≤ bank.old.out }
    requires room { bank.old.out + length outlets.old ≤ bank.old.limit + held_of outlets.old }
    ensures ok { OnOk result (SpreadsTo k (length row.now) outlets.old (values_of row.now) outlets.new) }
    ensures err { OnErr result (RipsTo k (length row.now) outlets.old (values_of row.now) outlets.new) }
    ensures stays { OnOk result (AllStay bank.old.unit (row_size row.now) outlets.old outlets.new) }
    ensures stops { OnErr result (AllStop bank.old.unit (row_size row.now) outlets.old outlets.new) }
    ensures parcels { MoreWait 1 outlets.old outlets.new }
    ensures bank { Lent (held_of outlets.old) (held_of outlets.new) bank.old bank.new }
    ensures exports { Exports (frames_waiting outlets.old) (frames_waiting outlets.new) bank.old bank.new }
{
    buffer.copy_from(row)?;
    outlets[k].append(alloc, bank, buffer)
}

/// Adds each row of a frame to what is filled for the receiver that the row's hash names.
#[tactic(auto, using(crate::proofs::Filling::within_first))]
pub(crate) fn spread_by_hash(
    alloc: Global,
    outlets: &mut [Outlet],
    columns: &[u32],
    buffer: &mut RowBuf,
    bank: &mut Bank,
    frame: &Frame,
) -> Result<(), NoMemory>
    requires some { 0 < length outlets.old }
    requires columns { All (λ j. j < frame.now.arity) columns.now }
    requires few { frame.now.arity ≤ 1024 }
    requires unit { frame.now.unit ≡ bank.old.unit }
    requires outlets { AreOutlets frame.now.arity outlets.old }
    requires held { held_of outlets.old ≤ bank.old.out }
    requires room { bank.old.out + length outlets.old ≤ bank.old.limit + held_of outlets.old }
    ensures ok { OnOk result (Spreads (Hashed columns.now) frame.now.arity outlets.old (map values_of frame.now.rows) outlets.new) }
    ensures err { OnErr result (Rips (Hashed columns.now) frame.now.arity outlets.old (map values_of frame.now.rows) outlets.new) }
    ensures parcels { MoreWait 1 outlets.old outlets.new }
    ensures bank { Lent (held_of outlets.old) (held_of outlets.new) bank.old bank.new }
    ensures exports { Exports (frames_waiting outlets.old) (frames_waiting outlets.new) bank.old bank.new }
{
    // What a frame's bytes are tells that its rows take no more than a frame of the bank, or are one alone.
    let _bytes = frame.bytes();
    for i in 0..frame.rows() {
        let row = frame.row(i);
        let k = part(columns, outlets.len(), &row);
        spread_row(alloc, outlets, k, buffer, bank, &row)?;
    }
    Ok(())
}
