//! A receiver's taker over a wire that merges.
ghost use Rattle.std.specs.Prelude.{◌≡◌, ◌<◌, ◌≤◌, IfOk, OnOk, length};
ghost use Rattle.hy_connect.specs.Merges.{IsMerging, MayTake};
ghost use Rattle.hy_connect.specs.Sources.{frames_held};
ghost use Rattle.hy_wire_runs.specs.Desks.{IsDesk};
ghost use Rattle.hy_wire_runs.specs.Lines.{AreNumbers};
ghost use Rattle.hy_wire_runs.specs.Merging.{GoesOn, HasAtHand, IsToMerge};

use crate::fault::WireFault;
use crate::reader::Sink;
use hy_connect::{MergeTaker, Merged, Taken};
use hy_frame::Bank;
use hy_job::Wire;
use hy_mail::Desk;
use std::alloc::Global;

/// A taker from these mailboxes.
fn taker_over(
    alloc: Global,
    wire: &Wire,
    boxes: &[u32],
    senders: u32,
) -> Result<MergeTaker, WireFault>
    requires wire { IsMerging wire.now }
    requires numbers { AreNumbers 0 boxes.now }
    requires count { length boxes.now ≡ senders }
    requires few { senders ≤ 4 }
    ensures made { IfOk result IsToMerge }
    ensures none { IfOk result (λ m. frames_held m.sources ≡ 0) }
{
    Ok(MergeTaker::new(alloc, wire, boxes, senders)?)
}

/// A taker from the first mailboxes, so many.
#[tactic(auto, using(crate::proofs::MergeRuns::no_numbers, crate::proofs::LineRuns::to_one, crate::proofs::LineRuns::to_two, crate::proofs::LineRuns::to_three, crate::proofs::LineRuns::to_four))]
fn taker_of(alloc: Global, wire: &Wire, senders: u32) -> Result<MergeTaker, WireFault>
    requires { IsMerging wire.now }
    ensures made { IfOk result IsToMerge }
    ensures none { IfOk result (λ m. frames_held m.sources ≡ 0) }
{
    match senders {
        0 => taker_over(alloc, wire, &[], 0),
        1 => taker_over(alloc, wire, &[0], 1),
        2 => taker_over(alloc, wire, &[0, 1], 2),
        3 => taker_over(alloc, wire, &[0, 1, 2], 3),
        4 => taker_over(alloc, wire, &[0, 1, 2, 3], 4),
        _ => Err(WireFault::Unexpected),
    }
}

/// Takes the next parcel of a sender whose row is wanted.
fn take(desk: &mut Desk, taker: &mut MergeTaker, bank: &mut Bank) -> Taken
    requires desk { IsDesk desk.old }
    requires hand { HasAtHand taker.old bank.old }
    requires may { MayTake taker.old }
    ensures desk { IsDesk desk.new }
    ensures hand { GoesOn result taker.new bank.new }
{
    taker.take(&mut desk.port(1), bank)
}

/// Takes it, where it is a frame or a word.
fn take_more(desk: &mut Desk, taker: &mut MergeTaker, bank: &mut Bank) -> Result<(), WireFault>
    requires desk { IsDesk desk.old }
    requires hand { HasAtHand taker.old bank.old }
    requires may { MayTake taker.old }
    ensures desk { OnOk result (IsDesk desk.new) }
    ensures hand { OnOk result (HasAtHand taker.new bank.new) }
{
    match take(desk, taker, bank) {
        Taken::Kept => Ok(()),
        Taken::Word => Ok(()),
        Taken::Empty | Taken::Frame(_) | Taken::Failed | Taken::Ended => Err(WireFault::Unexpected),
    }
}

/// Goes on to the next row and hands it on, or takes what is wanted for it. It tells whether rows may still come.
#[tactic(auto, using(crate::proofs::MergeRuns::may_take, crate::proofs::MergeRuns::merged_hand, crate::proofs::MergeRuns::held_out))]
fn step<K: Sink>(
    alloc: Global,
    desk: &mut Desk,
    taker: &mut MergeTaker,
    bank: &mut Bank,
    sink: &mut K,
) -> Result<bool, WireFault>
    requires desk { IsDesk desk.old }
    requires hand { HasAtHand taker.old bank.old }
    ensures desk { OnOk result (IsDesk desk.new) }
    ensures hand { OnOk result (HasAtHand taker.new bank.new) }
{
    match taker.next_row(bank) {
        Merged::Row => {
            sink.put(alloc, &taker.current())?;
            Ok(true)
        }
        Merged::Need(_) => {
            take_more(desk, taker, bank)?;
            Ok(true)
        }
        Merged::End => Ok(false),
    }
}

/// Hands on the rows that come over a merging wire from so many senders, to their end.
pub fn merged<K: Sink>(
    alloc: Global,
    desk: &mut Desk,
    wire: &Wire,
    senders: u32,
    unit: usize,
    sink: &mut K,
) -> Result<(), WireFault>
    requires desk { IsDesk desk.old }
    requires wire { IsMerging wire.now }
    requires unit { (256 ≤ unit) × (unit ≤ 65536) }
{
    let mut taker = taker_of(alloc, wire, senders)?;
    let mut bank = Bank::new(unit, 8);
    for _ in 0..1000 {
        if !step(alloc, desk, &mut taker, &mut bank, sink)? {
            if taker.ended() && bank.out() == 0 {
                return Ok(());
            }
            return Err(WireFault::Unexpected);
        }
    }
    Err(WireFault::Unexpected)
}
