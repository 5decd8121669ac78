//! What is done to all outlets of a writer.
ghost use Rattle.std.specs.Prelude.{◌≡◌, ◌≢◌, ◌<◌, ◌≤◌, [], length, IfOk, IfSome, IfNone};
ghost use Rattle.hy_connect.specs.Outlets.{Exports, Lent, closed, failed, frames_waiting, held_of, outlet_at, posted};
ghost use Rattle.hy_connect.specs.Many.{AreFresh, Each, HaveRoom, HaveRoomToo, parcel_of};
ghost use Rattle.hy_connect.specs.Writers.{NoneWaits};

use crate::outlet::Outlet;
use hy_frame::{Bank, NoMemory};
use hy_mail::Parcel;
use std::alloc::Global;

/// A parcel without rows.
#[derive(Clone, Copy)]
pub(crate) enum Mark {
    Open,
    Fail,
    Close,
}

impl Mark {
    fn parcel(self) -> Parcel
        ensures { result ≡ parcel_of self }
    {
        match self {
            Mark::Open => Parcel::Open,
            Mark::Fail => Parcel::Fail,
            Mark::Close => Parcel::Close,
        }
    }
}

/// An outlet for each of these mailboxes.
pub(crate) fn make_outlets(alloc: Global, boxes: &[u32]) -> Result<Vec<Outlet>, NoMemory>
    ensures { IfOk result (λ outlets. AreFresh boxes.now outlets.items) }
{
    let mut outlets = Vec::new(alloc);
    for mailbox in boxes {
        outlets.push(Outlet::new(alloc, *mailbox)?)?;
    }
    Ok(outlets)
}

/// The first outlet in which a parcel waits.
pub(crate) fn next_waiting(outlets: &[Outlet]) -> Option<usize>
    ensures there { IfSome result (λ k. k < length outlets.now) }
    ensures waits { IfSome result (λ k. (outlet_at outlets.now k).waits ≢ []) }
    ensures none { IfNone result (NoneWaits outlets.now) }
{
    for (k, outlet) in outlets.iter().enumerate() {
        if outlet.waits() {
            return Some(k);
        }
    }
    None
}

/// Lets a parcel without rows wait in each.
pub(crate) fn post_all(outlets: &mut [Outlet], mark: Mark)
    requires { HaveRoom 1 outlets.old }
    ensures { Each (posted (parcel_of mark)) outlets.old outlets.new }
{
    for k in 0..outlets.len() {
        outlets[k].post(mark.parcel());
    }
}

/// Lets a Fail wait in each, and gives what is being filled back.
pub(crate) fn fail_all(outlets: &mut [Outlet], bank: &mut Bank)
    requires room { HaveRoom 1 outlets.old }
    requires held { held_of outlets.old ≤ bank.old.out }
    ensures outlets { Each failed outlets.old outlets.new }
    ensures bank { Lent (held_of outlets.old) (held_of outlets.new) bank.old bank.new }
    ensures exports { Exports (frames_waiting outlets.old) (frames_waiting outlets.new) bank.old bank.new }
{
    for k in 0..outlets.len() {
        outlets[k].fail(bank);
    }
}

/// Lets what is being filled wait in each, and a Close.
pub(crate) fn close_all(outlets: &mut [Outlet], bank: &mut Bank)
    requires room { HaveRoomToo outlets.old }
    requires held { held_of outlets.old ≤ bank.old.out }
    ensures outlets { Each closed outlets.old outlets.new }
    ensures bank { Lent (held_of outlets.old) (held_of outlets.new) bank.old bank.new }
    ensures exports { Exports (frames_waiting outlets.old) (frames_waiting outlets.new) bank.old bank.new }
{
    for k in 0..outlets.len() {
        outlets[k].close(bank);
    }
}
