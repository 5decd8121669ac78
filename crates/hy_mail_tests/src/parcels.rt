//! Parcels that tests put and look at.
ghost use Rattle.std.specs.Prelude.{◌≡◌, ◌<◌, ◌+◌, IfOk};

use hy_frame::{Bank, Frame, RowBuf};
use hy_mail::{Parcel, PutAnswer};
use std::alloc::Global;
use std::test::Fail;

/// A letter for each kind of parcel.
pub(crate) fn kind(parcel: &Parcel) -> char {
    match parcel {
        Parcel::Open => 'o',
        Parcel::Frame(_) => 'f',
        Parcel::Fail => 'x',
        Parcel::Close => 'c',
    }
}

/// The kind of what was handed back, or `-` where the parcel was put.
pub(crate) fn handed_back(answer: &PutAnswer) -> char {
    match answer {
        PutAnswer::Put => '-',
        PutAnswer::Full(parcel) => kind(parcel),
    }
}

/// The sender's number and the kind of what was taken.
pub(crate) fn seen(taken: &Option<(u32, Parcel)>) -> Option<(u32, char)> {
    match taken {
        Some((sender, parcel)) => Some((*sender, kind(parcel))),
        None => None,
    }
}

/// A frame with one row of one NULL.
pub(crate) fn null_frame(alloc: Global, bank: &mut Bank) -> Result<Frame, Fail>
    requires { bank.old.out < bank.old.limit }
    ensures arity { IfOk result (λ f. f.arity ≡ 1) }
    ensures out { IfOk result (λ f. bank.new.out ≡ bank.old.out + 1) }
{
    let mut row = RowBuf::new(alloc);
    row.push_field(b"\x00")?;
    let mut frame = bank.take(alloc, 1, row.size())?;
    frame.append(&row);
    Ok(frame)
}
