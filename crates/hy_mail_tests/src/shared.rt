//! A mailbox that two senders and a taker share.
ghost use Rattle.std.specs.Prelude.{◌≡◌, ◌<◌};
ghost use Rattle.hy_mail.specs.Passes.{fresh_send, fresh_take};

use hy_mail::{Mailbox, SendPass, TakePass};
use std::alloc::Global;
use std::test::Fail;

/// A mailbox of two senders, whose frames have one field a row, with its passes.
#[derive(Drop)]
pub(crate) struct Shared {
    pub(crate) mailbox: Mailbox,
    pub(crate) first: SendPass,
    pub(crate) second: SendPass,
    pub(crate) taker: TakePass,
    pub ghost made: { (mailbox.senders ≡ 2) × (mailbox.arity ≡ 1) },
    pub ghost senders: { (first ≡ fresh_send mailbox 0) × (second ≡ fresh_send mailbox 1) },
    pub ghost takes: { taker ≡ fresh_take mailbox },
}

pub(crate) fn with_room_for(alloc: Global, capacity: usize) -> Result<Shared, Fail>
    requires { 0 < capacity }
{
    let (mailbox, mut passes, taker) = Mailbox::new(alloc, 2, capacity, 1)?;
    let Some(second) = passes.pop() else {
        unreachable!()
    };
    let Some(first) = passes.pop() else {
        unreachable!()
    };
    Ok(Shared {
        mailbox,
        first,
        second,
        taker,
    })
}
