ghost use Rattle.std.specs.Prelude.{◌≡◌, true};
ghost use Rattle.hy_frame.specs.declared.writer.WriterState.{WriterState};

use crate::parcels::{handed_back, seen};
use crate::shared::{Shared, with_room_for};
use hy_abort::AbortWord;
use hy_mail::{Parcel, Port, PutAnswer, SeatParts, SeatPort};
use std::test::Fail;

/// Puts Open, and Close behind it where that went in, and gives the kinds of what was handed back.
fn open_and_close<P: Port>(port: &mut P, mailbox: u32) -> (char, char)
    requires sender { P.sends port.old mailbox }
    requires first { P.word port.old mailbox ≡ WriterState.Initial }
{
    let PutAnswer::Put = port.put(mailbox, Parcel::Open) else {
        return ('o', ' ');
    };
    ('-', handed_back(&port.put(mailbox, Parcel::Close)))
}

fn take_two<P: Port>(port: &mut P, mailbox: u32) -> (Option<(u32, char)>, Option<(u32, char)>)
    requires { P.receives port.old mailbox }
{
    let first = seen(&port.take(mailbox));
    (first, seen(&port.take(mailbox)))
}

#[test]
fn ports_over_passes(rt: HostRuntime) -> Result<(), Fail> {
    let alloc = rt.alloc();
    let Shared {
        mailbox,
        first,
        second,
        taker,
    } = with_room_for(alloc, 1)?;
    let boxes = [mailbox];
    let (word, mut seats) = AbortWord::new(alloc, 2)?;
    let Some(seat) = seats.pop() else {
        unreachable!()
    };
    let Some(other_seat) = seats.pop() else {
        unreachable!()
    };
    let mut port = SeatPort::new(&rt, alloc, &boxes, &word, seat);
    let mut other = SeatPort::new(&rt, alloc, &boxes, &word, other_seat);
    assert!(rt; port.give_send(0, first).is_ok());
    assert!(rt; other.give_send(0, second).is_ok());
    assert!(rt; other.give_take(0, taker).is_ok());
    assert_eq!(rt; open_and_close(&mut port, 0), ('-', 'c'));
    assert_eq!(rt; take_two(&mut other, 0), (Some((0, 'o')), None));
    assert!(rt; !port.raised());
    other.raise();
    assert!(rt; port.raised() && other.raised());
    let SeatParts { sends, takes, .. } = other.into_parts();
    assert_eq!(rt; (sends.len(), takes.len()), (1, 1));
    let SeatParts { sends, takes, .. } = port.into_parts();
    assert_eq!(rt; (sends.len(), takes.len()), (1, 0));
    Ok(())
}
