//! What an input takes from.

ghost use Rattle.std.specs.Prelude.{◌<◌};
ghost use Rattle.hy_input.specs.Inputs.{IsPlain, ReceivesBy, TellsTakenBy};

use hy_connect::{MergeTaker, Taken, WireTaker};
use hy_frame::Bank;
use hy_mail::Port;

/// What is taken from at one input.
#[derive(Drop)]
pub enum Taker {
    /// The one sender of the same partition.
    One(WireTaker),
    /// The senders of all partitions, by their numbers, as it comes.
    Many(WireTaker),
    /// The senders of all partitions, row by row in the order of the keys.
    Merge(MergeTaker),
}

/// Takes what comes next where it isn't merged.
pub(crate) fn take_plain<P: Port>(taker: &mut Taker, port: &mut P, bank: &mut Bank) -> Taken
    requires plain { IsPlain taker.old }
    requires receives { ReceivesBy (P.receives port.old) (P.senders port.old) taker.old }
    requires room { bank.old.out < bank.old.limit }
    ensures told { TellsTakenBy P.happens port.old port.new bank.old bank.new taker.old taker.new result }
    ensures kept { P.keeps port.old port.new }
{
    match taker {
        Taker::One(taker) => taker.take(port, bank),
        Taker::Many(taker) => taker.take(port, bank),
        Taker::Merge(_) => unreachable!(),
    }
}
