ghost use Rattle.std.specs.Prelude.{◌≡◌, ◌<◌, ◌+◌, true, All, IfOk};
ghost use Rattle.std.specs.Thread.{IsSync};
ghost use Rattle.hy_frame.specs.declared.writer.WriterState.{WriterState};
ghost use Rattle.hy_mail.specs.Passes.{IsSendOf, IsTakeOf};
ghost use Rattle.hy_mail.specs.Words.{HasArity, may, next};
ghost use Rattle.hy_mail_tests.specs.Closed.{HasClosed};

use crate::shared::{Shared, with_room_for};
use hy_frame::{Bank, RowBuf, Sent, is_field};
use hy_mail::{Mailbox, Parcel, PutAnswer, SendPass, TakePass};
use std::alloc::Global;
use std::sync::Wait;
use std::test::Fail;
use std::thread;
use std::thread::{Threads, join};

const FRAMES: u8 = 100;

/// What was taken: the sender's number, and the number of a frame or one of the three below.
type Log = Vec<(u32, u8)>;

const OPEN: u8 = 200;

const FAIL: u8 = 201;

const CLOSE: u8 = 202;

/// Which senders' Close was taken.
#[derive(Drop)]
struct Closed {
    first: bool,
    second: bool,
}

/// Frames with one row each, an int that counts them.
fn frames(alloc: Global) -> Result<Vec<Sent>, Fail>
    ensures { IfOk result (λ f. All (λ s. s.arity ≡ 1) f.items) }
{
    let mut bank = Bank::new(256, 1);
    let mut made = Vec::new(alloc);
    for number in 0..FRAMES {
        let sent = frame(alloc, &mut bank, number)?;
        made.push(sent)?;
    }
    Ok(made)
}

fn frame(alloc: Global, bank: &mut Bank, number: u8) -> Result<Sent, Fail>
    requires { (bank.old.out ≡ 0) × (bank.old.limit ≡ 1) }
    ensures arity { IfOk result (λ s. s.arity ≡ 1) }
    ensures bank { IfOk result (λ s. (bank.new.out ≡ 0) × (bank.new.limit ≡ 1)) }
{
    let field = [3, 128, 0, 0, 0, 0, 0, 0, number];
    if !is_field(&field) {
        return Err(Fail::from("no field"));
    }
    let mut row = RowBuf::new(alloc);
    row.push_field(&field)?;
    let mut frame = bank.take(alloc, 1, row.size())?;
    frame.append(&row);
    Ok(bank.export(frame))
}

/// Puts the parcel once there is room for it.
fn put_one<W: Wait>(rt: &W, mailbox: &Mailbox, pass: &mut SendPass, parcel: Parcel)
    requires mine { IsSendOf mailbox.now pass.old }
    requires fits { may pass.old.word parcel ≡ true }
    requires arity { HasArity mailbox.now.arity parcel }
    ensures mine { IsSendOf mailbox.now pass.new }
    ensures number { pass.new.number ≡ pass.old.number }
    ensures word { pass.new.word ≡ next pass.old.word parcel }
{
    let mut left = parcel;
    for _ in rt.forever() {
        match mailbox.put(rt, pass, left) {
            PutAnswer::Put => return,
            PutAnswer::Full(back) => left = back,
        }
        thread::yield_now();
    }
    unreachable!()
}

/// Puts Open, the frames and Close.
fn send<W: Wait>(rt: &W, mailbox: &Mailbox, mut pass: SendPass, frames: Vec<Sent>) -> SendPass
    requires mine { IsSendOf mailbox.now pass }
    requires first { pass.word ≡ WriterState.Initial }
    requires arity { All (λ s. s.arity ≡ mailbox.now.arity) frames.items }
    ensures mine { IsSendOf mailbox.now result }
    ensures number { result.number ≡ pass.number }
{
    put_one(rt, mailbox, &mut pass, Parcel::Open);
    for sent in frames {
        put_one(rt, mailbox, &mut pass, Parcel::Frame(sent));
    }
    put_one(rt, mailbox, &mut pass, Parcel::Close);
    pass
}

/// Takes a parcel, where there is one.
fn take_one<W: Wait>(
    rt: &W,
    mailbox: &Mailbox,
    pass: &mut TakePass,
    closed: &mut Closed,
    bank: &mut Bank,
    log: &mut Log,
)
    requires bank { (bank.old.out ≡ 0) × (bank.old.limit ≡ 1) }
    requires mine { IsTakeOf mailbox.now pass.old }
    requires two { mailbox.now.senders ≡ 2 }
    requires closed { HasClosed pass.old.took closed.old.first closed.old.second }
    ensures mine { IsTakeOf mailbox.now pass.new }
    ensures closed { HasClosed pass.new.took closed.new.first closed.new.second }
    ensures bank { (bank.new.out ≡ 0) × (bank.new.limit ≡ 1) }
{
    let Some((sender, parcel)) = mailbox.take(rt, pass) else {
        thread::yield_now();
        return;
    };
    let _ = log.push((sender, number(&parcel)));
    match parcel {
        Parcel::Frame(sent) => {
            let frame = bank.import(sent);
            bank.give(frame);
        }
        Parcel::Close if sender == 0 => closed.first = true,
        Parcel::Close => closed.second = true,
        Parcel::Open | Parcel::Fail => {}
    }
}

/// The number in a frame, or that of another parcel.
fn number(parcel: &Parcel) -> u8 {
    match parcel {
        Parcel::Open => OPEN,
        Parcel::Frame(sent) => match sent.frame().bytes().get(12) {
            Some(number) => *number,
            None => FAIL,
        },
        Parcel::Fail => FAIL,
        Parcel::Close => CLOSE,
    }
}

/// Takes until both senders have closed.
fn take_all<W: Wait>(rt: &W, mailbox: &Mailbox, mut pass: TakePass, mut log: Log) -> (TakePass, Log)
    requires mine { IsTakeOf mailbox.now pass }
    requires two { mailbox.now.senders ≡ 2 }
    ensures mine { IsTakeOf mailbox.now result.0 }
    ensures closed { HasClosed result.0.took true true }
{
    let mut closed = Closed {
        first: false,
        second: false,
    };
    let mut bank = Bank::new(256, 1);
    for _ in rt.forever() {
        take_one(rt, mailbox, &mut pass, &mut closed, &mut bank, &mut log);
        if closed.first && closed.second {
            return (pass, log);
        }
    }
    unreachable!()
}

/// The second sender and the taker, each in a thread of its own.
fn send_and_take<R: Threads + Wait + Sync>(
    rt: &R,
    mailbox: &Mailbox,
    second: SendPass,
    frames: Vec<Sent>,
    taker: TakePass,
    log: Log,
) -> (SendPass, (TakePass, Log))
    requires sender { IsSendOf mailbox.now second × (second.word ≡ WriterState.Initial) }
    requires arity { All (λ s. s.arity ≡ mailbox.now.arity) frames.items }
    requires taker { IsTakeOf mailbox.now taker × (mailbox.now.senders ≡ 2) }
    ensures sender { IsSendOf mailbox.now result.0 × (result.0.number ≡ second.number) }
    ensures taker { IsTakeOf mailbox.now result.1.0 × HasClosed result.1.0.took true true }
{
    join(
        rt,
        || send(rt, mailbox, second, frames),
        || take_all(rt, mailbox, taker, log),
    )
}

/// Two senders and the taker in three threads, and then the end of the mailbox.
fn run<R: Threads + Wait + Sync>(rt: &R, alloc: Global, of: Shared) -> Result<Log, Fail> {
    let Shared {
        mailbox,
        first,
        second,
        taker,
    } = of;
    let one = frames(alloc)?;
    let two = frames(alloc)?;
    let mut log = Vec::new(alloc);
    log.reserve(2 * (2 + FRAMES as usize))?;
    let lent = &mailbox;
    let (first, (second, (taker, log))) = join(
        rt,
        || send(rt, lent, first, one),
        || -> (SendPass, (TakePass, Log))
            requires { IsSync R.row × IsSendOf lent.now second × (second.word ≡ WriterState.Initial) × All (λ s. s.arity ≡ lent.now.arity) two.items × IsTakeOf lent.now taker × (lent.now.senders ≡ 2) }
            ensures { IsSendOf lent.entry.now result.0 × (result.0.number ≡ second.number) × IsTakeOf lent.entry.now result.1.0 × HasClosed result.1.0.took true true }
        { send_and_take(rt, lent, second, two, taker, log) },
    );
    let mut senders = Vec::new(alloc);
    senders.reserve(2)?;
    senders.push_reserved(first);
    senders.push_reserved(second);
    mailbox.settle(senders, taker);
    Ok(log)
}

/// Whether what was taken of a sender is Open, the frames in their order, and Close.
fn is_whole(log: &[(u32, u8)], sender: u32) -> bool {
    let mut expected = OPEN;
    for (from, number) in log {
        if *from == sender {
            if *number != expected {
                return false;
            }
            expected = following(expected);
        }
    }
    expected == CLOSE + 1
}

fn following(number: u8) -> u8 {
    if number == OPEN {
        0
    } else if number == FRAMES - 1 {
        CLOSE
    } else {
        number.saturating_add(1)
    }
}

#[test]
fn each_list_is_its_senders(rt: HostRuntime) -> Result<(), Fail> {
    let alloc = rt.alloc();
    for _ in 0..20 {
        let log = run(&rt, alloc, with_room_for(alloc, 4)?)?;
        assert_eq!(rt; log.len(), 204);
        assert!(rt; is_whole(&log, 0));
        assert!(rt; is_whole(&log, 1));
    }
    Ok(())
}
