ghost use Rattle.std.specs.Prelude.{◌≡◌, IfOk, true};
ghost use Rattle.hy_frame.specs.declared.writer.WriterState.{WriterState};
ghost use Rattle.hy_mail.specs.Desks.{word_of};
ghost use Rattle.hy_mail.specs.Words.{HasArity, may};
ghost use Rattle.hy_mail_tests.specs.Desks.{IsForTwo, Tells};

use crate::parcels::{handed_back, null_frame, seen};
use al_value::List;
use hy_frame::Bank;
use hy_mail::{BoxPlan, Desk, Parcel, Port, PutAnswer};
use std::alloc::Global;
use std::test::Fail;

/// A desk with one mailbox, with room for two parcels, into which the tasks 4 and 7 put and from which 2 takes.
#[tactic(auto, using(crate::proofs::Plans::one_plan))]
fn for_two(alloc: Global) -> Result<Desk, Fail>
    ensures desk { IfOk result IsForTwo }
    ensures words { IfOk result (λ d. (word_of d 4 0 ≡ WriterState.Initial) × (word_of d 7 0 ≡ WriterState.Initial)) }
{
    let mut senders = List::new(alloc);
    senders.push(4)?;
    senders.push(7)?;
    let plan = BoxPlan {
        senders,
        receiver: 2,
        capacity: 2,
        arity: 1,
    };
    Ok(Desk::new(alloc, &[plan])?)
}

fn four_puts(desk: &mut Desk, parcel: Parcel) -> PutAnswer
    requires desk { IsForTwo desk.old }
    requires fits { may (word_of desk.old 4 0) parcel ≡ true }
    requires arity { HasArity 1 parcel }
    ensures desk { IsForTwo desk.new }
    ensures word { Tells (word_of desk.old 4 0) parcel (word_of desk.new 4 0) result }
    ensures other { word_of desk.new 7 0 ≡ word_of desk.old 7 0 }
{
    desk.port(4).put(0, parcel)
}

#[tactic(auto, using(crate::proofs::Plans::seven_sends))]
fn seven_puts(desk: &mut Desk, parcel: Parcel) -> PutAnswer
    requires desk { IsForTwo desk.old }
    requires fits { may (word_of desk.old 7 0) parcel ≡ true }
    requires arity { HasArity 1 parcel }
    ensures desk { IsForTwo desk.new }
    ensures word { Tells (word_of desk.old 7 0) parcel (word_of desk.new 7 0) result }
    ensures other { word_of desk.new 4 0 ≡ word_of desk.old 4 0 }
{
    desk.port(7).put(0, parcel)
}

fn two_takes(desk: &mut Desk) -> Option<(u32, Parcel)>
    requires desk { IsForTwo desk.old }
    ensures desk { IsForTwo desk.new }
    ensures four { word_of desk.new 4 0 ≡ word_of desk.old 4 0 }
    ensures seven { word_of desk.new 7 0 ≡ word_of desk.old 7 0 }
{
    desk.port(2).take(0)
}

#[test]
fn parcels_come_in_the_order_in_which_they_were_put(rt: HostRuntime) -> Result<(), Fail> {
    let mut desk = for_two(rt.alloc())?;
    let PutAnswer::Put = seven_puts(&mut desk, Parcel::Open) else {
        return Err(Fail::from("full"));
    };
    let PutAnswer::Put = four_puts(&mut desk, Parcel::Open) else {
        return Err(Fail::from("full"));
    };
    assert_eq!(rt; handed_back(&four_puts(&mut desk, Parcel::Close)), 'c');
    assert_eq!(rt; seen(&two_takes(&mut desk)), Some((1, 'o')));
    assert_eq!(rt; seen(&two_takes(&mut desk)), Some((0, 'o')));
    assert_eq!(rt; seen(&two_takes(&mut desk)), None);
    Ok(())
}

#[test]
fn what_was_full_goes_in_once_there_is_room(rt: HostRuntime) -> Result<(), Fail> {
    let mut desk = for_two(rt.alloc())?;
    let PutAnswer::Put = four_puts(&mut desk, Parcel::Open) else {
        return Err(Fail::from("full"));
    };
    let PutAnswer::Put = four_puts(&mut desk, Parcel::Fail) else {
        return Err(Fail::from("full"));
    };
    let PutAnswer::Full(parcel) = four_puts(&mut desk, Parcel::Close) else {
        return Err(Fail::from("not full"));
    };
    assert_eq!(rt; seen(&two_takes(&mut desk)), Some((0, 'o')));
    assert_eq!(rt; handed_back(&four_puts(&mut desk, parcel)), '-');
    assert_eq!(rt; seen(&two_takes(&mut desk)), Some((0, 'x')));
    assert_eq!(rt; seen(&two_takes(&mut desk)), Some((0, 'c')));
    assert_eq!(rt; seen(&two_takes(&mut desk)), None);
    Ok(())
}

#[test]
fn a_frame_comes_as_it_was_put(rt: HostRuntime) -> Result<(), Fail> {
    let alloc = rt.alloc();
    let mut desk = for_two(alloc)?;
    let mut theirs = Bank::new(256, 1);
    let mut ours = Bank::new(256, 1);
    let PutAnswer::Put = seven_puts(&mut desk, Parcel::Open) else {
        return Err(Fail::from("full"));
    };
    let frame = null_frame(alloc, &mut theirs)?;
    let parcel = Parcel::Frame(theirs.export(frame));
    assert_eq!(rt; handed_back(&seven_puts(&mut desk, parcel)), '-');
    assert_eq!(rt; seen(&two_takes(&mut desk)), Some((1, 'o')));
    let Some((1, Parcel::Frame(sent))) = two_takes(&mut desk) else {
        return Err(Fail::from("no frame"));
    };
    let frame = ours.import(sent);
    assert_eq!(rt; frame.rows(), 1);
    assert_eq!(rt; &frame.bytes()[..5], b"\x00\x00\x00\x01\x00".as_slice());
    ours.give(frame);
    assert_eq!(rt; (theirs.out(), ours.out()), (0, 0));
    Ok(())
}

#[test]
fn a_raise_is_seen(rt: HostRuntime) -> Result<(), Fail> {
    let mut desk = for_two(rt.alloc())?;
    assert!(rt; !desk.port(2).raised());
    assert!(rt; !desk.port(4).raised());
    desk.port(7).raise();
    assert!(rt; desk.port(2).raised());
    desk.port(4).raise();
    assert!(rt; desk.port(7).raised());
    Ok(())
}
