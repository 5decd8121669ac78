ghost use Rattle.std.specs.Prelude.{◌≡◌};
ghost use Rattle.std.specs.Thread.{IsSync};
ghost use Rattle.hy_abort.specs.Seats.{IsSeatOf};

use hy_abort::{AbortSeat, AbortWord};
use std::alloc::Global;
use std::test::Fail;
use std::thread::{Threads, join};

/// A word of three seats.
#[derive(Drop)]
struct Three {
    word: AbortWord,
    first: AbortSeat,
    second: AbortSeat,
    third: AbortSeat,
    ghost all: { word.seats ≡ 3 },
    ghost theirs: { IsSeatOf word first × IsSeatOf word second × IsSeatOf word third },
}

fn three_seats(alloc: Global) -> Result<Three, Fail> {
    let (word, mut seats) = AbortWord::new(alloc, 3)?;
    let Some(third) = seats.pop() else {
        unreachable!()
    };
    let Some(second) = seats.pop() else {
        unreachable!()
    };
    let Some(first) = seats.pop() else {
        unreachable!()
    };
    Ok(Three {
        word,
        first,
        second,
        third,
    })
}

/// Ends a word of three seats.
fn closed(
    alloc: Global,
    word: AbortWord,
    first: AbortSeat,
    second: AbortSeat,
    third: AbortSeat,
) -> Result<u64, Fail>
    requires all { word.seats ≡ 3 }
    requires theirs { IsSeatOf word first × IsSeatOf word second × IsSeatOf word third }
{
    let mut seats = Vec::new(alloc);
    seats.reserve(3)?;
    seats.push_reserved(first);
    seats.push_reserved(second);
    seats.push_reserved(third);
    Ok(word.close(seats))
}

/// Looks and raises, in any thread.
fn raise_as(word: &AbortWord, mut seat: AbortSeat) -> AbortSeat
    requires { IsSeatOf word.now seat }
    ensures { IsSeatOf word.now result }
{
    word.raised(&mut seat);
    word.raise(&mut seat);
    seat
}

/// Each of the two raises in a thread of its own.
fn raise_two<R: Threads + Sync>(
    rt: &R,
    word: &AbortWord,
    one: AbortSeat,
    other: AbortSeat,
) -> (AbortSeat, AbortSeat)
    requires { IsSeatOf word.now one × IsSeatOf word.now other }
    ensures { IsSeatOf word.now result.0 × IsSeatOf word.now result.1 }
{
    join(rt, || raise_as(word, one), || raise_as(word, other))
}

/// Each of the three raises in a thread of its own, and then the word ends.
fn closed_by_threads<R: Threads + Sync>(rt: &R, alloc: Global, of: Three) -> Result<u64, Fail> {
    let Three {
        word,
        first,
        second,
        third,
    } = of;
    let shared = &word;
    let (first, (second, third)) = join(
        rt,
        || raise_as(shared, first),
        || -> (AbortSeat, AbortSeat)
            requires { IsSync R.row × IsSeatOf shared.now second × IsSeatOf shared.now third }
            ensures { IsSeatOf shared.entry.now result.0 × IsSeatOf shared.entry.now result.1 }
        { raise_two(rt, shared, second, third) },
    );
    closed(alloc, word, first, second, third)
}

#[test]
fn two_of_three_raise(rt: HostRuntime) -> Result<(), Fail> {
    let alloc = rt.alloc();
    let Three {
        word,
        mut first,
        mut second,
        mut third,
    } = three_seats(alloc)?;
    assert!(rt; !word.raised(&mut second));
    word.raise(&mut first);
    word.raise(&mut third);
    assert_eq!(rt; closed(alloc, word, first, second, third)?, 2);
    Ok(())
}

#[test]
fn a_second_raise_adds_nothing(rt: HostRuntime) -> Result<(), Fail> {
    let alloc = rt.alloc();
    let Three {
        word,
        first,
        mut second,
        mut third,
    } = three_seats(alloc)?;
    word.raise(&mut second);
    word.raise(&mut second);
    word.raise(&mut third);
    word.raise(&mut second);
    assert_eq!(rt; closed(alloc, word, first, second, third)?, 2);
    Ok(())
}

#[test]
fn what_was_seen_stays(rt: HostRuntime) -> Result<(), Fail> {
    let alloc = rt.alloc();
    let Three {
        word,
        mut first,
        mut second,
        third,
    } = three_seats(alloc)?;
    assert!(rt; !word.raised(&mut first) && !word.raised(&mut second));
    word.raise(&mut first);
    assert!(rt; word.raised(&mut first) && word.raised(&mut second));
    assert!(rt; word.raised(&mut second) && word.raised(&mut first));
    assert_eq!(rt; closed(alloc, word, first, second, third)?, 1);
    Ok(())
}

#[test]
fn three_threads_raise(rt: HostRuntime) -> Result<(), Fail> {
    let alloc = rt.alloc();
    for _ in 0..100 {
        assert_eq!(rt; closed_by_threads(&rt, alloc, three_seats(alloc)?)?, 3);
    }
    Ok(())
}
