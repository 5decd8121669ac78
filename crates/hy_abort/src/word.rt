//! The abort word and its seats.

ghost use Rattle.std.specs.Prelude.{◌≡◌, ◌<◌, ◌≤◌, ◌+◌, [], true, false, All, IfOk, MatchBool, count_by, length};
ghost use Rattle.hy_abort.specs.Rule.{less_one};
ghost use Rattle.hy_abort.specs.Seats.{HasSeen, IsSeatOf, Looks, Raises, fresh, fresh_of, once_if};
ghost use Rattle.hy_abort.specs.Tokens.{Gathered, IsAbortTable};

use crate::fault::NoMemory;
use crate::rule::{Deal, Look, Raise, SeatView, SumOfRaises, TakeIn};
use atomic_table::{Seat, Table};
use std::alloc::Global;
use std::marker::Model;

// One word, and no slots, whose type is of no matter.
type Words = Table<u8, SeatView, u32, SumOfRaises, Global>;

type Token = Seat<u8, SeatView>;

/// The abort word of a stage; contracts see which word it is, and how many seats it has.
#[derive(Drop)]
pub struct AbortWord {
    table: Words,
}

impl Model for AbortWord {
    ghost use Rattle.std.specs.Prelude.{◌<◌};
    ghost use Rattle.hy_abort.specs.Seats.{WordState};
    ghost use Rattle.hy_abort.specs.Tokens.{IsAbortTable};

    ghost Value = { WordState };

    ghost view = { λ w. record { id = w.table.shared.table_id; seats = w.table.shared.key } };

    ghost invariant = { λ w. IsAbortTable w.table.shared.table_id × (0 < w.table.shared.key) };
}

/// A task's seat at an abort word; contracts see whose seat it is, whether it has raised, and what it found.
#[derive(Drop)]
pub struct AbortSeat {
    token: Token,
    has_raised: bool,
}

impl Model for AbortSeat {
    ghost use Rattle.std.specs.Prelude.{◌≡◌, ◌<◌, [], true};
    ghost use Rattle.hy_abort.specs.Seats.{SeatState, once_if};

    ghost Value = { SeatState };

    ghost view = { λ s. record { word = s.token.table_id; raised = s.has_raised; found = s.token.me.0.found; steps = s.token.me.0.steps } };

    ghost invariant = { λ s. (s.token.me.1 ≡ []) × (s.token.me.0.seats ≡ 1) × (s.token.me.0.raises ≡ once_if s.has_raised) × (s.has_raised ≡ true → 0 < s.token.me.0.found) };
}

impl AbortWord {
    /// An abort word that is not raised, with its seats.
    pub fn new(alloc: Global, seats: u32) -> Result<(AbortWord, Vec<AbortSeat>), NoMemory>
        requires { 0 < seats }
        ensures word { IfOk result (λ r. r.0.seats ≡ seats) }
        ensures count { IfOk result (λ r. length r.1.items ≡ seats) }
        ensures fresh { IfOk result (λ r. All (λ s. s ≡ fresh r.0) r.1.items) }
    {
        let (table, mut maker) = Words::of_words(alloc, &[0], &seats)?;
        let mut dealt = Vec::new(alloc);
        dealt.reserve(seats as usize)?;
        for _ in 1..seats {
            let seat = deal(&table, &mut maker);
            dealt.push_reserved(seat);
        }
        dealt.push_reserved(AbortSeat {
            token: maker,
            has_raised: false,
        });
        Ok((AbortWord { table }, dealt))
    }

    /// Raises the word. A seat raises once: a second call makes no step.
    pub fn raise(&self, seat: &mut AbortSeat)
        requires { IsSeatOf self.now seat.old }
        ensures first { seat.old.raised ≡ false → Raises seat.old seat.new }
        ensures again { seat.old.raised ≡ true → seat.new ≡ seat.old }
    {
        if seat.has_raised {
            return;
        }
        self.table.shared.fetch_add::<Raise>(&mut seat.token, 0, 1);
        seat.has_raised = true;
    }

    /// Looks at the word: whether it wasn't 0 at this call's load.
    pub fn raised(&self, seat: &mut AbortSeat) -> bool
        requires { IsSeatOf self.now seat.old }
        ensures look { Looks seat.old seat.new }
        ensures answer { MatchBool result (HasSeen seat.new) (seat.new.found ≡ 0) }
        ensures after_seen { HasSeen seat.old → result ≡ true }
        ensures after_raise { seat.old.raised ≡ true → result ≡ true }
    {
        let found = self.table.shared.load::<Look>(&mut seat.token, 0);
        found != 0
    }

    /// Ends the word, and gives how many of its seats raised.
    pub fn close(self, seats: Vec<AbortSeat>) -> u64
        requires mine { All (IsSeatOf self) seats.items }
        requires all { length seats.items ≡ self.seats }
        ensures count { result ≡ count_by (λ s. s.raised) seats.items }
        ensures found { All (λ s. s.found ≤ result) seats.items }
        ensures seen { All (λ s. HasSeen s → 0 < result) seats.items }
    {
        let AbortWord { table } = self;
        let mut rest = seats;
        let Some(last) = rest.pop() else {
            unreachable!()
        };
        let mut all = last.token;
        gather(&table, &mut all, rest);
        end(table, all)
    }
}

/// A seat, of those that the token stands for.
fn deal(table: &Words, maker: &mut Token) -> AbortSeat
    requires table { IsAbortTable table.now.shared.table_id }
    requires mine { maker.old.table_id ≡ table.now.shared.table_id }
    requires some { maker.old.me.0.raises + 1 ≤ maker.old.me.0.seats }
    ensures maker { (maker.new.table_id ≡ maker.old.table_id) × (maker.new.me ≡ (less_one maker.old.me.0, maker.old.me.1)) }
    ensures dealt { result ≡ fresh_of table.now.shared.table_id }
{
    let token = table.shared.split_seat::<Deal>(maker);
    AbortSeat {
        token,
        has_raised: false,
    }
}

/// The token then knows what the seat knew.
fn take_in(table: &Words, all: &mut Token, seat: AbortSeat)
    requires table { IsAbortTable table.now.shared.table_id }
    requires mine { (all.old.table_id ≡ table.now.shared.table_id) × (seat.word ≡ table.now.shared.table_id) }
    ensures mine { all.new.table_id ≡ all.old.table_id }
    ensures seats { all.new.me.0.seats ≡ all.old.me.0.seats + 1 }
    ensures raises { all.new.me.0.raises ≡ all.old.me.0.raises + once_if seat.raised }
    ensures found { (all.old.me.0.found ≤ all.new.me.0.found) × (seat.found ≤ all.new.me.0.found) }
{
    table.shared.join_seat::<TakeIn>(all, seat.token);
}

/// The token then knows what all these seats knew.
fn gather(table: &Words, all: &mut Token, seats: Vec<AbortSeat>)
    requires table { IsAbortTable table.now.shared.table_id }
    requires mine { all.old.table_id ≡ table.now.shared.table_id }
    requires seats { All (λ s. s.word ≡ table.now.shared.table_id) seats.items }
    ensures mine { all.new.table_id ≡ all.old.table_id }
    ensures gathered { Gathered all.old.me.0 all.new.me.0 seats.items }
{
    for seat in seats {
        take_in(table, all, seat);
    }
}

/// The word at its end, given the token that stands for all seats.
fn end(table: Words, all: Token) -> u64
    requires table { IsAbortTable table.shared.table_id }
    requires mine { all.table_id ≡ table.shared.table_id }
    requires all { all.me.0.seats ≡ table.shared.key }
    ensures count { result ≡ all.me.0.raises }
    ensures found { all.me.0.found ≤ result }
{
    let closed = table.close_with(all);
    let sum = closed.word(0);
    closed.free();
    sum
}
