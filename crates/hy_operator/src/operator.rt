//! The drivers as one.

ghost use Rattle.std.specs.Prelude.{◌≡◌};

use hy_aggregate::Aggregate;
use hy_driver::Driver;
use hy_frame::{Bank, RowBuf, RowRef};
use hy_group::{GroupBuild, GroupEmit};
use hy_join::{JoinBuild, JoinProbe};
use hy_sort::{SortBuild, SortEmit};
use hy_store::{Next, OpFault, RunStore};
use hy_stream::{One, Scan, Stream, Unnest};
use hy_subplan::{PreGroup, Subplan};

/// The driver of an activity.
#[derive(Drop)]
pub enum Operator<'a, R: RunStore> {
    Scan(Scan<'a>),
    One(One),
    Stream(Stream),
    Unnest(Unnest),
    Subplan(Subplan),
    PreGroup(PreGroup),
    SortBuild(SortBuild),
    SortEmit(SortEmit),
    GroupBuild(GroupBuild<'a, R>),
    GroupEmit(GroupEmit<'a, R>),
    JoinBuild(JoinBuild<R>),
    JoinProbe(JoinProbe<R>),
    Aggregate(Aggregate),
}

impl<'a, R: RunStore> Driver for Operator<'a, R> {
    ghost use Rattle.std.specs.Prelude.{true, false};
    ghost use Rattle.hy_operator.specs.declared.operator.Operator.TheVariants as O;

    ghost seen = { elim [
      | O.Scan d ↦ ⟦<Scan<'a> as Driver>⟧.seen d
      | O.One d ↦ ⟦<One as Driver>⟧.seen d
      | O.Stream d ↦ ⟦<Stream as Driver>⟧.seen d
      | O.Unnest d ↦ ⟦<Unnest as Driver>⟧.seen d
      | O.Subplan d ↦ ⟦<Subplan as Driver>⟧.seen d
      | O.PreGroup d ↦ ⟦<PreGroup as Driver>⟧.seen d
      | O.SortBuild d ↦ ⟦<SortBuild as Driver>⟧.seen d
      | O.SortEmit d ↦ ⟦<SortEmit as Driver>⟧.seen d
      | O.GroupBuild d ↦ ⟦<GroupBuild<'a, R> as Driver>⟧.seen d
      | O.GroupEmit d ↦ ⟦<GroupEmit<'a, R> as Driver>⟧.seen d
      | O.JoinBuild d ↦ ⟦<JoinBuild<R> as Driver>⟧.seen d
      | O.JoinProbe d ↦ ⟦<JoinProbe<R> as Driver>⟧.seen d
      | O.Aggregate d ↦ ⟦<Aggregate as Driver>⟧.seen d
    ] };

    ghost stored = { elim [
      | O.Scan d ↦ false
      | O.One d ↦ false
      | O.Stream d ↦ false
      | O.Unnest d ↦ false
      | O.Subplan d ↦ false
      | O.PreGroup d ↦ false
      | O.SortBuild d ↦ false
      | O.SortEmit d ↦ false
      | O.GroupBuild d ↦ true
      | O.GroupEmit d ↦ true
      | O.JoinBuild d ↦ true
      | O.JoinProbe d ↦ true
      | O.Aggregate d ↦ false
    ] };

    ghost hands = { elim [
      | O.Scan d ↦ false
      | O.One d ↦ false
      | O.Stream d ↦ false
      | O.Unnest d ↦ false
      | O.Subplan d ↦ false
      | O.PreGroup d ↦ false
      | O.SortBuild d ↦ true
      | O.SortEmit d ↦ false
      | O.GroupBuild d ↦ true
      | O.GroupEmit d ↦ false
      | O.JoinBuild d ↦ true
      | O.JoinProbe d ↦ false
      | O.Aggregate d ↦ false
    ] };

    fn feed(&mut self, bank: &mut Bank, input: u32, row: RowRef<'_>) -> Result<(), OpFault> {
        match self {
            Operator::Scan(driver) => driver.feed(bank, input, row),
            Operator::One(driver) => driver.feed(bank, input, row),
            Operator::Stream(driver) => driver.feed(bank, input, row),
            Operator::Unnest(driver) => driver.feed(bank, input, row),
            Operator::Subplan(driver) => driver.feed(bank, input, row),
            Operator::PreGroup(driver) => driver.feed(bank, input, row),
            Operator::SortBuild(driver) => driver.feed(bank, input, row),
            Operator::SortEmit(driver) => driver.feed(bank, input, row),
            Operator::GroupBuild(driver) => driver.feed(bank, input, row),
            Operator::GroupEmit(driver) => driver.feed(bank, input, row),
            Operator::JoinBuild(driver) => driver.feed(bank, input, row),
            Operator::JoinProbe(driver) => driver.feed(bank, input, row),
            Operator::Aggregate(driver) => driver.feed(bank, input, row),
        }
    }

    fn end(&mut self, bank: &mut Bank, input: u32) -> Result<(), OpFault> {
        match self {
            Operator::Scan(driver) => driver.end(bank, input),
            Operator::One(driver) => driver.end(bank, input),
            Operator::Stream(driver) => driver.end(bank, input),
            Operator::Unnest(driver) => driver.end(bank, input),
            Operator::Subplan(driver) => driver.end(bank, input),
            Operator::PreGroup(driver) => driver.end(bank, input),
            Operator::SortBuild(driver) => driver.end(bank, input),
            Operator::SortEmit(driver) => driver.end(bank, input),
            Operator::GroupBuild(driver) => driver.end(bank, input),
            Operator::GroupEmit(driver) => driver.end(bank, input),
            Operator::JoinBuild(driver) => driver.end(bank, input),
            Operator::JoinProbe(driver) => driver.end(bank, input),
            Operator::Aggregate(driver) => driver.end(bank, input),
        }
    }

    fn next(&mut self, bank: &mut Bank, out: &mut RowBuf) -> Result<Next, OpFault> {
        match self {
            Operator::Scan(driver) => driver.next(bank, out),
            Operator::One(driver) => driver.next(bank, out),
            Operator::Stream(driver) => driver.next(bank, out),
            Operator::Unnest(driver) => driver.next(bank, out),
            Operator::Subplan(driver) => driver.next(bank, out),
            Operator::PreGroup(driver) => driver.next(bank, out),
            Operator::SortBuild(driver) => driver.next(bank, out),
            Operator::SortEmit(driver) => driver.next(bank, out),
            Operator::GroupBuild(driver) => driver.next(bank, out),
            Operator::GroupEmit(driver) => driver.next(bank, out),
            Operator::JoinBuild(driver) => driver.next(bank, out),
            Operator::JoinProbe(driver) => driver.next(bank, out),
            Operator::Aggregate(driver) => driver.next(bank, out),
        }
    }

    fn give_up(&mut self, bank: &mut Bank) {
        match self {
            Operator::Scan(driver) => driver.give_up(bank),
            Operator::One(driver) => driver.give_up(bank),
            Operator::Stream(driver) => driver.give_up(bank),
            Operator::Unnest(driver) => driver.give_up(bank),
            Operator::Subplan(driver) => driver.give_up(bank),
            Operator::PreGroup(driver) => driver.give_up(bank),
            Operator::SortBuild(driver) => driver.give_up(bank),
            Operator::SortEmit(driver) => driver.give_up(bank),
            Operator::GroupBuild(driver) => driver.give_up(bank),
            Operator::GroupEmit(driver) => driver.give_up(bank),
            Operator::JoinBuild(driver) => driver.give_up(bank),
            Operator::JoinProbe(driver) => driver.give_up(bank),
            Operator::Aggregate(driver) => driver.give_up(bank),
        }
    }
}
