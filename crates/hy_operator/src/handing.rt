//! How an operator is ended.

ghost use Rattle.std.specs.Prelude.{◌≡◌, false, [], is_some};
ghost use Rattle.hy_driver.specs.Handing.{HandedOn, IsDone, Left, store_of};
ghost use Rattle.hy_driver.specs.Steps.{IsBankOf};
ghost use Rattle.hy_operator.specs.Kinds.{StandsBeside};

use crate::operator::Operator;
use hy_driver::{Driver, Handed, HandsOn};
use hy_frame::Bank;
use hy_store::RunStore;
use std::alloc::Global;

impl<'a, R: RunStore> Operator<'a, R> {
    /// Tells that an operator which may hand no rows on has none to hand on. It does nothing.
    pub fn hands_none(&self)
        ensures { ⟦<Operator<'a, R> as Driver>⟧.hands self.now ≡ false → (⟦<Operator<'a, R> as Driver>⟧.seen self.now).hands_on ≡ [] }
    {
        match self {
            Operator::Scan(_) => {}
            Operator::One(_) => {}
            Operator::Stream(_) => {}
            Operator::Unnest(_) => {}
            Operator::Subplan(_) => {}
            Operator::PreGroup(_) => {}
            Operator::SortBuild(_) => {}
            Operator::SortEmit(_) => {}
            Operator::GroupBuild(_) => {}
            Operator::GroupEmit(_) => {}
            Operator::JoinBuild(_) => {}
            Operator::JoinProbe(_) => {}
            Operator::Aggregate(_) => {}
        }
    }

    /// Ends an operator that has ended or was given up: it lets its frames go, and gives what it hands
    /// on and its store back. It takes no memory.
    pub fn into_handed(self, alloc: Global, bank: &mut Bank) -> (Handed, Option<R>)
        requires done { IsDone (⟦<Operator<'a, R> as Driver>⟧.seen self) }
        requires bank { IsBankOf (⟦<Operator<'a, R> as Driver>⟧.seen self) bank.old }
        ensures handed { HandedOn (⟦<Operator<'a, R> as Driver>⟧.seen self.entry) result.0 }
        ensures store { store_of R.runs R.faults result.1 ≡ (⟦<Operator<'a, R> as Driver>⟧.seen self.entry).store }
        ensures bank { Left (⟦<Operator<'a, R> as Driver>⟧.seen self.entry) bank.old bank.new }
        ensures beside { StandsBeside (⟦<Operator<'a, R> as Driver>⟧.seen self.entry).fixed.arity result.0 }
        ensures kept { is_some result.1 ≡ ⟦<Operator<'a, R> as Driver>⟧.stored self.entry }
        ensures live { (⟦<Operator<'a, R> as Driver>⟧.seen self.entry).store.runs.live ≡ [] }
    {
        match self {
            Operator::SortBuild(driver) => driver.hand_on(bank),
            Operator::GroupBuild(driver) => {
                driver.no_runs();
                driver.hand_on(bank)
            }
            Operator::GroupEmit(driver) => {
                driver.no_runs();
                driver.hand_on(bank)
            }
            Operator::JoinBuild(driver) => {
                driver.no_runs();
                driver.hand_on(bank)
            }
            Operator::JoinProbe(probe) => {
                probe.no_runs();
                probe.hand_on(bank)
            }
            Operator::Scan(_) => (Handed::none(alloc), None),
            Operator::One(_) => (Handed::none(alloc), None),
            Operator::Stream(_) => (Handed::none(alloc), None),
            Operator::Unnest(_) => (Handed::none(alloc), None),
            Operator::Subplan(_) => (Handed::none(alloc), None),
            Operator::PreGroup(_) => (Handed::none(alloc), None),
            Operator::SortEmit(_) => (Handed::none(alloc), None),
            Operator::Aggregate(_) => (Handed::none(alloc), None),
        }
    }
}
