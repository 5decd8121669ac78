//! The driver that gives groups.

ghost use Rattle.std.specs.Prelude.{◌≡◌, ◌≤◌, ◌<◌, ◌+◌, [], length, get_or, true, All, IfOk, OnOk};
ghost use Rattle.hy_frame.specs.Row.{IsRow};
ghost use Rattle.hy_driver.specs.Rows.{values_of};
ghost use Rattle.hy_driver.specs.declared.phase.Phase.TheVariants.{Ended as HasEnded};
ghost use Rattle.hy_job.specs.Columns as spec;
ghost use Rattle.hy_job.specs.Runs.{first_columns};
ghost use Rattle.hy_group.specs.Emit.{Finishes, IsGiven, TakesOut};
ghost use Rattle.hy_group.specs.Groups.{Added};
ghost use Rattle.hy_group.specs.Joining.{handed_sees, kinds, kinds_of};

use crate::build::{GroupShape, put_group};
use crate::groups::Groups;
use crate::joining::HandedRows;
use al_agg::{Part, finish};
use al_value::{List, NoMemory, Row, Settings, Value};
use hy_driver::{Driver, Handed, HandsOn, Phase, Starts};
use hy_frame::{Bank, RowBuf, RowRef};
use hy_job::GroupArg;
use hy_rows::values_in;
use hy_store::{Next, OpFault, RunStore};
use std::alloc::Global;

/// Gives a row for each different key of the rows that were handed to it: the values of the key, and
/// those of the aggregates over the joined states. Without a nested plan these are the different
/// rows. It keeps all groups in memory, and its store as it is. It is made with its input ended, and
/// so never fed; of a row that it took nothing would come.
#[derive(Drop)]
pub struct GroupEmit<'a, R: RunStore> {
    alloc: Global,
    settings: Settings,
    shape: GroupShape,
    arg: &'a GroupArg,
    rows: List<RowBuf>,
    at: usize,
    groups: Groups,
    ended: bool,
    phase: Phase,
    store: R,
    ghost few: { shape.arity ≤ 1024 },
    ghost keyed: { length arg.now.keys ≤ shape.width },
    ghost fit: { All (λ row. length row ≡ shape.width) rows },
    ghost within: { at ≤ length rows },
    ghost right: { All (λ e. kinds e.1 ≡ kinds_of arg.now) groups },
    ghost read: { phase ≡ HasEnded → at ≡ length rows },
    ghost over: { phase ≡ HasEnded → ended ≡ true },
    ghost left_none: { phase ≡ HasEnded → groups ≡ [] },
    ghost live: { (R.runs store).live ≡ [] },
}

impl<'a, R: RunStore> GroupEmit<'a, R> {
    ghost use Rattle.std.specs.Prelude.{ℕ, List, IsSome, map};
    ghost use Rattle.std.specs.List.{AllByRecursion};
    ghost use Rattle.hy_driver.specs.Steps.{IsNew};
    ghost use Rattle.hy_job.specs.Drivers.{all_left, driver_out};
    ghost use Rattle.hy_job.specs.Sound.{built_fields, made_fields};
    ghost use Rattle.hy_job.specs.declared.job.Kind.TheVariants as kind;
    ghost use Rattle.hy_group.specs.Build.{group_fixed};

    /// The operator in a partition, with what its first driver left, which is rows alone. What it
    /// gives does not depend on the partition.
    pub fn new(
        alloc: Global,
        settings: Settings,
        _partition: u32,
        shape: GroupShape,
        arg: &'a GroupArg,
        handed: Handed,
        store: R,
    ) -> GroupEmit<'a, R>
        requires width { shape.width ≡ length arg.now.keys + built_fields arg.now.nested }
        requires arity { shape.arity ≡ length arg.now.keys + made_fields arg.now.nested }
        requires few { shape.arity ≤ 1024 }
        requires fit { All (λ row. length row ≡ shape.width) handed.rows }
        requires frames { handed.frames ≡ [] }
        requires runs { handed.runs ≡ [] }
        requires live { (R.runs store).live ≡ [] }
        ensures new { (n : ℕ) (scanned : List spec.Row)
            → IsNew (⟦<GroupEmit<'a, R> as Driver>⟧.seen result) (driver_out (kind.GroupEmit arg.now) shape.arity (all_left (kind.GroupEmit arg.now) n _partition scanned (map values_of handed.rows))) }
        ensures sound { AllByRecursion (IsRow shape.width) handed.rows → IsSome (R.runs store).held → (⟦<GroupEmit<'a, R> as Driver>⟧.seen result).sound }
        ensures made { (⟦<GroupEmit<'a, R> as Driver>⟧.seen result).fixed ≡ group_fixed settings.frame_size settings.memory shape.width shape.arity }
        ensures store { (⟦<GroupEmit<'a, R> as Driver>⟧.seen result).store ≡ record { runs = R.runs store; faults = R.faults store } }
        ensures input { (k : ℕ) → (⟦<GroupEmit<'a, R> as Driver>⟧.seen result).ended k ≡ true }
    {
        GroupEmit {
            alloc,
            settings,
            shape,
            arg,
            rows: handed.rows,
            at: 0,
            groups: Groups::new(alloc),
            ended: true,
            phase: Phase::Working,
            store,
        }
    }

    /// Tells that no run of its store is live, so that whoever ends it may know it. It does nothing.
    pub fn no_runs(&self)
        ensures { (⟦<GroupEmit<'a, R> as Driver>⟧.seen self.now).store.runs.live ≡ [] }
    {}
}

impl<'a, R: RunStore> Driver for GroupEmit<'a, R> {
    ghost use Rattle.std.specs.Prelude.{true, false};
    ghost use Rattle.hy_group.specs.Build.{group_fixed};
    ghost use Rattle.hy_group.specs.Emit.{emit_state};

    ghost seen = { λ d. emit_state (group_fixed d.settings.frame_size d.settings.memory d.shape.width d.shape.arity) d.shape.width d.arg.now d.rows d.at d.groups d.ended d.phase (record { runs = R.runs d.store; faults = R.faults d.store }) };

    ghost stored = { λ _. true };

    ghost hands = { λ _. false };

    fn feed(&mut self, _bank: &mut Bank, _input: u32, _row: RowRef<'_>) -> Result<(), OpFault> {
        self.phase = Phase::Working;
        Ok(())
    }

    fn end(&mut self, _bank: &mut Bank, _input: u32) -> Result<(), OpFault> {
        self.ended = true;
        Ok(())
    }

    fn next(&mut self, _bank: &mut Bank, out: &mut RowBuf) -> Result<Next, OpFault> {
        if self.at < self.rows.len() {
            let rows = self.rows.as_slice();
            let joined = join_row(self.alloc, self.arg, &mut self.groups, rows, self.at);
            self.at += 1;
            return match joined {
                Ok(()) => {
                    self.phase = Phase::Working;
                    Ok(Next::Work)
                }
                Err(_) => {
                    self.groups = Groups::new(self.alloc);
                    Err(OpFault::NoMemory)
                }
            };
        }
        match give_row(self.alloc, self.shape.arity, &mut self.groups, out) {
            Ok(true) => {
                self.phase = Phase::Working;
                Ok(Next::Row)
            }
            Ok(false) => {
                if self.ended {
                    self.phase = Phase::Ended;
                    return Ok(Next::End);
                }
                self.phase = Phase::Hungry;
                Ok(Next::NeedInput)
            }
            Err(_) => {
                self.groups = Groups::new(self.alloc);
                Err(OpFault::NoMemory)
            }
        }
    }

    fn give_up(&mut self, _bank: &mut Bank) {
        self.groups = Groups::new(self.alloc);
        self.at = self.rows.len();
        self.phase = Phase::GivenUp;
    }
}

impl<'a, R: RunStore> HandsOn<R> for GroupEmit<'a, R> {
    fn hand_on(self, _bank: &mut Bank) -> (Handed, Option<R>) {
        (Handed::none(self.alloc), Some(self.store))
    }
}

impl<'a, R: RunStore> Starts for GroupEmit<'a, R> {
    ghost use Rattle.std.specs.Prelude.{map};
    ghost use Rattle.hy_job.specs.Runs.{IsGroupOf};

    ghost out = { λ d took. IsGroupOf d.arg.now (map values_of d.rows) };
}

/// Adds the row in this place to the group of its key, whose values stand first.
#[tactic(auto, using(crate::proofs::GiveLaws::key_laws))]
fn join_row(
    alloc: Global,
    arg: &GroupArg,
    groups: &mut Groups,
    rows: &[RowBuf],
    at: usize,
) -> Result<(), NoMemory>
    requires within { at < length rows.now }
    requires keyed { length arg.now.keys ≤ length (get_or rows.now at []) }
    requires right { All (λ e. kinds e.1 ≡ kinds_of arg.now) groups.old }
    ensures added { OnOk result (Added (handed_sees arg.now) (λ states. kinds states ≡ kinds_of arg.now) (spec.cut (first_columns arg.now) (values_of (get_or rows.now at []))) (values_of (get_or rows.now at [])) groups.old groups.new) }
{
    let values = values_in(alloc, &rows[at].as_row())?;
    let key = &values.as_slice()[..arg.keys.len()];
    groups.add(&HandedRows { arg }, key, &values)
}

/// Takes out the last group and puts its row in place of another, and tells whether there was one.
fn give_row(
    alloc: Global,
    arity: u32,
    groups: &mut Groups,
    out: &mut RowBuf,
) -> Result<bool, NoMemory>
    requires { arity ≤ 1024 }
    ensures { TakesOut arity groups.old groups.new out.new result }
{
    match groups.pop() {
        Some((key, states)) => {
            let row = given_row(key, states)?;
            put_group(alloc, arity, &row, out)?;
            Ok(true)
        }
        None => Ok(false),
    }
}

/// The values of a key, and those of the aggregates of its states.
fn given_row(key: Vec<Value>, states: Vec<Part>) -> Result<Row, NoMemory>
    ensures { IfOk result (λ row. IsGiven (key.items, states.items) row) }
{
    let mut row = Row::from_list(List::from_vec(key));
    finish_states(states, &mut row)?;
    Ok(row)
}

/// Puts the value of each state's aggregate behind others. Where memory runs out, some of them are
/// there.
fn finish_states(states: Vec<Part>, row: &mut Row) -> Result<(), NoMemory>
    ensures { OnOk result (Finishes states.items row.old row.new) }
{
    for part in states {
        row.push(finish(part))?;
    }
    Ok(())
}
