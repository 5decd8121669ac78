//! The driver that builds groups.

ghost use Rattle.std.specs.Prelude.{◌≡◌, ◌≤◌, ◌++◌, [], length, true, All, IfOk, OnOk};
ghost use Rattle.std.specs.List.{flat_map};
ghost use Rattle.al_agg.specs.Part.{part_fields};
ghost use Rattle.hy_frame.specs.Row.{IsRow};
ghost use Rattle.hy_driver.specs.Rows.{values_of};
ghost use Rattle.hy_driver.specs.declared.phase.Phase.TheVariants.{Ended as HasEnded, GivenUp as IsGivenUp};
ghost use Rattle.hy_job.specs.Columns as spec;
ghost use Rattle.hy_group.specs.Fresh.{ReadsNested, ReadsNested-prop, aggs_of, row_sees};
ghost use Rattle.hy_group.specs.Groups.{Added};
ghost use Rattle.hy_group.specs.Making.{Makes};

use crate::fresh::FreshRows;
use crate::groups::Groups;
use al_agg::{Part, put_part};
use al_value::{List, NoMemory, Row, Settings, Value};
use hy_driver::{Driver, Handed, HandsOn, Phase, Starts};
use hy_frame::{Bank, RowBuf, RowRef};
use hy_job::{GroupArg, cut};
use hy_rows::{put_row, values_in};
use hy_store::{Next, OpFault, RunStore};
use std::alloc::Global;

/// How many values the rows have that are taken, and those that are handed on or given.
#[derive(Clone, Copy)]
pub struct GroupShape {
    pub width: u32,
    pub arity: u32,
}

/// Cuts rows into groups of equal keys, and hands on a row for each: the values of its keys, and
/// the fields of its partial states. Without a nested plan these are the different rows. It keeps
/// all groups in memory, and its store as it is.
#[derive(Drop)]
pub struct GroupBuild<'a, R: RunStore> {
    alloc: Global,
    settings: Settings,
    shape: GroupShape,
    arg: &'a GroupArg,
    groups: Groups,
    rows: List<RowBuf>,
    ended: bool,
    phase: Phase,
    store: R,
    ghost few: { shape.arity ≤ 1024 },
    ghost reads: { ReadsNested arg.now.nested shape.width } by { ReadsNested-prop arg.now.nested shape.width },
    ghost each: { All (λ e. length e.1 ≡ length (aggs_of arg.now.nested)) groups },
    ghost over: { phase ≡ HasEnded → ended ≡ true },
    ghost left_none: { phase ≡ HasEnded → groups ≡ [] },
    ghost fit: { All (λ row. length row ≡ shape.arity) rows },
    ghost none: { phase ≡ IsGivenUp → rows ≡ [] },
    ghost live: { (R.runs store).live ≡ [] },
}

impl<'a, R: RunStore> GroupBuild<'a, R> {
    ghost use Rattle.std.specs.Prelude.{ℕ, List, IsSome, false};
    ghost use Rattle.hy_driver.specs.Forms.{one_ended};
    ghost use Rattle.hy_driver.specs.Steps.{IsNew};
    ghost use Rattle.hy_job.specs.Drivers.{all_left, driver_out};
    ghost use Rattle.hy_job.specs.Sound.{HasArity, HasSoundNested, IsInRange};
    ghost use Rattle.hy_job.specs.declared.job.Kind.TheVariants as kind;
    ghost use Rattle.hy_group.specs.Build.{group_fixed};
    ghost use Rattle.hy_group.specs.Shape.{build_widths};

    /// The operator in a partition. What it hands on does not depend on which one that is.
    pub fn new(
        alloc: Global,
        settings: Settings,
        _partition: u32,
        shape: GroupShape,
        arg: &'a GroupArg,
        store: R,
    ) -> GroupBuild<'a, R>
        requires in_range { IsInRange (kind.GroupBuild arg.now) (build_widths shape.width) }
        requires nested { HasSoundNested (kind.GroupBuild arg.now) (build_widths shape.width) }
        requires arity { HasArity (kind.GroupBuild arg.now) (build_widths shape.width) shape.arity }
        requires few { shape.arity ≤ 1024 }
        requires live { (R.runs store).live ≡ [] }
        ensures new { (n : ℕ) (scanned handed : List spec.Row)
            → IsNew (⟦<GroupBuild<'a, R> as Driver>⟧.seen result) (driver_out (kind.GroupBuild arg.now) shape.arity (all_left (kind.GroupBuild arg.now) n _partition scanned handed)) }
        ensures sound { IsSome (R.runs store).held → (⟦<GroupBuild<'a, R> as Driver>⟧.seen result).sound }
        ensures made { (⟦<GroupBuild<'a, R> as Driver>⟧.seen result).fixed ≡ group_fixed settings.frame_size settings.memory shape.width shape.arity }
        ensures store { (⟦<GroupBuild<'a, R> as Driver>⟧.seen result).store ≡ record { runs = R.runs store; faults = R.faults store } }
        ensures input { (k : ℕ) → (⟦<GroupBuild<'a, R> as Driver>⟧.seen result).ended k ≡ one_ended false k }
    {
        GroupBuild {
            alloc,
            settings,
            shape,
            arg,
            groups: Groups::new(alloc),
            rows: List::new(alloc),
            ended: false,
            phase: Phase::Working,
            store,
        }
    }

    /// Tells that no run of its store is live, so that whoever ends it may know it. It does nothing.
    pub fn no_runs(&self)
        ensures { (⟦<GroupBuild<'a, R> as Driver>⟧.seen self.now).store.runs.live ≡ [] }
    {}
}

impl<'a, R: RunStore> Driver for GroupBuild<'a, R> {
    ghost use Rattle.std.specs.Prelude.{true};
    ghost use Rattle.hy_group.specs.Build.{build_state, group_fixed};

    ghost seen = { λ d. build_state (group_fixed d.settings.frame_size d.settings.memory d.shape.width d.shape.arity) d.arg.now d.groups d.rows d.ended d.phase (record { runs = R.runs d.store; faults = R.faults d.store }) };

    ghost stored = { λ _. true };

    ghost hands = { λ _. true };

    fn feed(&mut self, _bank: &mut Bank, _input: u32, row: RowRef<'_>) -> Result<(), OpFault> {
        match add_row(self.alloc, self.arg, &mut self.groups, &row) {
            Ok(()) => {
                self.phase = Phase::Working;
                Ok(())
            }
            Err(_) => {
                self.groups = Groups::new(self.alloc);
                Err(OpFault::NoMemory)
            }
        }
    }

    fn end(&mut self, _bank: &mut Bank, _input: u32) -> Result<(), OpFault> {
        self.ended = true;
        Ok(())
    }

    fn next(&mut self, _bank: &mut Bank, _out: &mut RowBuf) -> Result<Next, OpFault> {
        if !self.ended {
            self.phase = Phase::Hungry;
            return Ok(Next::NeedInput);
        }
        match make_row(
            self.alloc,
            self.shape.arity,
            &mut self.groups,
            &mut self.rows,
        ) {
            Ok(true) => {
                self.phase = Phase::Working;
                Ok(Next::Work)
            }
            Ok(false) => {
                self.phase = Phase::Ended;
                Ok(Next::End)
            }
            Err(_) => {
                self.groups = Groups::new(self.alloc);
                Err(OpFault::NoMemory)
            }
        }
    }

    fn give_up(&mut self, _bank: &mut Bank) {
        self.groups = Groups::new(self.alloc);
        self.rows = List::new(self.alloc);
        self.phase = Phase::GivenUp;
    }
}

impl<'a, R: RunStore> HandsOn<R> for GroupBuild<'a, R> {
    fn hand_on(self, _bank: &mut Bank) -> (Handed, Option<R>) {
        let handed = Handed {
            rows: self.rows,
            ..Handed::none(self.alloc)
        };
        (handed, Some(self.store))
    }
}

impl<'a, R: RunStore> Starts for GroupBuild<'a, R> {
    ghost use Rattle.hy_group.specs.Build.{pieces_out};

    ghost out = { λ d. pieces_out d.arg.now };
}

/// Adds a row to the group of its key.
#[tactic(auto, using(hy_rows::proofs::RowLaws::row_laws))]
fn add_row(
    alloc: Global,
    arg: &GroupArg,
    groups: &mut Groups,
    row: &RowRef<'_>,
) -> Result<(), NoMemory>
    requires reads { ReadsNested arg.now.nested (length row.now) }
    requires each { All (λ e. length e.1 ≡ length (aggs_of arg.now.nested)) groups.old }
    ensures added { OnOk result (Added (row_sees arg.now.nested) (λ states. length states ≡ length (aggs_of arg.now.nested)) (spec.cut arg.now.keys (values_of row.now)) (values_of row.now) groups.old groups.new) }
{
    let values = values_in(alloc, row)?;
    let key = cut(alloc, arg.keys.as_slice(), values.as_slice())?;
    groups.add(&FreshRows { arg }, key.as_slice(), &values)
}

/// Takes out the last group and puts its row behind others, and tells whether there was one.
fn make_row(
    alloc: Global,
    arity: u32,
    groups: &mut Groups,
    rows: &mut List<RowBuf>,
) -> Result<bool, NoMemory>
    requires { arity ≤ 1024 }
    ensures { Makes arity groups.old groups.new rows.old rows.new result }
{
    match groups.pop() {
        Some((key, states)) => {
            let row = built_row(alloc, arity, key, states.as_slice())?;
            rows.push(row)?;
            Ok(true)
        }
        None => Ok(false),
    }
}

/// Puts the fields of states behind the values of a key. Where memory runs out, some of them are
/// there.
#[tactic(auto, using(crate::proofs::PutLaws::put_laws))]
fn put_states(alloc: Global, states: &[Part], row: &mut Row) -> Result<(), NoMemory>
    ensures { OnOk result (row.new ≡ row.old ++ flat_map part_fields states.now) }
{
    for part in states {
        put_part(alloc, part, row)?;
    }
    Ok(())
}

/// Tells that what is built field by field is a row. It does nothing.
fn fits_row(row: &RowBuf)
    ensures { IsRow (length row.now) row.now }
{
    row.as_row();
}

/// The row of a group: the values of its key, and the fields of its states. These are as many as
/// their aggregates have.
fn built_row(
    alloc: Global,
    arity: u32,
    key: Vec<Value>,
    states: &[Part],
) -> Result<RowBuf, NoMemory>
    requires { arity ≤ 1024 }
    ensures values { IfOk result (λ built. values_of built ≡ key.items ++ flat_map part_fields states.now) }
    ensures is_row { IfOk result (λ built. IsRow arity built) }
{
    let mut row = Row::from_list(List::from_vec(key));
    put_states(alloc, states, &mut row)?;
    let mut built = RowBuf::new(alloc);
    put_group(alloc, arity, &row, &mut built)?;
    Ok(built)
}

/// Puts the row of a group, which has as many values as its activity's rows, in place of another.
pub(crate) fn put_group(
    alloc: Global,
    arity: u32,
    row: &Row,
    out: &mut RowBuf,
) -> Result<(), NoMemory>
    requires { arity ≤ 1024 }
    ensures values { OnOk result (values_of out.new ≡ row.now) }
    ensures is_row { OnOk result (IsRow arity out.new) }
{
    if row.len() != arity as usize {
        return Err(NoMemory);
    }
    put_row(alloc, row.as_slice(), out)?;
    fits_row(out);
    Ok(())
}
