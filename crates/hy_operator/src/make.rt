//! The operator of an activity.

ghost use Rattle.std.specs.Prelude.{◌≡◌, ◌≤◌, true, false, List, [], length, All, IfErr, IfOk};
ghost use Rattle.hy_frame.specs.Row.{Fields};
ghost use Rattle.hy_driver.specs.Handing.{store_of};
ghost use Rattle.hy_driver.specs.Rows.{Row};
ghost use Rattle.hy_driver.specs.Seen.{no_store};
ghost use Rattle.hy_job.specs.RunLaws.{is_scan};
ghost use Rattle.hy_job.specs.Sound.{is_second};
ghost use Rattle.hy_operator.specs.Begins.{Begins, listed};
ghost use Rattle.hy_operator.specs.Kinds as kinds;
ghost use Rattle.hy_operator.specs.Kinds.{StandsBeside, Suits, There, is_alone};

use crate::alone::{
    Site, agg_final_of, agg_part_of, one_of, pre_group_of, sort_build_of, stream_of, subplan_of,
    unnest_of,
};
use crate::given::{
    group_build_of, group_emit_of, join_build_of, join_probe_of, scan_of, sort_emit_of,
};
use crate::input::{OperatorInput, RowShape};
use crate::operator::Operator;
use al_value::{NoMemory, Settings};
use hy_driver::Driver;
use hy_job::Kind;
use hy_store::RunStore;
use std::alloc::Global;

/// The operator of a kind that is given nothing beside it.
fn alone<'a, R: RunStore>(site: Site, kind: &Kind) -> Result<Operator<'a, R>, NoMemory>
    requires alone { is_alone kind.now ≡ true }
    requires fits { Suits kind.now site.shape }
    ensures begins { IfOk result (λ d. (scanned : List Row) (handed : List Fields)
        → Begins kind.now site.settings site.partition site.shape scanned handed no_store (⟦<Operator<'a, R> as Driver>⟧.seen d)) }
    ensures stored { IfOk result (λ d. ⟦<Operator<'a, R> as Driver>⟧.stored d ≡ kinds.has_store kind.now) }
    ensures hands { IfOk result (λ d. ⟦<Operator<'a, R> as Driver>⟧.hands d ≡ kinds.hands_rows kind.now) }
    ensures kind { kinds.has_store kind.now ≡ false }
{
    match kind {
        Kind::One => Ok(Operator::One(one_of(site))),
        Kind::Unnest { items } => Ok(Operator::Unnest(unnest_of(site, items)?)),
        Kind::Subplan { nested } => Ok(Operator::Subplan(subplan_of(site, nested)?)),
        Kind::PreGroup { keys, nested } => Ok(Operator::PreGroup(pre_group_of(
            site,
            keys.as_slice(),
            nested,
        )?)),
        Kind::SortBuild(keys) => Ok(Operator::SortBuild(sort_build_of(site, keys.as_slice()))),
        Kind::AggPart { made } => Ok(Operator::Aggregate(agg_part_of(site, made.as_slice())?)),
        Kind::AggFinal { made } => Ok(Operator::Aggregate(agg_final_of(site, made.as_slice())?)),
        Kind::Assign { .. }
        | Kind::Select { .. }
        | Kind::Project { .. }
        | Kind::Check { .. }
        | Kind::Union { .. }
        | Kind::Limit { .. }
        | Kind::LocalLimit { .. }
        | Kind::Result { .. } => Ok(Operator::Stream(stream_of(site, kind)?)),
        Kind::Scan { .. }
        | Kind::SortEmit(_)
        | Kind::GroupBuild(_)
        | Kind::GroupEmit(_)
        | Kind::JoinBuild(_)
        | Kind::JoinProbe(_) => unreachable!(),
    }
}

impl<'a, R: RunStore> Operator<'a, R> {
    /// The operator of an activity of this kind in a partition, which copies what it works by. For want
    /// of memory it hands back what it was given beside the kind.
    pub fn new(
        alloc: Global,
        settings: Settings,
        partition: u32,
        kind: &'a Kind,
        shape: RowShape,
        input: OperatorInput<'a, R>,
    ) -> Result<Operator<'a, R>, OperatorInput<'a, R>>
        requires some { 1 ≤ settings.partitions }
        requires fits { Suits kind.now shape }
        requires rows { There (is_scan kind.now) input.rows (λ rows. All (λ row. length row ≡ shape.arity) rows.now) }
        requires handed { There (is_second kind.now) input.handed (StandsBeside shape.handed) }
        requires store { There (kinds.has_store kind.now) input.store (λ store. (R.runs store).live ≡ []) }
        ensures begins { IfOk result (λ d. Begins kind.now settings partition shape (listed (λ rows. rows.now) input.entry.rows) (listed (λ handed. handed.rows) input.entry.handed)
            (store_of R.runs R.faults input.entry.store) (⟦<Operator<'a, R> as Driver>⟧.seen d)) }
        ensures stored { IfOk result (λ d. ⟦<Operator<'a, R> as Driver>⟧.stored d ≡ kinds.has_store kind.now) }
        ensures hands { IfOk result (λ d. ⟦<Operator<'a, R> as Driver>⟧.hands d ≡ kinds.hands_rows kind.now) }
        ensures back { IfErr result (λ back. back ≡ input.entry) }
    {
        let site = Site {
            alloc,
            settings,
            partition,
            shape,
        };
        match kind {
            Kind::Scan { .. } => Ok(Operator::Scan(scan_of(site, input.rows))),
            Kind::SortEmit(keys) => match sort_emit_of(site, keys.as_slice(), input) {
                Ok(driver) => Ok(Operator::SortEmit(driver)),
                Err(back) => Err(back),
            },
            Kind::GroupBuild(arg) => {
                Ok(Operator::GroupBuild(group_build_of(site, arg, input.store)))
            }
            Kind::GroupEmit(arg) => Ok(Operator::GroupEmit(group_emit_of(site, arg, input))),
            Kind::JoinBuild(arg) => Ok(Operator::JoinBuild(join_build_of(site, arg, input.store))),
            Kind::JoinProbe(arg) => match join_probe_of(site, arg, input) {
                Ok(driver) => Ok(Operator::JoinProbe(driver)),
                Err(back) => Err(back),
            },
            Kind::One
            | Kind::Assign { .. }
            | Kind::Select { .. }
            | Kind::Project { .. }
            | Kind::Unnest { .. }
            | Kind::Subplan { .. }
            | Kind::Check { .. }
            | Kind::Union { .. }
            | Kind::Limit { .. }
            | Kind::LocalLimit { .. }
            | Kind::PreGroup { .. }
            | Kind::Result { .. }
            | Kind::SortBuild(_)
            | Kind::AggPart { .. }
            | Kind::AggFinal { .. } => match alone(site, kind) {
                Ok(driver) => Ok(driver),
                Err(_) => Err(input),
            },
        }
    }
}
