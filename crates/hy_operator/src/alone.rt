//! The drivers that are given nothing beside their activities' kinds.

ghost use Rattle.std.specs.Prelude.{◌≡◌, true, false, ℕ, List, IfOk};
ghost use Rattle.hy_frame.specs.Row.{Fields};
ghost use Rattle.hy_driver.specs.Rows.{Row};
ghost use Rattle.hy_driver.specs.Seen.{no_store};
ghost use Rattle.hy_job.specs.declared.job.Kind.TheVariants as K;
ghost use Rattle.hy_operator.specs.Begins.{Begins};
ghost use Rattle.hy_operator.specs.Kinds.{Suits, works_on_rows};

use crate::copies::{copy_aggs, copy_calls, copy_columns, copy_items};
use crate::input::RowShape;
use crate::nested::copy_nested;
use crate::work::row_work;
use al_agg::Agg;
use al_value::{NoMemory, Settings, SortKey};
use hy_aggregate::{AggWork, Aggregate};
use hy_driver::Driver;
use hy_job::{AggRex, GenRex, Kind, NestedPlan};
use hy_sort::SortBuild;
use hy_stream::{One, Shape, Stream, Unnest};
use hy_subplan::{PreGroup, Subplan};
use std::alloc::Global;

/// Where an operator stands: how its job is run, its partition, and the rows that it sees.
#[derive(Clone, Copy)]
pub(crate) struct Site {
    pub alloc: Global,
    pub settings: Settings,
    pub partition: u32,
    pub shape: RowShape,
}

pub(crate) fn one_of(site: Site) -> One
    requires { Suits K.One site.shape }
    ensures { (scanned : List Row) (handed : List Fields) → Begins K.One site.settings site.partition site.shape scanned handed no_store (⟦<One as Driver>⟧.seen result) }
{
    One::new(site.settings, site.partition)
}

pub(crate) fn stream_of(site: Site, kind: &Kind) -> Result<Stream, NoMemory>
    requires works { works_on_rows kind.now ≡ true }
    requires fits { Suits kind.now site.shape }
    ensures { IfOk result (λ d. (scanned : List Row) (handed : List Fields) → Begins kind.now site.settings site.partition site.shape scanned handed no_store (⟦<Stream as Driver>⟧.seen d)) }
{
    let work = row_work(site.alloc, kind)?;
    let shape = Shape {
        width: site.shape.left,
        right_width: site.shape.right,
        arity: site.shape.arity,
    };
    Ok(Stream::new(site.alloc, site.settings, site.partition, shape, work))
}

pub(crate) fn unnest_of(site: Site, items: &GenRex) -> Result<Unnest, NoMemory>
    requires { Suits (K.Unnest items.now) site.shape }
    ensures { IfOk result (λ d. (scanned : List Row) (handed : List Fields) → Begins (K.Unnest items.now) site.settings site.partition site.shape scanned handed no_store (⟦<Unnest as Driver>⟧.seen d)) }
{
    let items = copy_items(site.alloc, items)?;
    Ok(Unnest::new(
        site.alloc,
        site.settings,
        site.partition,
        site.shape.left,
        items,
    ))
}

pub(crate) fn subplan_of(site: Site, nested: &NestedPlan) -> Result<Subplan, NoMemory>
    requires { Suits (K.Subplan nested.now) site.shape }
    ensures { IfOk result (λ d. (scanned : List Row) (handed : List Fields) → Begins (K.Subplan nested.now) site.settings site.partition site.shape scanned handed no_store (⟦<Subplan as Driver>⟧.seen d)) }
{
    let nested = copy_nested(site.alloc, nested)?;
    Ok(Subplan::new(
        site.alloc,
        site.settings,
        site.partition,
        site.shape.left,
        site.shape.arity,
        nested,
    ))
}

pub(crate) fn pre_group_of(
    site: Site,
    keys: &[u32],
    nested: &NestedPlan,
) -> Result<PreGroup, NoMemory>
    requires { Suits (K.PreGroup keys.now nested.now) site.shape }
    ensures { IfOk result (λ d. (scanned : List Row) (handed : List Fields) → Begins (K.PreGroup keys.now nested.now) site.settings site.partition site.shape scanned handed no_store (⟦<PreGroup as Driver>⟧.seen d)) }
{
    let keys = copy_columns(site.alloc, keys)?;
    let nested = copy_nested(site.alloc, nested)?;
    Ok(PreGroup::new(
        site.alloc,
        site.settings,
        site.partition,
        site.shape.left,
        site.shape.arity,
        keys,
        nested,
    ))
}

pub(crate) fn sort_build_of(site: Site, _keys: &[SortKey]) -> SortBuild
    requires { Suits (K.SortBuild _keys.now) site.shape }
    ensures { (scanned : List Row) (handed : List Fields) → Begins (K.SortBuild _keys.now) site.settings site.partition site.shape scanned handed no_store (⟦<SortBuild as Driver>⟧.seen result) }
{
    SortBuild::new(site.alloc, site.settings, site.partition, site.shape.left)
}

pub(crate) fn agg_part_of(site: Site, made: &[AggRex]) -> Result<Aggregate, NoMemory>
    requires { Suits (K.AggPart made.now) site.shape }
    ensures { IfOk result (λ d. (scanned : List Row) (handed : List Fields) → Begins (K.AggPart made.now) site.settings site.partition site.shape scanned handed no_store (⟦<Aggregate as Driver>⟧.seen d)) }
{
    let made = copy_calls(site.alloc, made)?;
    match Aggregate::new(
        site.alloc,
        site.settings,
        site.partition,
        site.shape.left,
        site.shape.arity,
        AggWork::Part { made },
    ) {
        Ok(driver) => Ok(driver),
        Err(_) => Err(NoMemory),
    }
}

pub(crate) fn agg_final_of(site: Site, made: &[Agg]) -> Result<Aggregate, NoMemory>
    requires { Suits (K.AggFinal made.now) site.shape }
    ensures { IfOk result (λ d. (scanned : List Row) (handed : List Fields) → Begins (K.AggFinal made.now) site.settings site.partition site.shape scanned handed no_store (⟦<Aggregate as Driver>⟧.seen d)) }
{
    let made = copy_aggs(site.alloc, made)?;
    match Aggregate::new(
        site.alloc,
        site.settings,
        site.partition,
        site.shape.left,
        site.shape.arity,
        AggWork::Final { made },
    ) {
        Ok(driver) => Ok(driver),
        Err(_) => Err(NoMemory),
    }
}
