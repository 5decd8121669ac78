//! The drivers that are given something beside their activities' kinds.

ghost use Rattle.std.specs.Prelude.{◌≡◌, ◌≤◌, true, ℕ, List, [], length, All, IfErr, IfOk};
ghost use Rattle.std.specs.List.{AllByRecursion};
ghost use Rattle.hy_frame.specs.Row.{Fields, IsRow};
ghost use Rattle.hy_driver.specs.Handing.{store_of};
ghost use Rattle.hy_driver.specs.Rows.{Row as Cells};
ghost use Rattle.hy_driver.specs.Seen.{no_store};
ghost use Rattle.hy_job.specs.declared.job.Kind.TheVariants as K;
ghost use Rattle.hy_operator.specs.Begins.{Begins, listed};
ghost use Rattle.hy_operator.specs.Kinds.{StandsBeside, Suits, There};

use crate::alone::Site;
use crate::copies::{copy_join, copy_keys};
use crate::input::OperatorInput;
use al_value::{Row, SortKey};
use hy_driver::Driver;
use hy_frame::RowBuf;
use hy_group::{GroupBuild, GroupEmit, GroupShape};
use hy_job::{GroupArg, JoinArg};
use hy_join::{JoinBuild, JoinProbe, Sides};
use hy_sort::SortEmit;
use hy_store::RunStore;
use hy_stream::Scan;

pub(crate) fn scan_of<'a>(site: Site, rows: Option<&'a [Row]>) -> Scan<'a>
    requires some { 1 ≤ site.settings.partitions }
    requires few { site.shape.arity ≤ 1024 }
    requires rows { There true rows (λ rows. All (λ row. length row ≡ site.shape.arity) rows.now) }
    ensures { (set : List ℕ) (handed : List Fields)
        → Begins (K.Scan set) site.settings site.partition site.shape (listed (λ rows. rows.now) rows.entry) handed no_store (⟦<Scan<'a> as Driver>⟧.seen result) }
{
    match rows {
        Some(rows) => Scan::new(
            site.alloc,
            site.settings,
            site.partition,
            site.shape.arity,
            rows,
        ),
        None => unreachable!(),
    }
}

pub(crate) fn sort_emit_of<'a, R: RunStore>(
    site: Site,
    keys: &[SortKey],
    input: OperatorInput<'a, R>,
) -> Result<SortEmit, OperatorInput<'a, R>>
    requires fits { Suits (K.SortEmit keys.now) site.shape }
    requires handed { There true input.handed (StandsBeside site.shape.handed) }
    ensures begins { IfOk result (λ d. (scanned : List Cells)
        → Begins (K.SortEmit keys.now) site.settings site.partition site.shape scanned (listed (λ handed. handed.rows) input.entry.handed) no_store (⟦<SortEmit as Driver>⟧.seen d)) }
    ensures back { IfErr result (λ back. back ≡ input.entry) }
{
    match copy_keys(site.alloc, keys) {
        Ok(keys) => {
            let OperatorInput {
                rows: _rows,
                store: _store,
                handed,
            } = input;
            match handed {
                Some(handed) => Ok(SortEmit::new(
                    site.settings,
                    site.partition,
                    site.shape.arity,
                    keys,
                    handed,
                )),
                None => unreachable!(),
            }
        }
        Err(_) => Err(input),
    }
}

pub(crate) fn group_build_of<'a, R: RunStore>(
    site: Site,
    arg: &'a GroupArg,
    store: Option<R>,
) -> GroupBuild<'a, R>
    requires fits { Suits (K.GroupBuild arg.now) site.shape }
    requires store { There true store (λ store. (R.runs store).live ≡ []) }
    ensures { (scanned : List Cells) (handed : List Fields)
        → Begins (K.GroupBuild arg.now) site.settings site.partition site.shape scanned handed (store_of R.runs R.faults store) (⟦<GroupBuild<'a, R> as Driver>⟧.seen result) }
{
    let shape = GroupShape {
        width: site.shape.left,
        arity: site.shape.arity,
    };
    match store {
        Some(store) => GroupBuild::new(
            site.alloc,
            site.settings,
            site.partition,
            shape,
            arg,
            store,
        ),
        None => unreachable!(),
    }
}

/// Tells that rows that were built field by field are rows. It does nothing.
fn are_rows(rows: &[RowBuf])
    ensures { AllByRecursion (λ row. IsRow (length row) row) rows.now }
{
    for buf in rows {
        buf.as_row();
    }
}

pub(crate) fn group_emit_of<'a, R: RunStore>(
    site: Site,
    arg: &'a GroupArg,
    input: OperatorInput<'a, R>,
) -> GroupEmit<'a, R>
    requires fits { Suits (K.GroupEmit arg.now) site.shape }
    requires handed { There true input.handed (StandsBeside site.shape.handed) }
    requires store { There true input.store (λ store. (R.runs store).live ≡ []) }
    ensures { (scanned : List Cells)
        → Begins (K.GroupEmit arg.now) site.settings site.partition site.shape scanned (listed (λ handed. handed.rows) input.entry.handed)
        (store_of R.runs R.faults input.entry.store) (⟦<GroupEmit<'a, R> as Driver>⟧.seen result) }
{
    let shape = GroupShape {
        width: site.shape.handed,
        arity: site.shape.arity,
    };
    let OperatorInput {
        rows: _rows,
        store,
        handed,
    } = input;
    match handed {
        Some(handed) => match store {
            Some(store) => {
                are_rows(handed.rows.as_slice());
                GroupEmit::new(
                    site.alloc,
                    site.settings,
                    site.partition,
                    shape,
                    arg,
                    handed,
                    store,
                )
            }
            None => unreachable!(),
        },
        None => unreachable!(),
    }
}

pub(crate) fn join_build_of<R: RunStore>(
    site: Site,
    arg: &JoinArg,
    store: Option<R>,
) -> JoinBuild<R>
    requires fits { Suits (K.JoinBuild arg.now) site.shape }
    requires store { There true store (λ store. (R.runs store).live ≡ []) }
    ensures { (scanned : List Cells) (handed : List Fields)
        → Begins (K.JoinBuild arg.now) site.settings site.partition site.shape scanned handed (store_of R.runs R.faults store) (⟦<JoinBuild<R> as Driver>⟧.seen result) }
{
    match store {
        Some(store) => JoinBuild::new(
            site.alloc,
            site.settings,
            site.partition,
            site.shape.left,
            arg,
            store,
        ),
        None => unreachable!(),
    }
}

pub(crate) fn join_probe_of<'a, R: RunStore>(
    site: Site,
    arg: &JoinArg,
    input: OperatorInput<'a, R>,
) -> Result<JoinProbe<R>, OperatorInput<'a, R>>
    requires fits { Suits (K.JoinProbe arg.now) site.shape }
    requires handed { There true input.handed (StandsBeside site.shape.handed) }
    requires store { There true input.store (λ store. (R.runs store).live ≡ []) }
    ensures begins { IfOk result (λ d. (scanned : List Cells)
        → Begins (K.JoinProbe arg.now) site.settings site.partition site.shape scanned (listed (λ handed. handed.rows) input.entry.handed)
        (store_of R.runs R.faults input.entry.store) (⟦<JoinProbe<R> as Driver>⟧.seen d)) }
    ensures back { IfErr result (λ back. back ≡ input.entry) }
{
    let sides = Sides {
        left: site.shape.left,
        right: site.shape.handed,
    };
    match copy_join(site.alloc, arg) {
        Ok(arg) => {
            let OperatorInput {
                rows,
                store,
                handed,
            } = input;
            match handed {
                Some(handed) => match store {
                    Some(store) => match JoinProbe::new(
                        site.alloc,
                        site.settings,
                        site.partition,
                        sides,
                        arg,
                        handed,
                        store,
                    ) {
                        Ok(driver) => Ok(driver),
                        Err((_arg, handed, store)) => Err(OperatorInput {
                            rows,
                            store: Some(store),
                            handed: Some(handed),
                        }),
                    },
                    None => unreachable!(),
                },
                None => unreachable!(),
            }
        }
        Err(_) => Err(input),
    }
}
