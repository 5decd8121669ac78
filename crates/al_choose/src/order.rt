//! Orders and limits.

ghost use Rattle.std.specs.Prelude.{◌≡◌, ◌+◌, IfOk, MatchOption, true, false};
ghost use Rattle.al_phys.specs.declared.phys.Phys.TheVariants as Q;
ghost use Rattle.al_choose.specs.Chosen as spec;

use crate::copies::copy_order;
use crate::exchange::is_met;
use al_phys::{Need, OrderKey, Phys};
use al_value::{Boxed, NoMemory};
use std::alloc::Global;

/// The greatest number of rows to which the parts of an input are cut.
const MOST_ROWS: u64 = 9_223_372_036_854_775_807;

/// Sorted parts, merged where there is more than one.
fn merge_over(
    alloc: Global,
    keys: &[OrderKey],
    sorted: Boxed<Phys>,
    partitions: u32,
) -> Result<Boxed<Phys>, NoMemory>
    ensures { IfOk result (λ q. q ≡ spec.merge_over partitions keys.now sorted) }
{
    if is_met(alloc, sorted.get(), &Need::One, partitions)? {
        return Ok(sorted);
    }
    let keys = copy_order(alloc, keys)?;
    Boxed::new(
        alloc,
        Phys::Merge {
            keys,
            input: sorted,
        },
    )
}

/// Each part sorted.
pub fn sort_over(
    alloc: Global,
    keys: &[OrderKey],
    input: Boxed<Phys>,
) -> Result<Boxed<Phys>, NoMemory>
    ensures { IfOk result (λ q. q ≡ Q.Sort keys.now input) }
{
    let keys = copy_order(alloc, keys)?;
    Boxed::new(alloc, Phys::Sort { keys, input })
}

pub fn order_over(
    alloc: Global,
    keys: &[OrderKey],
    input: Boxed<Phys>,
    partitions: u32,
) -> Result<Boxed<Phys>, NoMemory>
    ensures { IfOk result (λ q. q ≡ spec.merge_over partitions keys.now (Q.Sort keys.now input)) }
{
    let sorted = sort_over(alloc, keys, input)?;
    merge_over(alloc, keys, sorted, partitions)
}

/// How many first rows a limit needs, where parts may be cut to so many.
fn needed_rows(n: u64, k: u64) -> Option<u64>
    ensures { MatchOption result (spec.is_rank (n + k) ≡ false) (λ count. (count ≡ n + k) × (spec.is_rank (n + k) ≡ true)) }
{
    let count = n.checked_add(k)?;
    if count > MOST_ROWS {
        return None;
    }
    Some(count)
}

/// A limit over the rows of all parts.
fn limit_gathered(
    alloc: Global,
    n: u64,
    k: u64,
    parts: Boxed<Phys>,
) -> Result<Boxed<Phys>, NoMemory>
    ensures { IfOk result (λ q. q ≡ Q.Limit n k (Q.Gather parts)) }
{
    let input = Boxed::new(alloc, Phys::Gather { input: parts })?;
    Boxed::new(alloc, Phys::Limit { n, k, input })
}

/// A limit over one part. Parts that are gathered for it are cut to the rows that it needs.
pub fn limit_over(
    alloc: Global,
    n: u64,
    k: u64,
    p: Boxed<Phys>,
    partitions: u32,
) -> Result<Boxed<Phys>, NoMemory>
    ensures { IfOk result (λ q. q ≡ spec.limit_over partitions n k p) }
{
    if is_met(alloc, p.get(), &Need::One, partitions)? {
        return Boxed::new(alloc, Phys::Limit { n, k, input: p });
    }
    match needed_rows(n, k) {
        Some(rows) => {
            let cut = Boxed::new(alloc, Phys::LocalLimit { n: rows, input: p })?;
            limit_gathered(alloc, n, k, cut)
        }
        None => limit_gathered(alloc, n, k, p),
    }
}
