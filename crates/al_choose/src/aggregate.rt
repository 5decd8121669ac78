//! Aggregates: a row of partial states for each part, and one row of these.

ghost use Rattle.std.specs.Prelude.{◌≡◌, IfOk};
ghost use Rattle.al_phys.specs.declared.phys.Phys.TheVariants as Q;
ghost use Rattle.al_phys.specs.declared.property.Need.TheVariants as N;
ghost use Rattle.al_choose.specs.Chosen as spec;

use crate::copies::copy_aggregated;
use crate::exchange::served;
use al_phys::{Need, Phys};
use al_plan::{AggCall, Var};
use al_value::{Boxed, NoMemory};
use std::alloc::Global;

fn aggregate_part(
    alloc: Global,
    made: &[(Var, AggCall)],
    input: Boxed<Phys>,
) -> Result<Boxed<Phys>, NoMemory>
    ensures { IfOk result (λ q. q ≡ Q.AggPart made.now input) }
{
    let made = copy_aggregated(alloc, made)?;
    Boxed::new(alloc, Phys::AggPart { made, input })
}

pub fn aggregate_over(
    alloc: Global,
    made: &[(Var, AggCall)],
    input: Boxed<Phys>,
    partitions: u32,
) -> Result<Boxed<Phys>, NoMemory>
    ensures { IfOk result (λ q. q ≡ Q.AggFinal made.now (spec.served partitions N.One (Q.AggPart made.now input))) }
{
    let part = aggregate_part(alloc, made, input)?;
    let input = served(alloc, Need::One, part, partitions)?;
    let made = copy_aggregated(alloc, made)?;
    Boxed::new(alloc, Phys::AggFinal { made, input })
}
