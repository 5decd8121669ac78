//! Exchanges, where a plan's parts are not as they are needed.

ghost use Rattle.std.specs.Prelude.{◌≡◌, IfOk};
ghost use Rattle.al_phys.specs.Properties as property;
ghost use Rattle.al_choose.specs.Chosen as spec;

use al_phys::{Need, Phys, delivered, meets};
use al_value::{Boxed, NoMemory};
use std::alloc::Global;

/// Whether the parts of a plan meet a need.
pub fn is_met(alloc: Global, p: &Phys, need: &Need, partitions: u32) -> Result<bool, NoMemory>
    ensures { IfOk result (λ met. met ≡ property.meets (property.parts_of p.now partitions) need.now partitions) }
{
    let (parts, _) = delivered(alloc, p, partitions)?;
    Ok(meets(&parts, need, partitions))
}

/// The exchange for a need.
fn exchange(need: Need, input: Boxed<Phys>) -> Phys
    ensures { result ≡ spec.exchange need input }
{
    match need {
        Need::Any => input.into_inner(),
        Need::One => Phys::Gather { input },
        Need::Keyed(vars) => Phys::HashExchange { vars, input },
        Need::Exactly(vars) => Phys::HashExchange { vars, input },
        Need::All => Phys::Broadcast { input },
    }
}

/// A plan as the input of an operator that needs this of it.
pub fn served(
    alloc: Global,
    need: Need,
    p: Boxed<Phys>,
    partitions: u32,
) -> Result<Boxed<Phys>, NoMemory>
    ensures { IfOk result (λ q. q ≡ spec.served partitions need p) }
{
    if is_met(alloc, p.get(), &need, partitions)? {
        return Ok(p);
    }
    Boxed::new(alloc, exchange(need, p))
}
