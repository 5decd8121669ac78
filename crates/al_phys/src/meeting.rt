//! Which property meets which need.

ghost use Rattle.std.specs.Prelude.{◌≡◌};
ghost use Rattle.al_phys.specs.Properties as spec;

use crate::copies::are_in;
use crate::property::{Need, Partitioning};

/// Whether parts with the delivered property serve the need. With one partition every need is met.
pub fn meets(d: &Partitioning, r: &Need, partitions: u32) -> bool
    ensures { result ≡ spec.meets d.now r.now partitions }
{
    partitions == 1 || fits(d, r)
}

fn fits(d: &Partitioning, r: &Need) -> bool
    ensures { result ≡ spec.fits d.now r.now }
{
    match r {
        Need::Any => !is_broadcast(d),
        Need::One => is_unpartitioned(d),
        Need::Keyed(vars) => match d {
            Partitioning::Unpartitioned => true,
            Partitioning::Hash(by) => are_in(vars.as_slice(), by.as_slice()),
            Partitioning::Broadcast => false,
            Partitioning::Random => false,
        },
        Need::Exactly(vars) => match d {
            Partitioning::Hash(by) => by.as_slice() == vars.as_slice(),
            Partitioning::Unpartitioned => false,
            Partitioning::Broadcast => false,
            Partitioning::Random => false,
        },
        Need::All => is_broadcast(d),
    }
}

fn is_broadcast(d: &Partitioning) -> bool
    ensures { result ≡ spec.is_broadcast d.now }
{
    match d {
        Partitioning::Broadcast => true,
        Partitioning::Unpartitioned => false,
        Partitioning::Hash(_) => false,
        Partitioning::Random => false,
    }
}

fn is_unpartitioned(d: &Partitioning) -> bool
    ensures { result ≡ spec.is_unpartitioned d.now }
{
    match d {
        Partitioning::Unpartitioned => true,
        Partitioning::Broadcast => false,
        Partitioning::Hash(_) => false,
        Partitioning::Random => false,
    }
}
