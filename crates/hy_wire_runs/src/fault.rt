ghost use Rattle.std.specs.Prelude.{◌≡◌};

use al_value::NoMemory;
use hy_frame::NoMemory as NoFrameMemory;
use std::alloc::{AllocError, AllocFailed};

/// Why a run over a wire did not come to its end.
#[derive(Clone, Copy, Debug, PartialEq, Eq)]
pub enum WireFault {
    NoMemory,
    /// Something that no run here should meet: a row of another width, a frame that is full, a mailbox that is full, or
    /// parcels that are not there.
    Unexpected,
}

impl From<NoMemory> for WireFault {
    ghost use Rattle.hy_wire_runs.specs.declared.fault.WireFault.TheVariants as fault;

    ghost from_gives = { λ _ e. e ≡ fault.NoMemory };

    fn from(_e: NoMemory) -> WireFault {
        WireFault::NoMemory
    }
}

impl From<NoFrameMemory> for WireFault {
    ghost use Rattle.hy_wire_runs.specs.declared.fault.WireFault.TheVariants as fault;

    ghost from_gives = { λ _ e. e ≡ fault.NoMemory };

    fn from(_e: NoFrameMemory) -> WireFault {
        WireFault::NoMemory
    }
}

impl<T: Drop> From<AllocFailed<T>> for WireFault {
    ghost use Rattle.hy_wire_runs.specs.declared.fault.WireFault.TheVariants as fault;

    ghost from_gives = { λ _ e. e ≡ fault.NoMemory };

    fn from(_e: AllocFailed<T>) -> WireFault {
        WireFault::NoMemory
    }
}

impl From<AllocError> for WireFault {
    ghost use Rattle.hy_wire_runs.specs.declared.fault.WireFault.TheVariants as fault;

    ghost from_gives = { λ _ e. e ≡ fault.NoMemory };

    fn from(_e: AllocError) -> WireFault {
        WireFault::NoMemory
    }
}
