ghost use Rattle.std.specs.Prelude.{◌≡◌};

use al_value::{Failed, NoMemory, Text};
use hy_frame::NoMemory as NoFrameMemory;
use std::alloc::{AllocError, AllocFailed};

/// Why a store does not serve a call: the outside failed, or no memory was left.
#[derive(Clone, Copy, Debug, PartialEq, Eq)]
pub enum StoreFault {
    Failed,
    NoMemory,
}

impl From<Failed> for StoreFault {
    ghost use Rattle.hy_store.specs.declared.fault.StoreFault.TheVariants as fault;

    ghost from_gives = { λ _ e. e ≡ fault.Failed };

    fn from(_e: Failed) -> StoreFault {
        StoreFault::Failed
    }
}

impl From<NoMemory> for StoreFault {
    ghost use Rattle.hy_store.specs.declared.fault.StoreFault.TheVariants as fault;

    ghost from_gives = { λ _ e. e ≡ fault.NoMemory };

    fn from(_e: NoMemory) -> StoreFault {
        StoreFault::NoMemory
    }
}

impl From<NoFrameMemory> for StoreFault {
    ghost use Rattle.hy_store.specs.declared.fault.StoreFault.TheVariants as fault;

    ghost from_gives = { λ _ e. e ≡ fault.NoMemory };

    fn from(_e: NoFrameMemory) -> StoreFault {
        StoreFault::NoMemory
    }
}

impl<T: Drop> From<AllocFailed<T>> for StoreFault {
    ghost use Rattle.hy_store.specs.declared.fault.StoreFault.TheVariants as fault;

    ghost from_gives = { λ _ e. e ≡ fault.NoMemory };

    fn from(_e: AllocFailed<T>) -> StoreFault {
        StoreFault::NoMemory
    }
}

impl From<AllocError> for StoreFault {
    ghost use Rattle.hy_store.specs.declared.fault.StoreFault.TheVariants as fault;

    ghost from_gives = { λ _ e. e ≡ fault.NoMemory };

    fn from(_e: AllocError) -> StoreFault {
        StoreFault::NoMemory
    }
}

/// What one turn of an operator did. The row is the one that was asked for.
#[derive(Clone, Copy, Debug, PartialEq, Eq)]
pub enum Next {
    Row,
    Work,
    NeedInput,
    End,
}

/// Why an operator ends before its end: a check met a row that isn't TRUE, its store did not serve a call, or no memory
/// was left.
#[derive(Debug, Drop)]
pub enum OpFault {
    Check(Text),
    Store,
    NoMemory,
}

impl From<StoreFault> for OpFault {
    ghost use Rattle.hy_store.specs.Faults.{op_fault};

    ghost from_gives = { λ e f. f ≡ op_fault e };

    fn from(e: StoreFault) -> OpFault {
        match e {
            StoreFault::Failed => OpFault::Store,
            StoreFault::NoMemory => OpFault::NoMemory,
        }
    }
}

impl From<NoMemory> for OpFault {
    ghost use Rattle.hy_store.specs.declared.fault.OpFault.TheVariants as fault;

    ghost from_gives = { λ _ e. e ≡ fault.NoMemory };

    fn from(_e: NoMemory) -> OpFault {
        OpFault::NoMemory
    }
}

impl From<NoFrameMemory> for OpFault {
    ghost use Rattle.hy_store.specs.declared.fault.OpFault.TheVariants as fault;

    ghost from_gives = { λ _ e. e ≡ fault.NoMemory };

    fn from(_e: NoFrameMemory) -> OpFault {
        OpFault::NoMemory
    }
}

impl<T: Drop> From<AllocFailed<T>> for OpFault {
    ghost use Rattle.hy_store.specs.declared.fault.OpFault.TheVariants as fault;

    ghost from_gives = { λ _ e. e ≡ fault.NoMemory };

    fn from(_e: AllocFailed<T>) -> OpFault {
        OpFault::NoMemory
    }
}

impl From<AllocError> for OpFault {
    ghost use Rattle.hy_store.specs.declared.fault.OpFault.TheVariants as fault;

    ghost from_gives = { λ _ e. e ≡ fault.NoMemory };

    fn from(_e: AllocError) -> OpFault {
        OpFault::NoMemory
    }
}
