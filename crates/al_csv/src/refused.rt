ghost use Rattle.std.specs.Prelude.{◌≡◌};

use al_value::NoMemory;

/// What is wrong with a data file. `load` sees bytes alone, so it never answers the first two.
#[derive(Clone, Copy, Debug, PartialEq, Eq)]
pub enum DataKind {
    Absent,
    TooLarge,
    BadCount,
    BadInt,
    BadBool,
    BadUtf8,
    TooLong,
}

/// The first bad record of a file. Records are counted from 1 after the header, and columns
/// from 1; column 0 stands for the whole record.
#[derive(Clone, Copy, Debug, PartialEq, Eq)]
pub struct BadRecord {
    pub kind: DataKind,
    pub number: u64,
    pub column: u32,
}

/// Why a file gives no rows.
#[derive(Clone, Copy, Debug, PartialEq, Eq)]
pub enum LoadRefused {
    Bad(BadRecord),
    NoMemory,
}

impl From<NoMemory> for LoadRefused {
    ghost use Rattle.al_csv.specs.declared.refused.LoadRefused.TheVariants as refused;

    ghost from_gives = { λ _ e. e ≡ refused.NoMemory };

    fn from(_e: NoMemory) -> LoadRefused {
        LoadRefused::NoMemory
    }
}
