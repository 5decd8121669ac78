//! The rule that the word keeps between any two steps, and the kinds of step on it.

use atomic_table::{Join, Play, Split, TableRule};

/// What a token of the word's table knows: for how many seats it stands, how many of these raised, the word as its
/// last step left it, and how many steps it made. Proofs alone have such values.
pub struct SeatView {
    pub seats: u32,
    pub raises: u32,
    pub found: u64,
    pub steps: u64,
}

/// The word is the sum of the raises.
pub struct SumOfRaises;

impl TableRule<u8, SeatView, u32> for SumOfRaises {
    ghost use Rattle.hy_abort.specs.Rule.{IsSum, stands_for};

    ghost holds = { IsSum };

    ghost first = { stands_for };
}

pub struct Look;

impl Play<u8, SeatView> for Look {
    ghost use Rattle.hy_abort.specs.Rule.{Looked};

    ghost then = { λ _ old n new. Looked old n new };
}

pub struct Raise;

impl Play<u8, SeatView> for Raise {
    ghost use Rattle.hy_abort.specs.Rule.{Raised};

    ghost then = { λ _ old n new. Raised old n new };
}

/// One seat is dealt out.
pub struct Deal;

impl Split<SeatView> for Deal {
    ghost use Rattle.hy_abort.specs.Rule.{less_one, stands_for};

    ghost left = { less_one };

    ghost right = { λ _. stands_for 1 };
}

/// A token is taken in, and stands for no seat any more.
pub struct TakeIn;

impl Join<SeatView> for TakeIn {
    ghost use Rattle.hy_abort.specs.Rule.{joined, stands_for};

    ghost both = { joined };

    ghost spent = { stands_for 0 };
}
