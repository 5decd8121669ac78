//! Laws of frames' bytes.
ghost use Rattle.std.specs.Prelude.{◌≡◌, ℕ, List};
ghost use Rattle.hy_frame.specs.Row.{Fields};
ghost use Rattle.hy_frame.specs.FrameText.{FrameText};
ghost use Rattle.hy_frame.specs.Cases.{TwoRows, GapIsZeros, EndsGoDown, AloneInTwoUnits, NotInThreeUnits, NoTwoInTwoUnits};

/// Rows have at most one frame per unit, and a frame has one list of rows.
pub fn frame_laws()
    ensures one { (rows : List Fields) (arity unit : ℕ) (a b : List ℕ) → FrameText rows arity unit a → FrameText rows arity unit b → a ≡ b }
    ensures rows { (a b : List Fields) (arity unit : ℕ) (bytes : List ℕ) → FrameText a arity unit bytes → FrameText b arity unit bytes → a ≡ b }
{}

/// Worked cases of which bytes are a frame.
pub fn frame_cases()
    ensures two_rows { TwoRows }
    ensures gap_is_zeros { GapIsZeros }
    ensures ends_go_down { EndsGoDown }
    ensures alone_in_two_units { AloneInTwoUnits }
    ensures not_in_three_units { NotInThreeUnits }
    ensures no_two_in_two_units { NoTwoInTwoUnits }
{}
