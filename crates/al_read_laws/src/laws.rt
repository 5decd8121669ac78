//! Laws of all texts, and worked cases.

ghost use Rattle.std.specs.Prelude.{ℕ, List as Listed};
ghost use Rattle.al_read_laws.specs.EveryText.{HasReadingOrRefusal, HasTokensOrBad};
ghost use Rattle.al_read_laws.specs.TextCases.{AreTwoTokens, IsBadBehindOne, BadTextHasTokens, NothingIsRefused, NothingIsRead};

/// Every text has tokens or a first bad piece, and it states a file or is refused. That it never
/// does both, and only one of each, `one_reading` and `one_plan_reading` of `al_read` say. It does
/// nothing: its clauses speak of all texts.
pub fn every_text()
    ensures tokens { (bytes : Listed ℕ) → HasTokensOrBad bytes }
    ensures answer { (bytes : Listed ℕ) → HasReadingOrRefusal bytes }
{}

/// Which of the two small texts have. It does nothing: its clauses are worked cases.
pub fn text_cases()
    ensures two_tokens { AreTwoTokens }
    ensures bad_piece { IsBadBehindOne }
    ensures no_tokens { BadTextHasTokens → ⊥ }
    ensures refused { NothingIsRefused }
    ensures unread { NothingIsRead → ⊥ }
{}
