ghost use Rattle.std.specs.Prelude.{◌≡◌, ℕ, MatchOption};
ghost use Rattle.al_words.specs.Usage.{text_of};
ghost use Rattle.al_words.specs.Words.{IsNumber, IsSetting};

/// The most digits of a number.
const MAX_DIGITS: usize = 10;

/// The number that one to ten decimal digits write, where it is in the range.
pub(crate) fn read_number(text: &str, least: u32, most: u32) -> Option<u32>
    ensures { MatchOption result ((n : ℕ) → IsNumber least most text.now n → ⊥) (IsNumber least most text.now) }
{
    if text.len() > MAX_DIGITS || text.starts_with('+') {
        return None;
    }
    let number: u32 = text.parse().ok()?;
    if least <= number && number <= most {
        Some(number)
    } else {
        None
    }
}

/// The number of an option, or its default where the option isn't given.
pub(crate) fn read_setting(text: Option<&str>, least: u32, most: u32, default: u32) -> Option<u32>
    ensures { MatchOption result ((n : ℕ) → IsSetting least most default (text_of text.entry) n → ⊥) (IsSetting least most default (text_of text.entry)) }
{
    match text {
        Some(text) => read_number(text, least, most),
        None => Some(default),
    }
}
