ghost use Rattle.std.specs.Prelude.{◌≡◌, ℕ, List as Listed, MatchResult, Some};
ghost use Rattle.al_words.specs.Usage.{text_of};
ghost use Rattle.al_words.specs.Words.{IsPart, IsSchedule};

use crate::number::read_number;
use crate::words::WordsFault;
use al_value::List;
use std::alloc::Global;
use std::marker::Model;

/// The most numbers of a schedule.
const MAX_NUMBERS: usize = 100_000;

/// Which tasks are stepped first, stage by stage; contracts see it as a list of lists of numbers.
#[derive(Debug, Drop)]
pub struct Schedule {
    parts: List<List<u32>>,
}

impl Model for Schedule {
    ghost use Rattle.std.specs.Prelude.{List, ℕ};

    ghost Value = { List (List ℕ) };

    ghost view = { λ s. s.parts };
}

impl Schedule {
    /// The numbers of each stage, from the first one.
    pub fn parts(&self) -> &[List<u32>]
        ensures { result.now ≡ self.now }
    {
        self.parts.as_slice()
    }
}

/// The numbers of one part.
fn read_part(alloc: Global, text: &str) -> Result<List<u32>, WordsFault>
    ensures { MatchResult result (IsPart text.now) (λ e. e ≡ WordsFault.Usage → (ns : Listed ℕ) → IsPart text.now ns → ⊥) }
{
    let mut numbers = List::new(alloc);
    if text.is_empty() {
        return Ok(numbers);
    }
    for number in text.split(',') {
        let Some(number) = read_number(number, 0, u32::MAX) else {
            return Err(WordsFault::Usage);
        };
        let Ok(()) = numbers.push(number) else {
            return Err(WordsFault::NoMemory);
        };
    }
    Ok(numbers)
}

/// The schedule that an option gives, and the empty one where it isn't given.
pub(crate) fn read_schedule(alloc: Global, text: Option<&str>) -> Result<Schedule, WordsFault>
    ensures { MatchResult result (IsSchedule (text_of text.entry)) (λ e. e ≡ WordsFault.Usage → (s : Listed (Listed ℕ)) → IsSchedule (text_of text.entry) s → ⊥) }
{
    match text {
        Some(text) => read_parts(alloc, text),
        None => Ok(Schedule {
            parts: List::new(alloc),
        }),
    }
}

fn read_parts(alloc: Global, text: &str) -> Result<Schedule, WordsFault>
    ensures { MatchResult result (IsSchedule (Some text.now)) (λ e. e ≡ WordsFault.Usage → (s : Listed (Listed ℕ)) → IsSchedule (Some text.now) s → ⊥) }
{
    let mut parts = List::new(alloc);
    let mut left = MAX_NUMBERS;
    for part in text.split('/') {
        let numbers = match read_part(alloc, part) {
            Ok(numbers) => numbers,
            Err(fault) => return Err(fault),
        };
        if numbers.len() > left {
            return Err(WordsFault::Usage);
        }
        left -= numbers.len();
        let Ok(()) = parts.push(numbers) else {
            return Err(WordsFault::NoMemory);
        };
    }
    if left == MAX_NUMBERS {
        return Err(WordsFault::Usage);
    }
    Ok(Schedule { parts })
}
