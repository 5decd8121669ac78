ghost use Rattle.std.specs.Prelude.{◌≡◌, MatchOption, MatchResult, List, ℕ, [], ◌∷◌, codes, map, string_bytes};
ghost use Rattle.al_words.specs.Words.{Asks, Bytes, IsCommand};
ghost use Rattle.al_words.specs.Usage.{options_given, texts};
ghost use Rattle.al_words.specs.declared.command.Command.{Command as Asked};

use crate::number::read_number;
use crate::options::Given;
use crate::schedule::{Schedule, read_schedule};
use crate::verb::Verb;
use crate::words::{WordsFault, match_words, positional};
use al_value::{Name, NoMemory, Settings};
use std::alloc::Global;

/// The most rows that are generated.
const MAX_ROWS: u32 = 1_000_000;

/// A command of the program.
#[derive(Debug, Drop)]
pub enum Command {
    /// Prints the plan, once it is accepted.
    Check {
        plan: Name,
    },
    /// Prints how the plan is rewritten and run.
    Explain {
        plan: Name,
        partitions: u32,
    },
    /// Answers by the plain evaluator.
    Plain {
        plan: Name,
    },
    /// Answers with tasks that one thread steps, first by the schedule.
    Step {
        plan: Name,
        settings: Settings,
        schedule: Schedule,
    },
    /// Answers with tasks that threads run.
    Run {
        plan: Name,
        settings: Settings,
        workers: u32,
    },
    /// Prints generated data.
    Gen {
        seed: u32,
        rows: u32,
    },
    /// Runs the plan over generated data, and prints a summary.
    Drill {
        seed: u32,
        rows: u32,
        plan: Name,
        settings: Settings,
    },
    /// Prints the frames of a dataset.
    Frames {
        plan: Name,
        dataset: Name,
        frame_size: u32,
    },
}

/// The command that the words ask for, and `Usage` exactly where they ask for none.
pub fn read_words(alloc: Global, words: &[String]) -> Result<Command, WordsFault>
    ensures { MatchResult result (IsCommand (map string_bytes words.now))
        (λ e. e ≡ WordsFault.Usage → (c : Asked) → IsCommand (map string_bytes words.now) c → ⊥) }
{
    let matches = match match_words(alloc, words) {
        Ok(matches) => matches,
        Err(fault) => return Err(fault),
    };
    let words = positional(alloc, &matches)?;
    command_of(alloc, words.as_slice(), Given::from_matches(&matches))
}

/// Words ask for one command at most.
pub fn one_command()
    ensures { (words : List Bytes) (c d : Asked) → IsCommand words c → IsCommand words d → c ≡ d }
{}

/// The command that the positional words and the options ask for.
fn command_of(alloc: Global, words: &[&str], given: Given) -> Result<Command, WordsFault>
    ensures { MatchResult result (Asks (texts words.now) (options_given given.entry))
        (λ e. e ≡ WordsFault.Usage → (c : Asked) → Asks (texts words.now) (options_given given.entry) c → ⊥) }
{
    let Some((word, arguments)) = words.split_first() else {
        return Err(WordsFault::Usage);
    };
    match Verb::from_word(word) {
        Some(Verb::Check) => check(alloc, arguments, given),
        Some(Verb::Explain) => explain(alloc, arguments, given),
        Some(Verb::Plain) => plain(alloc, arguments, given),
        Some(Verb::Step) => step(alloc, arguments, given),
        Some(Verb::Run) => run(alloc, arguments, given),
        Some(Verb::Gen) => generate(arguments, given),
        Some(Verb::Drill) => drill(alloc, arguments, given),
        Some(Verb::Frames) => frames(alloc, arguments, given),
        None => Err(WordsFault::Usage),
    }
}

/// The one argument.
fn one<'a>(arguments: &[&'a str]) -> Option<&'a str>
    ensures { MatchOption result ((x : Bytes) → texts arguments.now ≡ x ∷ [] → ⊥) (λ x. texts arguments.now ≡ x.now ∷ []) }
{
    match *arguments {
        [only] => Some(only),
        _ => None,
    }
}

/// The two arguments.
fn two<'a>(arguments: &[&'a str]) -> Option<(&'a str, &'a str)>
    ensures { MatchOption result ((x y : Bytes) → texts arguments.now ≡ x ∷ y ∷ [] → ⊥) (λ p. texts arguments.now ≡ p.0.now ∷ p.1.now ∷ []) }
{
    match *arguments {
        [first, second] => Some((first, second)),
        _ => None,
    }
}

/// The three arguments.
fn three<'a>(arguments: &[&'a str]) -> Option<(&'a str, &'a str, &'a str)>
    ensures { MatchOption result ((x y z : Bytes) → texts arguments.now ≡ x ∷ y ∷ z ∷ [] → ⊥) (λ p. texts arguments.now ≡ p.0.now ∷ p.1.now ∷ p.2.now ∷ []) }
{
    match *arguments {
        [first, second, third] => Some((first, second, third)),
        _ => None,
    }
}

fn name(alloc: Global, text: &str) -> Result<Name, WordsFault>
    ensures { MatchResult result (λ n. n ≡ text.now) (λ e. e ≡ WordsFault.NoMemory) }
{
    match Name::new(alloc, text) {
        Ok(name) => Ok(name),
        Err(NoMemory) => Err(WordsFault::NoMemory),
    }
}

fn check(alloc: Global, arguments: &[&str], given: Given) -> Result<Command, WordsFault>
    ensures { MatchResult result (Asks (codes "check" ∷ texts arguments.now) (options_given given.entry))
        (λ e. e ≡ WordsFault.Usage → (c : Asked) → Asks (codes "check" ∷ texts arguments.now) (options_given given.entry) c → ⊥) }
{
    let plan = one(arguments).ok_or(WordsFault::Usage)?;
    if !given.is_empty() {
        return Err(WordsFault::Usage);
    }
    let plan = name(alloc, plan)?;
    Ok(Command::Check { plan })
}

fn explain(alloc: Global, arguments: &[&str], given: Given) -> Result<Command, WordsFault>
    ensures { MatchResult result (Asks (codes "explain" ∷ texts arguments.now) (options_given given.entry))
        (λ e. e ≡ WordsFault.Usage → (c : Asked) → Asks (codes "explain" ∷ texts arguments.now) (options_given given.entry) c → ⊥) }
{
    let plan = one(arguments).ok_or(WordsFault::Usage)?;
    if !given.has_partitions_alone() {
        return Err(WordsFault::Usage);
    }
    let partitions = given.partitions().ok_or(WordsFault::Usage)?;
    let plan = name(alloc, plan)?;
    Ok(Command::Explain { plan, partitions })
}

fn plain(alloc: Global, arguments: &[&str], given: Given) -> Result<Command, WordsFault>
    ensures { MatchResult result (Asks (codes "plain" ∷ texts arguments.now) (options_given given.entry))
        (λ e. e ≡ WordsFault.Usage → (c : Asked) → Asks (codes "plain" ∷ texts arguments.now) (options_given given.entry) c → ⊥) }
{
    let plan = one(arguments).ok_or(WordsFault::Usage)?;
    if !given.is_empty() {
        return Err(WordsFault::Usage);
    }
    let plan = name(alloc, plan)?;
    Ok(Command::Plain { plan })
}

fn step(alloc: Global, arguments: &[&str], given: Given) -> Result<Command, WordsFault>
    ensures { MatchResult result (Asks (codes "step" ∷ texts arguments.now) (options_given given.entry))
        (λ e. e ≡ WordsFault.Usage → (c : Asked) → Asks (codes "step" ∷ texts arguments.now) (options_given given.entry) c → ⊥) }
{
    let plan = one(arguments).ok_or(WordsFault::Usage)?;
    if given.workers.is_some() {
        return Err(WordsFault::Usage);
    }
    let settings = given.settings().ok_or(WordsFault::Usage)?;
    let schedule = read_schedule(alloc, given.schedule)?;
    let plan = name(alloc, plan)?;
    Ok(Command::Step {
        plan,
        settings,
        schedule,
    })
}

fn run(alloc: Global, arguments: &[&str], given: Given) -> Result<Command, WordsFault>
    ensures { MatchResult result (Asks (codes "run" ∷ texts arguments.now) (options_given given.entry))
        (λ e. e ≡ WordsFault.Usage → (c : Asked) → Asks (codes "run" ∷ texts arguments.now) (options_given given.entry) c → ⊥) }
{
    let plan = one(arguments).ok_or(WordsFault::Usage)?;
    if given.schedule.is_some() {
        return Err(WordsFault::Usage);
    }
    let settings = given.settings().ok_or(WordsFault::Usage)?;
    let workers = given.workers().ok_or(WordsFault::Usage)?;
    let plan = name(alloc, plan)?;
    Ok(Command::Run {
        plan,
        settings,
        workers,
    })
}

fn generate(arguments: &[&str], given: Given) -> Result<Command, WordsFault>
    ensures { MatchResult result (Asks (codes "gen" ∷ texts arguments.now) (options_given given.entry))
        (λ e. e ≡ WordsFault.Usage → (c : Asked) → Asks (codes "gen" ∷ texts arguments.now) (options_given given.entry) c → ⊥) }
{
    let (seed, rows) = two(arguments).ok_or(WordsFault::Usage)?;
    if !given.is_empty() {
        return Err(WordsFault::Usage);
    }
    let seed = read_number(seed, 0, u32::MAX).ok_or(WordsFault::Usage)?;
    let rows = read_number(rows, 0, MAX_ROWS).ok_or(WordsFault::Usage)?;
    Ok(Command::Gen { seed, rows })
}

fn drill(alloc: Global, arguments: &[&str], given: Given) -> Result<Command, WordsFault>
    ensures { MatchResult result (Asks (codes "drill" ∷ texts arguments.now) (options_given given.entry))
        (λ e. e ≡ WordsFault.Usage → (c : Asked) → Asks (codes "drill" ∷ texts arguments.now) (options_given given.entry) c → ⊥) }
{
    let (seed, rows, plan) = three(arguments).ok_or(WordsFault::Usage)?;
    if given.workers.is_some() || given.schedule.is_some() {
        return Err(WordsFault::Usage);
    }
    let seed = read_number(seed, 0, u32::MAX).ok_or(WordsFault::Usage)?;
    let rows = read_number(rows, 0, MAX_ROWS).ok_or(WordsFault::Usage)?;
    let settings = given.settings().ok_or(WordsFault::Usage)?;
    let plan = name(alloc, plan)?;
    Ok(Command::Drill {
        seed,
        rows,
        plan,
        settings,
    })
}

fn frames(alloc: Global, arguments: &[&str], given: Given) -> Result<Command, WordsFault>
    ensures { MatchResult result (Asks (codes "frames" ∷ texts arguments.now) (options_given given.entry))
        (λ e. e ≡ WordsFault.Usage → (c : Asked) → Asks (codes "frames" ∷ texts arguments.now) (options_given given.entry) c → ⊥) }
{
    let (plan, dataset) = two(arguments).ok_or(WordsFault::Usage)?;
    if !given.has_frame_size_alone() {
        return Err(WordsFault::Usage);
    }
    let frame_size = given.frame_size().ok_or(WordsFault::Usage)?;
    let plan = name(alloc, plan)?;
    let dataset = name(alloc, dataset)?;
    Ok(Command::Frames {
        plan,
        dataset,
        frame_size,
    })
}
