ghost use Rattle.std.specs.Prelude.{◌≡◌, ◌++◌, IfErr, IfOk, OnOk, codes, map, string_bytes};
ghost use Rattle.clap.specs.Simple.{with_rule};
ghost use Rattle.clap.specs.Words.{app_of, first_of, found_of, rows_of};
ghost use Rattle.al_words.specs.Usage.{AreTaken, bare_app, listed, option_rule, rows_read, text_of, texts, usage_app, word_rule, words_in};

use clap::error::ErrorKind;
use clap::{Arg, ArgMatches, Command};
use std::alloc::{AllocError, Global};

/// Why no command comes of the words.
#[derive(Clone, Copy, Debug, PartialEq, Eq)]
pub enum WordsFault {
    /// The words ask for no command.
    Usage,
    NoMemory,
}

// The command line with one more option, which takes a value.
fn with_option<'a>(
    alloc: Global,
    usage: Command<'a>,
    name: &'a str,
) -> Result<Command<'a>, AllocError>
    ensures { IfOk result (λ c. app_of c ≡ with_rule (app_of usage.entry) (option_rule name.entry.now)) }
{
    let option = Arg::new(alloc, name).long(name);
    usage.arg(option)
}

// The command line with one more positional word.
fn with_word<'a>(
    alloc: Global,
    usage: Command<'a>,
    name: &'a str,
    is_required: bool,
) -> Result<Command<'a>, AllocError>
    ensures { IfOk result (λ c. app_of c ≡ with_rule (app_of usage.entry) (word_rule name.entry.now is_required)) }
{
    let word = Arg::new(alloc, name).required(is_required);
    usage.arg(word)
}

// A command line without arguments, and without flags of its own.
fn bare_usage<'a>(alloc: Global) -> Command<'a>
    ensures { app_of result ≡ bare_app }
{
    Command::new(alloc, "algebricks")
        .no_binary_name(true)
        .disable_help_flag(true)
        .disable_version_flag(true)
}

// The command line up to each argument, and then all of it.
fn usage<'a>(alloc: Global) -> Result<Command<'a>, AllocError>
    ensures { IfOk result (λ c. app_of c ≡ usage_app) }
{
    let bare = bare_usage(alloc);
    let command = with_word(alloc, bare, "command", true)?;
    let first = with_word(alloc, command, "first", false)?;
    let second = with_word(alloc, first, "second", false)?;
    let third = with_word(alloc, second, "third", false)?;
    let partitions = with_option(alloc, third, "partitions")?;
    let frame_size = with_option(alloc, partitions, "frame-size")?;
    let memory = with_option(alloc, frame_size, "memory")?;
    let workers = with_option(alloc, memory, "workers")?;
    with_option(alloc, workers, "schedule")
}

/// What each argument is given by the words.
pub(crate) fn match_words<'a>(
    alloc: Global,
    words: &'a [String],
) -> Result<ArgMatches<'a>, WordsFault>
    ensures taken { OnOk result (AreTaken (map string_bytes words.entry.now)) }
    ensures rows { IfOk result (λ m. rows_of (found_of m) ≡ rows_read (map string_bytes words.entry.now)) }
    ensures refused { IfErr result (λ e. e ≡ WordsFault.Usage → ¬ (AreTaken (map string_bytes words.entry.now))) }
{
    let Ok(usage) = usage(alloc) else {
        return Err(WordsFault::NoMemory);
    };
    match usage.try_get_matches_from(words) {
        Ok(matches) => Ok(matches),
        Err(error) => match error.kind() {
            ErrorKind::OutOfMemory => Err(WordsFault::NoMemory),
            _ => Err(WordsFault::Usage),
        },
    }
}

// The text that an argument is given.
pub(crate) fn text_at<'a>(matches: &ArgMatches<'a>, name: &str) -> Option<&'a str>
    ensures { text_of result ≡ first_of name.now (rows_of (found_of matches.now)) }
{
    matches.get_str(name)
}

fn push_word<'a>(words: &mut Vec<&'a str>, word: Option<&'a str>) -> Result<(), WordsFault>
    ensures ok { OnOk result (texts words.new.items ≡ texts words.old.items ++ listed (text_of word.entry)) }
    ensures memory { IfErr result (λ e. e ≡ WordsFault.NoMemory) }
{
    match word {
        Some(word) => match words.push(word) {
            Ok(()) => Ok(()),
            Err(_) => Err(WordsFault::NoMemory),
        },
        None => Ok(()),
    }
}

/// The positional words.
pub(crate) fn positional<'a>(
    alloc: Global,
    matches: &ArgMatches<'a>,
) -> Result<Vec<&'a str>, WordsFault>
    ensures ok { IfOk result (λ v. texts v.items ≡ words_in (rows_of (found_of matches.now))) }
    ensures memory { IfErr result (λ e. e ≡ WordsFault.NoMemory) }
{
    let mut words = Vec::new(alloc);
    push_word(&mut words, text_at(matches, "command"))?;
    push_word(&mut words, text_at(matches, "first"))?;
    push_word(&mut words, text_at(matches, "second"))?;
    push_word(&mut words, text_at(matches, "third"))?;
    Ok(words)
}
