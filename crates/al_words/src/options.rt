ghost use Rattle.std.specs.Prelude.{◌≡◌, ◌↔◌, ℕ, IsTrue, MatchOption, None};
ghost use Rattle.clap.specs.Words.{found_of, rows_of};
ghost use Rattle.al_value.specs.declared.settings.Settings.{Settings as Set};
ghost use Rattle.al_words.specs.Words.{AreSettings, ArePartitions, AreWorkers, IsFrameSize, no_options};
ghost use Rattle.al_words.specs.Usage.{options_given, options_in};

use crate::number::read_setting;
use crate::words::text_at;
use al_value::Settings;
use clap::ArgMatches;

/// The text of each option that is given.
#[derive(Clone, Copy, Debug)]
pub(crate) struct Given<'a> {
    pub(crate) partitions: Option<&'a str>,
    pub(crate) frame_size: Option<&'a str>,
    pub(crate) memory: Option<&'a str>,
    pub(crate) workers: Option<&'a str>,
    pub(crate) schedule: Option<&'a str>,
}

impl<'a> Given<'a> {
    pub(crate) fn from_matches(matches: &ArgMatches<'a>) -> Given<'a>
        ensures { options_given result ≡ options_in (rows_of (found_of matches.now)) }
    {
        Given {
            partitions: text_at(matches, "partitions"),
            frame_size: text_at(matches, "frame-size"),
            memory: text_at(matches, "memory"),
            workers: text_at(matches, "workers"),
            schedule: text_at(matches, "schedule"),
        }
    }

    /// No option is given.
    pub(crate) fn is_empty(self) -> bool
        ensures { IsTrue result ↔ (options_given self.entry ≡ no_options) }
    {
        self.partitions.is_none() && self.frame_size.is_none() && self.has_no_others()
    }

    /// No option is given but `--partitions`.
    pub(crate) fn has_partitions_alone(self) -> bool
        ensures { IsTrue result ↔ (options_given self.entry ≡ record no_options { partitions = (options_given self.entry).partitions }) }
    {
        self.frame_size.is_none() && self.has_no_others()
    }

    /// No option is given but `--frame-size`.
    pub(crate) fn has_frame_size_alone(self) -> bool
        ensures { IsTrue result ↔ (options_given self.entry ≡ record no_options { frame_size = (options_given self.entry).frame_size }) }
    {
        self.partitions.is_none() && self.has_no_others()
    }

    fn has_no_others(self) -> bool
        ensures { IsTrue result ↔ ((self.entry.memory ≡ None) × (self.entry.workers ≡ None) × (self.entry.schedule ≡ None)) }
    {
        self.memory.is_none() && self.workers.is_none() && self.schedule.is_none()
    }

    pub(crate) fn partitions(self) -> Option<u32>
        ensures { MatchOption result ((n : ℕ) → ArePartitions (options_given self.entry).partitions n → ⊥) (ArePartitions (options_given self.entry).partitions) }
    {
        read_setting(self.partitions, 1, 16, 1)
    }

    pub(crate) fn frame_size(self) -> Option<u32>
        ensures { MatchOption result ((n : ℕ) → IsFrameSize (options_given self.entry).frame_size n → ⊥) (IsFrameSize (options_given self.entry).frame_size) }
    {
        read_setting(self.frame_size, 256, 65_536, 32_768)
    }

    pub(crate) fn workers(self) -> Option<u32>
        ensures { MatchOption result ((n : ℕ) → AreWorkers (options_given self.entry).workers n → ⊥) (AreWorkers (options_given self.entry).workers) }
    {
        read_setting(self.workers, 1, 16, 2)
    }

    pub(crate) fn settings(self) -> Option<Settings>
        ensures { MatchOption result ((s : Set) → AreSettings (options_given self.entry) s → ⊥) (AreSettings (options_given self.entry)) }
    {
        let partitions = self.partitions()?;
        let frame_size = self.frame_size()?;
        let memory = read_setting(self.memory, 3, 1024, 32)?;
        Some(Settings {
            partitions,
            frame_size,
            memory,
        })
    }
}
