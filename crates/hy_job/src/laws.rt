ghost use Rattle.std.specs.Prelude.{List};
ghost use Rattle.hy_job.specs.Boxes.{BoxesAreReached, BoxesHaveOrigins, OriginsAreOneToOne, ReceiversHaveBoxes, TasksAreNumbered};
ghost use Rattle.hy_job.specs.Cases.{BlockIsNeeded, BuildComesFirst, GroupingIsSound, JoiningHasFourStages, JoiningIsSound, NullHasNoPartner, ReadingIsSound, SortingHasTwoStages, SortingIsSound, StatesAreJoined, StatesHaveFields};
ghost use Rattle.hy_job.specs.Drivers.{DriversMove, NewDriversGive};
ghost use Rattle.hy_job.specs.Exchange.{WiresExchange};
ghost use Rattle.hy_job.specs.RunCases.{CheckPasses, EmitsWhatIsLeft, FailedSoFar, FirstGathers, HashHasTwoBoxes, InputsApart, LastRowOnce, LimitGoesOn, LimitSkips, LiveSoFar, MergeHasTwoBoxes, NoneOfNone, PartIsFront, RaisedInStage, RowEndsPart, RowsComeFitting, ScanIsDealt, StretchesHaveRows, ThirdTask, UnionHasBoth, ValuesCome, WordsEnd, WordsMay};
ghost use Rattle.hy_job.specs.RunLaws.{ProbesMove, RunsFit, RunsHaveValues};
ghost use Rattle.hy_job.specs.Runs.{FreeOutputs};
ghost use Rattle.hy_job.specs.Settled.{FailsAtLast, PassesAtLast, SettledIsSent, StopsByFaults};
ghost use Rattle.hy_job.specs.SettledCases.{CheckFails, FailCompletesNone, FailStops, HashSettles, ListingSettles, NobodySends, NoneStopsAlone, SortIsHanded, SortSettles};

/// The rows of an activity without an order of its own may come in any order, those of a probe
/// whatever the order of what it was handed; and the rows that a task of a sound job makes have as
/// many values as its activity says, and are values where those that it takes are. It does nothing:
/// its clauses speak of every activity.
pub fn output_laws()
    ensures free { FreeOutputs }
    ensures probes { ProbesMove }
    ensures fit { RunsFit }
    ensures values { RunsHaveValues }
{}

/// A new driver gives what its activity makes, and where rows have no order of their own, a
/// driver's may come in any. It does nothing: its clauses speak of every activity.
pub fn driver_laws()
    ensures new { NewDriversGive }
    ensures moved { DriversMove }
{}

/// What is known of a task as far as it has come is what its record needs at the end; where a task
/// stopped, another one faulted; and what whole runs made comes over their wires. It does nothing:
/// its clauses speak of all records.
pub fn record_laws()
    ensures fails { FailsAtLast }
    ensures passes { PassesAtLast }
    ensures stops { StopsByFaults }
    ensures sent { SettledIsSent }
{}

/// What is sent over a wire and taken at its other end is what the wire makes of the rows that go
/// into it. It does nothing: its clause speaks of every wire.
pub fn wire_laws()
    ensures { WiresExchange }
{}

/// The tasks and the mailboxes of a stage are found again by their numbers, and what is taken of a
/// mailbox comes from one input and one partition. It does nothing: its clauses speak of every
/// stage of every sound job.
pub fn mailbox_laws()
    ensures tasks { TasksAreNumbered }
    ensures origins { BoxesHaveOrigins }
    ensures one_to_one { OriginsAreOneToOne }
    ensures receivers { ReceiversHaveBoxes }
    ensures reached { BoxesAreReached }
{}

/// Small jobs that are sound and that are not, the stages of some, what some activities make, and
/// what records of tasks tell. It does nothing: its clauses are worked cases.
pub fn job_cases()
    ensures sound { SortingIsSound }
    ensures two_stages { SortingHasTwoStages }
    ensures reading_sound { ReadingIsSound }
    ensures joining_sound { JoiningIsSound }
    ensures four_stages { JoiningHasFourStages }
    ensures block_needed { BlockIsNeeded }
    ensures build_first { BuildComesFirst }
    ensures grouping_sound { GroupingIsSound }
    ensures state_fields { StatesHaveFields }
    ensures states_joined { StatesAreJoined }
    ensures null_alone { NullHasNoPartner }
    ensures settled { ListingSettles }
    ensures check_fails { CheckFails }
{}

/// What small activities make, what tasks may put as they go on, and how mailboxes are numbered.
/// It does nothing: its clauses are worked cases.
pub fn run_cases()
    ensures limit_skips { LimitSkips }
    ensures union_has_both { UnionHasBoth }
    ensures scan_is_dealt { ScanIsDealt }
    ensures stretches_have_rows { StretchesHaveRows }
    ensures none_of_none { NoneOfNone }
    ensures words_end { WordsEnd }
    ensures words_may { WordsMay }
    ensures first_gathers { FirstGathers }
    ensures raised_in_stage { RaisedInStage }
    ensures check_passes { CheckPasses }
    ensures part_is_front { PartIsFront }
    ensures row_ends_part { RowEndsPart }
    ensures rows_come_fitting { RowsComeFitting }
    ensures values_come { ValuesCome }
    ensures received { InputsApart }
    ensures limit_goes_on { LimitGoesOn }
    ensures emits_what_is_left { EmitsWhatIsLeft }
    ensures last_row { LastRowOnce }
    ensures failed_so_far { FailedSoFar }
    ensures live_so_far { LiveSoFar }
    ensures hash_boxes { HashHasTwoBoxes }
    ensures merge_boxes { MergeHasTwoBoxes }
    ensures third_task { ThirdTask }
{}

/// Which records of tasks fit together. It does nothing: its clauses are worked cases.
pub fn record_cases()
    ensures nobody_sends { NobodySends }
    ensures none_stops_alone { NoneStopsAlone }
    ensures fail_stops { FailStops }
    ensures fail_completes_none { FailCompletesNone }
    ensures hash_settles { HashSettles }
    ensures sort_settles { SortSettles }
    ensures sort_is_handed { SortIsHanded }
{}
