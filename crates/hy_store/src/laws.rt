//! What fields are to values, and what a store's user goes by.
ghost use Rattle.hy_store.specs.Fields.{FieldsAreValues, RowsAreValues, OneRow};
ghost use Rattle.hy_store.specs.Cases.{NumbersStay, MadeLast, NotMadeWithFrames, NotMadeAgain, GrownAtItsEnd, NotGrownInFront, OthersDontGrow, OthersKeepTheirs, CountsAreKnown, TellsOn, OneIsRemoved, NotAllRemoved, NoneIsRemoved, PlaceIsFound, NotThePlaceBefore, NotAnotherRun, OneShape, TakenWithItsRuns, RunsAreNotDropped, FramesAreNotDropped, MadeAddsUp, CountsStop, RowAsFields, NullIsNoText};
ghost use Rattle.hy_store.specs.Laws.{CreatedIsLive, GrownIsLive, RemovedIsNot, CreatedHasShape, GrownHasShape, OthersHaveShape, LastIsFound};

/// What a frame takes for a field is the field of a value, its rows are rows of values, and each is of one such row. It
/// does nothing: its clauses speak of all bytes and values.
pub fn field_laws()
    ensures fields { FieldsAreValues }
    ensures rows { RowsAreValues }
    ensures one { OneRow }
{}

/// Which runs are live after a call, and which frames they have room for. It does nothing: its clauses speak of all that
/// a store's calls may make of its runs.
pub fn store_laws()
    ensures created { CreatedIsLive }
    ensures grown { GrownIsLive }
    ensures removed { RemovedIsNot }
    ensures created_shape { CreatedHasShape }
    ensures grown_shape { GrownHasShape }
    ensures others_shape { OthersHaveShape }
    ensures last { LastIsFound }
{}

/// What calls make of runs and what not, and rows as fields. It does nothing: its clauses are worked cases.
pub fn store_cases()
    ensures numbers_stay { NumbersStay }
    ensures made_last { MadeLast }
    ensures not_made_with_frames { NotMadeWithFrames }
    ensures not_made_again { NotMadeAgain }
    ensures grown_at_its_end { GrownAtItsEnd }
    ensures not_grown_in_front { NotGrownInFront }
    ensures others_dont_grow { OthersDontGrow }
    ensures others_keep_theirs { OthersKeepTheirs }
    ensures counts_are_known { CountsAreKnown }
    ensures tells_on { TellsOn }
    ensures one_is_removed { OneIsRemoved }
    ensures not_all_removed { NotAllRemoved }
    ensures none_is_removed { NoneIsRemoved }
    ensures place_is_found { PlaceIsFound }
    ensures not_the_place_before { NotThePlaceBefore }
    ensures not_another_run { NotAnotherRun }
    ensures one_shape { OneShape }
    ensures taken_with_its_runs { TakenWithItsRuns }
    ensures runs_are_not_dropped { RunsAreNotDropped }
    ensures frames_are_not_dropped { FramesAreNotDropped }
    ensures made_adds_up { MadeAddsUp }
    ensures counts_stop { CountsStop }
    ensures row_as_fields { RowAsFields }
    ensures null_is_no_text { NullIsNoText }
{}
