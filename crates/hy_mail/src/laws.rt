//! What is true of words and of rows of values, and worked cases.
ghost use Rattle.hy_mail.specs.Cases.{CloseShowsNoRow, EmptyIsCounted, FailIsNoEnd, FailMayCome, FrameIsRowsBetween, FrameShowsItsValues, FrameShowsNoOtherOrder, FrameShowsNoOthers, FramesHaveTheArity, FramesMayCome, FrontIsTaken, FullIsCounted, FullTakesNoMore, KindsAreTheSame, LastIsNotTaken, NoFrameBehindFail, NoSignalIsMissing, NotRaisedAtFirst, NothingBehindClose, OneReceives, OpenComesFirst, OpenComesOnce, OpenIsABeginning, OpenIsNoEnd, OpenOnce, OthersDontSend, PutGoesIn, PutIsItsSenders, PutIsNotDropped, RaiseIsNotUnseen, RaiseIsSeen, RefusalsCount, RoomIsNotFull, SendersHaveNumbers, SomeIsNotEmpty, WordsAreApart};
ghost use Rattle.hy_mail.specs.DeskRuns.{ClosedIsTaken, MailboxesStay, OthersWait, RunsDeliver, RunsLead};
ghost use Rattle.hy_mail.specs.Laws.{EndedIsWriterWord, MayIsNext, WordsAreSoFar, WordsTellState};
ghost use Rattle.hy_mail.specs.MailCases.{HeldIsOfSenders, HeldIsOfTheArity, LookIsTrueWhereFound, NoNumberIsLost, NoNumberTwice, NoSecondTaker, NoneIsDropped, NoneIsMadeUp, NoneOvertakes, PutChangesItsPass, PutIsTakenThenHeld, RaiseRaises, RefusalsAdd, RefusalsEnd, SecondRaiseIsNoStep, SeenIsSeenAgain, SendersPutWords, SpentHoldsNothing, WordsAreByMailbox};
ghost use Rattle.hy_mail.specs.MailLaws.{DealKeeps, HeldIsPosted, MailBegins, NumbersAreApart, OneTakes, PopKeeps, PushKeeps, PutIsTakenOrHeld, TakeInKeeps};
ghost use Rattle.hy_mail.specs.PortLaws.{PassesKnowPuts, PassesKnowTakes};
ghost use Rattle.hy_mail.specs.Rows.{FieldsAreValues, FieldsTellValues, ParcelsAreSeen, ParcelsAreSeenOnce, RowsAreValues, RowsTellValues};
ghost use Rattle.hy_mail.specs.Signals.{ParcelsAreOneSignal, ParcelsAreSignals, SoFarOfSignals, WordsOfSignals};

/// How far a sender's word has come, and what may come next. It does nothing: its clauses speak of every word.
pub fn word_laws()
    ensures state { WordsTellState }
    ensures so_far { WordsAreSoFar }
    ensures ended { EndedIsWriterWord }
    ensures next { MayIsNext }
{}

/// What any number of steps of any tasks leave on a desk: of each sender, what was put is what was taken and what the
/// mailbox still holds, and what it puts is a word. It does nothing: its clauses speak of every list of steps.
pub fn desk_laws()
    ensures others { OthersWait }
    ensures mailboxes { MailboxesStay }
    ensures deliver { RunsDeliver }
    ensures lead { RunsLead }
    ensures closed { ClosedIsTaken }
{}

/// The rule of a mailbox of threads: it holds at the start, each kind of step keeps it, and what it says at every
/// moment. It does nothing.
pub fn mail_laws()
    ensures begins { MailBegins }
    ensures push { PushKeeps }
    ensures pop { PopKeeps }
    ensures deal { DealKeeps }
    ensures take_in { TakeInKeeps }
    ensures one_takes { OneTakes }
    ensures apart { NumbersAreApart }
    ensures put { PutIsTakenOrHeld }
    ensures held { HeldIsPosted }
{}

/// What the passes of a port know after each step: what was put and what was taken, in order. It does nothing.
pub fn port_laws()
    ensures puts { PassesKnowPuts }
    ensures takes { PassesKnowTakes }
{}

/// The fields of frames are the fields of values, and parcels are seen with their rows of values. It does nothing.
pub fn row_laws()
    ensures fields { FieldsAreValues }
    ensures one_value { FieldsTellValues }
    ensures rows { RowsAreValues }
    ensures one_row { RowsTellValues }
    ensures parcels { ParcelsAreSeen }
    ensures seen_once { ParcelsAreSeenOnce }
{}

/// A parcel is one signal with rows of values, and a writer's word of parcels is one of signals. It does nothing.
pub fn signal_laws()
    ensures parcels { ParcelsAreSignals }
    ensures one { ParcelsAreOneSignal }
    ensures words { WordsOfSignals }
    ensures so_far { SoFarOfSignals }
{}

/// What is a word, and what is none. It does nothing: its clauses are worked cases.
pub fn word_cases()
    ensures frames_may_come { FramesMayCome }
    ensures fail_may_come { FailMayCome }
    ensures open_is_a_beginning { OpenIsABeginning }
    ensures open_is_no_end { OpenIsNoEnd }
    ensures fail_is_no_end { FailIsNoEnd }
    ensures open_comes_first { OpenComesFirst }
    ensures open_comes_once { OpenComesOnce }
    ensures no_frame_behind_fail { NoFrameBehindFail }
    ensures nothing_behind_close { NothingBehindClose }
{}

/// Which rows of values a parcel is seen with. It does nothing: its clauses are worked cases.
pub fn row_cases()
    ensures frame_shows_its_values { FrameShowsItsValues }
    ensures frame_shows_no_others { FrameShowsNoOthers }
    ensures frame_shows_no_other_order { FrameShowsNoOtherOrder }
    ensures close_shows_no_row { CloseShowsNoRow }
    ensures frame_is_rows_between { FrameIsRowsBetween }
    ensures kinds_are_the_same { KindsAreTheSame }
    ensures no_signal_is_missing { NoSignalIsMissing }
{}

/// What may happen to a desk, and what may not. It does nothing: its clauses are worked cases.
pub fn desk_cases()
    ensures senders_have_numbers { SendersHaveNumbers }
    ensures others_dont_send { OthersDontSend }
    ensures one_receives { OneReceives }
    ensures put_goes_in { PutGoesIn }
    ensures put_is_its_senders { PutIsItsSenders }
    ensures put_is_not_dropped { PutIsNotDropped }
    ensures words_are_apart { WordsAreApart }
    ensures open_once { OpenOnce }
    ensures frames_have_the_arity { FramesHaveTheArity }
    ensures full_is_counted { FullIsCounted }
    ensures full_takes_no_more { FullTakesNoMore }
    ensures room_is_not_full { RoomIsNotFull }
    ensures front_is_taken { FrontIsTaken }
    ensures last_is_not_taken { LastIsNotTaken }
    ensures empty_is_counted { EmptyIsCounted }
    ensures some_is_not_empty { SomeIsNotEmpty }
    ensures not_raised_at_first { NotRaisedAtFirst }
    ensures raise_is_seen { RaiseIsSeen }
    ensures raise_is_not_unseen { RaiseIsNotUnseen }
    ensures refusals_count { RefusalsCount }
{}

/// What meets the rule of a mailbox of threads, and what does not. It does nothing: its clauses are worked cases.
pub fn mail_cases()
    ensures put_is_taken_then_held { PutIsTakenThenHeld }
    ensures none_is_dropped { NoneIsDropped }
    ensures none_is_made_up { NoneIsMadeUp }
    ensures none_overtakes { NoneOvertakes }
    ensures senders_put_words { SendersPutWords }
    ensures held_is_of_senders { HeldIsOfSenders }
    ensures held_is_of_the_arity { HeldIsOfTheArity }
    ensures no_second_taker { NoSecondTaker }
    ensures no_number_twice { NoNumberTwice }
    ensures no_number_is_lost { NoNumberIsLost }
    ensures spent_holds_nothing { SpentHoldsNothing }
{}

/// What a port over passes tells. It does nothing: its clauses are worked cases.
pub fn port_cases()
    ensures words_are_by_mailbox { WordsAreByMailbox }
    ensures put_changes_its_pass { PutChangesItsPass }
    ensures refusals_add { RefusalsAdd }
    ensures refusals_end { RefusalsEnd }
    ensures raise_raises { RaiseRaises }
    ensures second_raise_is_no_step { SecondRaiseIsNoStep }
    ensures look_is_true_where_found { LookIsTrueWhereFound }
    ensures seen_is_seen_again { SeenIsSeenAgain }
{}
