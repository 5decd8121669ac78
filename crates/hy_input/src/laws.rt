//! What an input brings from its beginning to its end, and worked cases. Its functions do nothing: their
//! clauses are what they are for.
ghost use Rattle.hy_input.specs.Laws.{AreBrought, DoneBringNone, NewBringWire};
ghost use Rattle.hy_input.specs.Cases.{CloseCountsOnce, CloseIsItsSenders, DoneWhereNoneIsLeft, FirstBareIsAsked, FramesAreHeld, FramesComeWhole, GivingUpKeepsNone, HandIsBrought, LesserIsBrought, MailboxesHaveWidth, OpenSendersSend, RowsAreHeld, RowsAreKept, RowsComeOneByOne, RowsHaveWidth, SendersHavePartitions, SendersStay, WantedWhereNoneIsLeft};

/// A new input brings what comes by its wire, each one brings rows for all that may still come, and one
/// that is done brings none. It does nothing: its clauses speak of every input.
pub fn input_laws()
    ensures new { NewBringWire }
    ensures brought { AreBrought }
    ensures done { DoneBringNone }
{}

/// What small inputs may bring, and what their calls may do and may not.
pub fn input_cases()
    ensures hand { HandIsBrought }
    ensures lesser { LesserIsBrought }
    ensures partitions { CloseIsItsSenders }
    ensures wanted { WantedWhereNoneIsLeft }
    ensures done { DoneWhereNoneIsLeft }
    ensures senders { SendersHavePartitions }
    ensures held { FramesAreHeld }
    ensures frames { FramesComeWhole }
    ensures closes { CloseCountsOnce }
    ensures steps { RowsComeOneByOne }
    ensures gives_up { GivingUpKeepsNone }
    ensures may { OpenSendersSend }
    ensures width { RowsHaveWidth }
    ensures asked { FirstBareIsAsked }
    ensures rows { RowsAreHeld }
    ensures kept { RowsAreKept }
    ensures still { SendersStay }
    ensures boxes { MailboxesHaveWidth }
{}
