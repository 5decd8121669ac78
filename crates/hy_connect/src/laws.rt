//! Which rows go where, and worked cases.
ghost use Rattle.hy_connect.specs.Cases.{BothHaveToClose, CountsEnd, EachHasABox, EmptyIsNotSent, ExportsWhatWaits, FilledIsOwed, FramesAreCounted, HashSplits, NothingBehindFail, TasksFollow, TwoShareABox, WaitingComesFirst, WordsAreBehind};
ghost use Rattle.hy_connect.specs.MergeCases.{FirstBareIsWanted, HandComesFirst, LesserIsFirst, OpenOnesSend};
ghost use Rattle.hy_connect.specs.Routes.{PlacesReceive, RoutesAreWires};

/// What a writer sends to the receiver in a place is what its wire sends to that receiver's partition. It does
/// nothing: its clauses speak of every wire.
pub fn route_laws()
    ensures sent { RoutesAreWires }
    ensures receive { PlacesReceive }
{}

/// What a writer may still offer, how far its words have come, how many frames it has exported, when a taker has
/// ended, and which mailboxes an edge has. It does nothing: its clauses are worked cases.
pub fn connect_cases()
    ensures waiting_comes_first { WaitingComesFirst }
    ensures nothing_behind_fail { NothingBehindFail }
    ensures filled_is_owed { FilledIsOwed }
    ensures words_are_behind { WordsAreBehind }
    ensures empty_is_not_sent { EmptyIsNotSent }
    ensures frames_are_counted { FramesAreCounted }
    ensures exports_what_waits { ExportsWhatWaits }
    ensures counts_end { CountsEnd }
    ensures both_have_to_close { BothHaveToClose }
    ensures hash_splits { HashSplits }
    ensures two_share_a_box { TwoShareABox }
    ensures each_has_a_box { EachHasABox }
    ensures tasks_follow { TasksFollow }
{}

/// Of which sender a row is wanted, and which rows a merging taker may give. It does nothing: its clauses are worked
/// cases.
pub fn merge_cases()
    ensures first_bare_is_wanted { FirstBareIsWanted }
    ensures lesser_is_first { LesserIsFirst }
    ensures open_ones_send { OpenOnesSend }
    ensures hand_comes_first { HandComesFirst }
{}
