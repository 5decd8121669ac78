ghost use Rattle.hy_places.specs.Cases.{EdgesFollow, GatherReaches, HashReaches, MergeReaches, TwiceIsNotDifferent};
ghost use Rattle.hy_places.specs.Owned.{BoxesAreCounted, InboxesAreOwn, InboxesAreTaken, OutboxesArePut, OutboxesDiffer, ReceiversHavePlaces, SendersAreCounted, SendersHavePlaces, StagesAreOwn};

/// An activity is in one stage. The mailboxes of a task are those of its senders and receivers: it is
/// the receiver of those from which it takes and a sender of those into which it puts, each of them
/// is in one place, and no two tasks take from one. It does nothing: its clauses speak of every
/// stage of every sound job.
pub fn place_laws()
    ensures own_stage { StagesAreOwn }
    ensures senders { SendersHavePlaces }
    ensures receivers { ReceiversHavePlaces }
    ensures counted { SendersAreCounted }
    ensures numbers { BoxesAreCounted }
    ensures taken { InboxesAreTaken }
    ensures put { OutboxesArePut }
    ensures own { InboxesAreOwn }
    ensures apart { OutboxesDiffer }
{}

/// The mailboxes of some tasks of small jobs. It does nothing: its clauses are worked cases.
pub fn place_cases()
    ensures hash { HashReaches }
    ensures gather { GatherReaches }
    ensures merge { MergeReaches }
    ensures follow { EdgesFollow }
    ensures twice { TwiceIsNotDifferent }
{}
