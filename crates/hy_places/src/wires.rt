//! How many mailboxes a wire has, and which of them are a task's.
ghost use Rattle.std.specs.Prelude.{◌≡◌, nat_eq, if◌then◌else◌};
ghost use Rattle.hy_places.specs.Finding as finding;
ghost use Rattle.hy_places.specs.Places as spec;

use hy_job::Wire;

/// How many senders the task in this partition has over the wire.
pub fn senders_count(wire: &Wire, partitions: u32, partition: u32) -> u32
    ensures { result ≡ spec.senders_count wire.now partitions partition }
{
    match wire {
        Wire::OneToOne => 1,
        Wire::Hash(_) => partitions,
        Wire::Broadcast => partitions,
        Wire::Gather => only_first(partition, partitions),
        Wire::Merge(_) => only_first(partition, partitions),
    }
}

/// So many in the first partition, and none in any other.
fn only_first(partition: u32, count: u32) -> u32
    ensures { result ≡ (if nat_eq partition 0 then count else 0) }
{
    if partition == 0 { count } else { 0 }
}

/// From how many mailboxes the task in this partition takes over the wire.
pub(crate) fn inboxes_count(wire: &Wire, partitions: u32, partition: u32) -> u32
    ensures { result ≡ spec.inboxes_count wire.now partitions partition }
{
    match wire {
        Wire::OneToOne => 1,
        Wire::Hash(_) => 1,
        Wire::Broadcast => 1,
        Wire::Gather => only_first(partition, 1),
        Wire::Merge(_) => only_first(partition, partitions),
    }
}

/// Into how many mailboxes a task puts over the wire.
pub(crate) fn receivers_count(wire: &Wire, partitions: u32) -> u32
    ensures { result ≡ spec.receivers_count wire.now partitions }
{
    match wire {
        Wire::OneToOne => 1,
        Wire::Hash(_) => partitions,
        Wire::Broadcast => partitions,
        Wire::Gather => 1,
        Wire::Merge(_) => 1,
    }
}

/// How many mailboxes an edge with this wire has in all.
pub(crate) fn boxes_count(wire: &Wire, partitions: u32) -> u32
    ensures { result ≡ finding.boxes_count wire.now partitions }
{
    match wire {
        Wire::OneToOne => partitions,
        Wire::Hash(_) => partitions,
        Wire::Broadcast => partitions,
        Wire::Gather => 1,
        Wire::Merge(_) => partitions,
    }
}

/// The place of the first mailbox from which the task in this partition takes, among those of the
/// edge: over a gather or a merge no other task takes.
pub(crate) fn first_inbox(wire: &Wire, partition: u32) -> u32
    ensures { result ≡ finding.first_inbox wire.now partition }
{
    match wire {
        Wire::OneToOne => partition,
        Wire::Hash(_) => partition,
        Wire::Broadcast => partition,
        Wire::Gather => 0,
        Wire::Merge(_) => 0,
    }
}

/// The place of the first mailbox into which the task in this partition puts, among those of the edge.
pub(crate) fn first_outbox(wire: &Wire, partition: u32) -> u32
    ensures { result ≡ finding.first_outbox wire.now partition }
{
    match wire {
        Wire::OneToOne => partition,
        Wire::Hash(_) => 0,
        Wire::Broadcast => 0,
        Wire::Gather => 0,
        Wire::Merge(_) => partition,
    }
}
