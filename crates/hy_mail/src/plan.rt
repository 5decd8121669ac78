//! How a mailbox is to be made.
use al_value::List;

/// What a mailbox is to be: the tasks that put into it, each once and by its number in the stage, the task that
/// takes from it, how many parcels it holds, and the number of fields of the rows in its frames.
#[derive(Drop)]
pub struct BoxPlan {
    pub senders: List<u32>,
    pub receiver: u32,
    pub capacity: usize,
    pub arity: usize,
}
