//! The mailboxes of a run.
ghost use Rattle.std.specs.Prelude.{◌≡◌, ◌<◌, IfOk};
ghost use Rattle.hy_wire_runs.specs.Desks.{AreFree, IsDesk, plan_to};

use crate::fault::WireFault;
use al_value::List;
use hy_mail::{BoxPlan, Desk};
use std::alloc::Global;

/// The mailbox of this number.
fn plan_of(alloc: Global, number: u32) -> Result<BoxPlan, WireFault>
    requires { number < 4 }
    ensures { IfOk result (λ plan. plan ≡ plan_to number) }
{
    let mut senders = List::new(alloc);
    senders.push(0)?;
    Ok(BoxPlan {
        senders,
        receiver: 1,
        capacity: 20,
        arity: 2,
    })
}

/// Four mailboxes, all empty. Task 0 writes for every sender, and task 1 takes for every receiver.
#[tactic(auto, using(crate::proofs::DeskRuns::begins_as_desk, crate::proofs::DeskRuns::begins_free))]
pub fn new_desk(alloc: Global) -> Result<Desk, WireFault>
    ensures desk { IfOk result IsDesk }
    ensures free { IfOk result (AreFree 0) }
{
    let plans = [
        plan_of(alloc, 0)?,
        plan_of(alloc, 1)?,
        plan_of(alloc, 2)?,
        plan_of(alloc, 3)?,
    ];
    Ok(Desk::new(alloc, &plans)?)
}
