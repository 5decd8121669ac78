ghost use Rattle.std.specs.Prelude.{◌≡◌};
ghost use Rattle.al_rules_group.specs.Outcomes as meaning;

use al_plan::Plan;
use al_rule::ApplyFault;
use al_value::NoMemory;

/// What was made of a plan. Where nothing was made it is the plan itself, and where memory ran
/// out it is handed back.
pub fn outcome(p: Plan, made: Result<Option<Plan>, NoMemory>) -> Result<Plan, ApplyFault>
    ensures { result ≡ meaning.outcome p made }
{
    match made {
        Ok(Some(q)) => {
            // A call, since what drops in place is proved variant by variant.
            drop(p);
            Ok(q)
        }
        Ok(None) => Ok(p),
        Err(_) => Err(ApplyFault::NoMemory(p)),
    }
}
