//! Plans of texts.

ghost use Rattle.std.specs.Prelude.{◌≡◌, IfOk};
ghost use Rattle.al_plan.specs.Accept.{HasPlaces};
ghost use Rattle.al_plan.specs.Refines.{Fit};
ghost use Rattle.al_read.specs.Reads.{Reads};

use al_infer::{acceptance_laws, refusal};
use al_plan::PlanFile;
use al_read::{one_plan_reading, read_plan};
use al_value::Boxed;
use std::alloc::Global;
use std::test::Fail;

fn boxed(alloc: Global, file: PlanFile) -> Result<Boxed<PlanFile>, Fail>
    ensures { IfOk result (λ b. b ≡ file) }
{
    Ok(Boxed::new(alloc, file)?)
}

/// The file of a text, behind a pointer since it is large.
fn read(alloc: Global, text: &str) -> Result<Boxed<PlanFile>, Fail>
    ensures reads { IfOk result (Reads text.now) }
    ensures places { IfOk result HasPlaces }
{
    one_plan_reading();
    match read_plan(alloc, text.as_bytes()) {
        Ok(file) => boxed(alloc, file),
        Err(_) => Err(Fail::from("not read")),
    }
}

/// The file of a text that is accepted.
pub(crate) fn accepted(alloc: Global, text: &str) -> Result<Boxed<PlanFile>, Fail>
    ensures { IfOk result (λ f. Fit f.root) }
{
    acceptance_laws();
    let file = read(alloc, text)?;
    match refusal(alloc, file.get()) {
        Ok(None) => Ok(file),
        _ => Err(Fail::from("not accepted")),
    }
}
