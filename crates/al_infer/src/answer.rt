ghost use Rattle.std.specs.Prelude.{◌≡◌, IfOk, IfErr};
ghost use Rattle.al_plan.specs.Accept.{HasPlaces, IsAccepted, accept_refusal};
ghost use Rattle.al_infer.specs.Answer.{TellsWhy};

use crate::datasets::dataset_refusal;
use crate::walk::{Spot, Stopped, check_plan};
use al_plan::{PlanFile, Refused};
use al_value::{List, NoMemory};
use std::alloc::Global;
use std::marker::Model;

/// A plan file that is accepted, which contracts see as the file.
#[derive(Debug, Drop)]
pub struct Accepted {
    file: PlanFile,
}

impl Model for Accepted {
    ghost use Rattle.al_plan.specs.declared.file.PlanFile.{PlanFile};
    ghost use Rattle.al_plan.specs.Accept.{IsAccepted};
    ghost use Rattle.std.specs.Coded.{codes};
    ghost use Rattle.al_plan.specs.contracts.plan.Plan as plan;

    ghost Value = { PlanFile };

    ghost coded = { Prim.hlevel (codes, plan.the_row.coded) };

    ghost view = { λ a. a.file };

    ghost invariant = { λ a. IsAccepted a.file };
}

/// A file that is handed back, and why it is not accepted.
#[derive(Debug, Drop)]
pub enum AcceptRefused {
    Refused(PlanFile, Refused),
    NoMemory(PlanFile),
}

/// The first fault of a file, by its datasets first and then by its operators; none where the file is
/// accepted. It is for callers that keep the file themselves.
pub fn refusal(alloc: Global, f: &PlanFile) -> Result<Option<Refused>, NoMemory>
    requires { HasPlaces f.now }
    ensures { IfOk result (λ refused. refused ≡ accept_refusal f.now) }
{
    let decls = f.datasets.as_slice();
    if let Some(refused) = dataset_refusal(decls, f.dataset_places.as_slice()) {
        return Ok(Some(refused));
    }
    let mut made = List::new(alloc);
    let spot = Spot {
        number: 0,
        inside: false,
        given: &[],
    };
    match check_plan(alloc, decls, f.places.as_slice(), &mut made, spot, &f.root) {
        Ok(_) => Ok(None),
        Err(Stopped::Refused(refused)) => Ok(Some(refused)),
        Err(Stopped::NoMemory) => Err(NoMemory),
    }
}

/// Accepts a file whose datasets and operators keep all rules, and tells the first fault of
/// another one.
pub fn accept(alloc: Global, f: PlanFile) -> Result<Accepted, AcceptRefused>
    requires { HasPlaces f }
    ensures accepted { IfOk result (λ accepted. (accepted ≡ f) × IsAccepted f) }
    ensures refused { IfErr result (TellsWhy f) }
{
    match refusal(alloc, &f) {
        Ok(None) => Ok(Accepted { file: f }),
        Ok(Some(refused)) => Err(AcceptRefused::Refused(f, refused)),
        Err(_) => Err(AcceptRefused::NoMemory(f)),
    }
}

impl Accepted {
    /// Lends the file.
    pub fn file(&self) -> &PlanFile
        ensures same { result.now ≡ self.now }
        ensures accepted { IsAccepted self.now }
    {
        &self.file
    }

    /// Gives the file back.
    pub fn into_file(self) -> PlanFile
        ensures same { result ≡ self }
        ensures accepted { IsAccepted self }
    {
        let Accepted { file } = self;
        file
    }
}
