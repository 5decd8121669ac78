//! Laws of all jobs, and worked cases.

ghost use Rattle.std.specs.Prelude.{ℕ};
ghost use Rattle.al_phys.specs.declared.phys.Phys.{Phys};
ghost use Rattle.al_job_laws.specs.InOrder.{IsInOrder, StagesAreOne};
ghost use Rattle.al_job_laws.specs.OrderCases.{BlocksTurned, EdgesStand, EdgesTurned, InputsTurned};
ghost use Rattle.al_jobgen.specs.JobOf.{job_of};

/// A job has one list of stages. It does nothing: its clause speaks of every job.
pub fn one_stages()
    ensures { StagesAreOne }
{}

/// The job of a physical plan has its activities by number, its edges by where they end and then
/// by input, and its blocks by where they begin: so its lines are printed in that order.
pub fn job_order()
    ensures { (p : Phys) (partitions : ℕ) → IsInOrder (job_of p partitions) }
{}

/// Small jobs that stand in order, and others. It does nothing: its clauses are worked cases.
pub fn order_cases()
    ensures stand { EdgesStand }
    ensures turned { EdgesTurned → ⊥ }
    ensures inputs { InputsTurned → ⊥ }
    ensures blocks { BlocksTurned → ⊥ }
{}
