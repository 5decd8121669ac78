//! The stages of jobs, and the laws of jobs.

ghost use Rattle.std.specs.Prelude.{◌≡◌, []};

use crate::texts::job;
use al_value::List;
use hy_job::{
    Stage, driver_laws, job_cases, mailbox_laws, output_laws, record_cases, record_laws, run_cases,
    stages, wire_laws,
};
use hy_rest::{Resting, rest_cases, rest_laws};
use std::alloc::Global;
use std::test::Fail;

fn stages_of(alloc: Global, partitions: u32, plan: &str) -> Result<List<Stage>, Fail> {
    let text = format!(in alloc;
        "(algebricks 1 (dataset emp \"emp.csv\" (id int) (name text) (dept text) (pay int)) \
         (dataset t \"t.csv\" (a int)) (dataset u \"u.csv\" (b int)) (result {plan}))"
    )?;
    let job = job(alloc, text.as_str(), partitions)?;
    Ok(stages(alloc, job.get())?)
}

/// Partitions, a plan, and the activities of each stage of its job.
const STAGES: [(u32, &str, &[&[u32]]); 3] = [
    // Wires join activities in one stage.
    (
        2,
        "($id) (project ($id) (select (eq $dept \"X\") (project ($id $dept) (scan emp ($id $name $dept $pay)))))",
        &[&[0, 1, 2, 3, 4]],
    ),
    // A sort has two stages.
    (
        2,
        "($a) (order (($a asc)) (scan t ($a)))",
        &[&[0, 1], &[2, 3]],
    ),
    // A probe waits for its build.
    (
        1,
        "($a) (join (eq $a $b) (distinct (scan t ($a))) (distinct (scan u ($b))))",
        &[&[0, 1], &[3, 4], &[5, 6], &[2, 7, 8]],
    ),
];

#[test]
fn jobs_have_stages(rt: HostRuntime) -> Result<(), Fail> {
    for (partitions, plan, wanted) in STAGES {
        let stages = stages_of(rt.alloc(), partitions, plan)?;
        assert_eq!(rt; stages.len(), wanted.len());
        for (stage, activities) in stages.as_slice().iter().zip(wanted) {
            assert_eq!(rt; stage.activities.as_slice(), *activities, "{plan}");
        }
    }
    Ok(())
}

/// A state that puts what it takes, as it comes.
struct Passing;

impl Resting<u32, u32> for Passing {
    ghost may = { λ _ took. Unit {0} };

    ghost out = { λ _ took put. put ≡ took };

    ghost stands = { λ _ held. held ≡ [] };

    ghost rest = { λ _ took put. put ≡ took };
}

#[test]
fn laws_are_called() {
    rest_laws::<u32, u32, Passing, Passing, Passing>();
    rest_cases();
    output_laws();
    driver_laws();
    record_laws();
    wire_laws();
    mailbox_laws();
    job_cases();
    run_cases();
    record_cases();
}
