//! Laws beside `compile` and `plain_command`.

ghost use Rattle.al_query_laws.specs.OneText.{CompiledIsInOrder, CompilesOneWay, FilesAreAnswered, TextsAreOne, UnplannedIsRefused};

use al_infer::acceptance_laws;
use al_job_laws::{job_order, one_stages};
use al_opt::trace_laws;
use al_read::one_plan_reading;
use al_read_laws::every_text;

/// A plan compiles in one way for a number of partitions, to a job whose lines stand in order. It
/// does nothing: its clauses speak of every plan.
pub fn compile_laws()
    ensures one_way { CompilesOneWay }
    ensures in_order { CompiledIsInOrder }
{
    trace_laws();
    job_order();
}

/// What `check`, `explain` and `gen` write is one text for the same files. It does nothing: its
/// clause speaks of all files.
pub fn text_laws()
    ensures one { TextsAreOne }
{
    one_plan_reading();
    acceptance_laws();
    compile_laws();
    one_stages();
}

/// A plan file states a plan that is accepted, or there is a refusal of it, which is then due: so
/// what `plain_command` says of a refusal that is due holds for every file. It does nothing: its
/// clauses speak of all files.
pub fn refusal_laws()
    ensures answered { FilesAreAnswered }
    ensures unplanned { UnplannedIsRefused }
{
    every_text();
    acceptance_laws();
}
