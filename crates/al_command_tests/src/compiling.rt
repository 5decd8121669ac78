use al_plan::{Refused, RefusedKind};
use al_query::{CompileFault, compile};
use std::test::Fail;

const ORDER: &[u8] =
    b"(algebricks 1 (dataset t \"t.csv\" (a int)) (result ($a) (order (($a asc)) (scan t ($a)))))";

#[test]
fn compiles(rt: HostRuntime) -> Result<(), Fail> {
    match compile(rt.alloc(), ORDER, 2) {
        Ok(compiled) => {
            assert_eq!(&rt; compiled.job.activities.len(), 4);
            assert_eq!(&rt; compiled.job.blocks.len(), 1);
            assert_eq!(&rt; compiled.job.partitions, 2);
            assert!(&rt; compiled.trace.steps.is_empty());
            Ok(())
        }
        Err(_) => {
            assert!(&rt; false);
            Ok(())
        }
    }
}

#[test]
fn compiles_no_refused_text(rt: HostRuntime) -> Result<(), Fail> {
    match compile(rt.alloc(), b"(algebricks 1 ", 2) {
        Err(CompileFault::Refused(Refused { kind, place })) => {
            assert!(&rt; kind == RefusedKind::Form);
            assert_eq!(&rt; place, 14);
            Ok(())
        }
        _ => {
            assert!(&rt; false);
            Ok(())
        }
    }
}
