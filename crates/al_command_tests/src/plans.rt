use al_plan::{Plan, PlanFile, live, ordered};
use al_read::read_plan;
use al_value::Boxed;
use std::alloc::Global;
use std::test::Fail;

fn boxed(alloc: Global, file: PlanFile) -> Option<Boxed<PlanFile>> {
    Boxed::new(alloc, file).ok()
}

/// The file of a plan text. It goes behind a pointer, since it is large.
fn read(alloc: Global, text: &str) -> Option<Boxed<PlanFile>> {
    match read_plan(alloc, text.as_bytes()) {
        Ok(file) => boxed(alloc, file),
        Err(_) => None,
    }
}

fn copied(alloc: Global, p: &Plan) -> Option<Boxed<Plan>> {
    match p.copy(alloc) {
        Ok(copy) => Boxed::new(alloc, copy).ok(),
        Err(_) => None,
    }
}

fn is_copied(alloc: Global, p: &Plan) -> bool {
    match copied(alloc, p) {
        Some(copy) => copy.get() == p,
        None => false,
    }
}

fn live_names(alloc: Global, p: &Plan) -> Option<String> {
    let vars = live(alloc, p).ok()?;
    let mut names = String::new(alloc);
    for v in vars.as_slice() {
        names.push_str(v.name.as_str()).ok()?;
        names.push(' ').ok()?;
    }
    Some(names)
}

#[test]
fn plans_tell_of_themselves(rt: HostRuntime) -> Result<(), Fail> {
    let text =
        "(algebricks 1 (result ($g $c $w) (unnest $w (split $g $c) (order (($g desc)) (group (($g $a)) (aggregate (($c (count $b))) (nested)) (join (eq $a $b) (scan t ($a)) (scan t ($b))))))))";
    let file = read(rt.alloc(), text);
    assert!(rt; file.is_some());
    if let Some(file) = file {
        let root = &file.get().root;
        assert!(rt; ordered(root) && is_copied(rt.alloc(), root));
        let names = live_names(rt.alloc(), root);
        assert!(rt; matches!(&names, Some(names) if names.as_str() == "g c w "));
    }
    Ok(())
}
