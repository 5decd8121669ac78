//! What is chosen for each operator.

ghost use Rattle.std.specs.Prelude.{IfOk};
ghost use Rattle.al_plan.specs.Refines.{Fit};

use crate::texts::plan;
use al_choose::choose;
use al_phys::Phys;
use al_plan::Plan;
use al_print::print_phys;
use al_value::{Boxed, NoMemory};
use std::alloc::Global;
use std::str::from_utf8;
use std::test::Fail;

/// The operators of a physical plan, a line for each, without what they deliver.
fn operators(alloc: Global, plan: &Phys, partitions: u32) -> Result<String, Fail> {
    let printed = print_phys(alloc, plan, partitions)?;
    let text = from_utf8(printed.as_slice()).ok().ok_or("no text")?;
    let mut lines = String::new(alloc);
    for line in text.lines() {
        let (operator, _) = line.split_once(" | ").unwrap_or((line, ""));
        lines.push_str(operator)?;
        lines.push('\n')?;
    }
    Ok(lines)
}

/// The operators that are chosen for a plan over `t` and `u`.
fn chosen(alloc: Global, partitions: u32, plan_text: &str) -> Result<String, Fail> {
    let text = format!(in alloc;
        "(algebricks 1 (dataset t \"t.csv\" (a int)) (dataset u \"u.csv\" (b int)) (result {plan_text}))"
    )?;
    let made = plan(alloc, text.as_str(), partitions)?;
    operators(alloc, made.get(), partitions)
}

/// Partitions, a plan, and the operators that are chosen for it.
const CHOICES: [(u32, &str, &str); 17] = [
    (
        1,
        "($m) (union ($m) ($a) ($b) (check c true (subplan (aggregate (($n (countall))) (nested)) \
         (unnest $v (range true true) (project ($a) (select true (assign (($x 1)) (scan t ($a)))))))) (scan u ($b)))",
        "physical
result ($m)
  union ($m) ($a) ($b)
    check c true
      subplan (aggregate (($n (countall))) (nested))
        unnest $v (range true true)
          project ($a)
            select true
              assign (($x 1))
                scan t ($a)
    scan u ($b)
",
    ),
    (
        3,
        "($m) (union ($m) ($a) ($b) (check c true (subplan (aggregate (($n (countall))) (nested)) \
         (unnest $v (range true true) (project ($a) (select true (assign (($x 1)) (scan t ($a)))))))) (scan u ($b)))",
        "physical
result ($m)
  gather
    union ($m) ($a) ($b)
      check c true
        subplan (aggregate (($n (countall))) (nested))
          unnest $v (range true true)
            project ($a)
              select true
                assign (($x 1))
                  scan t ($a)
      scan u ($b)
",
    ),
    (
        3,
        "($a) (leftjoin (eq $a $c) (join (eq $a $b) (scan t ($a)) (scan u ($b))) (scan u ($c)))",
        "physical
result ($a)
  gather
    hash-leftjoin (eq $a $c)
      hash-join (eq $a $b)
        hash ($a)
          scan t ($a)
        hash ($b)
          scan u ($b)
      hash ($c)
        scan u ($c)
",
    ),
    (
        1,
        "($a) (leftjoin (eq $a $c) (join (eq $a $b) (scan t ($a)) (scan u ($b))) (scan u ($c)))",
        "physical
result ($a)
  hash-leftjoin (eq $a $c)
    hash-join (eq $a $b)
      scan t ($a)
      scan u ($b)
    scan u ($c)
",
    ),
    (
        3,
        "($a) (leftjoin true (join true (scan t ($a)) (scan u ($b))) (scan u ($c)))",
        "physical
result ($a)
  gather
    loop-leftjoin true
      loop-join true
        scan t ($a)
        broadcast
          scan u ($b)
      broadcast
        scan u ($c)
",
    ),
    (
        3,
        "($g) (group (($g $a)) (aggregate (($n (countall))) (nested)) (scan t ($a)))",
        "physical
result ($g)
  gather
    hash-group (($g $a)) (aggregate (($n (countall))) (nested))
      hash ($a)
        scan t ($a)
",
    ),
    (
        3,
        "($g) (group (($g $a)) (aggregate (($n (countall))) (distinct (nested))) (scan t ($a)))",
        "physical
result ($g)
  gather
    pre-group (($g $a)) (aggregate (($n (countall))) (distinct (nested)))
      sort (($a asc))
        hash ($a)
          scan t ($a)
",
    ),
    (
        1,
        "($g) (group (($g $a)) (aggregate (($n (countall))) (nested)) (order (($a asc)) (scan t ($a))))",
        "physical
result ($g)
  pre-group (($g $a)) (aggregate (($n (countall))) (nested))
    sort (($a asc))
      scan t ($a)
",
    ),
    (
        3,
        "($a) (distinct (scan t ($a)))",
        "physical
result ($a)
  gather
    hash-distinct
      hash ($a)
        scan t ($a)
",
    ),
    (
        1,
        "($a) (distinct (scan t ($a)))",
        "physical
result ($a)
  hash-distinct
    scan t ($a)
",
    ),
    (
        3,
        "($n) (aggregate (($n (countall))) (scan t ($a)))",
        "physical
result ($n)
  agg-final (($n (countall)))
    gather
      agg-part (($n (countall)))
        scan t ($a)
",
    ),
    (
        1,
        "($n) (aggregate (($n (countall))) (scan t ($a)))",
        "physical
result ($n)
  agg-final (($n (countall)))
    agg-part (($n (countall)))
      scan t ($a)
",
    ),
    (
        3,
        "($a) (limit 2 3 (order (($a asc)) (scan t ($a))))",
        "physical
result ($a)
  limit 2 3
    merge (($a asc))
      sort (($a asc))
        scan t ($a)
",
    ),
    (
        1,
        "($a) (limit 2 3 (order (($a asc)) (scan t ($a))))",
        "physical
result ($a)
  limit 2 3
    sort (($a asc))
      scan t ($a)
",
    ),
    (
        3,
        "($a) (limit 2 3 (scan t ($a)))",
        "physical
result ($a)
  limit 2 3
    gather
      local-limit 5
        scan t ($a)
",
    ),
    // The sum of both numbers would be too large.
    (
        3,
        "($a) (limit 4611686018427387904 4611686018427387904 (scan t ($a)))",
        "physical
result ($a)
  limit 4611686018427387904 4611686018427387904
    gather
      scan t ($a)
",
    ),
    (
        3,
        "($a) (scan t ($a))",
        "physical
result ($a)
  gather
    scan t ($a)
",
    ),
];

#[test]
fn chooses(rt: HostRuntime) -> Result<(), Fail> {
    for (partitions, plan_text, wanted) in CHOICES {
        assert_eq!(rt; chosen(rt.alloc(), partitions, plan_text)?.as_str(), wanted);
    }
    Ok(())
}

#[tactic(auto, using(crate::proofs::Fitting::fit_empty))]
fn empty(alloc: Global) -> Result<Boxed<Plan>, Fail>
    ensures { IfOk result (λ p. Fit p) }
{
    Ok(Boxed::new(alloc, Plan::Empty)?)
}

fn for_three(alloc: Global, p: &Plan) -> Result<Boxed<Phys>, NoMemory>
    requires { Fit p.now }
{
    Boxed::new(alloc, choose(alloc, p, 3)?)
}

#[test]
fn chooses_for_the_empty_plan(rt: HostRuntime) -> Result<(), Fail> {
    let plan = empty(rt.alloc())?;
    let made = for_three(rt.alloc(), plan.get())?;
    let wanted = Boxed::new(rt.alloc(), Phys::One)?;
    assert!(rt; made == wanted);
    Ok(())
}
