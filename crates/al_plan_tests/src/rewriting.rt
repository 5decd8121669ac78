//! Rules, each applied where it matches.

ghost use Rattle.std.specs.Prelude.{◌<◌};
ghost use Rattle.al_plan.specs.Refines.{Fit};

use crate::texts::{accepted, input, read};
use al_conj::{both, conjuncts};
use al_func::Func;
use al_plan::{Expr, Plan, PlanFile, Var};
use al_rule::{ApplyFault, RuleName, RuleSet, SetName, Trace, drive_fixpoint};
use al_rules_group::GroupSet;
use al_rules_join::JoinSet;
use al_rules_order::OrderSet;
use al_value::{Boxed, List, Name, NoMemory, Value};
use std::alloc::Global;
use std::test::Fail;

/// A file of a plan over `t` and `u`, whose result lists this variable.
fn file_of(alloc: Global, listed: &str, plan: &str) -> Result<String, Fail> {
    Ok(format!(in alloc;
        "(algebricks 1 (dataset t \"t.csv\" (a int)) (dataset u \"u.csv\" (b int)) (result (${listed}) {plan}))"
    )?)
}

/// A variable that the result lists, a plan, the rule that rewrites it and its place, and what it
/// makes of the plan.
type Row = (
    &'static str,
    &'static str,
    RuleName,
    &'static [u32],
    &'static str,
);

/// What driving a set makes of the plan of a file.
fn driven<S: RuleSet>(
    alloc: Global,
    set: &S,
    file: Boxed<PlanFile>,
    trace: &mut Trace,
) -> Result<Boxed<Plan>, NoMemory>
    requires { Fit file.root }
{
    match drive_fixpoint(alloc, set, file.into_inner().root, trace) {
        Ok(made) => Boxed::new(alloc, made),
        Err(_) => Err(NoMemory),
    }
}

/// Whether a trace is one step, by this rule at this place, which is numbered from below the result.
fn is_step(trace: &Trace, rule: RuleName, place: &[u32]) -> bool {
    match trace.steps.as_slice() {
        [step] => {
            step.rule == rule && step.place.children.as_slice().split_first() == Some((&0, place))
        }
        _ => false,
    }
}

/// Whether driving the set makes the one plan of the other in that step.
fn steps<S: RuleSet>(alloc: Global, set: &S, row: &Row) -> Result<bool, Fail> {
    let (listed, from, rule, place, to) = row;
    let from = file_of(alloc, *listed, *from)?;
    let to = file_of(alloc, *listed, *to)?;
    let mut trace = Trace::new(alloc);
    let file = accepted(alloc, from.as_bytes())?;
    let made = driven(alloc, set, file, &mut trace)?;
    let wanted = read(alloc, to.as_bytes())?;
    Ok(*made.get() == wanted.get().root && is_step(&trace, *rule, *place))
}

const ORDERS: [Row; 8] = [
    (
        "a",
        "(distinct (order (($a asc)) (scan t ($a))))",
        RuleName::DropOrder,
        &[],
        "(distinct (scan t ($a)))",
    ),
    (
        "m",
        "(project ($m) (union ($m) ($b) ($a) (scan u ($b)) (order (($a asc)) (scan t ($a)))))",
        RuleName::DropOrder,
        &[0],
        "(project ($m) (union ($m) ($b) ($a) (scan u ($b)) (scan t ($a))))",
    ),
    (
        "m",
        "(union ($m) ($a) ($b) (order (($a asc)) (scan t ($a))) (scan u ($b)))",
        RuleName::DropOrder,
        &[],
        "(union ($m) ($a) ($b) (scan t ($a)) (scan u ($b)))",
    ),
    (
        "a",
        "(order (($a asc)) (order (($a desc)) (scan t ($a))))",
        RuleName::OrderOverOrder,
        &[],
        "(order (($a asc)) (scan t ($a)))",
    ),
    (
        "a",
        "(limit 5 3 (limit 9 2 (scan t ($a))))",
        RuleName::LimitOverLimit,
        &[],
        "(limit 5 5 (scan t ($a)))",
    ),
    (
        "a",
        "(limit 5 6 (limit 4 2 (scan t ($a))))",
        RuleName::LimitOverLimit,
        &[],
        "(limit 0 8 (scan t ($a)))",
    ),
    (
        "a",
        "(limit 1 2 (project ($a) (scan t ($a))))",
        RuleName::LimitBelowProject,
        &[],
        "(project ($a) (limit 1 2 (scan t ($a))))",
    ),
    (
        "x",
        "(limit 1 2 (assign (($x 1)) (scan t ($a))))",
        RuleName::LimitBelowAssign,
        &[],
        "(assign (($x 1)) (limit 1 2 (scan t ($a))))",
    ),
];

#[test]
fn rewrites_orders_and_limits(rt: HostRuntime) -> Result<(), Fail> {
    for row in &ORDERS {
        assert!(rt; steps(rt.alloc(), &OrderSet, row)?, "{}", row.1);
    }
    Ok(())
}

const GROUPS: [Row; 5] = [
    (
        "a",
        "(distinct (distinct (scan t ($a))))",
        RuleName::DistinctOverDistinct,
        &[],
        "(distinct (scan t ($a)))",
    ),
    (
        "k",
        "(distinct (group (($k $a)) (aggregate (($n (countall))) (nested)) (scan t ($a))))",
        RuleName::DistinctOverGroup,
        &[],
        "(group (($k $a)) (aggregate (($n (countall))) (nested)) (scan t ($a)))",
    ),
    (
        "k",
        "(group (($k $m)) (aggregate (($n (countall))) (nested)) (distinct (aggregate (($m (countall))) (scan t ($a)))))",
        RuleName::DistinctOverAggregate,
        &[1],
        "(group (($k $m)) (aggregate (($n (countall))) (nested)) (aggregate (($m (countall))) (scan t ($a))))",
    ),
    (
        "n",
        "(aggregate (($n (countall))) (project () (scan t ($a))))",
        RuleName::AggregateOverProject,
        &[],
        "(aggregate (($n (countall))) (scan t ($a)))",
    ),
    (
        "k",
        "(group (($k $a)) (aggregate (($n (countall))) (nested)) (project ($a) (scan t ($a))))",
        RuleName::GroupOverProject,
        &[],
        "(group (($k $a)) (aggregate (($n (countall))) (nested)) (scan t ($a)))",
    ),
];

/// The number of the first rule that matches; the number of all where none does.
fn first_rule<S: RuleSet>(set: &S, p: &Plan) -> usize {
    let count = set.rules();
    for k in 0..count {
        if set.matches(k, p) {
            return k;
        }
    }
    count
}

/// The first rule of a set that matches the plan of a text.
fn first_of<S: RuleSet>(alloc: Global, set: &S, plan: &str) -> Result<Option<usize>, Fail> {
    let file = read(alloc, file_of(alloc, "x", plan)?.as_bytes())?;
    Ok(input(file.get()).map(|p| first_rule(set, p)))
}

#[test]
fn rewrites_groups(rt: HostRuntime) -> Result<(), Fail> {
    let alloc = rt.alloc();
    for row in &GROUPS {
        assert!(rt; steps(alloc, &GroupSet, row)?, "{}", row.1);
    }
    let plan =
        "(group (($k $a)) (aggregate (($n (countall))) (distinct (nested))) (project ($a) (scan t ($a))))";
    assert!(rt; first_of(alloc, &GroupSet, plan)? == Some(5));
    let plan = "(distinct (project () (scan t ($a))))";
    assert!(rt; first_of(alloc, &GroupSet, plan)? == Some(5));
    Ok(())
}

/// A plan over the scans L and R, the first rule that matches, and what it makes of the plan.
const JOINS: [(&str, usize, &str); 10] = [
    (
        "(select (eq $r true) (leftjoin true L R))",
        0,
        "(join (and true (eq $r true)) L R)",
    ),
    ("(select (eq $l true) (leftjoin true L R))", 5, ""),
    ("(select (is_null $r true) (leftjoin true L R))", 5, ""),
    ("(select (is_null $r) (leftjoin true L R))", 5, ""),
    ("(leftjoin (eq $l true) L R)", 5, ""),
    (
        "(join (and (eq $l true) true) L R)",
        1,
        "(join (eq $l true) L R)",
    ),
    ("(join true L R)", 5, ""),
    (
        "(join (eq $l true) L R)",
        2,
        "(join true (select (eq $l true) L) R)",
    ),
    (
        "(join (eq $r true) L R)",
        3,
        "(join true L (select (eq $r true) R))",
    ),
    (
        "(leftjoin (eq $r true) L R)",
        4,
        "(leftjoin true L (select (eq $r true) R))",
    ),
];

/// What a rule makes of a plan.
fn applied(alloc: Global, k: usize, p: Plan) -> Result<Boxed<Plan>, NoMemory>
    requires { k < 5 }
{
    match JoinSet.apply(alloc, k, p) {
        Ok(made) => Boxed::new(alloc, made),
        Err(ApplyFault::NoMemory(_)) => Err(NoMemory),
    }
}

/// The file of a plan over the scans L and R.
fn over_scans(alloc: Global, plan: &str) -> Result<String, Fail> {
    let left = plan.replace(alloc, "L", "(scan d ($l))")?;
    let whole = left.replace(alloc, "R", "(scan d ($r))")?;
    file_of(alloc, "x", whole.as_str())
}

/// Whether this rule is the first that matches, and makes the one plan of the other.
fn rewrites(alloc: Global, plan: &str, rule: usize, to: &str) -> Result<bool, Fail> {
    let file = read(alloc, over_scans(alloc, plan)?.as_bytes())?;
    let Some(p) = input(file.get()) else {
        return Ok(false);
    };
    if first_rule(&JoinSet, p) != rule {
        return Ok(false);
    }
    if rule >= 5 {
        return Ok(true);
    }
    let made = applied(alloc, rule, p.copy(alloc)?)?;
    let wanted = read(alloc, over_scans(alloc, to)?.as_bytes())?;
    Ok(input(wanted.get()) == Some(made.get()))
}

#[test]
fn rewrites_joins(rt: HostRuntime) -> Result<(), Fail> {
    assert!(rt; JoinSet.name() == SetName::Join && JoinSet.rules() == 5);
    assert!(rt; JoinSet.rule(0) == RuleName::LeftJoinToJoin);
    assert!(rt; JoinSet.rule(4) == RuleName::LeftJoinCondRight);
    for (plan, rule, to) in JOINS {
        assert!(rt; rewrites(rt.alloc(), plan, rule, to)?, "{plan}");
    }
    Ok(())
}

/// `(eq $l true)`
fn of_left(alloc: Global) -> Result<Expr, NoMemory> {
    let name = Name::new(alloc, "l")?;
    let mut args = List::new(alloc);
    args.push(Expr::Var(Var { name }))?;
    args.push(Expr::Lit(Value::Bool(true)))?;
    Ok(Expr::Call(Func::Eq, args))
}

/// A join of the scans of `l` and `r`.
fn scans_joined(alloc: Global, cond: Expr) -> Result<Plan, Fail> {
    let file = read(alloc, over_scans(alloc, "(join true L R)")?.as_bytes())?;
    match input(file.get()) {
        Some(Plan::Join { left, right, .. }) => Ok(Plan::Join {
            cond,
            left: Boxed::new(alloc, left.get().copy(alloc)?)?,
            right: Boxed::new(alloc, right.get().copy(alloc)?)?,
        }),
        _ => Err(Fail::from("no join")),
    }
}

/// The number of conjuncts of a join.
fn count(alloc: Global, p: &Plan) -> Result<usize, NoMemory> {
    match p {
        Plan::Join { cond, .. } => Ok(conjuncts(alloc, cond)?.len()),
        _ => Ok(0),
    }
}

/// A proof bounds no stack: more than 800 conjuncts, first balanced and then nested to the right.
#[test]
fn stays_within_the_stack(rt: HostRuntime) -> Result<(), Fail> {
    let alloc = rt.alloc();
    let mut cond = of_left(alloc)?;
    for _ in 0..10 {
        cond = both(alloc, cond.copy(alloc)?, cond)?;
    }
    let once = applied(alloc, 2, scans_joined(alloc, cond)?)?;
    assert!(rt; count(alloc, once.get())? == 1023);
    let twice = applied(alloc, 2, once.into_inner())?;
    assert!(rt; count(alloc, twice.get())? == 1022);
    Ok(())
}
