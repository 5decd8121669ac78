//! Groups and different rows, whose states arrive in pieces.

use crate::answers::{plain_rows, shown};
use al_value::{List, Row};
use hy_group::group_cases;
use hy_test_runs::{Table, count_sum_and_greatest, different_rows, grouped};
use std::alloc::Global;
use std::test::Fail;

/// More turns than any of these runs takes.
const TURNS: u64 = 200;

/// The rows `1,9223372036854775807`, `-,5`, `1,1`, `-,-`, `2,7` and `1,-1`.
const SIX: &str = "(assign (($k (if (eq $i 5) 2 (if (eq $i 2) null (if (eq $i 4) null 1)))) \
     ($v (if (eq $i 1) 9223372036854775807 (if (eq $i 2) 5 (if (eq $i 3) 1 (if (eq $i 4) null (if (eq $i 5) 7 -1))))))) \
     (unnest $i (range 1 6) (empty)))";

/// The row `1,5` four times.
const ALIKE: &str = "(assign (($k 1) ($v 5)) (unnest $i (range 1 4) (empty)))";

/// The rows `1,5`, `-,-`, `1,-`, `-,5`, `1,5` and `-,-`.
const TWICE: &str = "(assign (($k (if (eq $i 2) null (if (eq $i 4) null (if (eq $i 6) null 1)))) \
     ($v (if (eq $i 2) null (if (eq $i 3) null (if (eq $i 6) null 5))))) (unnest $i (range 1 6) (empty)))";

/// No rows.
const NONE: &str = "(select false (assign (($k 1) ($v 5)) (unnest $i (range 1 4) (empty))))";

/// The rows of a text.
fn rows_of(alloc: Global, rows: &str) -> Result<List<Row>, Fail> {
    plain_rows(alloc, format!(in alloc; "($k $v) {rows}")?.as_str())
}

/// Rows that are cut in two.
fn parts(rows: &[Row], cut: usize) -> (Table<'_>, Table<'_>) {
    let (front, back) = rows.split_at(cut.min(rows.len()));
    (Table::of(front), Table::of(back))
}

/// The groups of the rows of a text, which are cut in two, as text.
fn sums_of(alloc: Global, rows: &str, cut: usize) -> Result<String, Fail> {
    let rows = rows_of(alloc, rows)?;
    let arg = count_sum_and_greatest(alloc)?;
    let mut groups = List::new(alloc);
    let parts = parts(rows.as_slice(), cut);
    grouped(alloc, &arg, 7, 4, parts, &mut groups, TURNS)?;
    shown(alloc, 4, groups)
}

/// What the plain evaluator gives of them.
fn plain_sums(alloc: Global, rows: &str) -> Result<String, Fail> {
    let plan = format!(in alloc;
        "($g $n $s $m) (group (($g $k)) (aggregate (($n (countall)) ($s (sum $v)) ($m (max $v))) (nested)) {rows})"
    )?;
    let rows = plain_rows(alloc, plan.as_str())?;
    shown(alloc, 4, rows)
}

/// The different rows of a text as text.
fn different_of(alloc: Global, rows: &str, cut: usize) -> Result<String, Fail> {
    let rows = rows_of(alloc, rows)?;
    let arg = different_rows(alloc)?;
    let mut groups = List::new(alloc);
    let parts = parts(rows.as_slice(), cut);
    grouped(alloc, &arg, 2, 2, parts, &mut groups, TURNS)?;
    shown(alloc, 2, groups)
}

/// What the plain evaluator gives of them.
fn plain_different(alloc: Global, rows: &str) -> Result<String, Fail> {
    let plan = format!(in alloc; "($k $v) (distinct (project ($k $v) {rows}))")?;
    let rows = plain_rows(alloc, plan.as_str())?;
    shown(alloc, 2, rows)
}

/// Rows, and for each key of them its number of rows, and their sum and greatest value. The sum of
/// the first two rows with the key 1 does not fit an int until the third one comes.
const SUMS: [(&str, &str); 4] = [
    (
        SIX,
        "-,2,5,5;1,3,9223372036854775807,9223372036854775807;2,1,7,7",
    ),
    (ALIKE, "1,4,20,5"),
    (TWICE, "-,3,5,5;1,3,10,5"),
    (NONE, ""),
];

/// Wherever the rows are cut in two.
#[test]
fn states_arrive_in_pieces(rt: HostRuntime) -> Result<(), Fail> {
    let alloc = rt.alloc();
    for (rows, wanted) in SUMS {
        assert_eq!(rt; plain_sums(alloc, rows)?.as_str(), wanted);
        for cut in 0..7usize {
            assert_eq!(rt; sums_of(alloc, rows, cut)?.as_str(), wanted);
        }
    }
    Ok(())
}

/// Rows, and the different ones.
const DIFFERENT: [(&str, &str); 3] = [(ALIKE, "1,5"), (TWICE, "-,-;-,5;1,-;1,5"), (NONE, "")];

#[test]
fn different_rows_come_once(rt: HostRuntime) -> Result<(), Fail> {
    let alloc = rt.alloc();
    for (rows, wanted) in DIFFERENT {
        assert_eq!(rt; plain_different(alloc, rows)?.as_str(), wanted);
        for cut in 0..7usize {
            assert_eq!(rt; different_of(alloc, rows, cut)?.as_str(), wanted);
        }
    }
    Ok(())
}

#[test]
fn cases_are_called() {
    group_cases();
}
