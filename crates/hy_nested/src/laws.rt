ghost use Rattle.hy_nested.specs.Cases.{CountingFits, NarrowRowsFail, NoneAreCounted, NoRowsFit, RootIsAggregate, UnevenRowsFail};

/// Over which rows a small plan may be run, and what it allows over none. It does nothing: its
/// clauses are worked cases.
pub fn nested_cases()
    ensures fits { CountingFits }
    ensures narrow { NarrowRowsFail }
    ensures uneven { UnevenRowsFail }
    ensures root { RootIsAggregate }
    ensures no_rows { NoRowsFit }
    ensures none_counted { NoneAreCounted }
{}
