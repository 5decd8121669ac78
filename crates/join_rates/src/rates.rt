//! Rows of two ints that are made as they are wanted, and the number of those that come out.

use al_func::Rex;
use al_value::{NoMemory, Value};
use hy_frame::RowBuf;
use hy_rows::put_row;
use hy_store::OpFault;
use hy_test_runs::{Sink, Source, count_sum_and_greatest, grouped, join_of, joined};
use std::alloc::Global;

/// So many rows: a key, which goes round, and the row's number.
#[derive(Drop)]
struct Numbered {
    next: u64,
    rows: u64,
    keys: u64,
}

impl Numbered {
    fn new(rows: u64, keys: u64) -> Numbered {
        Numbered {
            next: 0,
            rows,
            keys,
        }
    }

    /// No rows.
    fn none() -> Numbered {
        Numbered::new(0, 1)
    }
}

impl Source for Numbered {
    fn next_row(&mut self, alloc: Global) -> Result<Option<RowBuf>, NoMemory> {
        let number = self.next;
        if number >= self.rows {
            return Ok(None);
        }
        self.next = number.saturating_add(1);
        let key = number.checked_rem(self.keys).unwrap_or(0);
        let values = [
            Value::Int(key.cast_signed()),
            Value::Int(number.cast_signed()),
        ];
        let mut row = RowBuf::new(alloc);
        put_row(alloc, &values, &mut row)?;
        Ok(Some(row))
    }
}

/// How many rows came out.
#[derive(Drop)]
struct Count {
    rows: u64,
}

impl Sink for Count {
    fn put(&mut self, _alloc: Global, _row: &RowBuf) -> Result<(), NoMemory> {
        self.rows = self.rows.saturating_add(1);
        Ok(())
    }
}

/// More turns than so many rows take.
fn turns(rows: u64) -> u64 {
    rows.saturating_mul(8).saturating_add(8)
}

/// Groups so many rows by ten, and counts what comes out.
pub(crate) fn groups(alloc: Global, rows: u64) -> Result<u64, OpFault> {
    let arg = count_sum_and_greatest(alloc)?;
    let mut groups = Count { rows: 0 };
    let parts = (Numbered::new(rows, rows / 10), Numbered::none());
    grouped(alloc, &arg, 7, 4, parts, &mut groups, turns(rows))?;
    Ok(groups.rows)
}

/// Joins two tables of so many rows, each of which has one partner, and counts what comes out.
#[tactic(auto, using(al_func::proofs::RexLaws::is_sound_laws))]
pub(crate) fn pairs(alloc: Global, rows: u64) -> Result<u64, OpFault> {
    let arg = join_of(alloc, true, Rex::Lit(Value::Bool(true)), false)?;
    let mut pairs = Count { rows: 0 };
    let lefts = Numbered::new(rows, rows);
    let rights = Numbered::new(rows, rows);
    joined(alloc, arg, lefts, rights, &mut pairs, turns(rows))?;
    Ok(pairs.rows)
}
