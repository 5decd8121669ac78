//! Gives rows through the drivers of a group and of a hash join, for `benchmarks/drivers` to time. It
//! prints how many came out, which depends on its words alone: which of the two, and how many rows.
#![tactic(auto)]

mod rates;

use hy_store::OpFault;
use rates::{groups, pairs};
use std::alloc::Global;
use std::io::ErrorKind;
use std::{env, io};

/// How many rows come out of so many.
fn counted(alloc: Global, operator: &str, rows: u64) -> Result<u64, OpFault> {
    match operator {
        "group" => groups(alloc, rows),
        "join" => pairs(alloc, rows),
        _ => Err(OpFault::Store),
    }
}

fn main(rt: HostRuntime) -> io::Result<()> {
    let mut words = env::args(&rt)?.skip(1);
    let Some(operator) = words.next() else {
        return Err(io::Error::from(ErrorKind::InvalidInput));
    };
    let Some(rows) = words.next() else {
        return Err(io::Error::from(ErrorKind::InvalidInput));
    };
    let rows = rows.parse::<u64>().unwrap_or(0);
    match counted(rt.alloc(), operator.as_str(), rows) {
        Ok(counted) => println!(rt; "{rows}: {counted}"),
        Err(_) => Err(io::Error::from(ErrorKind::OutOfMemory)),
    }
}
