//! Gives rows through the drivers of a scan, a select and a result, for `benchmarks/drivers` to time.
//! It prints how many came out, which depends on its word alone: how many are scanned.
#![tactic(auto)]

mod rates;

use rates::counted;
use std::io::ErrorKind;
use std::{env, io};

fn main(rt: HostRuntime) -> io::Result<()> {
    let mut words = env::args(&rt)?.skip(1);
    let Some(rows) = words.next() else {
        return Err(io::Error::from(ErrorKind::InvalidInput));
    };
    let rows = rows.parse::<u64>().unwrap_or(0);
    match counted(rt.alloc(), rows) {
        Ok(counted) => println!(rt; "{rows}: {counted}"),
        Err(_) => Err(io::Error::from(ErrorKind::OutOfMemory)),
    }
}
