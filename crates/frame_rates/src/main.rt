//! Appends, reads or parses rows, for `benchmarks/frames` to time. It prints what it counted, which depends on its words
//! alone: `append`, `read` or `parse`, and how many rows.
#![tactic(auto)]

mod rates;

use rates::counted;
use std::io::ErrorKind;
use std::{env, io};

fn main(rt: HostRuntime) -> io::Result<()> {
    let mut words = env::args(&rt)?.skip(1);
    let (Some(work), Some(rows)) = (words.next(), words.next()) else {
        return Err(io::Error::from(ErrorKind::InvalidInput));
    };
    let rows = rows.parse::<u64>().unwrap_or(0);
    match counted(rt.alloc(), work.as_str(), rows) {
        Ok(counted) => println!(rt; "{work} {rows}: {counted}"),
        Err(_) => Err(io::Error::from(ErrorKind::OutOfMemory)),
    }
}
