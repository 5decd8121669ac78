//! Sends rows over a hash wire to four receivers, for `benchmarks/drivers` to time. It prints how many came to each of
//! them, which depends on its word alone: how many rounds of rows are sent.
#![tactic(auto)]

mod rates;

use rates::counted;
use std::io::ErrorKind;
use std::{env, io};

fn main(rt: HostRuntime) -> io::Result<()> {
    let mut words = env::args(&rt)?.skip(1);
    let Some(rounds) = words.next() else {
        return Err(io::Error::from(ErrorKind::InvalidInput));
    };
    let rounds = rounds.parse::<u64>().unwrap_or(0);
    match counted(rt.alloc(), rounds) {
        Ok(came) => {
            let [a, b, c, d] = came;
            println!(rt; "{rounds}: {a} {b} {c} {d}")
        }
        Err(_) => Err(io::Error::from(ErrorKind::OutOfMemory)),
    }
}
