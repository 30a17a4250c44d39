//! Batches written, batches read and varints read, each as many times as a word says: `batch_speed WRITES READS VARINTS`. It
//! prints what it counted. `.ci/speeds` measures it from outside, beside the same work in Rust.
#![tactic(auto)]

mod work;

use crate::work::{read_rounds, read_varints, rows, write_rounds};
use gate_io::Want;
use record_batch::write_batch;
use std::alloc::Global;
use std::process::ExitCode;
use std::{env, io};

// What was counted: bytes written, rows read, and the sum of the varints.
fn counted(alloc: Global, writes: u32, reads: u32, varints: u32) -> Result<(u64, u64, u64), Want> {
    let rows = rows(alloc)?;
    if rows.is_empty() {
        return Err(Want);
    }
    let written = write_rounds(alloc, rows.as_slice(), writes)?;
    let batch = write_batch(alloc, rows.as_slice(), 0)?;
    let read = read_rounds(alloc, batch.as_slice(), reads)?;
    Ok((written, read, read_varints(&[2; 1000], varints)))
}

// A word as a count; what is none is 0.
fn count_of(word: Option<&String>) -> u32 {
    match word {
        Some(word) => word.as_str().parse::<u32>().unwrap_or(0),
        None => 0,
    }
}

fn main(rt: HostRuntime) -> io::Result<ExitCode> {
    let mut words = Vec::new(rt.alloc());
    for word in env::args(&rt)?.skip(1) {
        words.push(word)?;
    }
    let writes = count_of(words.get(0));
    let reads = count_of(words.get(1));
    let varints = count_of(words.get(2));
    match counted(rt.alloc(), writes, reads, varints) {
        Ok((written, read, sum)) => {
            println!(rt; "{written} {read} {sum}")?;
            Ok(ExitCode::from(0))
        }
        Err(_) => Ok(ExitCode::from(1)),
    }
}
