//! restgate: an HTTP gateway for Apache Kafka.
#![tactic(auto)]

use gate_io::{RealClock, Stderr, Stdin, Stdout};
use proxy_cli::run;
use std::io::ErrorKind;
use std::process::ExitCode;
use std::{env, io};

fn main(rt: HostRuntime) -> io::Result<ExitCode> {
    let mut words = Vec::new(rt.alloc());
    match env::args(&rt) {
        Ok(args) => {
            for word in args.skip(1) {
                if words.push(word).is_err() {
                    return Ok(ExitCode::from(7));
                }
            }
        }
        Err(e) => {
            if e.kind() == ErrorKind::OutOfMemory {
                return Ok(ExitCode::from(7));
            }
            // A word that isn't UTF-8: no words are given on, which don't read either.
        }
    }
    let mut source = Stdin::new(rt.stdin());
    let mut sink = Stdout::new(io::writer(&rt));
    let mut err = Stderr::new(rt.stderr());
    let mut clock = RealClock::new(&rt);
    let status = run(
        rt.alloc(),
        words.as_slice(),
        &mut source,
        &mut sink,
        &mut err,
        &mut clock,
    );
    Ok(ExitCode::from(status))
}
