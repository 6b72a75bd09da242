//! Replays, sums up, checks or plans a scenario, or prints the coefficients of a code, the scenario that a number gives, or the
//! summary of its run.
#![tactic(auto)]

use cod_tool::{NO_MEMORY, over};
use std::io::ErrorKind;
use std::process::ExitCode;
use std::{env, io};

fn main(rt: HostRuntime) -> ExitCode {
    let mut words: Vec<String> = Vec::new(rt.alloc());
    match env::args(&rt) {
        Ok(args) => {
            for word in args.skip(1) {
                if words.push(word).is_err() {
                    return ExitCode::from(NO_MEMORY);
                }
            }
        }
        // (words that are no text are no command, as none are)
        Err(e) if e.kind() == ErrorKind::InvalidData => {}
        Err(_) => return ExitCode::from(NO_MEMORY),
    }
    let status = over(rt.alloc(), &words, rt.reader(), io::writer(&rt));
    ExitCode::from(status.unwrap_or(NO_MEMORY))
}
