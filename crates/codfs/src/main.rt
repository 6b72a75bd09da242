//! Runs a scenario by threads: one for each client and each care worker.
#![tactic(auto)]

use cod_run::{NO_MEMORY, over};
use std::io::ErrorKind;
use std::process::ExitCode;
use std::{env, io};

fn main(rt: HostRuntime) -> ExitCode {
    let mut words: Vec<String> = Vec::new(rt.alloc());
    match env::args(&rt) {
        Ok(args) => {
            for word in args.skip(1) {
                if words.push(word).is_err() {
                    return ExitCode::from(NO_MEMORY);
                }
            }
        }
        // (words that are no text are no command, as none are)
        Err(e) if e.kind() == ErrorKind::InvalidData => {}
        Err(_) => return ExitCode::from(NO_MEMORY),
    }
    let status = over(&rt, rt.alloc(), &words, rt.reader(), io::writer(&rt));
    ExitCode::from(status.unwrap_or(NO_MEMORY))
}
