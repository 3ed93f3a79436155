//! flexc: the compiler and headless player for Apache Flex MXML components.
#![tactic(auto)]

mod command;
mod emit;
mod meaning;
mod script;
#[cfg(test)]
mod tests;
mod words;

use command::{Status, command};
use flex_edge::{HostFiles, HostSink};
use std::env;
use std::io::ErrorKind;
use std::process::ExitCode;

fn main(rt: HostRuntime) -> ExitCode {
    ExitCode::from(run(rt).0)
}

// Hands the words of the command line, the files and the standard output of the host to `command`.
fn run(rt: HostRuntime) -> Status {
    let mut words = Vec::new(rt.alloc());
    match env::args(&rt) {
        Ok(arguments) => {
            for word in arguments.skip(1) {
                if words.push(word).is_err() {
                    return Status::NO_MEMORY;
                }
            }
        }
        Err(error) => {
            if error.kind() == ErrorKind::OutOfMemory {
                return Status::NO_MEMORY;
            }
        }
    }
    let mut files = HostFiles::new(rt);
    let mut out = HostSink::new(rt);
    let mut observers = Vec::new(rt.alloc());
    command(
        rt.alloc(),
        words.as_slice(),
        &mut files,
        &mut out,
        &mut observers,
    )
}
