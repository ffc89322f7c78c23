//! `node-share`, `node-difference` and `node-take`: replicas in share files, which ship what others lack.
#![tactic(auto)]

use kat_io::{HostFiles, HostSink};
use kat_share_call::{Status, share_nodes, status_text};
use std::io::Write;
use std::process::ExitCode;
use std::{env, io};

fn main(rt: HostRuntime) -> ExitCode {
    let status = run(&rt);
    ExitCode::from(status.code())
}

/// Does what the words of the process say, and says on standard error how it ended.
fn run(rt: &HostRuntime) -> Status {
    match words_of(rt) {
        Ok(words) => {
            let mut files = HostFiles { rt, faults: 0 };
            let mut out = HostSink {
                writer: io::writer(rt),
                faults: 0,
            };
            let status = share_nodes(rt.alloc(), &words, &mut files, &mut out);
            print_status(rt, &words, &status);
            status
        }
        Err(status) => {
            print_status(rt, &[], &status);
            status
        }
    }
}

/// Prints the line of a status. A line that can't be made or printed is left out.
fn print_status(rt: &HostRuntime, words: &[String], status: &Status) {
    if let Ok(text) = status_text(rt.alloc(), words, status) {
        let _ = rt.stderr().write_all(&text);
    }
}

/// The words after the program's name. Words that aren't all text are those of no command.
fn words_of(rt: &HostRuntime) -> Result<Vec<String>, Status> {
    let args = match env::args(rt) {
        Ok(args) => args,
        Err(error) if error.kind() == io::ErrorKind::OutOfMemory => return Err(Status::Memory),
        Err(_) => return Err(Status::Usage),
    };
    let mut words = Vec::new(rt.alloc());
    for word in args.skip(1) {
        if words.push(word).is_err() {
            return Err(Status::Memory);
        }
    }
    Ok(words)
}
