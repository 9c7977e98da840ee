//! The program solidd: standard input and output as a source and a sink, one call of `run`, and the
//! exit status that it answers. Every promise stands on that call.
#![tactic(auto)]

use solid_io::{OpenGate, StdSink, StdSource};
use solid_top::{Status, run};
use std::alloc::{AllocError, Global};
use std::process::ExitCode;
use std::{env, io};

/// The words of the command line, without the program's name. An argument that is no text makes the
/// words none, which are no command.
fn words(alloc: Global, args: io::Result<env::Args>) -> Result<Vec<String>, AllocError> {
    let mut words = Vec::new(alloc);
    match args {
        Ok(args) => {
            for word in args.skip(1) {
                words.push(word)?;
            }
        }
        Err(error) if error.kind() == io::ErrorKind::OutOfMemory => return Err(AllocError),
        Err(_) => {}
    }
    Ok(words)
}

/// The same words, lent.
fn lent(alloc: Global, words: &[String]) -> Result<Vec<&str>, AllocError> {
    let mut lent = Vec::with_capacity(alloc, words.len())?;
    for word in words {
        lent.push(word.as_str())?;
    }
    Ok(lent)
}

fn main(rt: HostRuntime) -> ExitCode {
    let alloc = rt.alloc();
    let mut source = StdSource::new(rt.stdin());
    let mut sink = StdSink::new(rt.stdout());
    let Ok(words) = words(alloc, env::args(&rt)) else {
        return ExitCode::from(Status::Memory.number());
    };
    let Ok(lent) = lent(alloc, &words) else {
        return ExitCode::from(Status::Memory.number());
    };
    let status = run(&rt, alloc, &lent, &mut source, &mut sink, &OpenGate);
    ExitCode::from(status.number())
}
