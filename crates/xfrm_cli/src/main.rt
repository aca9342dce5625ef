//! The program `xfrm`: it hands the real input, output and clock and the command words to `top`, and ends with its status.
#![tactic(auto)]

use std::alloc::{AllocError, Global};
use std::env;
use std::process::ExitCode;
use std::rt::Env;
use xf_io::{Collected, Failed, OpenGate, StdClock, StdSink, StdSource};
use xf_types::Status;

/// The command words, without the program's name. Arguments that can't be read are none, which is no command.
fn words<R: Env + AllocGlobal>(rt: &R, alloc: Global) -> Result<Vec<String>, AllocError> {
    let mut words = Vec::new(alloc);
    if let Ok(args) = env::args(rt) {
        for word in args.skip(1) {
            words.push(word)?;
        }
    }
    Ok(words)
}

fn main(rt: HostRuntime) -> ExitCode {
    let alloc = rt.alloc();
    let Ok(collected) = Collected::new(alloc, rt.stdout()) else {
        return ExitCode::from(Status::NoMemory.code());
    };
    let mut src = StdSource::new(rt.stdin(), &collected);
    let mut out = StdSink::new(&collected);
    let mut clock = StdClock::new(&rt);
    let status = match words(&rt, alloc) {
        Ok(words) => xf_run::top(
            &rt, alloc, &words, &mut src, &mut out, &mut clock, &OpenGate,
        ),
        Err(_) => Status::NoMemory,
    };
    // A write that fails late is told here, whatever the status was.
    let status = match collected.end() {
        Ok(()) => status,
        Err(Failed) => Status::WriteFault,
    };
    ExitCode::from(status.code())
}
