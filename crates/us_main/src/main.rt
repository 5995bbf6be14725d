//! The program: the words of the command line, the system's files and standard output, and the answer as a line on
//! standard error and an exit status.
#![tactic(auto)]

use std::alloc::Global;
use std::env;
use std::process::ExitCode;
use us_outside::RealOutside;
use us_top::{Status, run};

fn main(rt: HostRuntime) -> ExitCode {
    let status = answer(&rt);
    if status.code() != 0 {
        // where standard error can't be written, the exit status still tells
        let _ = rt.eprintln(status.line().as_str());
    }
    ExitCode::from(status.code())
}

// Does what the command line says.
fn answer(rt: &HostRuntime) -> Status {
    let alloc = rt.alloc();
    let Ok(runtime) = rt.clone() else {
        return Status::Memory;
    };
    match words(rt, alloc) {
        Ok(words) => run(alloc, &words, &mut RealOutside::new(runtime)),
        Err(status) => status,
    }
}

// The words after the program's name. Words that are no text are no command.
fn words(rt: &HostRuntime, alloc: Global) -> Result<Vec<String>, Status> {
    let Ok(arguments) = env::args(rt) else {
        return Err(Status::Words);
    };
    let mut words = Vec::new(alloc);
    for word in arguments.skip(1) {
        if words.push(word).is_err() {
            return Err(Status::Memory);
        }
    }
    Ok(words)
}
