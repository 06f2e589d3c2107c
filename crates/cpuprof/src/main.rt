//! `cpuprof`: does what the words of its command line say, and exits with the resulting status.
#![tactic(auto)]

use cpuprof_program::{OUT_OF_MEMORY, run_words};
use prof_base::Memory;
use std::env;
use std::io::ErrorKind;
use std::process::ExitCode;
use std::rt::Env;

// Returns the words after the program's name. If one of them is not UTF-8, it returns no words:
// neither is a command.
fn words<R: Env + AllocGlobal>(rt: &R) -> Result<Vec<String>, Memory> {
    match env::args(rt) {
        Ok(all) => Ok(all.skip(1).collect::<Vec<String>>(rt.alloc())?),
        Err(error) if error.kind() == ErrorKind::OutOfMemory => Err(Memory),
        Err(_) => Ok(Vec::new(rt.alloc())),
    }
}

fn main(rt: HostRuntime) -> ExitCode {
    let Ok(words) = words(&rt) else {
        return ExitCode::from(OUT_OF_MEMORY);
    };
    ExitCode::from(run_words(rt, &words, rt.stdout(), rt.stderr()))
}
