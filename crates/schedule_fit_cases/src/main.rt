//! Prints for each program and schedule in the file `cases`, whose first lines say how they are written
//! there, which entry of the schedule does not fit the program. The lines of `stdout` were worked out by
//! hand, by the rules of the machine and of schedules.
#![tactic(auto)]

use case_text::text_of;
use guest_program::Program;
use guest_text::read_program;
use record_text::read_schedule;
use schedule_fit::{Unfit, test_fit};
use std::alloc::Global;
use std::{fs, io};

fn print_fit(
    rt: &impl Print,
    alloc: Global,
    program: &Program,
    text: &[u8],
) -> Result<(), io::Error> {
    let Ok(schedule) = read_schedule(alloc, text) else {
        return println!(rt; "no schedule");
    };
    match test_fit(alloc, program, &schedule) {
        Ok(()) => println!(rt; "fits"),
        Err(Unfit::At { entry }) => println!(rt; "entry {entry}"),
        Err(Unfit::Memory) => println!(rt; "out of memory"),
    }
}

fn print_answer(rt: &impl Print, alloc: Global, case: &str) -> Result<(), io::Error> {
    let (program, schedule) = case.split_once("\n&").unwrap_or((case, ""));
    let text = text_of(alloc, program)?;
    let Ok(program) = read_program(alloc, text.as_bytes()) else {
        return println!(rt; "no program");
    };
    let text = text_of(alloc, schedule)?;
    print_fit(rt, alloc, &program, text.as_bytes())
}

fn main(rt: HostRuntime) -> Result<(), io::Error> {
    let alloc = rt.alloc();
    let all = fs::read_to_string(&rt, "cases")?;
    let cases = all.strip_suffix('\n').unwrap_or(&all);
    for case in cases.split("\n% ").skip(1) {
        let title = case.split('\n').next().unwrap_or("");
        println!(rt; "% {title}")?;
        print_answer(&rt, alloc, case)?;
    }
    Ok(())
}
