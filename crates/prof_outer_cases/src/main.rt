//! Prints what depots and sinks answer in each case of the file `cases`. A case begins with a line
//! `% KIND`; lines `file NAME BYTES`, `fail CALL`, `fail_put CALL LEFT`, `get NAME`,
//! `put NAME BYTES`, `fill NAME LENGTH` and `write BYTES` follow, and in a folder those that set it
//! up.
#![tactic(auto)]

mod bounds;
mod depots;
mod faulty;
mod folders;
mod input;
mod writes;

use crate::faulty::Step;
use std::alloc::Global;
use std::rt::Files;
use std::{fs, io};

fn failing_step(kind: &str) -> Option<Step> {
    match kind {
        "folder with no new files" => Some(Step::Create),
        "folder on a full disk" => Some(Step::Write),
        "folder without memory" => Some(Step::Memory),
        "folder that cannot be synced" => Some(Step::Sync),
        "folder with no new names" => Some(Step::Rename),
        _ => None,
    }
}

fn answers<R: Files + Clone + Drop>(
    rt: &R,
    alloc: Global,
    kind: &str,
    lines: &str,
) -> Result<String, io::Error> {
    match kind {
        "sure depot" => depots::from_sure_depot(alloc, lines),
        "depot" => depots::from_memory_depot(alloc, lines),
        "folder" => folders::from_folder(rt, alloc, lines),
        "sure sink" => writes::to_sure_sink(alloc, lines),
        "sink" => writes::to_memory_sink(alloc, lines),
        "writer" => writes::to_writer(alloc, lines),
        _ => match failing_step(kind) {
            Some(step) => folders::from_faulty_folder(rt, alloc, step, lines),
            None => Ok(String::from_str(alloc, "no such kind\n")?),
        },
    }
}

fn main(rt: HostRuntime) -> Result<(), io::Error> {
    let alloc = rt.alloc();
    let all = fs::read_to_string(&rt, "cases")?;
    for case in all.split("% ").skip(1) {
        if let Some((kind, lines)) = case.split_once('\n') {
            let answered = answers(&rt, alloc, kind, lines)?;
            print!(rt; "{kind}\n{answered}")?;
        }
    }
    Ok(())
}
