//! Runs the program on the words of each line of the file `cases`, and prints what it printed, its
//! status, and the files that it left in the folder.
#![tactic(auto)]

use anyhow::Result;
use cpuprof_program::run_words;
use std::alloc::Global;
use std::fs;

/// The names of the files to look for: the first stream's parts, another stream's, and the schedule.
const NAMES: [&str; 4] = [
    "cpuprof-1-1.cpuprofile",
    "cpuprof-1-2.cpuprofile",
    "cpuprof-2-1.cpuprofile",
    "cpuprof-1.schedule",
];

fn words_of(alloc: Global, line: &str) -> Result<Vec<String>> {
    let mut words = Vec::new(alloc);
    for word in line.split(' ').filter(|word| !word.is_empty()) {
        words.push(String::from_str(alloc, word)?)?;
    }
    Ok(words)
}

// Prints the file, and removes it, if there is one.
fn print_file(rt: HostRuntime, name: &str) -> Result<()> {
    if fs::exists(&rt, name)? {
        let text = fs::read_to_string(&rt, name)?;
        println!(rt; "{name} {text}")?;
        fs::remove_file(&rt, name)?;
    }
    Ok(())
}

fn main(rt: HostRuntime) -> Result<()> {
    let all = fs::read_to_string(&rt, "cases")?;
    for line in all.lines() {
        println!(rt; "% {line}")?;
        let words = words_of(rt.alloc(), line)?;
        let status = run_words(rt, &words, rt.stdout(), rt.stdout());
        println!(rt; "status {status}")?;
        for name in NAMES {
            print_file(rt, name)?;
        }
    }
    Ok(())
}
