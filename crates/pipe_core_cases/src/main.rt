//! Prints what a ring, a queue and a world answer in each case of the file `cases`. A case begins with a
//! line `% KIND PLACES WORD ..`:
//! - `ring`, with lines `offer FIRST LAST`, `front`, `held`, `remove` and `drain`;
//! - `queue`, which puts as many items in as there are places and one more, and takes all out;
//! - `world`, with a line for each step, of which it prints the answers;
//! - `every`, which does every interleaving of an isolate that raises the words in this order (`event`,
//!   `engine` and `ring`) with a processor that takes what is next, and counts them.
//! `expected.py`, beside this crate's sources, works out the same lines from the rules alone.
#![tactic(auto)]

mod every;
mod items;
mod queue;
mod ring;
mod steps;
mod world;

use prof_base::Memory;
use std::alloc::{AllocError, Global};
use std::{fs, io};

fn answers(
    alloc: Global,
    kind: &str,
    places: u32,
    words: &str,
    lines: &str,
) -> Result<String, io::Error> {
    if places < 1 || places > 1_024 {
        return Ok(String::from_str(alloc, "no such ring\n")?);
    }
    match kind {
        "ring" => ring::answers(alloc, places, lines),
        "queue" => queue::answers(alloc, places),
        "world" => world::answers(alloc, places, lines),
        _ => every::answers(alloc, places, words),
    }
}

pub(crate) fn out_of_memory(_memory: Memory) -> io::Error {
    AllocError.into()
}

fn main(rt: HostRuntime) -> Result<(), io::Error> {
    let alloc = rt.alloc();
    let all = fs::read_to_string(&rt, "cases")?;
    for case in all.split("% ").skip(1) {
        let (head, lines) = case.split_once('\n').unwrap_or((case, ""));
        println!(rt; "% {head}")?;
        let (kind, rest) = head.split_once(' ').unwrap_or((head, ""));
        let (number, words) = rest.split_once(' ').unwrap_or((rest, ""));
        let places = number.parse::<u32>().unwrap_or(0);
        let answered = answers(alloc, kind, places, words, lines)?;
        print!(rt; "{answered}")?;
    }
    Ok(())
}
