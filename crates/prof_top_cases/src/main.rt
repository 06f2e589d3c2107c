//! Prints the results of `cpuprof_once` for each case in the file `cases`: the parts as they are
//! delivered, the status, the bytes that `out` and `err` got, the bytes that the depot then has under
//! the schedule's name, and the schedule. `expected.py`, beside this crate's sources, works out the
//! same lines from the rules alone.
#![tactic(auto)]

mod case;
mod tape;

use crate::case::{Case, case_of};
use crate::tape::{Digest, NO_BYTES, SHOWN, Tape};
use anyhow::{Result, bail};
use out_stream::OutputStream;
use prof_base::Text;
use prof_outer::{Depot, FailingPut, GetFault, MemoryDepot, MemorySink, Stored};
use prof_top::{Outcome, cpuprof_once};
use run_schedule::{EndCause, Schedule, ScheduleEntry, What};
use std::alloc::Global;
use std::{fs, str};

/// A schedule with at most this many entries is printed whole.
const SHORT: usize = 8;

/// The name of the file that has the text of a run's schedule.
const SCHEDULE: &str = "cpuprof-1.schedule";

fn name_of(alloc: Global, name: &str) -> Result<Text> {
    let Ok(name) = Text::new(alloc, name.as_bytes()) else {
        bail!("no name of a file: {name}")
    };
    Ok(name)
}

fn stored(alloc: Global, name: &str, bytes: &str) -> Result<Stored> {
    Ok(Stored {
        name: name_of(alloc, name)?,
        bytes: bytes.as_bytes().to_vec(alloc)?,
    })
}

fn depot_of(alloc: Global, case: &Case<'_>) -> Result<MemoryDepot> {
    let mut files = vec![in alloc; stored(alloc, case.name, case.program.as_str())?]?;
    if let Some(old) = case.old {
        files.push(stored(alloc, SCHEDULE, old)?)?;
    }
    let put = FailingPut {
        call: case.put_fails,
        left: case.put_leaves,
    };
    Ok(MemoryDepot::with_failing_puts(
        files,
        vec![in alloc; case.read_fails]?,
        vec![in alloc; put]?,
    ))
}

// Prints what the depot has under the schedule's name: of a long text its length and its hash.
fn print_put(rt: HostRuntime, depot: &mut MemoryDepot) -> Result<()> {
    let (alloc, name) = (rt.alloc(), name_of(rt.alloc(), SCHEDULE)?);
    let mut got = depot.get(alloc, &name);
    if let Err(GetFault::Failed) = got {
        // The one call that was to fail was not made before.
        got = depot.get(alloc, &name);
    }
    let Ok(bytes) = got else {
        println!(rt; "put nothing")?;
        return Ok(());
    };
    let mut digest = NO_BYTES;
    digest.add(&bytes);
    let Digest { length, hash } = digest;
    if length > SHOWN {
        println!(rt; "put {length} bytes, {hash:016x}")?;
    } else {
        println!(rt; "put {:?}", str::from_utf8(&bytes)?)?;
    }
    Ok(())
}

fn end_word(cause: EndCause) -> &'static str {
    match cause {
        EndCause::Halt => "halt",
        EndCause::Overflow => "overflow",
        EndCause::OffEnd => "offend",
        EndCause::Budget => "budget",
        EndCause::Full => "full",
        EndCause::Memory => "memory",
    }
}

fn print_entry(rt: &impl Print, entry: &ScheduleEntry) -> Result<()> {
    print!(rt; "  {} {} ", entry.step, entry.time.value())?;
    match entry.what {
        What::Sampled => println!(rt; "sampled")?,
        What::Dropped => println!(rt; "dropped")?,
        What::Start(options) => println!(rt; "start {} {}", options.port, options.interval)?,
        What::Stop { port, session } => println!(rt; "stop {} {}", port, session.0)?,
        What::End(cause) => println!(rt; "end {}", end_word(cause))?,
    }
    Ok(())
}

fn print_schedule(rt: &impl Print, schedule: &Schedule) -> Result<()> {
    let entries = schedule.entries();
    println!(rt;
        "schedule {} {} {} {} entries {}",
        schedule.base(),
        schedule.ring(),
        schedule.budget(),
        schedule.limit(),
        entries.len()
    )?;
    if entries.len() <= SHORT {
        for entry in entries {
            print_entry(rt, entry)?;
        }
    }
    Ok(())
}

fn print_outcome(
    rt: &impl Print,
    outcome: &Outcome,
    out: &MemorySink,
    err: &MemorySink,
) -> Result<()> {
    println!(rt; "status {}", outcome.status)?;
    println!(rt; "chunks of {}", outcome.stream.chunk_size())?;
    println!(rt; "out {:?}", str::from_utf8(out.bytes())?)?;
    println!(rt; "err {:?}", str::from_utf8(err.bytes())?)?;
    Ok(())
}

fn run(rt: HostRuntime, case: &Case<'_>) -> Result<()> {
    let alloc = rt.alloc();
    let mut depot = depot_of(alloc, case)?;
    let tape = Tape::new(rt, case);
    let stream: Box<dyn OutputStream + Send> = Box::new(alloc, tape)?;
    let mut out = MemorySink::new(alloc, vec![in alloc; case.out_fails]?);
    let mut err = MemorySink::new(alloc, vec![in alloc; case.err_fails]?);
    let outcome = cpuprof_once(alloc, &case.words, &mut depot, stream, &mut out, &mut err);
    print_outcome(&rt, &outcome, &out, &err)?;
    print_put(rt, &mut depot)?;
    for schedule in outcome.schedules.as_slice() {
        print_schedule(&rt, schedule)?;
    }
    Ok(())
}

fn main(rt: HostRuntime) -> Result<()> {
    let all = fs::read_to_string(&rt, "cases")?;
    for block in all.split("% ").skip(1) {
        let case = case_of(rt.alloc(), block)?;
        println!(rt; "% {}", case.title)?;
        run(rt, &case)?;
    }
    Ok(())
}
