// What is printed of a run.
use crate::arrival::Step;
use crate::heading::Heading;
use crate::out_of_memory;
use crate::reference::Reference;
use crate::running::begun;
use code_event::PortFile;
use item_text::ItemList;
use out_stream::MemoryStream;
use processor::{Delivery, PortCall, ProcTurn};
use std::alloc::{AllocError, Global};
use std::{io, str};

/// A part with at most this number of bytes is printed.
const SHORT: usize = 500;

fn answer_word(alloc: Global, answer: ProcTurn) -> Result<String, AllocError> {
    match answer {
        ProcTurn::TookEvent => String::from_str(alloc, "event"),
        ProcTurn::TookTick => String::from_str(alloc, "tick"),
        ProcTurn::Finished(session) => format!(in alloc; "finished {}", session.0),
        ProcTurn::Nothing => String::from_str(alloc, "nothing"),
        ProcTurn::Over => String::from_str(alloc, "over"),
        ProcTurn::Memory => String::from_str(alloc, "out of memory"),
    }
}

// Prints the answers in order, equal ones that follow one another as one with their number.
fn print_turns(rt: &impl Print, alloc: Global, answers: &[ProcTurn]) -> Result<(), io::Error> {
    print!(rt; "answers")?;
    let mut before = None;
    for (at, answer) in answers.iter().enumerate() {
        if before != Some(*answer) {
            let word = answer_word(alloc, *answer)?;
            print_word(
                rt,
                &word,
                run_length(answers.get(at..).unwrap_or(&[]), *answer),
            )?;
        }
        before = Some(*answer);
    }
    println!(rt; "")
}

fn print_word(rt: &impl Print, word: &str, count: usize) -> Result<(), io::Error> {
    if count == 1 {
        print!(rt; " {word},")
    } else {
        print!(rt; " {word} *{count},")
    }
}

// Counts the answers at the beginning that equal one.
fn run_length(answers: &[ProcTurn], answer: ProcTurn) -> usize {
    let mut count = 0usize;
    for other in answers {
        if *other != answer {
            return count;
        }
        count = count.saturating_add(1);
    }
    count
}

fn delivery_word(delivery: Delivery) -> &'static str {
    match delivery {
        Delivery::Fine => "fine",
        Delivery::Aborted => "aborted",
        Delivery::Failed => "failed",
    }
}

fn same_word(same: bool) -> &'static str {
    if same { "same" } else { "other" }
}

fn print_bytes(rt: &impl Print, bytes: &[u8]) -> Result<(), io::Error> {
    if bytes.len() > SHORT {
        println!(rt; "")
    } else {
        println!(rt; " {}", str::from_utf8(bytes).unwrap_or("no text"))
    }
}

fn print_stream(
    rt: &impl Print,
    stream: &MemoryStream,
    reference: &Reference,
) -> Result<(), io::Error> {
    for (at, part) in stream.closed_parts().iter().enumerate() {
        let same = same_word(reference.is_part(at, part));
        print!(rt; "part {} {same}", part.len())?;
        print_bytes(rt, part)?;
    }
    let unfinished = stream.unfinished_part();
    if !unfinished.is_empty() {
        print!(rt; "unfinished {}", unfinished.len())?;
        print_bytes(rt, unfinished)?;
    }
    println!(rt; "offered {}", stream.offers().len())
}

fn print_port(rt: &impl Print, call: &PortCall, reference: &Reference) -> Result<(), io::Error> {
    match &call.file {
        PortFile::File { session, bytes } => {
            let same = same_word(reference.is_file(*session, bytes.as_slice()));
            println!(rt;
                "port {} file {} {} {same}",
                call.port,
                session.0,
                bytes.len()
            )
        }
        PortFile::Lost { session } => println!(rt; "port {} lost {}", call.port, session.0),
    }
}

/// Prints what comes of a list that arrives as the steps say.
pub(crate) fn print_run(
    rt: &impl Print,
    alloc: Global,
    heading: &Heading,
    list: &ItemList,
    steps: &[Step],
    reference: &Reference,
) -> Result<(), io::Error> {
    let mut run = begun(alloc, heading, list).map_err(out_of_memory)?;
    run.go(alloc, heading, list.items.as_slice(), steps, false)
        .map_err(out_of_memory)?;
    print_turns(rt, alloc, &run.answers)?;
    let delivery = delivery_word(run.processor.delivery());
    let ticked = run.processor.ticked();
    println!(rt;
        "delivery {delivery}, ticks taken {ticked}, dropped {}",
        run.dropped
    )?;
    for note in run.processor.notes() {
        println!(rt; "note {} {}", note.session.0, note.length)?;
    }
    for call in run.ports.calls() {
        print_port(rt, call, reference)?;
    }
    let (_, _, _, stream) = run.processor.release();
    print_stream(rt, &stream, reference)
}
