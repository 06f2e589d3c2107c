// The lines that are printed.
ghost use Rattle.std.specs.Prelude.{◌≡◌, ◌≤◌, ◌++◌, length, flat_map, count_by, IfOk, OnOk, string_bytes};
ghost use Rattle.run_schedule.specs.Schedule.{is_sampled};
ghost use Rattle.prof_top.specs.PrintedText.{end_word, end_line, is_dropped, counts_line, samples_line, schedule_lines, is_tick, kinds_line, items_line, note_line};

use code_event::Item;
use item_fold::FileNote;
use run_schedule::{EndCause, Schedule, ScheduleEntry, What};
use std::alloc::{AllocError, Global};

fn end_word(cause: EndCause) -> &'static str
    ensures { result.now ≡ end_word cause }
{
    match cause {
        EndCause::Halt => "halt",
        EndCause::Overflow => "overflow",
        EndCause::OffEnd => "offend",
        EndCause::Budget => "budget",
        EndCause::Full => "full",
        EndCause::Memory => "memory",
    }
}

// Adds the line of an end, and nothing for another entry.
fn put_end(alloc: Global, text: &mut String, entry: &ScheduleEntry) -> Result<(), AllocError>
    ensures { OnOk result (string_bytes text.new ≡ string_bytes text.old ++ end_line entry.now entry.now.what) }
{
    match entry.what {
        What::End(cause) => {
            let (word, step) = (end_word(cause), entry.step);
            let line = format!(in alloc; "end {word} {step}\n")?;
            text.push_str(line.as_str())
        }
        What::Sampled | What::Dropped | What::Start(_) | What::Stop { .. } => Ok(()),
    }
}

// Returns the line of the end.
fn end_lines(alloc: Global, entries: &[ScheduleEntry]) -> Result<String, AllocError>
    ensures { IfOk result (λ text. string_bytes text ≡ flat_map (λ entry. end_line entry entry.what) entries.now) }
{
    let mut text = String::new(alloc);
    for entry in entries {
        put_end(alloc, &mut text, entry)?;
    }
    Ok(text)
}

// Counts the samples that were taken.
fn sampled(entries: &[ScheduleEntry]) -> usize
    ensures { result ≡ count_by (λ entry. is_sampled entry.what) entries.now }
{
    entries
        .iter()
        .filter(|entry| entry.what == What::Sampled)
        .count()
}

// Counts the samples that were dropped.
fn dropped(entries: &[ScheduleEntry]) -> usize
    ensures { result ≡ count_by (λ entry. is_dropped entry.what) entries.now }
{
    entries
        .iter()
        .filter(|entry| entry.what == What::Dropped)
        .count()
}

fn counts_line(alloc: Global, sampled: usize, dropped: usize) -> Result<String, AllocError>
    ensures { IfOk result (λ text. string_bytes text ≡ counts_line sampled dropped) }
{
    let mut line = format!(in alloc; "sampled {sampled}")?;
    let rest = format!(in alloc; " dropped {dropped}\n")?;
    line.push_str(rest.as_str())?;
    Ok(line)
}

// Returns the line that says how many samples were taken and how many were dropped.
fn samples_line(alloc: Global, entries: &[ScheduleEntry]) -> Result<String, AllocError>
    ensures { IfOk result (λ text. string_bytes text ≡ samples_line entries.now) }
{
    counts_line(alloc, sampled(entries), dropped(entries))
}

// Returns the lines of a schedule.
fn schedule_lines(alloc: Global, schedule: &Schedule) -> Result<String, AllocError>
    ensures { IfOk result (λ text. string_bytes text ≡ schedule_lines schedule.now.entries) }
{
    let entries = schedule.entries();
    let mut text = end_lines(alloc, entries)?;
    let samples = samples_line(alloc, entries)?;
    text.push_str(samples.as_str())?;
    Ok(text)
}

fn is_tick(item: &Item) -> bool
    ensures { result ≡ is_tick item.now }
{
    match item {
        Item::Tick(_) => true,
        Item::Event(_) => false,
    }
}

// Counts the ticks.
fn ticks(items: &[Item]) -> usize
    ensures { result ≡ count_by is_tick items.now }
{
    let mut ticks = 0;
    for item in items {
        if is_tick(item) {
            ticks += 1;
        }
    }
    ticks
}

fn kinds_line(alloc: Global, events: usize, ticks: usize) -> Result<String, AllocError>
    ensures { IfOk result (λ text. string_bytes text ≡ kinds_line events ticks) }
{
    let line = format!(in alloc; "items {events} {ticks}\n")?;
    Ok(line)
}

/// Returns the line that says how many events and how many ticks there are.
#[tactic(auto, using(crate::proofs::TicksAndEvents::ticks_and_events))]
pub(crate) fn items_line(alloc: Global, items: &[Item]) -> Result<String, AllocError>
    ensures { IfOk result (λ text. string_bytes text ≡ items_line items.now) }
{
    let ticks = ticks(items);
    kinds_line(alloc, items.len() - ticks, ticks)
}

/// Returns what is printed of a run, but for its files: the guest's own text, and the lines of its
/// schedule.
pub(crate) fn run_lines(
    alloc: Global,
    printed: &[u8],
    schedule: &Schedule,
) -> Result<Vec<u8>, AllocError>
    ensures { IfOk result (λ text. text.items ≡ printed.now ++ schedule_lines schedule.now.entries) }
{
    let mut text = printed.to_vec(alloc)?;
    let lines = schedule_lines(alloc, schedule)?;
    text.extend_from_slice(lines.as_bytes())?;
    Ok(text)
}

// Adds the line of a file that was delivered.
fn put_file_line(alloc: Global, text: &mut Vec<u8>, note: &FileNote) -> Result<(), AllocError>
    ensures { OnOk result (text.new.items ≡ text.old.items ++ note_line note.now) }
{
    let (session, length) = (note.session.0, note.length);
    let line = format!(in alloc; "file {session} {length}\n")?;
    text.extend_from_slice(line.as_bytes())
}

/// Returns these lines, and after them a line for each file that was delivered.
pub(crate) fn with_file_lines(
    alloc: Global,
    lines: &[u8],
    notes: &[FileNote],
) -> Result<Vec<u8>, AllocError>
    ensures { IfOk result (λ text. text.items ≡ lines.now ++ flat_map note_line notes.now) }
{
    let mut text = lines.to_vec(alloc)?;
    for note in notes {
        put_file_line(alloc, &mut text, note)?;
    }
    Ok(text)
}
