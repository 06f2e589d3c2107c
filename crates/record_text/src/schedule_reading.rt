// Schedules from their text.
ghost use Rattle.std.specs.Prelude.{◌≡◌, ◌∷◌, [], IfOk, IfErr};
ghost use Rattle.prof_lines.specs.Answers.{Reads};
ghost use Rattle.run_schedule.specs.ScheduleParts.{ScheduleParts};
ghost use Rattle.record_text.specs.declared.schedule_line.ScheduleLine.TheVariants.{Head};
ghost use Rattle.record_text.specs.Refusals.{IsMemory};
ghost use Rattle.record_text.specs.ScheduleLine.{IsHead};
ghost use Rattle.record_text.specs.ScheduleTexts.{schedule_lines, with_head, rest_of, lines_read, IsTextSchedule, SpellsSchedule, IsRefusedSchedule};

use crate::refused::{ReadRefused, line_cause};
use crate::rule::Rule;
use crate::schedule_draft::ScheduleDraft;
use crate::schedule_form::head;
use crate::schedule_line::ScheduleHead;
use prof_lines::{Cause, LineFault, Lines, TextFault};
use run_schedule::Schedule;
use std::alloc::Global;

fn rest(lines: Lines, draft: ScheduleDraft) -> Result<ScheduleDraft, TextFault<Rule>>
    ensures { Reads (λ draft. draft) result (rest_of draft lines.entry.lines lines.entry.after) }
{
    let mut lines = lines;
    let mut draft = draft;
    while let Some((number, bytes)) = lines.next() {
        match draft.next(bytes) {
            Ok(next) => draft = next,
            Err(fault) => return Err(fault.at(number)),
        }
    }
    if draft.has_end() {
        Ok(draft)
    } else {
        let fault: LineFault<Rule> = LineFault::At(Cause::Own(Rule::Order));
        Err(fault.at(lines.at()))
    }
}

// The schedule of a first line and of the lines that are left.
fn begun(alloc: Global, head: ScheduleHead, lines: Lines) -> Result<Schedule, TextFault<Rule>>
    requires { IsHead head }
    ensures { Reads schedule_lines result (rest_of (Head head ∷ []) lines.entry.lines lines.entry.after) }
{
    let Ok(draft) = ScheduleDraft::new(alloc, head) else {
        return Err(TextFault::Memory);
    };
    match rest(lines, draft) {
        Ok(draft) => Ok(draft.into_schedule()),
        Err(fault) => Err(fault),
    }
}

fn read(alloc: Global, text: &[u8]) -> Result<Schedule, TextFault<Rule>>
    ensures { Reads schedule_lines result (lines_read text.now) }
{
    let mut lines = Lines::new(text);
    let Some((number, bytes)) = lines.next() else {
        let fault: LineFault<Rule> = LineFault::At(Cause::Word);
        return Err(fault.at(lines.at()));
    };
    match head(bytes) {
        Ok(head) => begun(alloc, head, lines),
        Err(fault) => Err(fault.at(number)),
    }
}

/// Reads the text of a schedule. It allocates the memory for as many entries as the first line
/// allows.
pub fn read_schedule(alloc: Global, text: &[u8]) -> Result<Schedule, ReadRefused>
    // The text's lines spell the schedule that is read.
    ensures spelled { IfOk result (λ schedule. SpellsSchedule text.now schedule) }
    // It is legal, and its numbers are in their ranges.
    ensures rules { IfOk result (λ schedule. IsTextSchedule schedule) }
    // A schedule that a text's lines spell is read, unless out of memory.
    ensures only { (schedule : ScheduleParts) → IsTextSchedule schedule → SpellsSchedule text.now schedule → IfOk result (λ read. read ≡ schedule) }
    ensures never { (schedule : ScheduleParts) → IsTextSchedule schedule → SpellsSchedule text.now schedule → IfErr result (λ refusal. IsMemory refusal) }
    // The refused line is the first with a fault, and the cause is its first fault.
    ensures refused { IfErr result (λ refusal. IsRefusedSchedule text.now refusal) }
{
    match read(alloc, text) {
        Ok(schedule) => Ok(schedule),
        Err(TextFault::Memory) => Err(ReadRefused::Memory),
        Err(TextFault::At { line, cause }) => Err(ReadRefused::At {
            line,
            cause: line_cause(cause),
        }),
    }
}
