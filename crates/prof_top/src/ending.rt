// How a call ends: its status and its line of error.
ghost use Rattle.std.specs.Prelude.{◌≡◌, ◌⊎◌, ◌≤◌, IfOk, OnOk, IsErrOf, string_bytes};
ghost use Rattle.prof_base.specs.Causes.{Rose};
ghost use Rattle.prof_outer.specs.Appends.{AppendsWhole, AppendsPart};
ghost use Rattle.prof_top.specs.Ending.{status_of, cause_word, refused_line, fault_word, items_refused_line, trap_word, trap_line, line_of, ending_after};
ghost use Rattle.prof_top.specs.Written.{IsWritten};

use guest_text::ProgramCause;
use prof_base::Text;
use prof_outer::{Sink, SinkFault};
use record_text::LineCause;
use std::alloc::{AllocError, Global};

/// How a guest trapped.
#[derive(Clone, Copy, Debug, PartialEq, Eq)]
pub enum Trap {
    /// A call found no room on the guest's stack.
    Overflow,
    /// A function ran past its last instruction.
    OffEnd,
}

/// How a call ends, with what its line of error says.
#[derive(Debug, Drop)]
pub enum Ending {
    /// What was asked for was done: the guest halted, if one was run, every file was delivered, and
    /// the text was written.
    Done,
    /// The words are no line of the command table.
    Usage,
    /// The text of the program cannot be read: the first fault is at this line, counted from 1.
    ProgramRefused {
        name: Text,
        line: u32,
        cause: ProgramCause,
    },
    /// There is no file with this name.
    Missing {
        name: Text,
    },
    /// The file with this name could not be read.
    CannotRead {
        name: Text,
    },
    /// The stream or `out` failed, or the schedule's text could not be put.
    CannotWrite,
    /// Out of memory.
    Memory,
    /// The guest trapped with this step.
    Trapped {
        trap: Trap,
        step: u64,
    },
    /// The guest did as many steps as the budget allows, and did not end.
    BudgetSpent {
        steps: u64,
    },
    /// The text of the item list cannot be read: the first fault is at this line, counted from 1.
    ItemsRefused {
        line: u32,
        cause: LineCause,
    },
    /// The schedule of a run had no room for a further entry.
    ScheduleFull,
    /// The stream aborted.
    Aborted,
}

fn cause_word(cause: ProgramCause) -> &'static str
    ensures { result.now ≡ cause_word cause }
{
    match cause {
        ProgramCause::Word => "word",
        ProgramCause::Number => "number",
        ProgramCause::UnknownName => "unknown",
        ProgramCause::Twice => "twice",
        ProgramCause::Limit => "limit",
        ProgramCause::NoMain => "nomain",
    }
}

fn refused_line(
    alloc: Global,
    name: &Text,
    line: u32,
    cause: ProgramCause,
) -> Result<String, AllocError>
    ensures { IfOk result (λ text. string_bytes text ≡ refused_line name.now line cause) }
{
    let name = name.as_str();
    let mut text = format!(in alloc; "cpuprof: program {name} line {line}: ")?;
    text.push_str(cause_word(cause))?;
    text.push_str("\n")?;
    Ok(text)
}

fn fault_word(cause: LineCause) -> &'static str
    ensures { result.now ≡ fault_word cause }
{
    match cause {
        LineCause::Word => "word",
        LineCause::Number => "number",
        LineCause::Order => "order",
        LineCause::Session => "session",
        LineCause::Limit => "limit",
        LineCause::Fit => "fit",
    }
}

fn items_refused_line(alloc: Global, line: u32, cause: LineCause) -> Result<String, AllocError>
    ensures { IfOk result (λ text. string_bytes text ≡ items_refused_line line cause) }
{
    let mut text = format!(in alloc; "cpuprof: items line {line}: ")?;
    text.push_str(fault_word(cause))?;
    text.push_str("\n")?;
    Ok(text)
}

fn trap_word(trap: Trap) -> &'static str
    ensures { result.now ≡ trap_word trap }
{
    match trap {
        Trap::Overflow => "overflow",
        Trap::OffEnd => "offend",
    }
}

fn trap_line(alloc: Global, trap: Trap, step: u64) -> Result<String, AllocError>
    ensures { IfOk result (λ text. string_bytes text ≡ trap_line trap step) }
{
    let word = trap_word(trap);
    format!(in alloc; "cpuprof: guest trap {word} at step {step}\n")
}

impl Ending {
    /// Returns the exit status.
    pub(crate) fn status(&self) -> u8
        ensures { result ≡ status_of self.now }
    {
        match self {
            Ending::Done => 0,
            Ending::Usage => 1,
            Ending::ProgramRefused { .. } => 2,
            Ending::Missing { .. } => 3,
            Ending::CannotRead { .. } => 4,
            Ending::CannotWrite => 5,
            Ending::Memory => 6,
            Ending::Trapped { .. } => 7,
            Ending::BudgetSpent { .. } => 8,
            Ending::ItemsRefused { .. } => 10,
            Ending::ScheduleFull => 13,
            Ending::Aborted => 14,
        }
    }

    /// Returns the line of error with its line end, or no bytes where all was done.
    pub(crate) fn line(&self, alloc: Global) -> Result<String, AllocError>
        ensures { IfOk result (λ line. string_bytes line ≡ line_of self.now) }
    {
        match self {
            Ending::Done => Ok(String::new(alloc)),
            Ending::Usage => String::from_str(alloc, "cpuprof: usage\n"),
            Ending::ProgramRefused { name, line, cause } => refused_line(
                alloc, name, *line, *cause,
            ),
            Ending::ItemsRefused { line, cause } => items_refused_line(alloc, *line, *cause),
            Ending::Missing { name } => {
                let name = name.as_str();
                format!(in alloc; "cpuprof: no file {name}\n")
            }
            Ending::CannotRead { name } => {
                let name = name.as_str();
                format!(in alloc; "cpuprof: cannot read {name}\n")
            }
            Ending::CannotWrite => String::from_str(alloc, "cpuprof: cannot write\n"),
            Ending::Memory => String::from_str(alloc, "cpuprof: out of memory\n"),
            Ending::Trapped { trap, step } => trap_line(alloc, *trap, *step),
            Ending::BudgetSpent { steps } => {
                format!(in alloc; "cpuprof: budget of {steps} steps is spent\n")
            }
            Ending::ScheduleFull => String::from_str(alloc, "cpuprof: schedule is full\n"),
            Ending::Aborted => String::from_str(alloc, "cpuprof: stream aborted\n"),
        }
    }
}

// Writes the line of error, where there is one.
fn say<E: Sink>(alloc: Global, ending: &Ending, err: &mut E) -> Result<(), SinkFault>
    ensures ok { OnOk result (AppendsWhole (E.written err.old) (E.written err.new) (line_of ending.now)) }
    ensures part { IsErrOf result SinkFault.Failed → AppendsPart (E.written err.old) (E.written err.new) (line_of ending.now) }
    ensures memory { IsErrOf result SinkFault.Memory → E.written err.new ≡ E.written err.old }

    // Each fault is counted, and the count never falls.
    ensures failed { IsErrOf result SinkFault.Failed → Rose (E.faults err.old) (E.faults err.new) }
    ensures faults { E.faults err.old ≤ E.faults err.new }
{
    let Ok(line) = ending.line(alloc) else {
        return Err(SinkFault::Memory);
    };
    if line.is_empty() {
        return Ok(());
    }
    err.write_all(alloc, line.as_bytes())
}

// Returns how the call ends, by how its line of error was written.
fn ending_after(ending: Ending, said: Result<(), SinkFault>) -> Ending
    ensures { result ≡ ending_after ending said }
{
    match said {
        Err(SinkFault::Memory) => Ending::Memory,
        Ok(()) | Err(SinkFault::Failed) => ending,
    }
}

/// Reports how the call ends by its line on `err`, if there is one, and returns how it ends then. A
/// fault of `err` changes nothing; where writing runs out of memory, so does the call.
pub(crate) fn report<E: Sink>(alloc: Global, ending: Ending, err: &mut E) -> Ending
    ensures ending { (result ≡ ending) ⊎ (result ≡ Ending.Memory) }
    ensures written { IsWritten (line_of result) (status_of result) (E.written err.old) (E.written err.new) (E.faults err.old) (E.faults err.new) }
    ensures faults { E.faults err.old ≤ E.faults err.new }
{
    let said = say(alloc, &ending, err);
    ending_after(ending, said)
}
