// A machine that runs alone, from entry to entry of a schedule.
ghost use Rattle.std.specs.Prelude.{◌≡◌, ◌<◌, ◌≤◌, ◌^◌, ◌-◌, ◌↔◌, suc, None, IfOk, OnOk, IsTrue};
ghost use Rattle.guest_machine.specs.Machine.{program_of};
ghost use Rattle.isolate.specs.Fits.{MayComeAbout};
ghost use Rattle.schedule_fit.specs.Reached.{HasReached, Runs, end_wanted};

use guest_machine::Machine;
use guest_program::Program;
use plain_machine::Ended;
use prof_base::Memory;
use run_schedule::{EndCause, ScheduleEntry, What};
use std::alloc::Global;

/// Makes the machine of a program before its first step.
pub(crate) fn begin(alloc: Global, program: Program) -> Result<Machine, Memory>
    ensures program { IfOk result (λ machine. program_of machine ≡ program) }
    ensures runs { IfOk result (λ machine. Runs machine) }
    ensures first { IfOk result (λ machine. machine.steps ≡ 0) }
{
    let (machine, _event) = Machine::new(alloc, program)?;
    Ok(machine)
}

// Does the program's next step.
fn do_step(machine: &mut Machine) -> Result<(), Memory>
    requires runs { Runs machine.old }
    requires going { machine.old.ended ≡ None }
    requires few { machine.old.steps < 2 ^ 64 - 1 }
    ensures program { OnOk result (program_of machine.new ≡ program_of machine.old) }
    ensures runs { OnOk result (Runs machine.new) }
    ensures steps { OnOk result (machine.new.steps ≡ suc machine.old.steps) }
{
    let _done = machine.step()?;
    Ok(())
}

// Goes on to this step, or to the program's end.
fn advance(machine: &mut Machine, step: u64) -> Result<(), Memory>
    requires runs { Runs machine.old }
    requires order { machine.old.steps ≤ step }
    ensures program { OnOk result (program_of machine.new ≡ program_of machine.old) }
    ensures runs { OnOk result (Runs machine.new) }
    ensures reached { OnOk result (HasReached machine.new step) }
{
    while machine.steps() < step && machine.ended().is_none() {
        do_step(machine)?;
    }
    Ok(())
}

// Returns how the program has ended where this happens, or none where it has not ended.
fn end_wanted(what: What) -> Option<Ended>
    ensures { result ≡ end_wanted what }
{
    match what {
        What::End(EndCause::Halt) => Some(Ended::Halt),
        What::End(EndCause::Overflow) => Some(Ended::Overflow),
        What::End(EndCause::OffEnd) => Some(Ended::OffEnd),
        _ => None,
    }
}

/// Goes on to the step of an entry, which is not before the machine's, and returns whether the
/// entry fits the program.
pub(crate) fn is_reached(machine: &mut Machine, entry: &ScheduleEntry) -> Result<bool, Memory>
    requires runs { Runs machine.old }
    requires order { machine.old.steps ≤ entry.now.step }
    ensures program { OnOk result (program_of machine.new ≡ program_of machine.old) }
    ensures runs { OnOk result (Runs machine.new) }
    ensures order { OnOk result (machine.new.steps ≤ entry.now.step) }
    ensures fits { IfOk result (λ fits. IsTrue fits ↔ MayComeAbout (program_of machine.old) entry.now.step entry.now.what) }
{
    advance(machine, entry.step)?;
    Ok(machine.steps() == entry.step && machine.ended() == end_wanted(entry.what))
}
