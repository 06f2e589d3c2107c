// The text of a run's schedule, which is put into the depot.
ghost use Rattle.std.specs.Prelude.{◌≡◌, ◌⊎◌, ◌≤◌, IfOk, OnOk, OnErr, IsErrOf};
ghost use Rattle.prof_base.specs.Causes.{Rose};
ghost use Rattle.prof_outer.specs.Puts.{IsPut, AfterFailedPut};
ghost use Rattle.record_text.specs.ScheduleTexts.{schedule_text};
ghost use Rattle.run_schedule.specs.Schedule.{IsLegalSchedule};
ghost use Rattle.prof_top.specs.Ending.{after_put, IsDue, IsWorkEnding};
ghost use Rattle.prof_top.specs.PutText.{schedule_name};

use crate::ending::Ending;
use crate::printout::where_done;
use out_stream::Undelivered;
use prof_base::{Memory, Text, TextRefused};
use prof_outer::{Depot, PutFault};
use record_text::write_schedule;
use run_schedule::Schedule;
use std::alloc::Global;

// Returns the name of the file that has the text of a run's schedule.
fn schedule_name(alloc: Global) -> Result<Text, Memory>
    ensures name { IfOk result (λ name. name ≡ schedule_name) }
{
    match Text::new(alloc, b"cpuprof-1.schedule") {
        Ok(name) => Ok(name),
        Err(TextRefused::Memory) => Err(Memory),
        Err(TextRefused::TooLong | TextRefused::NotPrintable { .. }) => unreachable!(),
    }
}

/// Puts the text of a run's schedule, once. It does nothing where memory ran out in the delivery of
/// the files.
pub(crate) fn put_schedule<D: Depot>(
    alloc: Global,
    delivered: Result<(), Undelivered>,
    schedule: &Schedule,
    depot: &mut D,
) -> Result<(), PutFault>
    requires legal { IsLegalSchedule schedule.now }
    ensures put { OnOk result (IsPut (D.held depot.old) schedule_name (schedule_text schedule.now) (D.held depot.new)) }
    ensures not_put { OnErr result (AfterFailedPut (D.held depot.old) schedule_name (schedule_text schedule.now) (D.held depot.new)) }

    // Where memory ran out before, nothing is tried.
    ensures room { IsErrOf delivered Undelivered.Memory → IsErrOf result PutFault.Memory }
    ensures untried { IsErrOf delivered Undelivered.Memory → D.held depot.new ≡ D.held depot.old }

    // Each fault is counted. The count changes at nothing else and never falls.
    ensures failed { IsErrOf result PutFault.Failed → Rose (D.write_faults depot.old) (D.write_faults depot.new) }
    ensures no_write_fault { OnOk result (D.write_faults depot.new ≡ D.write_faults depot.old) }
    ensures memory_write_faults { IsErrOf result PutFault.Memory → D.write_faults depot.new ≡ D.write_faults depot.old }
    ensures write_faults { D.write_faults depot.old ≤ D.write_faults depot.new }

    // The counts of reads stay.
    ensures misses { D.misses depot.new ≡ D.misses depot.old }
    ensures read_faults { D.read_faults depot.new ≡ D.read_faults depot.old }
{
    if let Err(Undelivered::Memory) = delivered {
        return Err(PutFault::Memory);
    }
    let name = schedule_name(alloc)?;
    let text = write_schedule(alloc, schedule)?;
    depot.put(alloc, &name, &text)
}

/// Returns how a call ends that was to end in this way, by how its schedule was put.
pub(crate) fn after_put(ending: Ending, put: Result<(), PutFault>) -> Ending
    ensures is { result ≡ after_put ending put }
    ensures ending { IsWorkEnding ending → IsWorkEnding result }
    ensures due { IsDue result → result ≡ ending }
    ensures cannot_write { result ≡ Ending.CannotWrite → (ending ≡ Ending.CannotWrite) ⊎ IsErrOf put PutFault.Failed }
    ensures aborted { result ≡ Ending.Aborted → ending ≡ Ending.Aborted }
{
    match put {
        Ok(()) => ending,
        Err(PutFault::Failed) => where_done(ending, Ending::CannotWrite),
        Err(PutFault::Memory) => Ending::Memory,
    }
}
