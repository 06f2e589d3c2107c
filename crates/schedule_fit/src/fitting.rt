// Whether a schedule fits a program.
ghost use Rattle.std.specs.Prelude.{◌≡◌, ◌≢◌, ◌<◌, ◌^◌, length, IfErr, OnOk};
ghost use Rattle.guest_machine.specs.Machine.{program_of};
ghost use Rattle.isolate.specs.Fits.{Fits};
ghost use Rattle.run_schedule.specs.Schedule.{IsLegalSchedule};
ghost use Rattle.schedule_fit.specs.Reached.{Runs};
ghost use Rattle.schedule_fit.specs.Unfits.{AllFit, IsUnfit, Rise};

use crate::copying::copy_program;
use crate::running::{begin, is_reached};
use guest_machine::Machine;
use guest_program::Program;
use prof_base::Memory;
use run_schedule::{Schedule, ScheduleEntry};
use std::alloc::Global;

/// Why a schedule was not found to fit a program.
#[derive(Clone, Copy, Debug, PartialEq, Eq)]
pub enum Unfit {
    /// The entry with this number, counted from 0, is the first that the program does not reach.
    At { entry: u32 },
    /// Out of memory.
    Memory,
}

impl From<Memory> for Unfit {
    ghost use Rattle.schedule_fit.specs.declared.fitting.Unfit.{Unfit};

    ghost from_gives = { λ _ e. e ≡ Unfit.Memory };

    fn from(_: Memory) -> Unfit {
        Unfit::Memory
    }
}

// Runs the machine through the entries, up to the first that does not fit.
fn test_entries(machine: &mut Machine, entries: &[ScheduleEntry]) -> Result<(), Unfit>
    requires runs { Runs machine.old }
    requires order { Rise machine.old.steps entries.now }
    requires few { length entries.now < 2 ^ 32 }
    ensures fits { OnOk result (AllFit (program_of machine.old) entries.now) }
    ensures unfit { IfErr result (λ unfit. IsUnfit (program_of machine.old) entries.now unfit) }
{
    let mut number: u32 = 0;
    for entry in entries {
        if !is_reached(machine, entry)? {
            return Err(Unfit::At { entry: number });
        }
        number += 1;
    }
    Ok(())
}

/// Tells whether a schedule fits a program: whether the program has not ended at the step of each
/// entry, and at an end for a cause of its own ends there, for that cause. The program runs on a
/// machine of its own, once, up to the first entry that does not fit. Where it is out of memory,
/// it tells nothing.
pub fn test_fit(alloc: Global, program: &Program, schedule: &Schedule) -> Result<(), Unfit>
    requires legal { IsLegalSchedule schedule.now }
    ensures fits { OnOk result (Fits program.now schedule.now) }
    ensures unfit { IfErr result (λ unfit. IsUnfit program.now schedule.now.entries unfit) }
    ensures never { IfErr result (λ unfit. unfit ≢ Unfit.Memory → ¬ Fits program.now schedule.now) }
{
    // A schedule has at most as many entries as 32 bits can number.
    let _limit = schedule.limit();
    let mut machine = begin(alloc, copy_program(alloc, program)?)?;
    test_entries(&mut machine, schedule.entries())
}
