// Schedules at both ends of each range.
use prof_base::{MAX_INTERVAL, Micros};
use run_schedule::{
    EndCause, MAX_BUDGET, MAX_ENTRIES, MAX_RING, MIN_ENTRIES, Schedule, ScheduleEntry, What,
};
use std::test::Fail;

#[test]
fn entries_come_back_in_order_at_both_ends_of_each_range(rt: HostRuntime) -> Result<(), Fail> {
    let entries = [
        ScheduleEntry {
            step: 1,
            time: Micros::new(2),
            what: What::Sampled,
        },
        ScheduleEntry {
            step: 3,
            time: Micros::new(5),
            what: What::End(EndCause::Halt),
        },
    ];
    for (base, ring, budget, limit, full) in [
        (1, 1, 1, MIN_ENTRIES, true),
        (MAX_INTERVAL, MAX_RING, MAX_BUDGET, MAX_ENTRIES, false),
    ] {
        let mut schedule = Schedule::new(rt.alloc(), base, ring, budget, limit)?;
        schedule.enter(entries[0]);
        schedule.enter(entries[1]);
        assert_eq!(rt; schedule.entries(), entries.as_slice());
        assert_eq!(rt; (schedule.base(), schedule.ring()), (base, ring));
        assert_eq!(rt; (schedule.budget(), schedule.limit()), (budget, limit));
        assert_eq!(rt; schedule.is_full(), full);
    }
    Ok(())
}
