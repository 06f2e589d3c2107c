//! The definitions of schedules, computed on small ones. Each function does nothing: its contract is
//! the example.
ghost use Rattle.std.specs.Prelude.{◌≡◌, ◌∷◌, []};
ghost use Rattle.run_schedule.specs.Schedule.{IsLegalSchedule};
ghost use Rattle.run_schedule.specs.Source.{source_after, source_of};
ghost use Rattle.run_schedule.specs.Examples.{full_at_its_limit, halted_with_room, dropped_with_room, stopped_from_another_port, sampled_for_no_session, sampled_twice_at_a_step, full_before_its_limit, halted_at_its_limit, without_an_end, sampled_after_its_end, sampled_at_its_budget, falling_in_time, two_sessions};

/// A schedule that keeps all rules is legal, whether it ends because it is full or because the program
/// halts.
pub fn schedules_that_keep_the_rules_are_legal()
    ensures full { IsLegalSchedule full_at_its_limit }
    ensures halted { IsLegalSchedule halted_with_room }
{}

/// A sample is taken for some session, alone at its step, and below the budget, and a sample is
/// dropped only after at least as many were taken as the ring has places.
pub fn samples_out_of_place_are_not_legal()
    ensures dropped { ¬ IsLegalSchedule dropped_with_room }
    ensures no_session { ¬ IsLegalSchedule sampled_for_no_session }
    ensures twice { ¬ IsLegalSchedule sampled_twice_at_a_step }
    ensures at_budget { ¬ IsLegalSchedule sampled_at_its_budget }
{}

/// A schedule has an end, nothing follows the end, and its cause is `full` exactly where it takes
/// the last place.
pub fn ends_out_of_place_are_not_legal()
    ensures full_early { ¬ IsLegalSchedule full_before_its_limit }
    ensures halted_last { ¬ IsLegalSchedule halted_at_its_limit }
    ensures no_end { ¬ IsLegalSchedule without_an_end }
    ensures after_end { ¬ IsLegalSchedule sampled_after_its_end }
{}

/// Time does not fall, and a session is stopped by the port that started it.
pub fn falling_times_and_stops_from_other_ports_are_not_legal()
    ensures falling { ¬ IsLegalSchedule falling_in_time }
    ensures other_port { ¬ IsLegalSchedule stopped_from_another_port }
{}

/// The source interval is that of the sessions that run, whose intervals are rounded to 2,000 and
/// 3,000: there is none before the first entry, and it is the second's once the first is stopped.
pub fn the_source_interval_is_that_of_the_sessions_that_run()
    ensures none { source_after two_sessions 0 ≡ 0 }
    ensures first { source_after two_sessions 1 ≡ 2000 }
    ensures both { source_after two_sessions 2 ≡ 1000 }
    ensures second { source_after two_sessions 3 ≡ 3000 }
{}

/// The source interval of large intervals is computed too.
pub fn great_intervals_have_a_common_divisor()
    ensures two { source_of 1 (1000000000 ∷ 30000000 ∷ []) ≡ 10000000 }
    ensures rounded { source_of 30000000 (1000000000 ∷ 30000000 ∷ []) ≡ 30000000 }
    ensures apart { source_of 1 (701408733 ∷ 433494437 ∷ []) ≡ 1 }
{}
