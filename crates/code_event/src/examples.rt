//! The definitions, computed on worked examples. Each function does nothing: its contract is the
//! example.
ghost use Rattle.std.specs.Prelude.{◌≡◌, [], ◌∷◌, Some, codes};
ghost use Rattle.code_event.specs.CodeMap.{ranges, range_of};
ghost use Rattle.code_event.specs.Symbolizer.{frames_over, leaf_path, caller_path, leaf_line};
ghost use Rattle.code_event.specs.Seen.{seen_items};
ghost use Rattle.code_event.specs.Profile.{finished_of};
ghost use Rattle.code_event.specs.ItemFile.{item_file, item_files, ends, session};
ghost use Rattle.code_event.specs.FileLaws.{sessions_of};
ghost use Rattle.code_event.specs.Examples.{overlap_fold, overlap_file, inlined, frame, path_step, three_slots, two_sessions, first_of_two, second_of_two, two_intervals, kept_times, ended_together, ended_without_files, lower_stopped, higher_stopped, never_started};
ghost use Rattle.code_event.specs.declared.event.CodeEvent.TheVariants as event;
ghost use Rattle.code_event.specs.declared.tick.VmState.TheVariants as state;

/// A moved code object is only at its new place, also where that overlaps the old one.
pub fn moved_code_is_at_its_new_place()
    ensures overlapping { ranges (event.Create 4104 three_slots ∷ event.Move 4104 4096 ∷ []) ≡ range_of 4096 three_slots ∷ [] }
    ensures apart { ranges (event.Create 4112 three_slots ∷ event.Move 4112 4096 ∷ []) ≡ range_of 4096 three_slots ∷ [] }
{}

/// A slot of an inlined function names that function, and the one that it is inlined in at the line
/// of the call.
pub fn an_inlined_slot_stands_for_two_functions()
    ensures frames { frames_over inlined state.Js (208 ∷ 204 ∷ []) ≡ frame (codes "f") 1 2 ∷ frame (codes "f") 1 3 ∷ frame (codes "g") 8 9 ∷ [] }
    ensures leaf { leaf_path (frames_over inlined state.Js (208 ∷ 204 ∷ [])) ≡ path_step (codes "f") 1 0 ∷ path_step (codes "f") 1 0 ∷ path_step (codes "g") 8 0 ∷ [] }
    ensures caller { caller_path 0 (frames_over inlined state.Js (208 ∷ 204 ∷ [])) ≡ path_step (codes "f") 1 0 ∷ path_step (codes "f") 1 2 ∷ path_step (codes "g") 8 3 ∷ [] }
    ensures leaf_line { leaf_line (frames_over inlined state.Js (208 ∷ 204 ∷ [])) ≡ 9 }
    ensures alone { caller_path 0 (frames_over inlined state.Js (208 ∷ [])) ≡ path_step (codes "f") 1 0 ∷ path_step (codes "g") 8 3 ∷ [] }
{}

/// Two sessions keep the ticks that their own intervals ask for.
pub fn sessions_keep_ticks_by_their_own_intervals()
    ensures each { kept_times two_intervals 1 ≡ Some (1000 ∷ 2000 ∷ 3000 ∷ 4000 ∷ 5000 ∷ []) }
    ensures every_other { kept_times two_intervals 2 ≡ Some (1000 ∷ 3000 ∷ 5000 ∷ 7000 ∷ []) }
{}

/// Two sessions over one run have the trees, samples and times of their own modes and limits.
pub fn two_sessions_have_their_own_profiles()
    ensures first { finished_of 1000 (session 1) (seen_items two_sessions) ≡ Some first_of_two }
    ensures second { finished_of 1000 (session 2) (seen_items two_sessions) ≡ Some second_of_two }
{}

/// A function's code is taken away by one that overlaps it, and what is left of its addresses is
/// then in no function's code. The file is this one, byte for byte.
pub fn overlap_takes_a_function_away()
    ensures { item_file 1000 overlap_fold (session 1) ≡ Some overlap_file }
{}

/// Sessions that a finish with files ends together end by their numbers, whichever started first; a
/// finish without files leaves them no file.
pub fn a_finish_ends_sessions_by_their_numbers()
    ensures with_files { sessions_of (item_files 1000 ended_together) ≡ 1 ∷ 2 ∷ [] }
    ensures without_files { sessions_of (item_files 1000 ended_without_files) ≡ [] }
{}

/// The file of a session that is stopped comes before those of the sessions that a finish ends
/// later, whatever their numbers are.
pub fn files_of_stops_come_before_those_of_the_finish()
    ensures lower { sessions_of (item_files 1000 lower_stopped) ≡ 1 ∷ 2 ∷ [] }
    ensures higher { sessions_of (item_files 1000 higher_stopped) ≡ 2 ∷ 1 ∷ [] }
{}

/// In a list that is not legal a session may end without a file: here it is stopped and was never
/// started.
pub fn a_session_that_was_never_started_has_no_file()
    ensures ended { ends (seen_items never_started) ≡ 1 ∷ [] }
    ensures files { item_files 1000 never_started ≡ [] }
{}
