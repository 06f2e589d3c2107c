//! Laws of the definitions. Each function does nothing: its contract is the law.

ghost use Rattle.std.specs.Prelude.{◌≡◌};

mod events;
mod files;
mod moments;
mod recordings;
mod tree;

use crate::event::MAX_SESSIONS;
use crate::layout::{Layout, SLOT_SIZE};
use crate::tick::Frames;
pub use events::{
    other_ticks_do_not_matter, ranges_are_disjoint, stamping_gives_stamps, stamps_are_unique,
};
pub use files::{
    each_item_adds_the_files_of_the_sessions_that_it_ends, each_session_that_ends_has_its_file,
};
pub use moments::items_are_seen_by_the_events_before;
pub use recordings::{
    kept_ticks_are_those_at_which_intervals_add_up, recordings_stand_between_their_marks,
};
pub use tree::{
    each_hit_is_at_one_line, each_hit_is_of_one_node, each_node_but_the_root_is_one_child,
    each_sample_is_a_node, every_node_but_the_root_has_a_parent, ids_number_the_nodes,
    nodes_begin_the_paths, parents_come_first, the_root_comes_first,
};

/// States the limits that contracts and definitions cite by name: how many sessions run at once,
/// how many addresses a stack has, how many units and slots a layout has, how many units are above
/// one, each at most; and how many bytes a slot takes.
pub fn limits()
    ensures sessions { MAX_SESSIONS ≡ 100 }
    ensures addresses { Frames.MAX_LEN ≡ 255 }
    ensures units { Layout.MAX_UNITS ≡ 4096 }
    ensures slots { Layout.MAX_SLOTS ≡ 4096 }
    ensures above { Layout.MAX_ABOVE ≡ 4 }
    ensures slot_size { SLOT_SIZE ≡ 4 }
{}
