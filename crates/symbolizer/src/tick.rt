// The paths of a tick.
ghost use Rattle.std.specs.Prelude.{◌≡◌, List, IfOk};
ghost use Rattle.code_event.specs.Symbolizer.{path, leaf_line, tick_frames};
ghost use Rattle.code_event.specs.declared.code_map.Range.{Range};
ghost use Rattle.code_event.specs.declared.event.Mode.TheVariants.{Leaf, Caller};
ghost use Rattle.code_map.specs.CodeMap.{HasRanges, RangesStay, ReasonsStay};
ghost use Rattle.symbolizer.specs.Paths.{paths_of};

use crate::special::special_paths;
use crate::stack::stack_paths;
use code_event::{PathPair, Tick, VmState};
use code_map::CodeMap;
use prof_base::Memory;
use std::alloc::Global;

/// Finds the paths of a tick, in both modes, over the code that the map has.
fn tick_paths(alloc: Global, map: &mut CodeMap, tick: &Tick) -> Result<PathPair, Memory>
    ensures paths { (ranges : List Range) → HasRanges map.old ranges → IfOk result (λ paths. paths ≡ paths_of (tick_frames ranges tick.now)) }
    ensures ranges { RangesStay map.old map.new }
    ensures reasons { ReasonsStay map.old map.new }
{
    match tick.state {
        VmState::Js => stack_paths(alloc, map, tick.frames.as_slice()),
        VmState::Idle => special_paths(alloc, "(idle)"),
        VmState::Native => special_paths(alloc, "(program)"),
        VmState::Gc => special_paths(alloc, "(garbage collector)"),
    }
}

/// Finds the paths of a tick, in both modes, over the code that the map has.
pub fn paths(alloc: Global, map: &mut CodeMap, tick: &Tick) -> Result<PathPair, Memory>
    ensures leaf { (ranges : List Range) → HasRanges map.old ranges → IfOk result (λ paths. paths.leaf ≡ path Leaf (tick_frames ranges tick.now)) }
    ensures caller { (ranges : List Range) → HasRanges map.old ranges → IfOk result (λ paths. paths.caller ≡ path Caller (tick_frames ranges tick.now)) }
    ensures leaf_line { (ranges : List Range) → HasRanges map.old ranges → IfOk result (λ paths. paths.leaf_line ≡ leaf_line (tick_frames ranges tick.now)) }
    ensures ranges { RangesStay map.old map.new }
    ensures reasons { ReasonsStay map.old map.new }
{
    tick_paths(alloc, map, tick)
}
