// Ranges slid down.
ghost use Rattle.std.specs.Prelude.{◌≡◌, ◌<◌, ◌≤◌, ◌+◌, ◌++◌, ◌==◌, [], ◌∷◌, length, vec_len, vec_capacity, if◌then◌else◌};
ghost use Rattle.code_space.specs.Space.{IsSpace};
ghost use Rattle.code_space.specs.Compaction.{compacted, moves_between};

use crate::range::{CodeMove, CodeRange, FIRST_ADDRESS};

/// Adds a move, unless it leads to where it comes from.
fn push_move(moves: &mut Vec<CodeMove>, from: u32, to: u32)
    requires room { vec_len moves.old < vec_capacity moves.old }
    ensures items { moves.new.items ≡ (if from == to then moves.old.items else moves.old.items ++ record { from = from; to = to } ∷ []) }
    ensures one { vec_len moves.new ≤ vec_len moves.old + 1 }
    ensures capacity { vec_capacity moves.old ≤ vec_capacity moves.new }
{
    if from != to {
        moves.push(CodeMove { from, to }).unwrap();
    }
}

/// Slides each range down to the end of the one before, and adds the moves of those that did not
/// start there. There is room for the moves, so it takes no memory.
pub(crate) fn slide(ranges: &mut [CodeRange], moves: &mut Vec<CodeMove>)
    requires space { IsSpace ranges.old }
    requires room { vec_len moves.old + length ranges.old ≤ vec_capacity moves.old }
    ensures compacted { ranges.new ≡ compacted FIRST_ADDRESS ranges.old }
    ensures moves { moves.new.items ≡ moves.old.items ++ moves_between ranges.old (compacted FIRST_ADDRESS ranges.old) }
{
    let mut free = FIRST_ADDRESS;
    for range in ranges.iter_mut() {
        let CodeRange { start, size } = *range;
        push_move(moves, start, free);
        range.start = free;
        free += size;
    }
}
