// Where code starts after moves.
ghost use Rattle.std.specs.Prelude.{◌≡◌, ◌≤◌, ◌+◌, ◌==◌, ◌++◌, find, length, map, slice_get, vec_len, vec_capacity};
ghost use Rattle.std.specs.List.Sorted.{IsNonDecreasingBy};
ghost use Rattle.std.specs.Option.{option_copied};
ghost use Rattle.code_objects.specs.Changes.{moved_by, move_event};
ghost use Rattle.code_objects.specs.Objects.{if_from};

use code_event::CodeEvent;
use code_space::CodeMove;

// Finds the index of the first move that begins at this address or above, by a binary search.
fn first_from(moves: &[CodeMove], start: u32) -> usize
    requires rising { IsNonDecreasingBy (λ move. move.from) moves.now }
    ensures { find (λ move. move.from == start) moves.now ≡ if_from start (slice_get moves.now result) }
{
    moves.partition_point(|item| item.from < start)
}

// Finds the move that begins at this address.
fn move_from(moves: &[CodeMove], start: u32) -> Option<&CodeMove>
    requires rising { IsNonDecreasingBy (λ move. move.from) moves.now }
    ensures { option_copied result ≡ find (λ move. move.from == start) moves.now }
{
    match moves.get(first_from(moves, start)) {
        Some(item) if item.from == start => Some(item),
        _ => None,
    }
}

/// Returns where the code starts after these moves that starts here before.
pub(crate) fn start_after(moves: &[CodeMove], start: u32) -> u32
    requires rising { IsNonDecreasingBy (λ move. move.from) moves.now }
    ensures { result ≡ moved_by moves.now start }
{
    match move_from(moves, start) {
        Some(item) => item.to,
        None => start,
    }
}

/// Adds the events of moves. There is room for them, so it takes no memory.
pub(crate) fn move_events(events: &mut Vec<CodeEvent>, moves: &[CodeMove])
    requires room { vec_len events.old + length moves.now ≤ vec_capacity events.old }
    ensures { events.new.items ≡ events.old.items ++ map move_event moves.now }
{
    for item in moves {
        let CodeMove { from, to } = *item;
        events.push(CodeEvent::Move { from, to }).unwrap();
    }
}
