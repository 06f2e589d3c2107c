// Where the code of a layout is placed.
ghost use Rattle.std.specs.Prelude.{◌≡◌, ◌<◌, ◌≤◌, ◌%◌, length, IfOk, OnErr};
ghost use Rattle.code_space.specs.Space.{IsSpace, IsLeastFit, inserted};
ghost use Rattle.code_objects.specs.Changes.{code_size, space_of};

use code_event::{Layout, SLOT_SIZE};
use code_space::{ALIGNMENT, CodeSpace, MAX_RANGES, MAX_SIZE};
use prof_base::Memory;

// Returns the bytes of a layout's code.
fn code_size(layout: &Layout) -> u32
    ensures size { result ≡ code_size layout.now }
    ensures least { ALIGNMENT ≤ result }
    ensures greatest { result ≤ MAX_SIZE }
    ensures whole { result % ALIGNMENT ≡ 0 }
    ensures some { 1 ≤ length layout.now.slots }
{
    layout.slots().len() as u32 * SLOT_SIZE
}

/// Places the code of a layout at the least address at which it fits, and returns that address. When
/// out of memory, it leaves the space unchanged.
pub(crate) fn place_code(space: &mut CodeSpace, layout: &Layout) -> Result<u32, Memory>
    requires room { length space.old < MAX_RANGES }
    ensures space { IsSpace space.old }
    ensures some { 1 ≤ length layout.now.slots }
    ensures least { IfOk result (λ start. IsLeastFit space.old (code_size layout.now) start) }
    ensures placed { IfOk result (λ start. space.new ≡ inserted space.old (space_of start layout.now)) }
    ensures unchanged { OnErr result (space.new ≡ space.old) }
{
    // The ranges are looked at for the rules that they keep.
    let _ranges = space.as_slice();
    space.place(code_size(layout))
}
