// Values that several tests start from.
ghost use Rattle.std.specs.Prelude.{◌≤◌, length};

use code_event::{Entry, Frames, Tick, VmState};
use prof_base::{Micros, Text};
use std::alloc::Global;
use std::test::Fail;

/// Makes the entry of a function that begins at this line.
pub(crate) fn entry(alloc: Global, name: &str, line: u32) -> Result<Entry, Fail> {
    Ok(Entry {
        name: Text::new(alloc, name.as_bytes())?,
        url: Text::new(alloc, b"a.js")?,
        script: 1,
        line,
        column: 1,
    })
}

/// Makes a tick for all sessions that is a hit.
pub(crate) fn tick(time: u32, interval: u32, state: VmState, addresses: &[u32]) -> Tick
    requires { length addresses.now ≤ Frames.MAX_LEN }
{
    let mut frames = Frames::new();
    for address in addresses {
        frames.push(*address);
    }
    Tick {
        order: 0,
        tick_number: 0,
        time: Micros::new(u64::from(time)),
        interval,
        state,
        hit: true,
        only: None,
        frames,
    }
}
