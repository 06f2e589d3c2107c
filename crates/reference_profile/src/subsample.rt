// The subsample of a session: the ticks that it keeps.
ghost use Rattle.std.specs.Prelude.{◌≡◌, ◌<◌, ◌≤◌, ◌^◌, IfOk, IfSome};
ghost use Rattle.code_event.specs.Subsample.{kept};
ghost use Rattle.reference_profile.specs.Sums.{sum_after, kept_by_sum};

use crate::recording::copy_tick;
use code_event::{Begun, ResolvedTick};
use prof_base::{MAX_INTERVAL, Memory, Sequence, rounded};
use std::alloc::Global;

// Returns the sum of the intervals after a tick of this interval that is not kept, or none where
// the tick is due.
fn sum_after(rounded: u32, interval: u32, since: Option<u64>) -> Option<u64>
    requires { IfSome since (λ sum. sum < 2 ^ 32) }
    ensures after { result ≡ sum_after rounded interval since }
    ensures bound { IfSome result (λ sum. sum < 2 ^ 32) }
{
    match since {
        None => None,
        Some(sum) => {
            let sum = sum + u64::from(interval);
            if sum < u64::from(rounded) {
                Some(sum)
            } else {
                None
            }
        }
    }
}

// Returns the ticks that are kept of these, at a rounded interval.
fn kept_ticks(
    alloc: Global,
    rounded: u32,
    ticks: &[ResolvedTick],
) -> Result<Sequence<ResolvedTick>, Memory>
    ensures { IfOk result (λ found. found ≡ kept_by_sum rounded None ticks.now) }
{
    let mut found = Sequence::new(alloc);
    let mut since = None;
    for tick in ticks {
        if tick.interval == 0 {
            found.push(copy_tick(alloc, tick)?)?;
        } else {
            match sum_after(rounded, tick.interval, since) {
                None => {
                    found.push(copy_tick(alloc, tick)?)?;
                    since = Some(0);
                }
                Some(sum) => since = Some(sum),
            }
        }
    }
    Ok(found)
}

/// Returns the ticks that a recording keeps: each of interval 0, and each at which the intervals
/// since the last that was kept with one above 0 reach the session's.
pub(crate) fn kept(
    alloc: Global,
    base: u32,
    begun: &Begun,
) -> Result<Sequence<ResolvedTick>, Memory>
    requires base_low { 1 ≤ base }
    requires base_high { base ≤ MAX_INTERVAL }
    ensures { IfOk result (λ found. found ≡ kept base begun.now) }
{
    let interval = begun.options.interval;
    kept_ticks(alloc, rounded(base, interval), begun.ticks.as_slice())
}
