// Why functions are not optimised.
ghost use Rattle.std.specs.Prelude.{◌≡◌, ◌∷◌, IfOk};
ghost use Rattle.code_event.specs.DeoptReasons.{reasons_in, with_reason_at, reasons_after_event};

use crate::code_map::entry_at;
use code_event::{CodeEvent, DeoptReason, Range};
use prof_base::{Memory, Sequence, Text};

/// Makes a list of the same reasons.
pub(crate) fn copy_reasons(reasons: &Sequence<DeoptReason>) -> Result<Sequence<DeoptReason>, Memory>
    ensures { IfOk result (λ copy. copy ≡ reasons.now) }
{
    let mut copies = Sequence::new(reasons.allocator());
    for reason in reasons.as_slice() {
        copies.push(reason.copy()?)?;
    }
    Ok(copies)
}

/// Puts a new reason before the others.
fn with_latest(
    reasons: Sequence<DeoptReason>,
    latest: DeoptReason,
) -> Result<Sequence<DeoptReason>, Memory>
    ensures { IfOk result (λ all. all ≡ latest ∷ reasons) }
{
    let mut all = reasons.into_vec();
    all.insert(0, latest)?;
    Ok(Sequence::from_vec(all))
}

/// Returns the reasons after the code object that starts at this address got this reason not to be
/// optimised.
fn with_reason_at(
    ranges: &[Range],
    reasons: Sequence<DeoptReason>,
    start: u32,
    reason: &Text,
) -> Result<Sequence<DeoptReason>, Memory>
    ensures { IfOk result (λ after. reasons_in after ≡ with_reason_at ranges.now (reasons_in reasons) start reason.now) }
{
    match entry_at(ranges, start) {
        Some(entry) => {
            let latest = DeoptReason {
                entry: entry.copy()?,
                reason: reason.copy()?,
            };
            with_latest(reasons, latest)
        }
        None => Ok(reasons),
    }
}

/// Returns the reasons after an event, by the ranges before it.
pub(crate) fn reasons_after_event(
    ranges: &[Range],
    reasons: Sequence<DeoptReason>,
    event: &CodeEvent,
) -> Result<Sequence<DeoptReason>, Memory>
    ensures { IfOk result (λ after. reasons_in after ≡ reasons_after_event ranges.now (reasons_in reasons) event.now) }
{
    match event {
        CodeEvent::NoOpt { start, reason } | CodeEvent::Deopt { start, reason } => {
            with_reason_at(ranges, reasons, *start, reason)
        }
        CodeEvent::Create { .. }
        | CodeEvent::Move { .. }
        | CodeEvent::Delete { .. }
        | CodeEvent::Start { .. }
        | CodeEvent::Stop { .. }
        | CodeEvent::Finish { .. } => Ok(reasons),
    }
}
