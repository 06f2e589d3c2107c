// Why functions are not optimised, in a list, the latest first.
ghost use Rattle.std.specs.Prelude.{◌≡◌, map, find, IfOk, OnOk};
ghost use Rattle.std.specs.Option.{option_copied};
ghost use Rattle.code_event.specs.CodeMap.{same_entry};
ghost use Rattle.code_event.specs.DeoptReasons.{reasons_in, with_reason, with_reason_at, reasons_after_event};
ghost use Rattle.code_map.specs.CodeMap.{node_with_reason};

use crate::object::CodeObject;
use crate::objects::entry_at;
use code_event::{CodeEvent, DeoptReason, Entry, FinNode};
use prof_base::{Memory, Text};

/// Returns whether the two entries are the same.
fn same_entry(one: &Entry, other: &Entry) -> bool
    ensures { result ≡ same_entry one.now other.now }
{
    one.name.same(&other.name)
        && one.url.same(&other.url)
        && one.script == other.script
        && one.line == other.line
        && one.column == other.column
}

/// Finds the latest reason of an entry, with the entry.
fn latest_of<'a>(reasons: &'a [DeoptReason], entry: &Entry) -> Option<&'a DeoptReason>
    ensures { option_copied result ≡ find (λ r. same_entry entry.now r.entry) reasons.now }
{
    reasons
        .iter()
        .find(|reason| same_entry(entry, &reason.entry))
}

/// Returns the latest reason of an entry.
pub(crate) fn reason_in<'a>(reasons: &'a [DeoptReason], entry: &Entry) -> Option<&'a Text>
    ensures { option_copied result ≡ reasons_in reasons.now entry.now }
{
    match latest_of(reasons, entry) {
        Some(latest) => Some(&latest.reason),
        None => None,
    }
}

/// Gives an entry a new reason.
fn put_reason(reasons: &mut Vec<DeoptReason>, entry: &Entry, reason: &Text) -> Result<(), Memory>
    ensures { OnOk result (reasons_in reasons.new.items ≡ with_reason (reasons_in reasons.old.items) reason.now entry.now) }
{
    let latest = DeoptReason {
        entry: entry.copy()?,
        reason: reason.copy()?,
    };
    reasons.insert(0, latest)?;
    Ok(())
}

/// Gives the function whose code starts at an address, if any does, a new reason.
fn put_reason_at(
    objects: &[CodeObject],
    reasons: &mut Vec<DeoptReason>,
    start: u32,
    reason: &Text,
) -> Result<(), Memory>
    ensures { OnOk result (reasons_in reasons.new.items ≡ with_reason_at objects.now (reasons_in reasons.old.items) start reason.now) }
{
    match entry_at(objects, start) {
        Some(entry) => put_reason(reasons, entry, reason),
        None => Ok(()),
    }
}

/// Changes the reasons as an event does, by the code objects before it.
pub(crate) fn change_reasons(
    objects: &[CodeObject],
    reasons: &mut Vec<DeoptReason>,
    event: &CodeEvent,
) -> Result<(), Memory>
    ensures { OnOk result (reasons_in reasons.new.items ≡ reasons_after_event objects.now (reasons_in reasons.old.items) event.now) }
{
    match event {
        CodeEvent::NoOpt { start, reason } | CodeEvent::Deopt { start, reason } => {
            put_reason_at(objects, reasons, *start, reason)
        }
        CodeEvent::Create { .. }
        | CodeEvent::Move { .. }
        | CodeEvent::Delete { .. }
        | CodeEvent::Start { .. }
        | CodeEvent::Stop { .. }
        | CodeEvent::Finish { .. } => Ok(()),
    }
}

/// Copies the latest reason of an entry, if it has one.
fn copied_reason(reasons: &[DeoptReason], entry: &Entry) -> Result<Option<Text>, Memory>
    ensures { IfOk result (λ copy. copy ≡ reasons_in reasons.now entry.now) }
{
    match reason_in(reasons, entry) {
        Some(reason) => Ok(Some(reason.copy()?)),
        None => Ok(None),
    }
}

/// Gives each node the reason of its entry.
pub(crate) fn fill_nodes(reasons: &[DeoptReason], nodes: &mut [FinNode]) -> Result<(), Memory>
    ensures { OnOk result (nodes.new ≡ map (node_with_reason (reasons_in reasons.now)) nodes.old) }
{
    for node in nodes.iter_mut() {
        node.reason = copied_reason(reasons, &node.entry)?;
    }
    Ok(())
}
