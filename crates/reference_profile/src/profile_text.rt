// The file of a finished profile: `Profile` in the Chrome DevTools Protocol 1.3 as JSON (RFC 8259),
// with no space.
ghost use Rattle.std.specs.Prelude.{◌≡◌, ◌++◌, List, ℕ, decimal, map, IfOk, OnOk, Some};
ghost use Rattle.json.specs.Print.{quoted};
ghost use Rattle.code_event.specs.FileText.{list_text, from_zero, call_frame_text, line_text, children_text, lines_text, reason_text, node_text, node_texts, file_text};
ghost use Rattle.reference_profile.specs.TextParts.{comma_before};

use code_event::{Entry, FinNode, Finished, LineTicks};
use prof_base::{Memory, Sequence, Text, put_decimal};
use serde_json::Value;
use std::alloc::{AllocError, Global};

fn put(out: &mut Vec<u8>, text: &str) -> Result<(), AllocError>
    ensures { OnOk result (out.new.items ≡ out.old.items ++ text.now) }
{
    out.extend_from_slice(text.as_bytes())
}

// Adds a number that counts from 1 as one that counts from 0, or -1 for 0.
fn put_from_zero(out: &mut Vec<u8>, number: u32) -> Result<(), AllocError>
    ensures { OnOk result (out.new.items ≡ out.old.items ++ from_zero number) }
{
    if number == 0 {
        put(out, "-1")
    } else {
        put_decimal(out, u64::from(number - 1))
    }
}

fn put_string(alloc: Global, out: &mut Vec<u8>, text: &Text) -> Result<(), AllocError>
    ensures { OnOk result (out.new.items ≡ out.old.items ++ quoted text.now) }
{
    let value = Value::String(String::from_str(alloc, text.as_str())?);
    let json = value.to_string(alloc)?;
    put(out, json.as_str())
}

// Adds the comma before an item of a list, if it is not the first.
fn put_comma(out: &mut Vec<u8>, at: usize) -> Result<(), AllocError>
    ensures { OnOk result (out.new.items ≡ out.old.items ++ comma_before at) }
{
    if at == 0 { Ok(()) } else { put(out, ",") }
}

fn put_call_frame(alloc: Global, out: &mut Vec<u8>, entry: &Entry) -> Result<(), AllocError>
    ensures { OnOk result (out.new.items ≡ out.old.items ++ call_frame_text entry.now) }
{
    put(out, "{\"functionName\":")?;
    put_string(alloc, out, &entry.name)?;
    put(out, ",\"scriptId\":\"")?;
    put_decimal(out, u64::from(entry.script))?;
    put(out, "\",\"url\":")?;
    put_string(alloc, out, &entry.url)?;
    put(out, ",\"lineNumber\":")?;
    put_from_zero(out, entry.line)?;
    put(out, ",\"columnNumber\":")?;
    put_from_zero(out, entry.column)?;
    put(out, "}")
}

/// An item of a list in the file.
trait ListItem {
    /// Its text there.
    ghost text: { Self → List ℕ };

    /// Adds that text.
    fn put_item(&self, out: &mut Vec<u8>) -> Result<(), AllocError>
        ensures { OnOk result (out.new.items ≡ out.old.items ++ text self.now) };
}

impl ListItem for u32 {
    ghost text = { decimal };

    fn put_item(&self, out: &mut Vec<u8>) -> Result<(), AllocError> {
        put_decimal(out, u64::from(*self))
    }
}

impl ListItem for u64 {
    ghost text = { decimal };

    fn put_item(&self, out: &mut Vec<u8>) -> Result<(), AllocError> {
        put_decimal(out, *self)
    }
}

impl ListItem for LineTicks {
    ghost text = { line_text };

    fn put_item(&self, out: &mut Vec<u8>) -> Result<(), AllocError> {
        put(out, "{\"line\":")?;
        put_decimal(out, u64::from(self.line))?;
        put(out, ",\"ticks\":")?;
        put_decimal(out, self.ticks)?;
        put(out, "}")
    }
}

// Adds a list in brackets.
fn put_list<T: ListItem>(out: &mut Vec<u8>, items: &[T]) -> Result<(), AllocError>
    ensures { OnOk result (out.new.items ≡ out.old.items ++ list_text (map T.text items.now)) }
{
    put(out, "[")?;
    for (at, item) in items.iter().enumerate() {
        put_comma(out, at)?;
        item.put_item(out)?;
    }
    put(out, "]")
}

fn put_children(out: &mut Vec<u8>, ids: &[u32]) -> Result<(), AllocError>
    ensures { OnOk result (out.new.items ≡ out.old.items ++ children_text ids.now) }
{
    match ids {
        [] => Ok(()),
        [_, ..] => {
            put(out, ",\"children\":")?;
            put_list(out, ids)
        }
    }
}

fn put_lines(out: &mut Vec<u8>, lines: &[LineTicks]) -> Result<(), AllocError>
    ensures { OnOk result (out.new.items ≡ out.old.items ++ lines_text lines.now) }
{
    match lines {
        [] => Ok(()),
        [_, ..] => {
            put(out, ",\"positionTicks\":")?;
            put_list(out, lines)
        }
    }
}

// Adds a reason, unless it is empty.
fn put_some_reason(alloc: Global, out: &mut Vec<u8>, text: &Text) -> Result<(), AllocError>
    ensures { OnOk result (out.new.items ≡ out.old.items ++ reason_text (Some text.now)) }
{
    match text.bytes() {
        [] => Ok(()),
        [_, ..] => {
            put(out, ",\"deoptReason\":")?;
            put_string(alloc, out, text)
        }
    }
}

fn put_reason(alloc: Global, out: &mut Vec<u8>, reason: &Option<Text>) -> Result<(), AllocError>
    ensures { OnOk result (out.new.items ≡ out.old.items ++ reason_text reason.now) }
{
    match reason {
        None => Ok(()),
        Some(text) => put_some_reason(alloc, out, text),
    }
}

fn put_node(alloc: Global, out: &mut Vec<u8>, id: u64, node: &FinNode) -> Result<(), AllocError>
    ensures { OnOk result (out.new.items ≡ out.old.items ++ node_text id node.now) }
{
    put(out, "{\"id\":")?;
    put_decimal(out, id)?;
    put(out, ",\"callFrame\":")?;
    put_call_frame(alloc, out, &node.entry)?;
    put(out, ",\"hitCount\":")?;
    put_decimal(out, node.hits)?;
    put_children(out, node.children.as_slice())?;
    put_lines(out, node.lines.as_slice())?;
    put_reason(alloc, out, &node.reason)?;
    put(out, "}")
}

fn put_nodes(alloc: Global, out: &mut Vec<u8>, nodes: &[FinNode]) -> Result<(), AllocError>
    ensures { OnOk result (out.new.items ≡ out.old.items ++ list_text (node_texts 1 nodes.now)) }
{
    put(out, "[")?;
    for (at, node) in nodes.iter().enumerate() {
        put_comma(out, at)?;
        put_node(alloc, out, at as u64 + 1, node)?;
    }
    put(out, "]")
}

fn put_profile(alloc: Global, out: &mut Vec<u8>, profile: &Finished) -> Result<(), AllocError>
    ensures { OnOk result (out.new.items ≡ out.old.items ++ file_text profile.now) }
{
    put(out, "{\"nodes\":")?;
    put_nodes(alloc, out, profile.nodes.as_slice())?;
    put(out, ",\"startTime\":")?;
    put_decimal(out, profile.start.value())?;
    put(out, ",\"endTime\":")?;
    put_decimal(out, profile.end.value())?;
    put(out, ",\"samples\":")?;
    put_list(out, profile.samples.as_slice())?;
    put(out, ",\"timeDeltas\":")?;
    put_list(out, profile.deltas.as_slice())?;
    put(out, "}")
}

/// Writes the file of a finished profile.
pub fn file_text(alloc: Global, profile: &Finished) -> Result<Sequence<u8>, Memory>
    ensures { IfOk result (λ text. text ≡ file_text profile.now) }
{
    let mut out = Vec::new(alloc);
    put_profile(alloc, &mut out, profile)?;
    Ok(Sequence::from_vec(out))
}
