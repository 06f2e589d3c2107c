// The text of a profile: JSON (RFC 8259), with no space. It is written in runs into one buffer.
ghost use Rattle.std.specs.Prelude.{◌≡◌, ◌++◌, List, ℕ, decimal, map, IfOk, OnOk, Some};
ghost use Rattle.std.specs.Bool.{OnTrue};
ghost use Rattle.std.specs.Fmt.{signed_decimal};
ghost use Rattle.std.specs.List.{AllPass};
ghost use Rattle.json.specs.Print.{quoted};
ghost use Rattle.code_event.specs.FileText.{list_text, children_text, reason_text, file_text};
ghost use Rattle.cpuprofile.specs.Converted.{file_profile};
ghost use Rattle.cpuprofile.specs.Given.{DeltasFit};
ghost use Rattle.cpuprofile.specs.ProfileText.{ticks_text, all_ticks_text, call_frame_text, node_text, profile_text, comma_before};
ghost use Rattle.cpuprofile.specs.Valid.{IsValid};
ghost use Rattle.cpuprofile.specs.Escapes.{needs_no_escape};

use crate::convert::profile_of;
use crate::file_text::FileText;
use crate::profile::{FileNode, FileTicks, Profile};
use code_event::Finished;
use itoa::Buffer;
use prof_base::{Memory, put_decimal};
use serde_json::Value;
use std::alloc::{AllocError, Global};

fn put(out: &mut Vec<u8>, text: &str) -> Result<(), AllocError>
    ensures { OnOk result (out.new.items ≡ out.old.items ++ text.now) }
{
    out.extend_from_slice(text.as_bytes())
}

fn put_signed(out: &mut Vec<u8>, number: i64) -> Result<(), AllocError>
    ensures { OnOk result (out.new.items ≡ out.old.items ++ signed_decimal number) }
{
    out.extend_from_slice(Buffer::new().format(number).as_bytes())
}

// Returns whether a byte stands for itself in a string.
fn needs_no_escape(byte: u8) -> bool
    ensures { result ≡ needs_no_escape byte }
{
    byte >= 0x20 && byte != b'"' && byte != b'\\'
}

fn all_need_no_escape(bytes: &[u8]) -> bool
    ensures { OnTrue result (AllPass needs_no_escape bytes.now) }
{
    bytes.iter().all(|byte| needs_no_escape(*byte))
}

// Adds a string of which no byte needs an escape.
fn put_plain_string(out: &mut Vec<u8>, bytes: &[u8]) -> Result<(), AllocError>
    requires { AllPass needs_no_escape bytes.now }
    ensures { OnOk result (out.new.items ≡ out.old.items ++ quoted bytes.now) }
{
    put(out, "\"")?;
    out.extend_from_slice(bytes)?;
    put(out, "\"")
}

fn put_escaped_string(alloc: Global, out: &mut Vec<u8>, text: &str) -> Result<(), AllocError>
    ensures { OnOk result (out.new.items ≡ out.old.items ++ quoted text.now) }
{
    let value = Value::String(String::from_str(alloc, text)?);
    let json = value.to_string(alloc)?;
    put(out, json.as_str())
}

// Adds a string: in whole where no byte of it needs an escape.
fn put_string(alloc: Global, out: &mut Vec<u8>, text: &FileText) -> Result<(), AllocError>
    ensures { OnOk result (out.new.items ≡ out.old.items ++ quoted text.now) }
{
    if all_need_no_escape(text.bytes()) {
        put_plain_string(out, text.bytes())
    } else {
        put_escaped_string(alloc, out, text.as_str())
    }
}

// Adds the comma before an item of a list, if it is not the first.
fn put_comma(out: &mut Vec<u8>, at: usize) -> Result<(), AllocError>
    ensures { OnOk result (out.new.items ≡ out.old.items ++ comma_before at) }
{
    if at == 0 { Ok(()) } else { put(out, ",") }
}

/// An item of a list in the file.
trait ListItem {
    /// Its text there.
    ghost text: { Self → List ℕ };

    /// Adds that text.
    fn put_item(&self, out: &mut Vec<u8>) -> Result<(), AllocError>
        ensures { OnOk result (out.new.items ≡ out.old.items ++ text self.now) };
}

impl ListItem for u64 {
    ghost text = { decimal };

    fn put_item(&self, out: &mut Vec<u8>) -> Result<(), AllocError> {
        put_decimal(out, *self)
    }
}

impl ListItem for i64 {
    ghost text = { signed_decimal };

    fn put_item(&self, out: &mut Vec<u8>) -> Result<(), AllocError> {
        put_signed(out, *self)
    }
}

impl ListItem for FileTicks {
    ghost text = { ticks_text };

    fn put_item(&self, out: &mut Vec<u8>) -> Result<(), AllocError> {
        put(out, "{\"line\":")?;
        put_decimal(out, self.line)?;
        put(out, ",\"ticks\":")?;
        put_decimal(out, self.ticks)?;
        put(out, "}")
    }
}

// Adds a list in brackets.
fn put_list<T: ListItem>(out: &mut Vec<u8>, items: &[T]) -> Result<(), AllocError>
    ensures { OnOk result (out.new.items ≡ out.old.items ++ list_text (map T.text items.now)) }
{
    put(out, "[")?;
    for (at, item) in items.iter().enumerate() {
        put_comma(out, at)?;
        item.put_item(out)?;
    }
    put(out, "]")
}

fn put_children(out: &mut Vec<u8>, ids: &[u64]) -> Result<(), AllocError>
    ensures { OnOk result (out.new.items ≡ out.old.items ++ children_text ids.now) }
{
    match ids {
        [] => Ok(()),
        [_, ..] => {
            put(out, ",\"children\":")?;
            put_list(out, ids)
        }
    }
}

fn put_ticks(out: &mut Vec<u8>, ticks: &[FileTicks]) -> Result<(), AllocError>
    ensures { OnOk result (out.new.items ≡ out.old.items ++ all_ticks_text ticks.now) }
{
    match ticks {
        [] => Ok(()),
        [_, ..] => {
            put(out, ",\"positionTicks\":")?;
            put_list(out, ticks)
        }
    }
}

// Adds a reason, unless it is empty.
fn put_some_reason(alloc: Global, out: &mut Vec<u8>, text: &FileText) -> Result<(), AllocError>
    ensures { OnOk result (out.new.items ≡ out.old.items ++ reason_text (Some text.now)) }
{
    match text.bytes() {
        [] => Ok(()),
        [_, ..] => {
            put(out, ",\"deoptReason\":")?;
            put_string(alloc, out, text)
        }
    }
}

fn put_reason(alloc: Global, out: &mut Vec<u8>, reason: &Option<FileText>) -> Result<(), AllocError>
    ensures { OnOk result (out.new.items ≡ out.old.items ++ reason_text reason.now) }
{
    match reason {
        None => Ok(()),
        Some(text) => put_some_reason(alloc, out, text),
    }
}

fn put_call_frame(alloc: Global, out: &mut Vec<u8>, node: &FileNode) -> Result<(), AllocError>
    ensures { OnOk result (out.new.items ≡ out.old.items ++ call_frame_text node.now) }
{
    put(out, "{\"functionName\":")?;
    put_string(alloc, out, &node.name)?;
    put(out, ",\"scriptId\":")?;
    put_string(alloc, out, &node.script)?;
    put(out, ",\"url\":")?;
    put_string(alloc, out, &node.url)?;
    put(out, ",\"lineNumber\":")?;
    node.line.put_item(out)?;
    put(out, ",\"columnNumber\":")?;
    node.column.put_item(out)?;
    put(out, "}")
}

fn put_node(alloc: Global, out: &mut Vec<u8>, node: &FileNode) -> Result<(), AllocError>
    ensures { OnOk result (out.new.items ≡ out.old.items ++ node_text node.now) }
{
    put(out, "{\"id\":")?;
    put_decimal(out, node.id)?;
    put(out, ",\"callFrame\":")?;
    put_call_frame(alloc, out, node)?;
    put(out, ",\"hitCount\":")?;
    put_decimal(out, node.hits)?;
    put_children(out, node.children.as_slice())?;
    put_ticks(out, node.ticks.as_slice())?;
    put_reason(alloc, out, &node.reason)?;
    put(out, "}")
}

fn put_nodes(alloc: Global, out: &mut Vec<u8>, nodes: &[FileNode]) -> Result<(), AllocError>
    ensures { OnOk result (out.new.items ≡ out.old.items ++ list_text (map node_text nodes.now)) }
{
    put(out, "[")?;
    for (at, node) in nodes.iter().enumerate() {
        put_comma(out, at)?;
        put_node(alloc, out, node)?;
    }
    put(out, "]")
}

fn put_profile(alloc: Global, out: &mut Vec<u8>, profile: &Profile) -> Result<(), AllocError>
    ensures { OnOk result (out.new.items ≡ out.old.items ++ profile_text profile.now) }
{
    put(out, "{\"nodes\":")?;
    put_nodes(alloc, out, profile.nodes.as_slice())?;
    put(out, ",\"startTime\":")?;
    put_decimal(out, profile.start)?;
    put(out, ",\"endTime\":")?;
    put_decimal(out, profile.end)?;
    put(out, ",\"samples\":")?;
    put_list(out, profile.samples.as_slice())?;
    put(out, ",\"timeDeltas\":")?;
    put_list(out, profile.deltas.as_slice())?;
    put(out, "}")
}

/// Writes the file of a valid profile.
pub fn write_profile(alloc: Global, profile: &Profile) -> Result<Vec<u8>, Memory>
    requires valid { IsValid profile.now }
    ensures text { IfOk result (λ text. text.items ≡ profile_text profile.now) }
{
    let mut out = Vec::new(alloc);
    put_profile(alloc, &mut out, profile)?;
    Ok(out)
}

/// Writes the text of the file that a finished profile becomes, as [`write_profile`] writes what
/// [`profile_of`] makes of it.
pub fn write_finished(alloc: Global, finished: &Finished) -> Result<Vec<u8>, Memory>
    ensures profile { IfOk result (λ text. text.items ≡ profile_text (file_profile finished.now)) }
    ensures text { IfOk result (λ text. DeltasFit finished.now → text.items ≡ file_text finished.now) }
{
    let profile = profile_of(alloc, finished)?;
    let mut out = Vec::new(alloc);
    put_profile(alloc, &mut out, &profile)?;
    Ok(out)
}
