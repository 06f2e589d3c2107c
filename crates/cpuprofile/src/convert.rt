// What a finished profile becomes in a file.
ghost use Rattle.std.specs.Prelude.{◌≡◌, ◌≤◌, ◌^◌, ◌<◌, length, map, decimal, IfOk, Some};
ghost use Rattle.code_event.specs.FileText.{file_text};
ghost use Rattle.cpuprofile.specs.Converted.{less_one, some_reason, file_ticks, file_node, file_nodes, file_delta, file_profile};
ghost use Rattle.cpuprofile.specs.Given.{DeltasFit, HasSmallNumbers, IsGiven};
ghost use Rattle.cpuprofile.specs.Valid.{IsExact, IsLineNumber, IsValid};
ghost use Rattle.std.specs.List.{AllByRecursion};
ghost use Rattle.cpuprofile.specs.ProfileText.{profile_text};

use crate::file_text::FileText;
use crate::profile::{FileNode, FileTicks, Profile};
use code_event::{FinNode, Finished, LineTicks};
use itoa::Buffer;
use prof_base::{Memory, Sequence, Text};
use std::alloc::Global;

// Counts from 0 what counts from 1; -1 for 0.
fn less_one(number: u32) -> i64
    ensures exact { result ≡ less_one number }
    ensures in_range { IsLineNumber result }
{
    if number == 0 {
        -1
    } else {
        i64::from(number - 1)
    }
}

fn file_text_of(alloc: Global, text: &Text) -> Result<FileText, Memory>
    ensures { IfOk result (λ made. made ≡ text.now) }
{
    FileText::new(alloc, text.bytes())
}

fn script_text(alloc: Global, script: u32) -> Result<FileText, Memory>
    ensures { IfOk result (λ made. made ≡ decimal script) }
{
    FileText::new(alloc, Buffer::new().format(script).as_bytes())
}

fn file_reason(alloc: Global, reason: &Option<Text>) -> Result<Option<FileText>, Memory>
    ensures { IfOk result (λ made. made ≡ some_reason reason.now) }
{
    match reason {
        None => Ok(None),
        Some(text) if text.bytes().is_empty() => Ok(None),
        Some(text) => Ok(Some(file_text_of(alloc, text)?)),
    }
}

fn wide(alloc: Global, numbers: &[u32]) -> Result<Sequence<u64>, Memory>
    ensures exact { IfOk result (λ made. made ≡ numbers.now) }
    ensures small { IfOk result (λ made. AllByRecursion (λ number. number < 2 ^ 32) made) }
{
    let wide = numbers
        .iter()
        .map(|number| u64::from(*number))
        .collect(alloc)?;
    Ok(Sequence::from_vec(wide))
}

fn file_ticks(alloc: Global, lines: &[LineTicks]) -> Result<Sequence<FileTicks>, Memory>
    ensures exact { IfOk result (λ made. made ≡ map file_ticks lines.now) }
    ensures small { IfOk result (λ made. AllByRecursion (λ at. IsExact at.line) made) }
{
    let mut made = Vec::with_capacity(alloc, lines.len())?;
    for line in lines {
        made.push(FileTicks {
            line: u64::from(line.line),
            ticks: line.ticks,
        })?;
    }
    Ok(Sequence::from_vec(made))
}

fn file_node(alloc: Global, id: u64, node: &FinNode) -> Result<FileNode, Memory>
    ensures exact { IfOk result (λ made. made ≡ file_node id node.now) }
    ensures small { IfOk result HasSmallNumbers }
{
    Ok(FileNode {
        id,
        name: file_text_of(alloc, &node.entry.name)?,
        script: script_text(alloc, node.entry.script)?,
        url: file_text_of(alloc, &node.entry.url)?,
        line: less_one(node.entry.line),
        column: less_one(node.entry.column),
        hits: node.hits,
        children: wide(alloc, node.children.as_slice())?,
        ticks: file_ticks(alloc, node.lines.as_slice())?,
        reason: file_reason(alloc, &node.reason)?,
    })
}

fn file_nodes(alloc: Global, nodes: &[FinNode]) -> Result<Sequence<FileNode>, Memory>
    ensures exact { IfOk result (λ made. made ≡ file_nodes 1 nodes.now) }
    ensures small { IfOk result (λ made. AllByRecursion HasSmallNumbers made) }
{
    let mut made = Vec::with_capacity(alloc, nodes.len())?;
    for (at, node) in nodes.iter().enumerate() {
        made.push(file_node(alloc, at as u64 + 1, node)?)?;
    }
    Ok(Sequence::from_vec(made))
}

fn file_delta(delta: u64) -> i64
    ensures { result ≡ file_delta delta }
{
    delta.min(0x7fff_ffff_ffff_ffff) as i64
}

fn file_deltas(alloc: Global, deltas: &[u64]) -> Result<Sequence<i64>, Memory>
    ensures { IfOk result (λ made. made ≡ map file_delta deltas.now) }
{
    let mut made = Vec::with_capacity(alloc, deltas.len())?;
    for delta in deltas {
        made.push(file_delta(*delta))?;
    }
    Ok(Sequence::from_vec(made))
}

/// Makes the profile that a finished one becomes in a file: lines and columns count from 0, and an
/// empty reason is none.
pub fn profile_of(alloc: Global, finished: &Finished) -> Result<Profile, Memory>
    ensures exact { IfOk result (λ profile. profile ≡ file_profile finished.now) }
    ensures text { IfOk result (λ profile. DeltasFit finished.now → profile_text profile ≡ file_text finished.now) }
    ensures valid { IfOk result (λ profile. IsGiven finished.now → IsValid profile) }
{
    Ok(Profile {
        nodes: file_nodes(alloc, finished.nodes.as_slice())?,
        start: finished.start.value(),
        end: finished.end.value(),
        samples: wide(alloc, finished.samples.as_slice())?,
        deltas: file_deltas(alloc, finished.deltas.as_slice())?,
    })
}
