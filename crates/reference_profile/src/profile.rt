// The finished profile of a session.
ghost use Rattle.std.specs.Prelude.{◌≡◌, ◌≤◌, ◌++◌, IfOk, map, take};
ghost use Rattle.code_event.specs.Seen.{seen_by};
ghost use Rattle.code_event.specs.Symbolizer.{path, leaf_path, caller_path, leaf_line};
ghost use Rattle.code_event.specs.Tree.{id_of};
ghost use Rattle.code_event.specs.Recording.{recording_by};
ghost use Rattle.code_event.specs.Profile.{visit_of, visits_of, cut, deltas, profile_of, finished_of};
ghost use Rattle.code_event.specs.FileText.{file};
ghost use Rattle.reference_profile.specs.Listed.{listed};

use crate::profile_text::file_text;
use crate::recording::recorded;
use crate::subsample::kept;
use crate::tree::{fin_nodes, id_of, nodes};
use code_event::{Finished, Mode, PathStep, Recording, ResolvedFrame, ResolvedTick, Seen, Visit};
use prof_base::{MAX_INTERVAL, Memory, Micros, Sequence, SessionId};
use std::alloc::Global;

fn leaf_path(alloc: Global, frames: &[ResolvedFrame]) -> Result<Sequence<PathStep>, Memory>
    ensures { IfOk result (λ found. found ≡ leaf_path frames.now) }
{
    let mut found = Sequence::new(alloc);
    for frame in frames {
        found.push(PathStep {
            entry: frame.entry.copy()?,
            call_line: 0,
        })?;
    }
    Ok(found)
}

fn caller_path(alloc: Global, frames: &[ResolvedFrame]) -> Result<Sequence<PathStep>, Memory>
    ensures { IfOk result (λ found. found ≡ caller_path 0 frames.now) }
{
    let mut found = Sequence::new(alloc);
    let mut line = 0;
    for frame in frames {
        found.push(PathStep {
            entry: frame.entry.copy()?,
            call_line: line,
        })?;
        line = frame.line;
    }
    Ok(found)
}

fn path(alloc: Global, mode: Mode, frames: &[ResolvedFrame]) -> Result<Sequence<PathStep>, Memory>
    ensures { IfOk result (λ found. found ≡ path mode frames.now) }
{
    match mode {
        Mode::Leaf => leaf_path(alloc, frames),
        Mode::Caller => caller_path(alloc, frames),
    }
}

// Returns the line of the last step, or 0 where there is none.
fn leaf_line(frames: &[ResolvedFrame]) -> u32
    ensures { result ≡ leaf_line frames.now }
{
    match frames {
        [] => 0,
        [.., last] => last.line,
    }
}

// Places the ticks in the tree of their session.
fn visits(alloc: Global, mode: Mode, ticks: &[ResolvedTick]) -> Result<Sequence<Visit>, Memory>
    ensures { IfOk result (λ found. found ≡ visits_of mode ticks.now) }
{
    let mut found = Sequence::new(alloc);
    for tick in ticks {
        found.push(Visit {
            path: path(alloc, mode, tick.frames.as_slice())?,
            line: leaf_line(tick.frames.as_slice()),
            hit: tick.hit,
        })?;
    }
    Ok(found)
}

// Returns the ids of the ticks' nodes, in order.
fn ids(
    alloc: Global,
    nodes: &[Sequence<PathStep>],
    visits: &[Visit],
) -> Result<Sequence<u32>, Memory>
    ensures { IfOk result (λ found. found ≡ map (λ visit. id_of nodes.now visit.path) visits.now) }
{
    let mut found = Sequence::new(alloc);
    for visit in visits {
        found.push(id_of(nodes, visit.path.as_slice())?)?;
    }
    Ok(found)
}

// Returns how many of these samples are listed.
fn listed(most: Option<u32>, count: usize) -> usize
    ensures within { result ≤ count }
    ensures value { result ≡ listed most count }
{
    match most {
        None => count,
        Some(most) => count.min(most as usize),
    }
}

// Returns the ids of the samples that are listed.
fn samples(
    alloc: Global,
    most: Option<u32>,
    nodes: &[Sequence<PathStep>],
    visits: &[Visit],
) -> Result<Sequence<u32>, Memory>
    ensures { IfOk result (λ found. found ≡ cut most (map (λ visit. id_of nodes.now visit.path) visits.now)) }
{
    ids(alloc, nodes, &visits[..listed(most, visits.len())])
}

// Returns the microseconds from each tick to the one before it, and from the first to this time.
fn deltas(alloc: Global, start: Micros, ticks: &[ResolvedTick]) -> Result<Sequence<u64>, Memory>
    ensures { IfOk result (λ found. found ≡ deltas start (map (λ tick. tick.time) ticks.now)) }
{
    let mut found = Sequence::new(alloc);
    let mut before = start.value();
    for tick in ticks {
        let time = tick.time.value();
        found.push(time.saturating_sub(before))?;
        before = time;
    }
    Ok(found)
}

// Makes the profile of kept ticks.
fn profile_of(
    alloc: Global,
    session: SessionId,
    recording: &Recording,
    ticks: &[ResolvedTick],
) -> Result<Finished, Memory>
    ensures { IfOk result (λ profile. profile ≡ profile_of session (recording_by recording.now) ticks.now) }
{
    let options = recording.begun.options;
    let start = recording.begun.start;
    let visits = visits(alloc, options.mode, ticks)?;
    let set = nodes(alloc, visits.as_slice())?;
    let nodes = fin_nodes(
        alloc,
        set.as_slice(),
        visits.as_slice(),
        recording.reasons.as_slice(),
    )?;
    let samples = samples(
        alloc,
        options.max_samples,
        set.as_slice(),
        visits.as_slice(),
    )?;
    let last = listed(options.max_samples, ticks.len());
    let deltas = deltas(alloc, start, &ticks[..last])?;
    Ok(Finished {
        session,
        port: options.port,
        start,
        end: recording.end,
        nodes,
        samples,
        deltas,
    })
}

/// Returns the finished profile of a session in what is seen, by the base that the isolate rounds
/// intervals to, or none where the session was not ended. It answers out of memory where there are
/// more nodes than ids.
pub fn finished_of(
    alloc: Global,
    base: u32,
    session: SessionId,
    seen: &[Seen],
) -> Result<Option<Finished>, Memory>
    requires base_low { 1 ≤ base }
    requires base_high { base ≤ MAX_INTERVAL }
    ensures { IfOk result (λ found. found ≡ finished_of base session (map seen_by seen.now)) }
{
    match recorded(alloc, session, seen)? {
        None => Ok(None),
        Some(recording) => {
            let ticks = kept(alloc, base, &recording.begun)?;
            Ok(Some(profile_of(alloc, session, &recording, ticks.as_slice())?))
        }
    }
}

/// Returns the file of a session in what is seen, by the base that the isolate rounds intervals to,
/// or none where the session was not ended.
pub fn file(
    alloc: Global,
    base: u32,
    session: SessionId,
    seen: &[Seen],
) -> Result<Option<Sequence<u8>>, Memory>
    requires base_low { 1 ≤ base }
    requires base_high { base ≤ MAX_INTERVAL }
    ensures { IfOk result (λ text. text ≡ file base session (map seen_by seen.now)) }
{
    match finished_of(alloc, base, session, seen)? {
        None => Ok(None),
        Some(profile) => Ok(Some(file_text(alloc, &profile)?)),
    }
}
