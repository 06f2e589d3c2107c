// The recording of a session: what it sees from its start to its end.
ghost use Rattle.std.specs.Prelude.{◌≡◌, IfOk, OnOk, option_map, map};
ghost use Rattle.code_event.specs.DeoptReasons.{reasons_in};
ghost use Rattle.code_event.specs.Seen.{seen_by};
ghost use Rattle.code_event.specs.Recording.{is_for, with_tick, ended, recording, recording_by};

use crate::deopt_reasons::copy_reasons;
use code_event::{Begun, DeoptReason, Recording, ResolvedFrame, ResolvedTick, Seen};
use prof_base::{Memory, Micros, Sequence, SessionId};
use std::alloc::Global;

fn copy_frames(alloc: Global, frames: &[ResolvedFrame]) -> Result<Sequence<ResolvedFrame>, Memory>
    ensures { IfOk result (λ copy. copy ≡ frames.now) }
{
    let mut copies = Sequence::new(alloc);
    for frame in frames {
        copies.push(frame.copy()?)?;
    }
    Ok(copies)
}

pub(crate) fn copy_tick(alloc: Global, tick: &ResolvedTick) -> Result<ResolvedTick, Memory>
    ensures { IfOk result (λ copy. copy ≡ tick.now) }
{
    Ok(ResolvedTick {
        time: tick.time,
        interval: tick.interval,
        hit: tick.hit,
        only: tick.only,
        frames: copy_frames(alloc, tick.frames.as_slice())?,
    })
}

// Returns whether a tick is for a session: for all, or for that one.
fn is_for(session: SessionId, only: Option<SessionId>) -> bool
    ensures { result ≡ is_for session.0 only }
{
    match only {
        None => true,
        Some(only) => only.0 == session.0,
    }
}

fn add_tick(begun: &mut Begun, session: SessionId, tick: &ResolvedTick) -> Result<(), Memory>
    ensures { OnOk result (begun.new ≡ with_tick session.0 tick.now begun.old) }
{
    if is_for(session, tick.only) {
        let copy = copy_tick(begun.ticks.allocator(), tick)?;
        begun.ticks.push(copy)?;
    }
    Ok(())
}

// Adds a tick to the session, if it has begun and the tick is for it.
fn ticked(
    begun: Option<Begun>,
    session: SessionId,
    tick: &ResolvedTick,
) -> Result<Option<Begun>, Memory>
    ensures { IfOk result (λ now. now ≡ option_map (with_tick session.0 tick.now) begun) }
{
    match begun {
        None => Ok(None),
        Some(mut begun) => {
            add_tick(&mut begun, session, tick)?;
            Ok(Some(begun))
        }
    }
}

// Ends the recording of a session, if it has begun.
fn ended(
    begun: Option<Begun>,
    end: Micros,
    reasons: &Sequence<DeoptReason>,
) -> Result<Option<Recording>, Memory>
    ensures { IfOk result (λ now. option_map recording_by now ≡ ended begun end (reasons_in reasons.now)) }
{
    match begun {
        None => Ok(None),
        Some(begun) => Ok(Some(Recording {
            begun,
            end,
            reasons: copy_reasons(reasons)?,
        })),
    }
}

/// Returns the recording of a session in what is seen, from its last start to its first stop after
/// that or to a finish, or none where it was not ended.
pub(crate) fn recorded(
    alloc: Global,
    session: SessionId,
    seen: &[Seen],
) -> Result<Option<Recording>, Memory>
    ensures { IfOk result (λ found. option_map recording_by found ≡ recording session.0 (map seen_by seen.now)) }
{
    let mut begun = None;
    for one in seen {
        match one {
            Seen::Started {
                session: started,
                options,
                time,
            } => {
                if started.0 == session.0 {
                    begun = Some(Begun {
                        options: *options,
                        start: *time,
                        ticks: Sequence::new(alloc),
                    });
                }
            }
            Seen::Ticked(tick) => {
                begun = ticked(begun, session, tick)?;
            }
            Seen::Stopped {
                session: stopped,
                time,
                reasons,
            } => {
                if stopped.0 == session.0 {
                    return ended(begun, *time, reasons);
                }
            }
            Seen::Finished { time, reasons, .. } => return ended(begun, *time, reasons),
        }
    }
    Ok(None)
}
