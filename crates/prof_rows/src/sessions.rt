// What no clause says: that the book of sessions succeeds. The examples were worked out by hand.
ghost use Rattle.std.specs.Prelude.{◌≤◌};
ghost use Rattle.prof_base.specs.declared.interval.TheConstants.{MAX_INTERVAL};

use crate::values::tick;
use code_event::{Mode, Options, VmState};
use code_map::CodeMap;
use prof_base::{MAX_INTERVAL, Micros, SessionId};
use session_book::{Book, StartRefused, StopRefused};
use std::alloc::Global;
use std::process::Abort;
use std::test::Fail;
use symbolizer::paths;

fn options(interval: u32) -> Options
    requires low { 1 ≤ interval }
    requires high { interval ≤ MAX_INTERVAL }
{
    Options {
        port: 0,
        interval,
        mode: Mode::Leaf,
        max_samples: None,
    }
}

// Has the book take a sample of native code.
fn take(alloc: Global, book: &mut Book, time: u32, interval: u32) -> Result<(), Fail> {
    let tick = tick(time, interval, VmState::Native, &[]);
    let paths = paths(alloc, &mut CodeMap::new(alloc), &tick)?;
    book.tick(&tick, &paths)?;
    Ok(())
}

// Stops a session that has taken such samples alone, after these times.
fn check_stop(
    rt: &impl Abort,
    book: &mut Book,
    session: SessionId,
    deltas: &[u64],
) -> Result<(), Fail> {
    let finished = book.stop(session, Micros::new(8000))?;
    assert_eq!(rt; finished.session, session);
    assert_eq!(rt; finished.nodes.len(), 2);
    assert_eq!(rt; finished.samples.len(), deltas.len());
    assert_eq!(rt; finished.deltas.as_slice(), deltas);
    Ok(())
}

#[test]
fn each_session_keeps_ticks_by_its_own_interval(rt: HostRuntime) -> Result<(), Fail> {
    let alloc = rt.alloc();
    let mut book = Book::new(alloc, 1000);
    book.start(SessionId(1), options(1000), Micros::new(0))?;
    book.start(SessionId(2), options(2000), Micros::new(0))?;
    assert_eq!(rt; book.source_interval(), 1000);
    for time in [1000, 2000, 3000, 4000, 5000] {
        take(alloc, &mut book, time, 1000)?;
    }
    check_stop(&rt, &mut book, SessionId(1), &[1000; 5])?;
    assert_eq!(rt; book.source_interval(), 2000);
    take(alloc, &mut book, 7000, 2000)?;
    check_stop(&rt, &mut book, SessionId(2), &[1000, 2000, 2000, 2000])?;
    assert_eq!(rt; book.source_interval(), 0);
    Ok(())
}

#[test]
fn refusals_leave_the_sessions_as_they_were(rt: HostRuntime) -> Result<(), Fail> {
    let alloc = rt.alloc();
    let mut book = Book::new(alloc, 1000);
    for number in 1..=100 {
        book.start(SessionId(number), options(1000), Micros::new(0))?;
    }
    take(alloc, &mut book, 1000, 1000)?;
    let time = Micros::new(1500);
    for (number, refusal) in [(50, StartRefused::Already), (101, StartRefused::TooMany)] {
        let refused = book.start(SessionId(number), options(2000), time);
        assert_eq!(rt; refused.err(), Some(refusal));
    }
    let refused = book.stop(SessionId(101), time).err();
    assert_eq!(rt; refused, Some(StopRefused::NoSession));
    take(alloc, &mut book, 2000, 1000)?;
    for number in 1..=100 {
        assert_eq!(rt; book.first_running(), Some(SessionId(number)));
        check_stop(&rt, &mut book, SessionId(number), &[1000, 1000])?;
    }
    assert_eq!(rt; book.first_running(), None);
    Ok(())
}
