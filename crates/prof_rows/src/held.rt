// A processor that is held until its isolate has ended.
ghost use Rattle.std.specs.Prelude.{◌≡◌, ◌≤◌, None, IfOk};
ghost use Rattle.isolate_turns.specs.Ready.{IsIsolate};

use crate::runs::config;
use code_event::{EventRecord, Tick};
use guest_program::Program;
use guest_text::read_program;
use isolate_turns::{Ends, IsoTurn, Isolate};
use out_stream::SureStream;
use pipe_core::{PlainQueue, PlainRing};
use processor::{NoPorts, ProcTurn, Processor, turns_plain};
use prof_base::Memory;
use run_schedule::{DEFAULT_RING, EndCause};
use std::alloc::Global;
use std::test::Fail;
use step_clock::StepClock;

type PlainIsolate = Isolate<PlainQueue<EventRecord>, PlainQueue<Tick>, PlainRing>;

fn opened(alloc: Global, program: Program, every: u32) -> Result<PlainIsolate, Memory>
    ensures whole { IfOk result (λ isolate. IsIsolate isolate.guest.machine isolate.progress) }
    ensures spare { IfOk result (λ isolate. 1 ≤ isolate.ends.events.spare) }
{
    let ends = Ends {
        events: PlainQueue::new(alloc)?,
        vm_ticks: PlainQueue::new(alloc)?,
        ring: PlainRing::new(alloc, DEFAULT_RING)?,
    };
    Isolate::new(alloc, program, config(every), ends)
}

// Turns the isolate until it ends, and returns why; None where a hundred turns are too few.
fn turn_to_end(isolate: &mut PlainIsolate, clock: &mut StepClock) -> Option<EndCause>
    requires whole { IsIsolate isolate.old.guest.machine isolate.old.progress }
    requires spare { isolate.old.progress.ending ≡ None → 1 ≤ isolate.old.ends.events.spare }
{
    for _ in 0..100 {
        if let IsoTurn::Ended(why) = isolate.turn(clock) {
            return Some(why);
        }
    }
    None
}

// Runs the program with a processor that takes nothing before the end, and returns the file of its one
// session.
fn held_run(alloc: Global, text: &str) -> Option<Vec<u8>> {
    let program = read_program(alloc, text.as_bytes()).ok()?;
    let Ok(mut isolate) = opened(alloc, program, 1) else {
        return None;
    };
    let EndCause::Halt = turn_to_end(&mut isolate, &mut StepClock::new(1))? else {
        return None;
    };
    let (_, _, ends) = isolate.close();
    let stream = SureStream::new(alloc, 65_536);
    let mut processor = Processor::new(
        alloc,
        1,
        ends.events,
        ends.vm_ticks,
        ends.ring,
        stream,
    ).ok()?;
    let ProcTurn::Over = turns_plain(&mut processor, &mut NoPorts, 100)? else {
        return None;
    };
    let (_, _, _, stream) = processor.release();
    let [file] = stream.closed_parts() else {
        return None;
    };
    file.as_slice().to_vec(alloc).ok()
}

// Code that is freed while its ticks still wait is named by what lay there at its ticks.
#[test]
fn a_held_processor_names_code_by_the_tick(rt: HostRuntime) -> Result<(), Fail> {
    let text = r#"func main "main" "a.js" 1 1 1
1 call f
2 drop f
3 gc
4 call g
5 halt
func f "f" "a.js" 1 10 1
10 ret
func g "g" "a.js" 1 20 1
20 ret
"#;
    let Some(file) = held_run(rt.alloc(), text) else {
        panic!(rt; "no file");
    };
    let expected =
        r#"{"nodes":[{"id":1,"callFrame":{"functionName":"(root)","scriptId":"0","url":"","lineNumber":-1,"columnNumber":-1},"hitCount":0,"children":[2]},{"id":2,"callFrame":{"functionName":"main","scriptId":"1","url":"a.js","lineNumber":0,"columnNumber":0},"hitCount":4,"children":[3,4],"positionTicks":[{"line":2,"ticks":1},{"line":3,"ticks":1},{"line":4,"ticks":1},{"line":5,"ticks":1}]},{"id":3,"callFrame":{"functionName":"f","scriptId":"1","url":"a.js","lineNumber":9,"columnNumber":0},"hitCount":1,"positionTicks":[{"line":10,"ticks":1}]},{"id":4,"callFrame":{"functionName":"g","scriptId":"1","url":"a.js","lineNumber":19,"columnNumber":0},"hitCount":1,"positionTicks":[{"line":20,"ticks":1}]}],"startTime":0,"endTime":7,"samples":[2,3,2,2,2,4,2],"timeDeltas":[0,1,1,1,1,1,1]}"#;
    assert_eq!(rt; file.as_slice(), expected.as_bytes());
    Ok(())
}
