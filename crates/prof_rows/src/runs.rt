// Whole runs on the step clock: their files and their ends.
ghost use Rattle.std.specs.Prelude.{◌≡◌, ◌≤◌};

use clock_run::{ClockRun, run_on_clock};
use guest_text::read_program;
use isolate_turns::IsoConfig;
use out_stream::SureStream;
use prof_base::MAX_INTERVAL;
use run_schedule::{DEFAULT_RING, EndCause};
use std::alloc::{AllocError, Global};
use std::process::Abort;
use std::test::Fail;

// A program, the interval of its samples, why its run ends, and the file.
type Row = (&'static str, u32, EndCause, &'static str);

// The steps of the engine's own code count, and a call of a function and its lines are told apart.
const CALLS: [Row; 4] = [
    (
        r#"func main "main" "a.js" 1 1 1
1 native 997
2 halt
"#,
        1000,
        EndCause::Halt,
        r#"{"nodes":[{"id":1,"callFrame":{"functionName":"(root)","scriptId":"0","url":"","lineNumber":-1,"columnNumber":-1},"hitCount":0,"children":[2]},{"id":2,"callFrame":{"functionName":"main","scriptId":"1","url":"a.js","lineNumber":0,"columnNumber":0},"hitCount":0}],"startTime":0,"endTime":999,"samples":[2],"timeDeltas":[0]}"#,
    ),
    (
        r#"func main "main" "a.js" 1 1 1
1 native 997
2 halt
"#,
        998,
        EndCause::Halt,
        r#"{"nodes":[{"id":1,"callFrame":{"functionName":"(root)","scriptId":"0","url":"","lineNumber":-1,"columnNumber":-1},"hitCount":0,"children":[2]},{"id":2,"callFrame":{"functionName":"main","scriptId":"1","url":"a.js","lineNumber":0,"columnNumber":0},"hitCount":1,"positionTicks":[{"line":2,"ticks":1}]}],"startTime":0,"endTime":999,"samples":[2,2],"timeDeltas":[0,998]}"#,
    ),
    (
        r#"func main "main" "a.js" 1 1 1
1 call b
2 call a
3 halt
func a "work" "a.js" 1 9 1
9 ret
func b "work" "a.js" 1 5 1
5 ret
"#,
        1,
        EndCause::Halt,
        r#"{"nodes":[{"id":1,"callFrame":{"functionName":"(root)","scriptId":"0","url":"","lineNumber":-1,"columnNumber":-1},"hitCount":0,"children":[2]},{"id":2,"callFrame":{"functionName":"main","scriptId":"1","url":"a.js","lineNumber":0,"columnNumber":0},"hitCount":2,"children":[3,4],"positionTicks":[{"line":2,"ticks":1},{"line":3,"ticks":1}]},{"id":3,"callFrame":{"functionName":"work","scriptId":"1","url":"a.js","lineNumber":4,"columnNumber":0},"hitCount":1,"positionTicks":[{"line":5,"ticks":1}]},{"id":4,"callFrame":{"functionName":"work","scriptId":"1","url":"a.js","lineNumber":8,"columnNumber":0},"hitCount":1,"positionTicks":[{"line":9,"ticks":1}]}],"startTime":0,"endTime":5,"samples":[2,3,2,4,2],"timeDeltas":[0,1,1,1,1]}"#,
    ),
    (
        r#"func main "main" "a.js" 1 1 1
1 call g
func g "g" "a.js" 1 5 1
6 set r0 1
7 halt
"#,
        1,
        EndCause::Halt,
        r#"{"nodes":[{"id":1,"callFrame":{"functionName":"(root)","scriptId":"0","url":"","lineNumber":-1,"columnNumber":-1},"hitCount":0,"children":[2]},{"id":2,"callFrame":{"functionName":"main","scriptId":"1","url":"a.js","lineNumber":0,"columnNumber":0},"hitCount":0,"children":[3]},{"id":3,"callFrame":{"functionName":"g","scriptId":"1","url":"a.js","lineNumber":4,"columnNumber":0},"hitCount":2,"positionTicks":[{"line":6,"ticks":1},{"line":7,"ticks":1}]}],"startTime":0,"endTime":3,"samples":[2,3,3],"timeDeltas":[0,1,1]}"#,
    ),
];

// Freed code whose address is used again, code that is given up under inlined frames, and a program that
// goes off its end.
const CODE: [Row; 3] = [
    (
        r#"func main "main" "a.js" 1 1 1
1 call f
2 drop f
3 gc
4 call g
5 halt
func f "f" "a.js" 1 10 1
10 ret
func g "g" "a.js" 1 20 1
20 ret
"#,
        1,
        EndCause::Halt,
        r#"{"nodes":[{"id":1,"callFrame":{"functionName":"(root)","scriptId":"0","url":"","lineNumber":-1,"columnNumber":-1},"hitCount":0,"children":[2]},{"id":2,"callFrame":{"functionName":"main","scriptId":"1","url":"a.js","lineNumber":0,"columnNumber":0},"hitCount":4,"children":[3,4],"positionTicks":[{"line":2,"ticks":1},{"line":3,"ticks":1},{"line":4,"ticks":1},{"line":5,"ticks":1}]},{"id":3,"callFrame":{"functionName":"f","scriptId":"1","url":"a.js","lineNumber":9,"columnNumber":0},"hitCount":1,"positionTicks":[{"line":10,"ticks":1}]},{"id":4,"callFrame":{"functionName":"g","scriptId":"1","url":"a.js","lineNumber":19,"columnNumber":0},"hitCount":1,"positionTicks":[{"line":20,"ticks":1}]}],"startTime":0,"endTime":7,"samples":[2,3,2,2,2,4,2],"timeDeltas":[0,1,1,1,1,1,1]}"#,
    ),
    (
        r#"func main "main" "a.js" 1 1 1
1 opt a
2 call a
3 halt
func a "a" "a.js" 1 10 1
11 call b
12 ret
func b "b" "a.js" 1 20 1 inline
21 call c
22 ret
func c "c" "a.js" 1 30 1 inline
31 deopt a "bad guess"
32 ret
"#,
        5,
        EndCause::Halt,
        r#"{"nodes":[{"id":1,"callFrame":{"functionName":"(root)","scriptId":"0","url":"","lineNumber":-1,"columnNumber":-1},"hitCount":0,"children":[2]},{"id":2,"callFrame":{"functionName":"main","scriptId":"1","url":"a.js","lineNumber":0,"columnNumber":0},"hitCount":0,"children":[3]},{"id":3,"callFrame":{"functionName":"a","scriptId":"1","url":"a.js","lineNumber":9,"columnNumber":0},"hitCount":0,"children":[4],"deoptReason":"bad guess"},{"id":4,"callFrame":{"functionName":"b","scriptId":"1","url":"a.js","lineNumber":19,"columnNumber":0},"hitCount":0,"children":[5]},{"id":5,"callFrame":{"functionName":"c","scriptId":"1","url":"a.js","lineNumber":29,"columnNumber":0},"hitCount":1,"positionTicks":[{"line":32,"ticks":1}]}],"startTime":0,"endTime":9,"samples":[2,5,5],"timeDeltas":[0,0,5]}"#,
    ),
    (
        r#"func main "main" "a.js" 1 1 1
1 set r0 1
"#,
        1,
        EndCause::OffEnd,
        r#"{"nodes":[{"id":1,"callFrame":{"functionName":"(root)","scriptId":"0","url":"","lineNumber":-1,"columnNumber":-1},"hitCount":0,"children":[2]},{"id":2,"callFrame":{"functionName":"main","scriptId":"1","url":"a.js","lineNumber":0,"columnNumber":0},"hitCount":0}],"startTime":0,"endTime":1,"samples":[2],"timeDeltas":[0]}"#,
    ),
];

/// What a run on the step clock is opened with, where a sample is asked for at this interval in steps.
pub(crate) fn config(every: u32) -> IsoConfig
    ensures base_low { 1 ≤ result.base }
    ensures base_high { result.base ≤ MAX_INTERVAL }
    ensures ring { result.ring ≡ DEFAULT_RING }
    ensures budget { result.budget ≡ 10000000 }
    ensures limit { result.limit ≡ 1000 }
{
    IsoConfig {
        base: every.clamp(1, MAX_INTERVAL),
        ring: DEFAULT_RING,
        budget: 10_000_000,
        limit: 1_000,
    }
}

// Runs the program, and returns why it ended and the file of its one session.
fn run(alloc: Global, text: &[u8], every: u32) -> Option<(EndCause, Vec<u8>)> {
    let program = read_program(alloc, text).ok()?;
    let stream = SureStream::new(alloc, 65_536);
    let ClockRun { thread, why } = run_on_clock(alloc, program, config(every), stream).ok()?;
    let (_, stream) = thread.close();
    let [file] = stream.closed_parts() else {
        return None;
    };
    Some((why, file.as_slice().to_vec(alloc).ok()?))
}

// The run of a program at this interval ends so, with this file.
fn check(rt: &impl Abort, alloc: Global, row: (&[u8], u32, EndCause, &[u8])) {
    let (text, every, end, file) = row;
    let Some((why, written)) = run(alloc, text, every) else {
        panic!(rt; "no file at {every}");
    };
    assert_eq!(rt; why, end);
    assert_eq!(rt; written.as_slice(), file);
}

#[test]
fn runs_have_these_ends_and_files(rt: HostRuntime) -> Result<(), Fail> {
    for rows in [CALLS.as_slice(), CODE.as_slice()] {
        for (text, every, end, file) in rows {
            let row = (text.as_bytes(), *every, *end, file.as_bytes());
            check(&rt, rt.alloc(), row);
        }
    }
    Ok(())
}

// A program that jumps to itself ends when the steps reach the budget.
#[test]
fn a_run_ends_when_its_budget_is_spent(rt: HostRuntime) -> Result<(), Fail> {
    let text = "func main \"main\" \"a.js\" 1 1 1\n1 jump 0\n";
    let file =
        r#"{"nodes":[{"id":1,"callFrame":{"functionName":"(root)","scriptId":"0","url":"","lineNumber":-1,"columnNumber":-1},"hitCount":0,"children":[2]},{"id":2,"callFrame":{"functionName":"main","scriptId":"1","url":"a.js","lineNumber":0,"columnNumber":0},"hitCount":9,"positionTicks":[{"line":1,"ticks":9}]}],"startTime":0,"endTime":10000000,"samples":[2,2,2,2,2,2,2,2,2,2],"timeDeltas":[0,1000000,1000000,1000000,1000000,1000000,1000000,1000000,1000000,1000000]}"#;
    let row = (
        text.as_bytes(),
        1_000_000,
        EndCause::Budget,
        file.as_bytes(),
    );
    check(&rt, rt.alloc(), row);
    Ok(())
}

// Adds the nodes of the calls of f that called f, which have the numbers from `first` to before `end`.
fn put_callers(alloc: Global, out: &mut Vec<u8>, first: u32, end: u32) -> Result<(), AllocError> {
    for id in first..end {
        let child = id.saturating_add(1);
        let node = format!(in alloc;
            r#"{{"id":{id},"callFrame":{{"functionName":"f","scriptId":"1","url":"a.js","lineNumber":2,"columnNumber":0}},"hitCount":0,"children":[{child}]}},"#
        )?;
        out.extend_from_slice(node.as_bytes())?;
    }
    Ok(())
}

// The file of a sample under 254 calls.
fn deep_file(alloc: Global) -> Result<Vec<u8>, AllocError> {
    let mut file = Vec::new(alloc);
    file.extend_from_slice(
        br#"{"nodes":[{"id":1,"callFrame":{"functionName":"(root)","scriptId":"0","url":"","lineNumber":-1,"columnNumber":-1},"hitCount":0,"children":[2]},{"id":2,"callFrame":{"functionName":"main","scriptId":"1","url":"a.js","lineNumber":0,"columnNumber":0},"hitCount":0,"children":[3]},"#,
    )?;
    put_callers(alloc, &mut file, 3, 256)?;
    file.extend_from_slice(
        br#"{"id":256,"callFrame":{"functionName":"f","scriptId":"1","url":"a.js","lineNumber":2,"columnNumber":0},"hitCount":1,"positionTicks":[{"line":4,"ticks":1}]}],"startTime":0,"endTime":255,"samples":[2,256],"timeDeltas":[0,254]}"#,
    )?;
    Ok(file)
}

#[test]
fn the_deepest_stack_has_all_its_frames(rt: HostRuntime) -> Result<(), Fail> {
    let text = r#"func main "main" "a.js" 1 1 1
1 call f
2 halt
func f "f" "a.js" 1 3 1
4 call f
"#;
    let file = deep_file(rt.alloc())?;
    let row = (text.as_bytes(), 254, EndCause::Overflow, file.as_slice());
    check(&rt, rt.alloc(), row);
    Ok(())
}

// A program that optimises f, which calls g; g has this many instructions and is inlined.
fn inlining(alloc: Global, size: u32) -> Result<Vec<u8>, AllocError> {
    let mut text = Vec::new(alloc);
    text.extend_from_slice(
        br#"func main "main" "a.js" 1 1 1
1 opt f
2 call f
3 halt
func f "f" "a.js" 1 10 1
10 call g
11 ret
func g "g" "a.js" 1 20 1 inline
"#,
    )?;
    for _ in 1..size {
        text.extend_from_slice(b"21 set r0 1\n")?;
    }
    text.extend_from_slice(b"22 ret\n")?;
    Ok(text)
}

// Code of 4,096 slots is made, and code of one more is not: the node of f says so.
#[test]
fn code_that_is_too_large_is_not_inlined(rt: HostRuntime) -> Result<(), Fail> {
    for (size, is_told) in [(4_094, false), (4_095, true)] {
        let text = inlining(rt.alloc(), size)?;
        let Some((why, file)) = run(rt.alloc(), text.as_slice(), 100) else {
            panic!(rt; "no file of {size}");
        };
        assert_eq!(rt; why, EndCause::Halt);
        let told = br#""deoptReason":"too large""#.as_slice();
        assert_eq!(rt;
            file.windows(told.len()).any(|bytes| bytes == told),
            is_told
        );
    }
    Ok(())
}
