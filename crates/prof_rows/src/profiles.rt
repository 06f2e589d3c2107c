// What no clause says: that the plain functions succeed. The example and its file were worked out by
// hand.
ghost use Rattle.std.specs.Prelude.{◌≡◌, ◌≤◌, length};

use crate::values::{entry, tick};
use code_event::{
    CodeEvent, EventRecord, Frames, Item, Layout, Mode, Options, Slot, Unit, VmState,
};
use prof_base::{FuncId, Micros, Sequence, SessionId};
use reference_profile::{file, finished_of, seen_items};
use std::alloc::Global;
use std::test::Fail;

fn event(event: CodeEvent) -> Item {
    Item::Event(EventRecord {
        number: 0,
        ticks_before: 0,
        event,
    })
}

fn sample(time: u32, addresses: &[u32]) -> Item
    requires { length addresses.now ≤ Frames.MAX_LEN }
{
    Item::Tick(tick(time, 1000, VmState::Js, addresses))
}

fn slot(line: u32) -> Slot
    ensures { result.unit ≡ 0 }
{
    Slot {
        unit: 0,
        index: 0,
        line,
    }
}

// Creates the code of a function that begins at the line of its only instruction.
fn create(alloc: Global, start: u32, func: FuncId, name: &str, line: u32) -> Result<Item, Fail> {
    let mut units = Sequence::new(alloc);
    units.push(Unit {
        func,
        entry: entry(alloc, name, line)?,
        parent: None,
    })?;
    let mut slots = Sequence::new(alloc);
    slots.push(slot(line))?;
    let layout = Layout::new(units, slots);
    Ok(event(CodeEvent::Create { start, layout }))
}

// Lists items in which the second of two functions takes the code of the first away, since it
// overlaps it. A session runs over three ticks, two of which are in no function's code.
fn overlap(alloc: Global, session: SessionId) -> Result<Sequence<Item>, Fail> {
    let options = Options {
        port: 0,
        interval: 1000,
        mode: Mode::Leaf,
        max_samples: None,
    };
    let time = Micros::new(0);
    let mut items = Sequence::new(alloc);
    items.push(create(alloc, 102, FuncId(0), "f", 1)?)?;
    items.push(create(alloc, 104, FuncId(1), "g", 5)?)?;
    items.push(event(CodeEvent::Start {
        session,
        options,
        time,
    }))?;
    items.push(sample(10, &[102]))?;
    items.push(sample(20, &[104, 102]))?;
    items.push(sample(30, &[999]))?;
    let time = Micros::new(40);
    items.push(event(CodeEvent::Stop { session, time }))?;
    Ok(items)
}

#[test]
fn the_file_of_an_ended_session_is_given(rt: HostRuntime) -> Result<(), Fail> {
    let alloc = rt.alloc();
    let items = overlap(alloc, SessionId(1))?;
    let seen = seen_items(alloc, items.as_slice())?;
    assert_eq!(rt; seen.len(), 5);
    let expected = concat!(
        r#"{"nodes":[{"id":1,"callFrame":{"functionName":"(root)","scriptId":"0","url":"","#,
        r#""lineNumber":-1,"columnNumber":-1},"hitCount":0,"children":[2,3]},"#,
        r#"{"id":2,"callFrame":{"functionName":"(program)","scriptId":"0","url":"","#,
        r#""lineNumber":-1,"columnNumber":-1},"hitCount":2},"#,
        r#"{"id":3,"callFrame":{"functionName":"g","scriptId":"1","url":"a.js","#,
        r#""lineNumber":4,"columnNumber":0},"hitCount":1,"positionTicks":[{"line":5,"ticks":1}]}],"#,
        r#""startTime":0,"endTime":40,"samples":[2,3,2],"timeDeltas":[10,10,10]}"#,
    );
    match file(alloc, 1000, SessionId(1), seen.as_slice())? {
        Some(text) => assert_eq!(rt; text.as_slice(), expected.as_bytes()),
        None => assert!(rt; false),
    }
    let other = finished_of(alloc, 1000, SessionId(2), seen.as_slice())?;
    assert!(rt; other.is_none());
    Ok(())
}
