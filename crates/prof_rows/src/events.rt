// What no clause says: that copies succeed.
use code_event::{
    CodeEvent, DeoptReason, Entry, Frames, Layout, PathStep, ResolvedFrame, Slot, Tick, Unit,
    VmState,
};
use prof_base::{FuncId, Micros, Sequence, SessionId, Text};
use std::alloc::Global;
use std::process::Abort;
use std::test::Fail;

fn entry(alloc: Global) -> Result<Entry, Fail> {
    Ok(Entry {
        name: Text::new(alloc, b"f")?,
        url: Text::new(alloc, b"a.js")?,
        script: 1,
        line: 2,
        column: 3,
    })
}

fn check_entry(rt: &impl Abort, entry: &Entry) {
    assert_eq!(rt; entry.name.bytes(), b"f".as_slice());
    assert_eq!(rt; entry.url.bytes(), b"a.js".as_slice());
    assert_eq!(rt; (entry.script, entry.line, entry.column), (1, 2, 3));
}

// Makes a layout of one function with one slot, at line 5.
fn layout(alloc: Global) -> Result<Layout, Fail> {
    let mut units = Sequence::new(alloc);
    units.push(Unit {
        func: FuncId(4),
        entry: entry(alloc)?,
        parent: None,
    })?;
    let mut slots = Sequence::new(alloc);
    slots.push(Slot {
        unit: 0,
        index: 0,
        line: 5,
    })?;
    Ok(Layout::new(units, slots))
}

#[test]
fn what_names_a_function_is_copied(rt: HostRuntime) -> Result<(), Fail> {
    let alloc = rt.alloc();
    let entry = entry(alloc)?;
    let step = PathStep {
        entry: entry.copy()?,
        call_line: 7,
    };
    let copy = step.copy()?;
    check_entry(&rt, &copy.entry);
    assert_eq!(rt; copy.call_line, 7);
    let frame = ResolvedFrame {
        entry: entry.copy()?,
        line: 8,
    };
    let copy = frame.copy()?;
    check_entry(&rt, &copy.entry);
    assert_eq!(rt; copy.line, 8);
    let reason = Text::new(alloc, b"why")?;
    let copy = (DeoptReason { entry, reason }).copy()?;
    check_entry(&rt, &copy.entry);
    assert_eq!(rt; copy.reason.bytes(), b"why".as_slice());
    Ok(())
}

#[test]
fn events_and_ticks_are_copied(rt: HostRuntime) -> Result<(), Fail> {
    let alloc = rt.alloc();
    let layout = layout(alloc)?;
    assert_eq!(rt; layout.size(), 4);
    match (CodeEvent::Create {
        start: 4104,
        layout,
    })
    .copy()?
    {
        CodeEvent::Create { start, layout } => {
            assert_eq!(rt; start, 4104);
            check_entry(&rt, &layout.units()[0].entry);
            assert_eq!(rt; layout.slots()[0].line, 5);
        }
        _ => assert!(rt; false),
    }
    let mut frames = Frames::new();
    frames.push(4152);
    let tick = Tick {
        order: 1,
        tick_number: 2,
        time: Micros::new(3),
        interval: 4,
        state: VmState::Gc,
        hit: true,
        only: Some(SessionId(5)),
        frames,
    };
    let copy = tick.copy();
    assert_eq!(rt; copy.frames.as_slice(), [4152].as_slice());
    assert_eq!(rt;
        (copy.state, copy.hit, copy.only),
        (VmState::Gc, true, Some(SessionId(5)))
    );
    Ok(())
}
