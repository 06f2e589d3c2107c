// What no clause says: that a code map and the symbolizer succeed. The examples were worked out by
// hand.
ghost use Rattle.std.specs.Prelude.{◌≡◌, ◌≤◌, length};

use crate::values::{entry, tick};
use code_event::{CodeEvent, FinNode, Finished, Layout, PathStep, Site, Slot, Unit, VmState};
use code_map::{CodeMap, Found};
use prof_base::{FuncId, Micros, Sequence, SessionId, Text};
use std::alloc::Global;
use std::process::Abort;
use std::test::Fail;
use symbolizer::paths;

// A function that has a slot at each of these lines.
fn layout(alloc: Global, name: &str, lines: &[u32]) -> Result<Layout, Fail>
    requires some { 1 ≤ length lines.now }
    requires few { length lines.now ≤ Layout.MAX_SLOTS }
{
    let mut units = Sequence::new(alloc);
    units.push(Unit {
        func: FuncId(0),
        entry: entry(alloc, name, lines[0])?,
        parent: None,
    })?;
    let mut slots = Sequence::new(alloc);
    for line in lines {
        slots.push(Slot {
            unit: 0,
            index: 0,
            line: *line,
        })?;
    }
    Ok(Layout::new(units, slots))
}

// The function f with g inlined at its call in line 3.
fn inlining(alloc: Global) -> Result<Layout, Fail> {
    let mut units = Sequence::new(alloc);
    units.push(Unit {
        func: FuncId(0),
        entry: entry(alloc, "f", 1)?,
        parent: None,
    })?;
    units.push(Unit {
        func: FuncId(1),
        entry: entry(alloc, "g", 8)?,
        parent: Some(Site {
            unit: 0,
            index: 1,
            line: 3,
        }),
    })?;
    let mut slots = Sequence::new(alloc);
    for (unit, index, line) in [(0, 0, 2), (0, 1, 3), (1, 0, 9)] {
        slots.push(Slot { unit, index, line })?;
    }
    Ok(Layout::new(units, slots))
}

fn check_steps(rt: &impl Abort, steps: &[PathStep], expected: &[(&str, u32)]) {
    assert_eq!(rt; steps.len(), expected.len());
    for (step, (name, call_line)) in steps.iter().zip(expected) {
        assert_eq!(rt; step.entry.name.bytes(), name.as_bytes());
        assert_eq!(rt; step.call_line, *call_line);
    }
}

#[test]
fn moved_code_is_found_at_its_new_place(rt: HostRuntime) -> Result<(), Fail> {
    let alloc = rt.alloc();
    for (from, gone) in [(4104, [4108, 4115]), (4112, [4112, 4123])] {
        let layout = layout(alloc, "f", &[1, 2, 3])?;
        let mut map = CodeMap::new(alloc);
        map.apply(&CodeEvent::Create {
            start: from,
            layout,
        })?;
        map.apply(&CodeEvent::Move { from, to: 4096 })?;
        assert_eq!(rt;
            map.find(4096),
            Some(Found {
                start: 4096,
                slot: 0
            })
        );
        assert_eq!(rt;
            map.find(4107),
            Some(Found {
                start: 4096,
                slot: 2
            })
        );
        for address in gone {
            assert_eq!(rt; map.find(address), None);
        }
        assert!(rt; map.layout_at(4096).is_some());
    }
    Ok(())
}

#[test]
fn overlapped_code_is_nobodys(rt: HostRuntime) -> Result<(), Fail> {
    let alloc = rt.alloc();
    let mut map = CodeMap::new(alloc);
    let layout_of_f = layout(alloc, "f", &[1, 2])?;
    let layout_of_g = layout(alloc, "g", &[5])?;
    map.apply(&CodeEvent::Create {
        start: 100,
        layout: layout_of_f,
    })?;
    assert_eq!(rt;
        map.find(104),
        Some(Found {
            start: 100,
            slot: 1
        })
    );
    map.apply(&CodeEvent::Create {
        start: 104,
        layout: layout_of_g,
    })?;
    assert_eq!(rt;
        map.find(104),
        Some(Found {
            start: 104,
            slot: 0
        })
    );
    assert_eq!(rt; map.find(100), None);
    assert_eq!(rt; map.find(u64::MAX), None);
    map.apply(&CodeEvent::Delete { start: 108 })?;
    for (addresses, name, line) in [
        ([100, 100], "(program)", 0),
        ([104, 100], "g", 5),
        ([999, 0], "(program)", 0),
    ] {
        let found = paths(alloc, &mut map, &tick(0, 1000, VmState::Js, &addresses))?;
        check_steps(&rt, found.leaf.as_slice(), &[(name, 0)]);
        assert_eq!(rt; found.leaf_line, line);
    }
    Ok(())
}

#[test]
fn an_inlined_slot_has_a_step_for_each_function(rt: HostRuntime) -> Result<(), Fail> {
    let alloc = rt.alloc();
    let mut map = CodeMap::new(alloc);
    map.apply(&CodeEvent::Create {
        start: 200,
        layout: inlining(alloc)?,
    })?;
    let found = paths(alloc, &mut map, &tick(0, 1000, VmState::Js, &[208, 204]))?;
    check_steps(&rt, found.leaf.as_slice(), &[("f", 0), ("f", 0), ("g", 0)]);
    check_steps(
        &rt,
        found.caller.as_slice(),
        &[("f", 0), ("f", 2), ("g", 3)],
    );
    assert_eq!(rt; found.leaf_line, 9);
    let found = paths(alloc, &mut map, &tick(0, 1000, VmState::Js, &[208]))?;
    check_steps(&rt, found.caller.as_slice(), &[("f", 0), ("g", 3)]);
    for (state, name) in [
        (VmState::Idle, "(idle)"),
        (VmState::Native, "(program)"),
        (VmState::Gc, "(garbage collector)"),
    ] {
        let found = paths(alloc, &mut map, &tick(0, 1000, state, &[208]))?;
        check_steps(&rt, found.caller.as_slice(), &[(name, 0)]);
        assert_eq!(rt; found.leaf_line, 0);
    }
    Ok(())
}

// A profile of nodes of these functions.
fn finished(alloc: Global, names: &[&str]) -> Result<Finished, Fail> {
    let mut nodes = Sequence::new(alloc);
    for name in names {
        nodes.push(FinNode {
            entry: entry(alloc, name, 1)?,
            reason: None,
            hits: 1,
            children: Sequence::new(alloc),
            lines: Sequence::new(alloc),
        })?;
    }
    Ok(Finished {
        session: SessionId(1),
        port: 0,
        start: Micros::new(0),
        end: Micros::new(1),
        nodes,
        samples: Sequence::new(alloc),
        deltas: Sequence::new(alloc),
    })
}

#[test]
fn a_node_gets_the_latest_reason_of_its_entry(rt: HostRuntime) -> Result<(), Fail> {
    let alloc = rt.alloc();
    let mut map = CodeMap::new(alloc);
    let layout = layout(alloc, "f", &[1])?;
    map.apply(&CodeEvent::Create { start: 100, layout })?;
    for reason in ["too large", "bad guess"] {
        let reason = Text::new(alloc, reason.as_bytes())?;
        map.apply(&CodeEvent::Deopt { start: 100, reason })?;
    }
    map.apply(&CodeEvent::Move { from: 100, to: 96 })?;
    let mut finished = finished(alloc, &["f", "g"])?;
    map.fill_reasons(&mut finished)?;
    assert_eq!(rt; finished.nodes.len(), 2);
    for (node, known) in finished.nodes.as_slice().iter().zip([true, false]) {
        assert_eq!(rt; map.reason_of(&node.entry).is_some(), known);
        match &node.reason {
            Some(reason) => assert_eq!(rt; reason.bytes(), b"bad guess".as_slice()),
            None => assert!(rt; !known),
        }
    }
    Ok(())
}
