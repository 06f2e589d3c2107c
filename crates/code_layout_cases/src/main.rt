//! Prints both layouts of each function of the programs in the file `cases`, whose first lines say how
//! the programs are written there. `expected.py`, beside this crate's sources, works out the same lines
//! from the rules alone.
#![tactic(auto)]

ghost use Rattle.std.specs.Prelude.{◌<◌, length};

use case_text::text_of;
use code_event::{Layout, Slot, Unit};
use code_layout::{LayoutRefused, SlotTable, inlined, plain};
use guest_program::Program;
use guest_text::read_program;
use prof_base::FuncId;
use std::alloc::Global;
use std::{fs, io};

// The greatest number of slots that are printed.
const SHOWN: usize = 16;

fn print_unit(rt: &impl Print, unit: &Unit) -> Result<(), io::Error> {
    match unit.parent {
        None => print!(rt; " {}", unit.func.0),
        Some(site) => print!(rt;
            " {}<{}.{}@{}",
            unit.func.0, site.unit, site.index, site.line
        ),
    }
}

fn print_units(rt: &impl Print, units: &[Unit]) -> Result<(), io::Error> {
    print!(rt; "    units")?;
    for unit in units {
        print_unit(rt, unit)?;
    }
    println!(rt; "")
}

fn print_slots(rt: &impl Print, slots: &[Slot]) -> Result<(), io::Error> {
    print!(rt; "    slots")?;
    for slot in slots {
        print!(rt; " {}.{}@{}", slot.unit, slot.index, slot.line)?;
    }
    println!(rt; "")
}

// How many slots the table finds at their own places.
fn found_count(table: &SlotTable, slots: &[Slot]) -> usize {
    let mut count: usize = 0;
    for (place, slot) in slots.iter().enumerate() {
        if table.find(slot.unit, slot.index).map(usize::from) == Some(place) {
            count = count.saturating_add(1);
        }
    }
    count
}

fn print_layout(
    rt: &impl Print,
    alloc: Global,
    name: &str,
    layout: &Layout,
) -> Result<(), io::Error> {
    let Ok(table) = SlotTable::new(alloc, layout) else {
        return println!(rt; "  {name} out of memory");
    };
    let slots = layout.slots();
    println!(rt;
        "  {name} units {} slots {} found {}",
        layout.units().len(),
        slots.len(),
        found_count(&table, slots)
    )?;
    if slots.len() > SHOWN {
        return Ok(());
    }
    print_units(rt, layout.units())?;
    print_slots(rt, slots)
}

fn print_func(
    rt: &impl Print,
    alloc: Global,
    program: &Program,
    func: FuncId,
) -> Result<(), io::Error>
    requires { func.0 < length program.now }
{
    println!(rt; "function {}", func.0)?;
    match plain(alloc, program, func) {
        Ok(layout) => print_layout(rt, alloc, "plain", &layout)?,
        Err(_) => println!(rt; "  plain out of memory")?,
    }
    match inlined(alloc, program, func) {
        Ok(layout) => print_layout(rt, alloc, "inlined", &layout),
        Err(LayoutRefused::TooLarge { slots }) => println!(rt; "  inlined too large {slots}"),
        Err(LayoutRefused::Memory) => println!(rt; "  inlined out of memory"),
    }
}

fn print_program(rt: &impl Print, alloc: Global, program: &Program) -> Result<(), io::Error> {
    for number in 0..program.funcs().len() {
        print_func(rt, alloc, program, FuncId(number as u16))?;
    }
    Ok(())
}

fn main(rt: HostRuntime) -> Result<(), io::Error> {
    let alloc = rt.alloc();
    let all = fs::read_to_string(&rt, "cases")?;
    let cases = all.strip_suffix('\n').unwrap_or(&all);
    for case in cases.split("\n% ").skip(1) {
        let title = case.split('\n').next().unwrap_or("");
        println!(rt; "% {title}")?;
        let text = text_of(alloc, case)?;
        match read_program(alloc, text.as_bytes()) {
            Ok(program) => print_program(&rt, alloc, &program)?,
            Err(_) => println!(rt; "no program")?,
        }
    }
    Ok(())
}
