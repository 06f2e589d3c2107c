// The functions that a slot stands for: its own unit, and those that it was inlined in.
ghost use Rattle.std.specs.Prelude.{◌≡◌, ◌++◌, OnOk, flat_map, reverse};
ghost use Rattle.std.specs.List.{slice_get};
ghost use Rattle.std.specs.Option.{option_copied};
ghost use Rattle.code_event.specs.Layout.{site_of};
ghost use Rattle.code_event.specs.Symbolizer.{unit_frame, slot_frames};
ghost use Rattle.symbolizer.specs.Paths.{unit_frames, with_frames};

use crate::frame::push_frame;
use code_event::{Layout, PathPair, Site, Slot, Unit};
use prof_base::Memory;

/// Returns the unit with this number, if there is one.
fn unit_at(layout: &Layout, number: u16) -> Option<&Unit>
    ensures { option_copied result ≡ slice_get layout.now.units number }
{
    layout.units().get(usize::from(number))
}

/// Returns where the unit with this number was inlined, if it was.
fn site_of(layout: &Layout, number: u16) -> Option<Site>
    ensures { result ≡ site_of layout.now.units number }
{
    match unit_at(layout, number) {
        Some(unit) => unit.parent,
        None => None,
    }
}

/// Appends the unit with this number, at this line.
fn push_unit(paths: &mut PathPair, layout: &Layout, number: u16, line: u32) -> Result<(), Memory>
    ensures { OnOk result (paths.new ≡ with_frames paths.old (unit_frame layout.now number line)) }
{
    match unit_at(layout, number) {
        Some(unit) => push_frame(paths, &unit.entry, line),
        None => Ok(()),
    }
}

/// Appends the units above one, at most `most` of them, from the outermost on, and then the unit itself.
fn push_units(
    paths: &mut PathPair,
    layout: &Layout,
    most: usize,
    number: u16,
    line: u32,
) -> Result<(), Memory>
    ensures { OnOk result (paths.new ≡ with_frames paths.old (reverse (unit_frames layout.now most number line))) }
{
    if most > 0 {
        match site_of(layout, number) {
            Some(site) => push_units(paths, layout, most - 1, site.unit, site.line)?,
            None => {}
        }
    }
    push_unit(paths, layout, number, line)
}

/// Appends the functions of a slot, the outermost first.
pub(crate) fn push_slot(paths: &mut PathPair, layout: &Layout, slot: Slot) -> Result<(), Memory>
    ensures { OnOk result (paths.new ≡ with_frames paths.old (reverse (slot_frames layout.now slot))) }
{
    push_units(paths, layout, Layout::MAX_ABOVE, slot.unit, slot.line)
}
