// Lists of code objects.
ghost use Rattle.std.specs.Prelude.{◌≡◌, ◌<◌, ◌==◌, length, filter, not, IfSome, OnOk};
ghost use Rattle.std.specs.List.{AllByRecursion, position_from};
ghost use Rattle.std.specs.Option.{option_copied, option_map, option_and_then};
ghost use Rattle.code_event.specs.CodeMap.{meets, range_entry, range_at, without_range, with_range, after_event};
ghost use Rattle.code_event.specs.declared.event.CodeEvent.TheVariants as event;
ghost use Rattle.code_map.specs.Objects.{IsCode, AreCode};
ghost use Rattle.code_map.specs.CodeMap.{found_at};

use crate::found::Found;
use crate::object::CodeObject;
use code_event::{CodeEvent, Entry, Layout};
use prof_base::Memory;

/// Finds the place of an address, if it lies in one of the objects.
pub(crate) fn place_of(objects: &[CodeObject], address: u64) -> Option<Found>
    ensures { result ≡ found_at objects.now address }
{
    match objects.iter().find(|object| object.holds(address)) {
        Some(object) => Some(object.place(address)),
        None => None,
    }
}

/// Finds the object that starts at an address.
fn object_at(objects: &[CodeObject], start: u32) -> Option<&CodeObject>
    ensures { option_copied result ≡ range_at objects.now start }
{
    objects.iter().find(|object| object.starts_at(start))
}

/// Returns the layout of the object that starts at an address.
pub(crate) fn layout_at(objects: &[CodeObject], start: u32) -> Option<&Layout>
    ensures { option_copied result ≡ option_map (λ r. r.layout) (range_at objects.now start) }
{
    match object_at(objects, start) {
        Some(object) => Some(object.layout()),
        None => None,
    }
}

/// Finds the index of the object that starts at an address.
fn index_of(objects: &[CodeObject], start: u32) -> Option<usize>
    ensures index { result ≡ position_from (λ r. r.start == start) 0 objects.now }
    ensures within { IfSome result (λ at. at < length objects.now) }
{
    objects.iter().position(|object| object.starts_at(start))
}

/// Returns the entry of the function whose code starts at an address.
pub(crate) fn entry_at(objects: &[CodeObject], start: u32) -> Option<&Entry>
    ensures { option_copied result ≡ option_and_then range_entry (range_at objects.now start) }
{
    match object_at(objects, start) {
        Some(object) => object.entry(),
        None => None,
    }
}

/// Removes the object that starts at an address.
fn remove_object(objects: &mut Vec<CodeObject>, start: u32)
    ensures { objects.new.items ≡ without_range objects.old.items start }
{
    objects.retain(|object| !object.starts_at(start));
}

/// Removes the objects that share an address with the new one.
fn remove_overlapped(objects: &mut Vec<CodeObject>, new: &CodeObject)
    ensures { objects.new.items ≡ filter (λ r. not (meets r new.now)) objects.old.items }
{
    objects.retain(|object| !object.meets(new));
}

/// Adds an object, and removes those that it overlaps.
fn put_object(objects: &mut Vec<CodeObject>, new: CodeObject) -> Result<(), Memory>
    ensures { OnOk result (objects.new.items ≡ with_range objects.old.items new) }
{
    remove_overlapped(objects, &new);
    objects.push(new)?;
    Ok(())
}

/// Moves the object that starts at an address, if any does, and removes those that it then overlaps.
fn move_object(objects: &mut Vec<CodeObject>, from: u32, to: u32) -> Result<(), Memory>
    ensures { AreCode objects.old.items → OnOk result (objects.new.items ≡ after_event objects.old.items (event.Move from to)) }
{
    match index_of(objects, from) {
        Some(at) => {
            let moved = objects.remove(at).moved_to(to);
            put_object(objects, moved)
        }
        None => Ok(()),
    }
}

/// Changes the objects as an event does.
pub(crate) fn change_objects(objects: &mut Vec<CodeObject>, event: &CodeEvent) -> Result<(), Memory>
    ensures objects { AreCode objects.old.items → OnOk result (objects.new.items ≡ after_event objects.old.items event.now) }
    ensures code { AreCode objects.old.items → OnOk result (AllByRecursion IsCode objects.new.items) }
{
    match event {
        CodeEvent::Create { start, layout } => {
            put_object(objects, CodeObject::new(*start, layout.copy()?))
        }
        CodeEvent::Move { from, to } => move_object(objects, *from, *to),
        CodeEvent::Delete { start } => {
            remove_object(objects, *start);
            Ok(())
        }
        CodeEvent::NoOpt { .. }
        | CodeEvent::Deopt { .. }
        | CodeEvent::Start { .. }
        | CodeEvent::Stop { .. }
        | CodeEvent::Finish { .. } => Ok(()),
    }
}
