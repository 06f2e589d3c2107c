// Item lists as their canonical text.
ghost use Rattle.std.specs.Prelude.{◌≡◌, ◌++◌, [], ◌∷◌, OnOk, IfOk, decimal};
ghost use Rattle.prof_lines.specs.Spelled.{quoted};
ghost use Rattle.prof_lines.specs.Canonical.{further, line_of};
ghost use Rattle.code_event.specs.ItemList.{IsStamped};
ghost use Rattle.code_event.specs.declared.event.CodeEvent.TheVariants as event;
ghost use Rattle.item_text.specs.declared.item_line.LineEvent.TheVariants.{Move, NoOpt, Deopt, Delete, Start, Stop, Finish};
ghost use Rattle.item_text.specs.declared.item_line.ItemLine.TheVariants as line;
ghost use Rattle.item_text.specs.declared.item_line.TextLine.TheVariants.{Head};
ghost use Rattle.record_text.specs.Words.{mode_word, max_word};
ghost use Rattle.item_text.specs.ItemLine.{state_word, hit_word, files_word, only_word, parent_words, entry_words, item_words};
ghost use Rattle.item_text.specs.Items.{tick_line, items_text, Spells, IsItemList};
ghost use Rattle.item_text.specs.ItemSpelling.{line_text, units_text, slots_text, numbers_text, event_text, item_text, body_text};

use crate::items::ItemList;
use code_event::{CodeEvent, Entry, Item, Layout, Options, Site, Slot, Tick, Unit, VmState};
use prof_base::{Memory, Micros, SessionId, Text};
use prof_lines::put_quoted;
use record_text::{mode_word, put_max, put_number, put_word};
use std::alloc::Global;

fn state_word(state: VmState) -> &'static [u8]
    ensures { result.now ≡ state_word state }
{
    match state {
        VmState::Js => b"js",
        VmState::Idle => b"idle",
        VmState::Native => b"native",
        VmState::Gc => b"gc",
    }
}

fn hit_word(hit: bool) -> &'static [u8]
    ensures { result.now ≡ hit_word hit }
{
    if hit { b"hit" } else { b"nohit" }
}

fn files_word(files: bool) -> &'static [u8]
    ensures { result.now ≡ files_word files }
{
    if files { b"files" } else { b"none" }
}

fn put_text(out: &mut Vec<u8>, text: &Text) -> Result<(), Memory>
    ensures { OnOk result (out.new.items ≡ out.old.items ++ 32 ∷ quoted text.now) }
{
    out.push(b' ')?;
    put_quoted(out, text)
}

fn put_only(out: &mut Vec<u8>, only: Option<SessionId>) -> Result<(), Memory>
    ensures { OnOk result (out.new.items ≡ out.old.items ++ 32 ∷ only_word only) }
{
    match only {
        None => put_word(out, b"all"),
        Some(session) => put_number(out, u64::from(session.0)),
    }
}

fn put_parent(out: &mut Vec<u8>, parent: Option<Site>) -> Result<(), Memory>
    ensures { OnOk result (out.new.items ≡ out.old.items ++ further (parent_words parent)) }
{
    match parent {
        None => {
            out.extend_from_slice(b" - - -")?;
            Ok(())
        }
        Some(site) => {
            put_number(out, u64::from(site.unit))?;
            put_number(out, u64::from(site.index))?;
            put_number(out, u64::from(site.line))
        }
    }
}

fn put_entry(out: &mut Vec<u8>, entry: &Entry) -> Result<(), Memory>
    ensures { OnOk result (out.new.items ≡ out.old.items ++ further (entry_words entry.now [])) }
{
    put_text(out, &entry.name)?;
    put_text(out, &entry.url)?;
    put_number(out, u64::from(entry.script))?;
    put_number(out, u64::from(entry.line))?;
    put_number(out, u64::from(entry.column))
}

fn put_unit(out: &mut Vec<u8>, unit: &Unit) -> Result<(), Memory>
    ensures { OnOk result (out.new.items ≡ out.old.items ++ line_text (line.Unit unit.now)) }
{
    out.extend_from_slice(b"unit")?;
    put_number(out, u64::from(unit.func.0))?;
    put_entry(out, &unit.entry)?;
    put_parent(out, unit.parent)?;
    out.push(b'\n')?;
    Ok(())
}

fn put_slot(out: &mut Vec<u8>, slot: &Slot) -> Result<(), Memory>
    ensures { OnOk result (out.new.items ≡ out.old.items ++ line_text (line.Slot slot.now)) }
{
    out.extend_from_slice(b"slot")?;
    put_number(out, u64::from(slot.unit))?;
    put_number(out, u64::from(slot.index))?;
    put_number(out, u64::from(slot.line))?;
    out.push(b'\n')?;
    Ok(())
}

fn put_units(out: &mut Vec<u8>, units: &[Unit]) -> Result<(), Memory>
    ensures { OnOk result (out.new.items ≡ out.old.items ++ units_text units.now) }
{
    for unit in units {
        put_unit(out, unit)?;
    }
    Ok(())
}

fn put_slots(out: &mut Vec<u8>, slots: &[Slot]) -> Result<(), Memory>
    ensures { OnOk result (out.new.items ≡ out.old.items ++ slots_text slots.now) }
{
    for slot in slots {
        put_slot(out, slot)?;
    }
    Ok(())
}

fn put_begin(out: &mut Vec<u8>, start: u32) -> Result<(), Memory>
    ensures { OnOk result (out.new.items ≡ out.old.items ++ line_text (line.Create start)) }
{
    out.extend_from_slice(b"create")?;
    put_number(out, u64::from(start))?;
    out.push(b'\n')?;
    Ok(())
}

fn put_create(out: &mut Vec<u8>, start: u32, layout: &Layout) -> Result<(), Memory>
    ensures { OnOk result (out.new.items ≡ out.old.items ++ event_text (event.Create start layout.now)) }
{
    put_begin(out, start)?;
    put_units(out, layout.units())?;
    put_slots(out, layout.slots())?;
    Ok(())
}

fn put_move(out: &mut Vec<u8>, from: u32, to: u32) -> Result<(), Memory>
    ensures { OnOk result (out.new.items ≡ out.old.items ++ line_text (line.Event (Move from to))) }
{
    out.extend_from_slice(b"move")?;
    put_number(out, u64::from(from))?;
    put_number(out, u64::from(to))?;
    out.push(b'\n')?;
    Ok(())
}

// The line of a reason, which begins with this word.
fn put_reason(out: &mut Vec<u8>, word: &[u8], start: u32, reason: &Text) -> Result<(), Memory>
    ensures { OnOk result (out.new.items ≡ out.old.items ++ line_of (word.now ∷ decimal start ∷ quoted reason.now ∷ [])) }
{
    out.extend_from_slice(word)?;
    put_number(out, u64::from(start))?;
    put_text(out, reason)?;
    out.push(b'\n')?;
    Ok(())
}

fn put_delete(out: &mut Vec<u8>, start: u32) -> Result<(), Memory>
    ensures { OnOk result (out.new.items ≡ out.old.items ++ line_text (line.Event (Delete start))) }
{
    out.extend_from_slice(b"delete")?;
    put_number(out, u64::from(start))?;
    out.push(b'\n')?;
    Ok(())
}

fn put_options(out: &mut Vec<u8>, options: &Options) -> Result<(), Memory>
    ensures { OnOk result (out.new.items ≡ out.old.items ++ further (decimal options.now.port ∷ decimal options.now.interval ∷ mode_word options.now.mode ∷ max_word options.now.max_samples ∷ [])) }
{
    put_number(out, u64::from(options.port))?;
    put_number(out, u64::from(options.interval))?;
    put_word(out, mode_word(options.mode))?;
    put_max(out, options.max_samples)
}

fn put_start(
    out: &mut Vec<u8>,
    session: SessionId,
    options: &Options,
    time: Micros,
) -> Result<(), Memory>
    ensures { OnOk result (out.new.items ≡ out.old.items ++ line_text (line.Event (Start session options.now.port options.now.interval options.now.mode options.now.max_samples time))) }
{
    out.extend_from_slice(b"start")?;
    put_number(out, u64::from(session.0))?;
    put_options(out, options)?;
    put_number(out, time.value())?;
    out.push(b'\n')?;
    Ok(())
}

fn put_stop(out: &mut Vec<u8>, session: SessionId, time: Micros) -> Result<(), Memory>
    ensures { OnOk result (out.new.items ≡ out.old.items ++ line_text (line.Event (Stop session time))) }
{
    out.extend_from_slice(b"stop")?;
    put_number(out, u64::from(session.0))?;
    put_number(out, time.value())?;
    out.push(b'\n')?;
    Ok(())
}

fn put_finish(out: &mut Vec<u8>, time: Micros, files: bool) -> Result<(), Memory>
    ensures { OnOk result (out.new.items ≡ out.old.items ++ line_text (line.Event (Finish time files))) }
{
    out.extend_from_slice(b"finish")?;
    put_number(out, time.value())?;
    put_word(out, files_word(files))?;
    out.push(b'\n')?;
    Ok(())
}

fn put_event(out: &mut Vec<u8>, event: &CodeEvent) -> Result<(), Memory>
    ensures { OnOk result (out.new.items ≡ out.old.items ++ event_text event.now) }
{
    match event {
        CodeEvent::Create { start, layout } => put_create(out, *start, layout),
        CodeEvent::Move { from, to } => put_move(out, *from, *to),
        CodeEvent::NoOpt { start, reason } => put_reason(out, b"noopt", *start, reason),
        CodeEvent::Deopt { start, reason } => put_reason(out, b"deopt", *start, reason),
        CodeEvent::Delete { start } => put_delete(out, *start),
        CodeEvent::Start {
            session,
            options,
            time,
        } => put_start(out, *session, options, *time),
        CodeEvent::Stop { session, time } => put_stop(out, *session, *time),
        CodeEvent::Finish { time, files } => put_finish(out, *time, *files),
    }
}

fn put_numbers(out: &mut Vec<u8>, numbers: &[u32]) -> Result<(), Memory>
    ensures { OnOk result (out.new.items ≡ out.old.items ++ numbers_text numbers.now) }
{
    for number in numbers {
        put_number(out, u64::from(*number))?;
    }
    Ok(())
}

// The words of a tick before its addresses.
fn put_moment(out: &mut Vec<u8>, tick: &Tick) -> Result<(), Memory>
    ensures { OnOk result (out.new.items ≡ out.old.items ++ further (decimal tick.now.time ∷ decimal tick.now.interval ∷ state_word tick.now.state ∷ hit_word tick.now.hit ∷ only_word tick.now.only ∷ [])) }
{
    put_number(out, tick.time.value())?;
    put_number(out, u64::from(tick.interval))?;
    put_word(out, state_word(tick.state))?;
    put_word(out, hit_word(tick.hit))?;
    put_only(out, tick.only)
}

fn put_tick(out: &mut Vec<u8>, tick: &Tick) -> Result<(), Memory>
    ensures { OnOk result (out.new.items ≡ out.old.items ++ line_text (line.Tick (tick_line tick.now))) }
{
    out.extend_from_slice(b"tick")?;
    put_moment(out, tick)?;
    put_numbers(out, tick.frames.as_slice())?;
    out.push(b'\n')?;
    Ok(())
}

fn put_item(out: &mut Vec<u8>, item: &Item) -> Result<(), Memory>
    ensures { OnOk result (out.new.items ≡ out.old.items ++ item_text item.now) }
{
    match item {
        Item::Event(record) => put_event(out, &record.event),
        Item::Tick(tick) => put_tick(out, tick),
    }
}

fn put_head(out: &mut Vec<u8>, base: u32) -> Result<(), Memory>
    ensures { OnOk result (out.new.items ≡ out.old.items ++ line_of (item_words (Head base))) }
{
    out.extend_from_slice(b"items 1")?;
    put_number(out, u64::from(base))?;
    out.push(b'\n')?;
    Ok(())
}

fn put_items(out: &mut Vec<u8>, items: &[Item]) -> Result<(), Memory>
    ensures { OnOk result (out.new.items ≡ out.old.items ++ body_text items.now) }
{
    for item in items {
        put_item(out, item)?;
    }
    Ok(())
}

/// Writes the canonical text of an item list.
pub fn write_items(alloc: Global, items: &ItemList) -> Result<Vec<u8>, Memory>
    requires { IsItemList items.now }
    ensures text { IfOk result (λ text. text.items ≡ items_text items.now) }
    // The text's lines spell the list, so that it is read again as this list.
    ensures spells { IfOk result (λ text. Spells text.items items.now) }
{
    let mut out = Vec::new(alloc);
    put_head(&mut out, items.base)?;
    put_items(&mut out, items.items.as_slice())?;
    Ok(out)
}
