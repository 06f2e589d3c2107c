// Item lists from their text.
ghost use Rattle.std.specs.Prelude.{◌≡◌, true, IfOk, IfErr};
ghost use Rattle.prof_lines.specs.Answers.{Reads};
ghost use Rattle.code_event.specs.ItemList.{IsStamped};
ghost use Rattle.item_text.specs.declared.items.ItemList.{ItemList};
ghost use Rattle.item_text.specs.ItemRules.{may_end, course_of};
ghost use Rattle.record_text.specs.Refusals.{IsMemory};
ghost use Rattle.item_text.specs.Items.{item_lines, rest_of, lines_read, IsItemList, Spells, IsRefused};

use crate::draft::Draft;
use crate::item_form::head;
use code_event::Item;
use prof_base::Sequence;
use prof_lines::{Cause, LineFault, Lines, TextFault};
use record_text::{ReadRefused, Rule, line_cause};
use std::alloc::Global;

/// What an isolate raised, in order, with its base interval: the events, and the ticks that were not
/// dropped.
#[derive(Debug, Drop)]
pub struct ItemList {
    /// The base interval in microseconds.
    pub base: u32,
    pub items: Sequence<Item>,
}

fn rest(alloc: Global, lines: Lines, draft: Draft) -> Result<Draft, TextFault<Rule>>
    ensures lines { Reads (λ draft. draft) result (rest_of draft lines.entry.lines lines.entry.after) }
    ensures ended { IfOk result (λ draft. may_end (course_of draft).begun ≡ true) }
{
    let mut lines = lines;
    let mut draft = draft;
    while let Some((number, bytes)) = lines.next() {
        match draft.next(alloc, bytes) {
            Ok(next) => draft = next,
            Err(fault) => return Err(fault.at(number)),
        }
    }
    if draft.may_end() {
        Ok(draft)
    } else {
        let fault: LineFault<Rule> = LineFault::At(Cause::Own(Rule::Order));
        Err(fault.at(lines.at()))
    }
}

fn listed(draft: Draft) -> Result<ItemList, TextFault<Rule>>
    requires { may_end (course_of draft).begun ≡ true }
    ensures lines { IfOk result (λ list. item_lines list ≡ draft) }
    ensures stamped { IfOk result (λ list. IsStamped list.items) }
    ensures memory { IfErr result (λ fault. fault ≡ TextFault.Memory) }
{
    match draft.into_list() {
        Ok(list) => Ok(list),
        Err(_) => Err(TextFault::Memory),
    }
}

fn read(alloc: Global, text: &[u8]) -> Result<ItemList, TextFault<Rule>>
    ensures lines { Reads item_lines result (lines_read text.now) }
    ensures stamped { IfOk result (λ list. IsStamped list.items) }
{
    let mut lines = Lines::new(text);
    let Some((number, bytes)) = lines.next() else {
        let fault: LineFault<Rule> = LineFault::At(Cause::Word);
        return Err(fault.at(lines.at()));
    };
    match head(bytes) {
        Ok(base) => match rest(alloc, lines, Draft::new(alloc, base)) {
            Ok(draft) => listed(draft),
            Err(fault) => Err(fault),
        },
        Err(fault) => Err(fault.at(number)),
    }
}

/// Reads the text of an item list. The stamps are not in the text: each item gets those of its place.
pub fn read_items(alloc: Global, text: &[u8]) -> Result<ItemList, ReadRefused>
    // The text's lines spell the list that is read.
    ensures spelled { IfOk result (λ list. Spells text.now list) }
    // It has its stamps, its numbers are in their ranges, and it keeps the rules.
    ensures rules { IfOk result IsItemList }
    // A list that a text's lines spell is read, unless out of memory.
    ensures only { (list : ItemList) → IsItemList list → Spells text.now list → IfOk result (λ read. read ≡ list) }
    ensures never { (list : ItemList) → IsItemList list → Spells text.now list → IfErr result (λ refusal. IsMemory refusal) }
    // The refused line is the first with a fault, and the cause is its first fault.
    ensures refused { IfErr result (λ refusal. IsRefused text.now refusal) }
{
    match read(alloc, text) {
        Ok(list) => Ok(list),
        Err(TextFault::Memory) => Err(ReadRefused::Memory),
        Err(TextFault::At { line, cause }) => Err(ReadRefused::At {
            line,
            cause: line_cause(cause),
        }),
    }
}
