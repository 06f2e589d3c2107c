// An item list as it is read: the items so far, and what the rules ask of the lines so far.
ghost use Rattle.std.specs.Prelude.{◌≡◌, [], ◌∷◌, ◌++◌, true, false, ◌||◌, Some, None, IfOk};
ghost use Rattle.prof_lines.specs.Answers.{Gives};
ghost use Rattle.code_event.specs.ItemList.{IsStamped};
ghost use Rattle.code_event.specs.declared.layout.Slot.{Slot};
ghost use Rattle.code_event.specs.declared.layout.Unit.{Unit as CodeUnit};
ghost use Rattle.item_text.specs.declared.item_line.ItemLine.TheVariants as line;
ghost use Rattle.item_text.specs.declared.item_line.TextLine.TheVariants.{Head, Body};
ghost use Rattle.item_text.specs.ItemLine.{IsItemLine};
ghost use Rattle.item_text.specs.ItemRules.{no_course, is_finish_event, is_in_place, is_first, may_end, breaks_order, breaks_limit, item_fault, course_of};
ghost use Rattle.item_text.specs.Items.{lines_of_items, item_lines, items_next};
ghost use Rattle.item_text.specs.ItemDraft.{draft_lines};

use crate::begun::Begun;
use crate::gathered::{Gathered, event_of};
use crate::item_form::item;
use crate::item_line::{ItemLine, LineEvent, TickLine};
use crate::items::ItemList;
use crate::progress::Progress;
use code_event::{Slot, Unit};
use prof_base::Memory;
use prof_lines::{Cause, LineFault};
use record_text::Rule;
use std::alloc::Global;
use std::marker::Model;

// What the lines say.
#[derive(Drop)]
struct State {
    progress: Progress,
    finished: bool,
    begun: Option<Begun>,
}

impl Model for State {
    ghost use Rattle.item_text.specs.ItemRules.{Course};

    ghost Value = { Course };

    ghost view = { λ s. record { list = s.progress; finished = s.finished; begun = s.begun } };
}

// Whether there was a finish before the event, or it is one.
fn is_finished(finished: bool, event: &LineEvent) -> bool
    ensures { result ≡ (finished || is_finish_event event.now) }
{
    finished || matches!(event, LineEvent::Finish { .. })
}

impl State {
    fn new(alloc: Global) -> State
        ensures { result ≡ no_course }
    {
        State {
            progress: Progress::new(alloc),
            finished: false,
            begun: None,
        }
    }

    fn is_first(&self) -> bool
        ensures { result ≡ is_first self.now.begun }
    {
        match &self.begun {
            None => false,
            Some(code) => code.has_no_units(),
        }
    }

    fn may_end(&self) -> bool
        ensures { result ≡ may_end self.now.begun }
    {
        match &self.begun {
            None => true,
            Some(code) => code.is_whole(),
        }
    }

    fn may_have_unit(&self) -> bool
        ensures { (unit : CodeUnit) → result ≡ is_in_place self.now.begun (line.Unit unit) }
    {
        match &self.begun {
            None => false,
            Some(code) => code.has_no_slots(),
        }
    }

    fn may_have_slot(&self) -> bool
        ensures { (slot : Slot) → result ≡ is_in_place self.now.begun (line.Slot slot) }
    {
        match &self.begun {
            None => false,
            Some(code) => !code.has_no_units(),
        }
    }

    fn is_in_place(&self, line: &ItemLine) -> bool
        ensures { result ≡ is_in_place self.now.begun line.now }
    {
        match line {
            ItemLine::Unit(_) => self.may_have_unit(),
            ItemLine::Slot(_) => self.may_have_slot(),
            ItemLine::Create(_) => self.may_end(),
            ItemLine::Event(_) => self.may_end(),
            ItemLine::Tick(_) => self.may_end(),
        }
    }

    fn breaks_order(&self, line: &ItemLine) -> bool
        ensures { result ≡ breaks_order self.now line.now }
    {
        self.finished || !self.is_in_place(line) || self.progress.is_earlier(line)
    }

    fn breaks_limit(&self, line: &ItemLine) -> bool
        ensures { result ≡ breaks_limit self.now.begun line.now }
    {
        match &self.begun {
            None => false,
            Some(code) => match line {
                ItemLine::Unit(unit) => code.unit_breaks_limit(unit),
                ItemLine::Slot(slot) => code.slot_breaks_limit(slot),
                ItemLine::Create(_) => false,
                ItemLine::Event(_) => false,
                ItemLine::Tick(_) => false,
            },
        }
    }

    // The first rule that the line breaks.
    fn fault(&self, line: &ItemLine) -> Option<Cause<Rule>>
        ensures { result ≡ item_fault self.now line.now }
    {
        if self.breaks_order(line) {
            Some(Cause::Own(Rule::Order))
        } else if self.progress.breaks_session(line) {
            Some(Cause::Own(Rule::Session))
        } else if self.breaks_limit(line) {
            Some(Cause::Own(Rule::Limit))
        } else {
            None
        }
    }
}

// The items, and the creation of the code object that was begun.
fn closed(items: Gathered, begun: Option<Begun>) -> Result<Gathered, Memory>
    requires { may_end begun ≡ true }
    ensures { IfOk result (λ closed. lines_of_items closed ≡ draft_lines items begun) }
{
    match begun {
        None => Ok(items),
        Some(code) => items.with_event(code.into_event()),
    }
}

#[derive(Drop)]
pub(crate) struct Draft {
    base: u32,
    items: Gathered,
    state: State,
}

impl Model for Draft {
    ghost use Rattle.std.specs.Prelude.{List};
    ghost use Rattle.item_text.specs.declared.item_line.TextLine.{TextLine};
    ghost use Rattle.item_text.specs.ItemRules.{course_of};
    ghost use Rattle.item_text.specs.Items.{with_head};
    ghost use Rattle.item_text.specs.ItemDraft.{Reflects, draft_lines};

    ghost Value = { List TextLine };

    ghost view = { λ d. with_head d.base (draft_lines d.items d.state.begun) };

    ghost invariant = { λ d. Reflects d.state (course_of (with_head d.base (draft_lines d.items d.state.begun))) };
}

impl Draft {
    /// The first line, with this base.
    pub(crate) fn new(alloc: Global, base: u32) -> Draft
        ensures { result ≡ Head base ∷ [] }
    {
        Draft {
            base,
            items: Gathered::new(alloc),
            state: State::new(alloc),
        }
    }

    fn is_first(&self) -> bool
        ensures { result ≡ is_first (course_of self.now).begun }
    {
        self.state.is_first()
    }

    /// Returns whether the text may end here.
    pub(crate) fn may_end(&self) -> bool
        ensures { result ≡ may_end (course_of self.now).begun }
    {
        self.state.may_end()
    }

    fn fault(&self, line: &ItemLine) -> Option<Cause<Rule>>
        ensures { result ≡ item_fault (course_of self.now) line.now }
    {
        self.state.fault(line)
    }

    fn with_create(self, alloc: Global, start: u32) -> Result<Draft, Memory>
        requires { item_fault (course_of self) (line.Create start) ≡ None }
        ensures { IfOk result (λ draft. draft ≡ self ++ Body (line.Create start) ∷ []) }
    {
        let Draft { base, items, state } = self;
        let State {
            progress,
            finished,
            begun,
        } = state;
        let items = closed(items, begun)?;
        let state = State {
            progress,
            finished,
            begun: Some(Begun::new(alloc, start)),
        };
        Ok(Draft { base, items, state })
    }

    fn with_unit(self, unit: Unit) -> Result<Draft, Memory>
        requires fault { item_fault (course_of self) (line.Unit unit) ≡ None }
        requires fits { IsItemLine (is_first (course_of self).begun) (line.Unit unit) }
        ensures { IfOk result (λ draft. draft ≡ self ++ Body (line.Unit unit) ∷ []) }
    {
        let Draft { base, items, state } = self;
        let State {
            progress,
            finished,
            begun,
        } = state;
        let Some(code) = begun else { unreachable!() };
        let code = code.with_unit(unit)?;
        let state = State {
            progress,
            finished,
            begun: Some(code),
        };
        Ok(Draft { base, items, state })
    }

    fn with_slot(self, slot: Slot) -> Result<Draft, Memory>
        requires { item_fault (course_of self) (line.Slot slot) ≡ None }
        ensures { IfOk result (λ draft. draft ≡ self ++ Body (line.Slot slot) ∷ []) }
    {
        let Draft { base, items, state } = self;
        let State {
            progress,
            finished,
            begun,
        } = state;
        let Some(code) = begun else { unreachable!() };
        let code = code.with_slot(slot)?;
        let state = State {
            progress,
            finished,
            begun: Some(code),
        };
        Ok(Draft { base, items, state })
    }

    fn with_event(self, event: LineEvent) -> Result<Draft, Memory>
        requires fault { item_fault (course_of self) (line.Event event) ≡ None }
        requires fits { IsItemLine (is_first (course_of self).begun) (line.Event event) }
        ensures { IfOk result (λ draft. draft ≡ self ++ Body (line.Event event) ∷ []) }
    {
        let Draft { base, items, state } = self;
        let State {
            progress,
            finished,
            begun,
        } = state;
        let items = closed(items, begun)?;
        let progress = progress.after_event(&event)?;
        let finished = is_finished(finished, &event);
        let items = items.with_event(event_of(event))?;
        let state = State {
            progress,
            finished,
            begun: None,
        };
        Ok(Draft { base, items, state })
    }

    fn with_tick(self, tick: TickLine) -> Result<Draft, Memory>
        requires { item_fault (course_of self) (line.Tick tick) ≡ None }
        ensures { IfOk result (λ draft. draft ≡ self ++ Body (line.Tick tick) ∷ []) }
    {
        let Draft { base, items, state } = self;
        let State {
            progress,
            finished,
            begun,
        } = state;
        let items = closed(items, begun)?;
        let progress = progress.at(tick.time);
        let items = items.with_tick(tick)?;
        let state = State {
            progress,
            finished,
            begun: None,
        };
        Ok(Draft { base, items, state })
    }

    fn with(self, alloc: Global, line: ItemLine) -> Result<Draft, Memory>
        requires fault { item_fault (course_of self) line ≡ None }
        requires fits { IsItemLine (is_first (course_of self).begun) line }
        ensures { IfOk result (λ draft. draft ≡ self ++ Body line ∷ []) }
    {
        match line {
            ItemLine::Tick(tick) => self.with_tick(tick),
            ItemLine::Event(event) => self.with_event(event),
            ItemLine::Create(start) => self.with_create(alloc, start),
            ItemLine::Unit(unit) => self.with_unit(unit),
            ItemLine::Slot(slot) => self.with_slot(slot),
        }
    }

    /// The lines so far and the next one.
    pub(crate) fn next(self, alloc: Global, bytes: &[u8]) -> Result<Draft, LineFault<Rule>>
        ensures { Gives (λ draft. draft) result (items_next self bytes.now) }
    {
        let line = item(alloc, self.is_first(), bytes)?;
        match self.fault(&line) {
            Some(cause) => Err(LineFault::At(cause)),
            None => Ok(self.with(alloc, line)?),
        }
    }

    /// The list that the lines spell.
    pub(crate) fn into_list(self) -> Result<ItemList, Memory>
        requires { may_end (course_of self).begun ≡ true }
        ensures lines { IfOk result (λ list. item_lines list ≡ self) }
        ensures stamped { IfOk result (λ list. IsStamped list.items) }
    {
        let Draft { base, items, state } = self;
        let State {
            progress: _,
            finished: _,
            begun,
        } = state;
        let items = closed(items, begun)?;
        Ok(ItemList {
            base,
            items: items.into_items(),
        })
    }
}
