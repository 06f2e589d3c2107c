// The items of a list as far as it was read, with their stamps.
ghost use Rattle.std.specs.Prelude.{◌≡◌, [], ◌∷◌, ◌++◌, IfOk};
ghost use Rattle.code_event.specs.ItemList.{IsStamped};
ghost use Rattle.item_text.specs.declared.item_line.ItemLine.TheVariants as line;
ghost use Rattle.item_text.specs.ItemLine.{IsEvent};
ghost use Rattle.item_text.specs.Items.{event_lines, lines_of_items};

use crate::item_line::{LineEvent, TickLine};
use code_event::{CodeEvent, EventRecord, Item, Options, Tick};
use prof_base::{Memory, Sequence};
use std::alloc::Global;
use std::marker::Model;

#[derive(Drop)]
pub(crate) struct Gathered {
    items: Sequence<Item>,
    // How many of them are ticks.
    ticks: u64,
}

impl Model for Gathered {
    ghost use Rattle.std.specs.Prelude.{List};
    ghost use Rattle.code_event.specs.declared.tick.Item.{Item};
    ghost use Rattle.item_text.specs.ItemDraft.{AreGathered};

    ghost Value = { List Item };

    ghost view = { λ g. g.items };

    ghost invariant = { λ g. AreGathered g.items g.ticks };
}

/// The event of a line.
pub(crate) fn event_of(event: LineEvent) -> CodeEvent
    requires { IsEvent event }
    ensures { event_lines result ≡ line.Event event ∷ [] }
{
    match event {
        LineEvent::Move { from, to } => CodeEvent::Move { from, to },
        LineEvent::NoOpt { start, reason } => CodeEvent::NoOpt { start, reason },
        LineEvent::Deopt { start, reason } => CodeEvent::Deopt { start, reason },
        LineEvent::Delete { start } => CodeEvent::Delete { start },
        LineEvent::Start {
            session,
            port,
            interval,
            mode,
            max_samples,
            time,
        } => CodeEvent::Start {
            session,
            options: Options {
                port,
                interval,
                mode,
                max_samples,
            },
            time,
        },
        LineEvent::Stop { session, time } => CodeEvent::Stop { session, time },
        LineEvent::Finish { time, files } => CodeEvent::Finish { time, files },
    }
}

impl Gathered {
    pub(crate) fn new(alloc: Global) -> Gathered
        ensures { result ≡ [] }
    {
        Gathered {
            items: Sequence::new(alloc),
            ticks: 0,
        }
    }

    pub(crate) fn into_items(self) -> Sequence<Item>
        ensures items { result ≡ self }
        ensures stamped { IsStamped self }
    {
        self.items
    }

    /// The items with one more event, which gets its stamps.
    pub(crate) fn with_event(self, event: CodeEvent) -> Result<Gathered, Memory>
        ensures { IfOk result (λ items. lines_of_items items ≡ lines_of_items self ++ event_lines event) }
    {
        let Gathered { items, ticks } = self;
        let events = items.len() as u64 - ticks;
        let mut items = items;
        items.push(Item::Event(EventRecord {
            number: events + 1,
            ticks_before: ticks,
            event,
        }))?;
        Ok(Gathered { items, ticks })
    }

    /// The items with one more tick, which gets its stamps.
    pub(crate) fn with_tick(self, tick: TickLine) -> Result<Gathered, Memory>
        ensures { IfOk result (λ items. lines_of_items items ≡ lines_of_items self ++ line.Tick tick ∷ []) }
    {
        let Gathered { items, ticks } = self;
        let events = items.len() as u64 - ticks;
        let mut items = items;
        items.push(Item::Tick(Tick {
            order: events,
            tick_number: ticks + 1,
            time: tick.time,
            interval: tick.interval,
            state: tick.state,
            hit: tick.hit,
            only: tick.only,
            frames: tick.frames,
        }))?;
        Ok(Gathered {
            items,
            ticks: ticks + 1,
        })
    }
}
