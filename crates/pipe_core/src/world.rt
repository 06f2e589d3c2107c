// The world of the core.
ghost use Rattle.std.specs.Prelude.{◌≡◌, ◌≤◌, replicate, IfOk};
ghost use Rattle.pipe_core.specs.Core.{empty_cell, start};

use crate::backlog::Backlog;
use code_event::{CodeEvent, EventRecord, Item, Tick};
use prof_base::{Memory, Sequence};
use std::alloc::Global;

/// The greatest number of places of a ring.
pub const MAX_RING: u32 = 1_024;

/// A slot of the ring.
#[derive(Debug, Drop)]
pub struct Cell {
    /// The marker.
    pub full: bool,
    /// The tick that lies in the slot.
    pub tick: Option<Tick>,
}

/// How far an offer of a tick has come.
#[derive(Debug, Drop)]
pub enum Offering {
    /// No offer is under way.
    Idle,
    /// The marker was read as empty. The isolate still has the tick.
    Looked(Tick),
    /// The tick lies in its slot.
    Written,
}

/// How far the taking of a ring's tick has come.
#[derive(Debug, Drop)]
pub enum Fronting {
    /// No tick is being taken.
    Idle,
    /// The marker was read as full.
    Looked,
    /// The processor has the tick, whose slot is still marked full.
    Held(Tick),
}

/// What an isolate raised, what its processor took, and what lies between them. One value holds it all:
/// it is the model of both sides, in which each of their steps is one change.
#[derive(Debug, Drop)]
pub struct World {
    /// All items that were raised, in order.
    pub raised: Sequence<Item>,
    /// The events that wait, the oldest first.
    pub events: Backlog<EventRecord>,
    /// The engine's own ticks that wait, of starts and deoptimisations, the oldest first.
    pub vm_ticks: Backlog<Tick>,
    /// The slots of the ring.
    pub cells: Sequence<Cell>,
    /// The number of ticks that were sent through the ring.
    pub sent: u64,
    /// The number of ticks that were removed from the ring.
    pub removed: u64,
    /// The isolate's offer.
    pub offering: Offering,
    /// The processor's look at the front.
    pub fronting: Fronting,
    /// The number of events that were taken.
    pub applied: u64,
    /// The number of ticks that were taken, of both kinds.
    pub ticked: u64,
    /// All items that were taken, in order.
    pub taken: Sequence<Item>,
}

/// A step of the core: one action of one side. The first five are the isolate's, the others the
/// processor's.
#[derive(Debug, Drop)]
pub enum CoreStep {
    /// Stamps an event and puts it into its queue.
    RaiseEvent(CodeEvent),
    /// Stamps a tick of the engine and puts it into its queue.
    PushVmTick(Tick),
    /// Begins an offer of this tick: reads the marker of its slot.
    SlotLook(Tick),
    /// Puts the tick into the slot.
    SlotWrite,
    /// Stamps the tick and marks the slot full.
    SlotMarkFull,
    /// Reads the marker of the front slot.
    FrontLook,
    /// Moves the tick out of the slot.
    FrontTake,
    /// Takes the held tick, if it is next, and marks its slot empty.
    SlotMarkEmpty,
    /// Takes the oldest event, if it is next.
    TakeEvent,
    /// Takes the oldest tick of the engine's queue, if it is next.
    TakeVmTick,
}

/// The answer to a step. Where it is not `Done`, the step changed nothing.
#[derive(Debug, Drop)]
pub enum CoreAnswer {
    /// The step was done.
    Done,
    /// The slot was marked full. The tick comes back.
    Full(Tick),
    /// The front slot was marked empty.
    Empty,
    /// The step does not follow the side's last one, or its item is not next.
    NotNext,
}

impl Cell {
    /// Makes a slot that is marked empty and has nothing in it.
    pub(crate) fn empty() -> Cell
        ensures empty { result ≡ empty_cell }
    {
        Cell {
            full: false,
            tick: None,
        }
    }
}

/// Makes slots that are marked empty and have nothing in them.
fn empty_cells(alloc: Global, places: u32) -> Result<Sequence<Cell>, Memory>
    ensures cells { IfOk result (λ cells. cells ≡ replicate places empty_cell) }
{
    let mut cells = Sequence::new(alloc);
    for _ in 0..places {
        cells.push(Cell::empty())?;
    }
    Ok(cells)
}

impl World {
    /// Makes a world in which nothing was raised, with a ring of 1 to 1,024 places.
    pub fn new(alloc: Global, ring: u32) -> Result<World, Memory>
        requires some { 1 ≤ ring }
        requires few { ring ≤ MAX_RING }
        ensures start { IfOk result (λ world. world ≡ start ring) }
    {
        Ok(World {
            raised: Sequence::new(alloc),
            events: Backlog::new(alloc),
            vm_ticks: Backlog::new(alloc),
            cells: empty_cells(alloc, ring)?,
            sent: 0,
            removed: 0,
            offering: Offering::Idle,
            fronting: Fronting::Idle,
            applied: 0,
            ticked: 0,
            taken: Sequence::new(alloc),
        })
    }
}
