//! Laws of the core. Each function does nothing: its contract is the law.
ghost use Rattle.std.specs.Prelude.{◌≡◌};
ghost use Rattle.prof_base.specs.Prefix.{IsPrefix};
ghost use Rattle.code_event.specs.ItemList.{IsStamped};
ghost use Rattle.pipe_core.specs.CoreOrder.{AfterAnySteps, HasOtherTicks, NoneIsNext, not_taken};
ghost use Rattle.pipe_core.specs.RefusedSteps.{RefusedStepsChangeNothing};
ghost use Rattle.pipe_core.specs.Stamps.{event_count, events_of, tick_count};

use crate::world::MAX_RING;

/// States the limit that contracts cite by name.
pub fn limits()
    ensures ring { MAX_RING ≡ 1024 }
{}

/// A step that is answered otherwise than by `Done` leaves the world unchanged.
pub fn refused_steps_change_nothing()
    ensures unchanged { RefusedStepsChangeNothing }
{}

/// Whatever steps the two sides do, in whatever order: what was raised is stamped, and begins with what
/// was taken, which is counted. Of the rest, the events are those that wait, in order, and the ticks
/// are those of the engine's queue and of the ring, each in rising number. The slots of the ring are as
/// the ticks that were sent through it say. And where neither queue begins with the item that is next,
/// and the ring's front is not it, everything that was raised was taken.
pub fn the_core_keeps_its_order()
    ensures stamped { AfterAnySteps (λ world. IsStamped world.raised) }
    ensures prefix { AfterAnySteps (λ world. IsPrefix world.taken world.raised) }
    ensures taken_stamped { AfterAnySteps (λ world. IsStamped world.taken) }
    ensures applied { AfterAnySteps (λ world. world.applied ≡ event_count world.taken) }
    ensures ticked { AfterAnySteps (λ world. world.ticked ≡ tick_count world.taken) }
    ensures events { AfterAnySteps (λ world. world.events ≡ events_of (not_taken world)) }
    ensures other_ticks { AfterAnySteps HasOtherTicks }
    ensures all_taken { AfterAnySteps (λ world. NoneIsNext world → world.taken ≡ world.raised) }
{}
