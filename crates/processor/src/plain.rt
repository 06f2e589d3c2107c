// Taking from the queues of one thread.
ghost use Rattle.std.specs.Prelude.{◌≡◌, ◌≤◌, ◌+◌, ◌⊎◌, ℕ, List, [], ◌∷◌, ◌++◌, length, Option, Some, None};
ghost use Rattle.code_event.specs.declared.tick.Item.{Item};
ghost use Rattle.pipe_core.specs.Observed.{IfThere};
ghost use Rattle.out_stream.specs.Parts.{Parts};
ghost use Rattle.processor.specs.Course.{StandsFor};
ghost use Rattle.processor.specs.CourseLaws.{AreDelivered};
ghost use Rattle.processor.specs.Plain.{GoesOn, IsPlainTurn};
ghost use Rattle.code_event.specs.ItemList.{IsLegalItems};
ghost use Rattle.processor.specs.Running.{running_ports};
ghost use Rattle.processor.specs.Settling.{GoesOnTo, IsAmid, IsSettled};
ghost use Rattle.processor.specs.Taking.{HasTaken};
ghost use Rattle.processor.specs.TakingLaws.{HoldRest};

use crate::ports::FilePorts;
use crate::processor::Processor;
use crate::taker::Taker;
use crate::turn::ProcTurn;
use code_event::{EventRecord, Item, Tick};
use out_stream::OutputStream;
use pipe_core::{PlainQueue, PlainRing};

/// Takes the next item from three queues of one thread. Where they hold what follows in a stamped
/// list, it takes the first item of that, and nothing only where nothing follows.
pub fn take_plain(
    taker: &mut Taker<PlainQueue<EventRecord>, PlainQueue<Tick>, PlainRing>,
) -> Option<Item>
    ensures nothing { IfThere result ((items rest : List Item) → HasTaken taker.old.applied taker.old.ticked items
        → HoldRest items rest taker.old.events.items taker.old.vm_ticks.items taker.old.ring.items → rest ≡ []) (λ _. Unit {0}) }
    ensures first { IfThere result (Unit {0}) (λ x. (items rest : List Item) → HasTaken taker.old.applied taker.old.ticked items
        → HoldRest items rest taker.old.events.items taker.old.vm_ticks.items taker.old.ring.items
        → (rest' : List Item) × (rest ≡ x ∷ rest') × HoldRest (items ++ x ∷ []) rest' taker.new.events.items taker.new.vm_ticks.items taker.new.ring.items) }
    ensures taken { IfThere result (Unit {0}) (λ x. (items : List Item) → HasTaken taker.old.applied taker.old.ticked items
        → HasTaken taker.new.applied taker.new.ticked (items ++ x ∷ [])) }
{
    taker.take()
}

/// A turn of a processor over three queues of one thread. Where they hold what follows the items taken
/// in a stamped list, it takes the first item of that, if it waits for one and there is one, and they
/// hold afterwards what follows then; else it ends the first session that waits, if one does. Nothing is
/// answered only where nothing follows: all is taken. Where Over is answered and the list is legal, all
/// its files are delivered, as far as the delivery and the memory say.
pub fn turn_plain<S: OutputStream, X: FilePorts>(
    processor: &mut Processor<PlainQueue<EventRecord>, PlainQueue<Tick>, PlainRing, S>,
    ports: &mut X,
) -> ProcTurn
    ensures nothing { result ≡ ProcTurn.Nothing → (items rest : List Item) → HasTaken processor.old.applied processor.old.ticked items
        → HoldRest items rest processor.old.events.items processor.old.vm_ticks.items processor.old.ring.items → rest ≡ [] }
    ensures progress { (base : ℕ) (items rest : List Item) (before : Option Parts)
        → StandsFor base items processor.old.applied processor.old.ticked processor.old.course before (S.parts processor.old.stream)
        → HoldRest items rest processor.old.events.items processor.old.vm_ticks.items processor.old.ring.items
        → IsPlainTurn base items rest processor.old.course processor.new.course result processor.new.applied processor.new.ticked before (S.parts processor.new.stream) processor.new.events.items processor.new.vm_ticks.items processor.new.ring.items }
    ensures goes_on { (base : ℕ) (items rest : List Item) (before : Option Parts)
        → StandsFor base items processor.old.applied processor.old.ticked processor.old.course before (S.parts processor.old.stream)
        → HoldRest items rest processor.old.events.items processor.old.vm_ticks.items processor.old.ring.items
        → GoesOn base (items ++ rest) processor.new.applied processor.new.ticked processor.new.course before (S.parts processor.new.stream) processor.new.events.items processor.new.vm_ticks.items processor.new.ring.items }
    ensures at_nothing { result ≡ ProcTurn.Nothing → (base : ℕ) (items rest : List Item) (before : Option Parts)
        → StandsFor base items processor.old.applied processor.old.ticked processor.old.course before (S.parts processor.old.stream)
        → HoldRest items rest processor.old.events.items processor.old.vm_ticks.items processor.old.ring.items
        → StandsFor base (items ++ rest) processor.new.applied processor.new.ticked processor.new.course before (S.parts processor.new.stream) }
    ensures at_over { result ≡ ProcTurn.Over → (base : ℕ) (items rest : List Item) (before : Option Parts)
        → StandsFor base items processor.old.applied processor.old.ticked processor.old.course before (S.parts processor.old.stream)
        → HoldRest items rest processor.old.events.items processor.old.vm_ticks.items processor.old.ring.items → IsLegalItems (items ++ rest)
        → AreDelivered base (items ++ rest) [] processor.new.course.filing before (S.parts processor.new.stream) }

    // Each refusal is counted, and no count falls. The size of chunks, the spare place of the events and
    // the places of the ring stay the same.
    ensures refusing { GoesOnTo processor.old.course.filing processor.new.course.filing (S.aborts processor.old.stream) (S.stream_faults processor.old.stream) (S.aborts processor.new.stream) (S.stream_faults processor.new.stream) }
    ensures chunk_size { S.chunk_bytes processor.new.stream ≡ S.chunk_bytes processor.old.stream }
    ensures spare { processor.new.events.spare ≡ processor.old.events.spare }
    ensures places { processor.new.ring.places ≡ processor.old.ring.places }
{
    processor.turn(ports)
}

/// Turns a processor over three queues of one thread until it answers Nothing or Over, and returns that
/// answer; None where this many turns are too few. Each turn takes an item, or ends a session that
/// waits, so one more turn than there are items and sessions that run after all of a legal list is
/// enough.
pub fn turns_plain<S: OutputStream, X: FilePorts>(
    processor: &mut Processor<PlainQueue<EventRecord>, PlainQueue<Tick>, PlainRing, S>,
    ports: &mut X,
    most: u32,
) -> Option<ProcTurn>
    ensures some { IfThere result (Unit {0}) (λ answer. (answer ≡ ProcTurn.Nothing) ⊎ (answer ≡ ProcTurn.Over)) }
    ensures enough { result ≡ None → (base : ℕ) (items rest : List Item) (before : Option Parts)
        → StandsFor base items processor.old.applied processor.old.ticked processor.old.course before (S.parts processor.old.stream)
        → HoldRest items rest processor.old.events.items processor.old.vm_ticks.items processor.old.ring.items → IsLegalItems (items ++ rest)
        → most ≤ length rest + length (running_ports (items ++ rest)) }
    ensures goes_on { (base : ℕ) (items rest : List Item) (before : Option Parts)
        → StandsFor base items processor.old.applied processor.old.ticked processor.old.course before (S.parts processor.old.stream)
        → HoldRest items rest processor.old.events.items processor.old.vm_ticks.items processor.old.ring.items
        → GoesOn base (items ++ rest) processor.new.applied processor.new.ticked processor.new.course before (S.parts processor.new.stream) processor.new.events.items processor.new.vm_ticks.items processor.new.ring.items }
    ensures at_nothing { result ≡ Some ProcTurn.Nothing → (base : ℕ) (items rest : List Item) (before : Option Parts)
        → StandsFor base items processor.old.applied processor.old.ticked processor.old.course before (S.parts processor.old.stream)
        → HoldRest items rest processor.old.events.items processor.old.vm_ticks.items processor.old.ring.items
        → StandsFor base (items ++ rest) processor.new.applied processor.new.ticked processor.new.course before (S.parts processor.new.stream) }
    ensures at_over { result ≡ Some ProcTurn.Over → (base : ℕ) (items rest : List Item) (before : Option Parts)
        → StandsFor base items processor.old.applied processor.old.ticked processor.old.course before (S.parts processor.old.stream)
        → HoldRest items rest processor.old.events.items processor.old.vm_ticks.items processor.old.ring.items → IsLegalItems (items ++ rest)
        → AreDelivered base (items ++ rest) [] processor.new.course.filing before (S.parts processor.new.stream) }
{
    for _ in 0..most {
        let answer = turn_plain(processor, ports);
        if answer == ProcTurn::Nothing || answer == ProcTurn::Over {
            return Some(answer);
        }
    }
    None
}

/// Turns a processor over three queues of one thread until it answers Nothing or Over, in as many turns
/// as that takes. Where the processor has taken the first items of a legal list and the queues hold the
/// others, it has taken all of them afterwards, and the queues hold nothing; and where a finish was
/// taken, all files of the list are delivered, as far as the delivery and the memory say.
pub fn settle_plain<S: OutputStream, X: FilePorts>(
    processor: &mut Processor<PlainQueue<EventRecord>, PlainQueue<Tick>, PlainRing, S>,
    ports: &mut X,
)
    requires amid { (base : ℕ) × IsAmid base processor.old.applied processor.old.ticked processor.old.course (S.parts processor.old.stream) processor.old.events.items processor.old.vm_ticks.items processor.old.ring.items }
    ensures settled { (base : ℕ) (whole : List Item) (before : Option Parts) → IsLegalItems whole
        → GoesOn base whole processor.old.applied processor.old.ticked processor.old.course before (S.parts processor.old.stream) processor.old.events.items processor.old.vm_ticks.items processor.old.ring.items
        → IsSettled base whole processor.new.applied processor.new.ticked processor.new.course before (S.parts processor.new.stream) processor.new.events.items processor.new.vm_ticks.items processor.new.ring.items }

    // Each refusal is counted, and no count falls. The size of chunks, the spare place of the events and
    // the places of the ring stay the same.
    ensures refusing { GoesOnTo processor.old.course.filing processor.new.course.filing (S.aborts processor.old.stream) (S.stream_faults processor.old.stream) (S.aborts processor.new.stream) (S.stream_faults processor.new.stream) }
    ensures chunk_size { S.chunk_bytes processor.new.stream ≡ S.chunk_bytes processor.old.stream }
    ensures spare { processor.new.events.spare ≡ processor.old.events.spare }
    ensures places { processor.new.ring.places ≡ processor.old.ring.places }
{
    loop {
        let answer = turn_plain(processor, ports);
        if answer == ProcTurn::Over || answer == ProcTurn::Nothing {
            return;
        }
    }
}
