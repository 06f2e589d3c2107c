// What a stream in memory holds.
ghost use Rattle.std.specs.Prelude.{◌≡◌, ◌<◌, [], ◌∷◌, ◌++◌, length, map, OnOk, OnErr, vec_len, vec_capacity};

use crate::stream::{Chunk, Offer};
use prof_base::Memory;
use std::alloc::Global;
use std::mem;

// The parts, and what was offered. While a part is unfinished, there is room to close it and to
// record its end.
#[derive(Drop)]
pub(crate) struct Held {
    alloc: Global,
    closed: Vec<Vec<u8>>,
    unfinished: Vec<u8>,
    offers: Vec<Offer>,
    ghost part_room: { 0 < vec_len unfinished → vec_len closed < vec_capacity closed },
    ghost offer_room: { 0 < vec_len unfinished → vec_len offers < vec_capacity offers },
}

impl Held {
    // Makes one that holds nothing. It allocates nothing.
    pub(crate) fn new(alloc: Global) -> Held
        ensures closed { result.closed.items ≡ [] }
        ensures unfinished { result.unfinished.items ≡ [] }
        ensures offers { result.offers.items ≡ [] }
    {
        Held {
            alloc,
            closed: Vec::new(alloc),
            unfinished: Vec::new(alloc),
            offers: Vec::new(alloc),
        }
    }

    pub(crate) fn closed_parts(&self) -> &[Vec<u8>]
        ensures { result.now ≡ self.now.closed.items }
    {
        &self.closed
    }

    pub(crate) fn unfinished_part(&self) -> &[u8]
        ensures { result.now ≡ self.now.unfinished.items }
    {
        &self.unfinished
    }

    pub(crate) fn offers(&self) -> &[Offer]
        ensures { result.now ≡ self.now.offers.items }
    {
        &self.offers
    }

    // Appends the chunk, which gets this answer. It makes all room first, also for the end of the
    // part, which cannot answer that it is out of memory.
    pub(crate) fn take(&mut self, chunk: &[u8], answer: Chunk) -> Result<(), Memory>
        ensures closed { self.new.closed.items ≡ self.old.closed.items }
        ensures unfinished { OnOk result (self.new.unfinished.items ≡ self.old.unfinished.items ++ chunk.now) }
        ensures offers { OnOk result (self.new.offers.items ≡ self.old.offers.items ++ Offer.Bytes (length chunk.now) answer ∷ []) }
        ensures err { OnErr result (self.new.unfinished.items ≡ self.old.unfinished.items) }
        ensures no_offer { OnErr result (self.new.offers.items ≡ self.old.offers.items) }
    {
        self.closed.reserve(1)?;
        self.offers.reserve(2)?;
        self.unfinished.extend_from_slice(chunk)?;
        let count = chunk.len();
        self.offers.push(Offer::Bytes { count, answer }).unwrap();
        Ok(())
    }

    // Records that a chunk of `count` bytes was offered, and its answer. It does not take the
    // chunk.
    pub(crate) fn refuse(&mut self, count: usize, answer: Chunk) -> Result<(), Memory>
        ensures closed { self.new.closed.items ≡ self.old.closed.items }
        ensures unfinished { self.new.unfinished.items ≡ self.old.unfinished.items }
        ensures offers { OnOk result (self.new.offers.items ≡ self.old.offers.items ++ Offer.Bytes count answer ∷ []) }
        ensures no_offer { OnErr result (self.new.offers.items ≡ self.old.offers.items) }
    {
        self.offers.reserve(2)?;
        self.offers.push(Offer::Bytes { count, answer }).unwrap();
        Ok(())
    }

    // Closes the unfinished part.
    pub(crate) fn close(&mut self)
        requires { 0 < vec_len self.old.unfinished }
        ensures closed { map (λ part. part.items) self.new.closed.items ≡
            map (λ part. part.items) self.old.closed.items ++ self.old.unfinished.items ∷ [] }
        ensures unfinished { self.new.unfinished.items ≡ [] }
        ensures offers { self.new.offers.items ≡ self.old.offers.items ++ Offer.End ∷ [] }
    {
        let part = mem::replace(&mut self.unfinished, Vec::new(self.alloc));
        self.closed.push(part).unwrap();
        self.offers.push(Offer::End).unwrap();
    }
}
