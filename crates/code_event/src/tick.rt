// Ticks: moments of the guest, with its stack by addresses.
ghost use Rattle.std.specs.Prelude.{◌≡◌, ◌<◌, ◌≤◌, [], ◌∷◌, ◌++◌, length};

use crate::event::EventRecord;
use arrayvec::ArrayVec;
use prof_base::{Micros, SessionId};
use std::marker::Model;

/// What the guest's engine was doing, after V8's `StateTag`.
#[derive(Clone, Copy, Debug, PartialEq, Eq)]
pub enum VmState {
    /// It ran guest code.
    Js,
    /// It waited.
    Idle,
    /// It was in native code.
    Native,
    /// It collected garbage.
    Gc,
}

/// The addresses of a stack, youngest first: up to 255, as in V8's `TickSample`. It allocates
/// nothing.
#[derive(Debug, Drop)]
pub struct Frames {
    addresses: ArrayVec<u32, 255>,
}

impl Model for Frames {
    ghost use Rattle.std.specs.Prelude.{List, ℕ};

    ghost Value = { List ℕ };

    ghost view = { λ f. f.addresses.items };
}

impl Frames {
    /// The greatest number of addresses.
    pub const MAX_LEN: usize = 255;

    /// Makes a list of no addresses.
    pub fn new() -> Frames
        ensures { result ≡ [] }
    {
        Frames {
            addresses: ArrayVec::new(),
        }
    }

    /// Adds an address at the end.
    pub fn push(&mut self, address: u32)
        requires { length self.old < Frames.MAX_LEN }
        ensures { self.new ≡ self.old ++ address ∷ [] }
    {
        self.addresses.push(address);
    }

    /// Returns the addresses, youngest first.
    pub fn as_slice(&self) -> &[u32]
        ensures addresses { result.now ≡ self.now }
        ensures few { length self.now ≤ Frames.MAX_LEN }
    {
        self.addresses.as_slice()
    }

    /// Makes a list of the same addresses.
    pub fn copy(&self) -> Frames
        ensures { result ≡ self.now }
    {
        let mut copy = Frames::new();
        for address in self.as_slice() {
            copy.push(*address);
        }
        copy
    }
}

/// A moment of the guest.
#[derive(Debug, Drop)]
pub struct Tick {
    /// How many events were raised before it.
    pub order: u64,
    /// Its place among the undropped ticks, from 1.
    pub tick_number: u64,
    pub time: Micros,
    /// The source interval at which it was asked for, in microseconds, at most 2,000,000,000; 0 where
    /// a start or a deoptimisation made it.
    pub interval: u32,
    pub state: VmState,
    /// Whether it was asked for, and so counts as a hit.
    pub hit: bool,
    /// The one session that it is for, or none where it is for all.
    pub only: Option<SessionId>,
    pub frames: Frames,
}

impl Tick {
    /// Makes an equal tick. It allocates nothing.
    pub fn copy(&self) -> Tick
        ensures { result ≡ self.now }
    {
        Tick {
            order: self.order,
            tick_number: self.tick_number,
            time: self.time,
            interval: self.interval,
            state: self.state,
            hit: self.hit,
            only: self.only,
            frames: self.frames.copy(),
        }
    }
}

/// What an isolate has raised: an event or an undropped tick.
#[derive(Debug, Drop)]
pub enum Item {
    Event(EventRecord),
    Tick(Tick),
}
