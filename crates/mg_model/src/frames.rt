// A frame of a thread.
ghost use Rattle.std.specs.Prelude.{◌≡◌, ◌<◌, ◌+◌, ◌%◌, ◌++◌, ◌∷◌, [], length, take, drop, suc};
ghost use Rattle.mg_model.specs.Ranges.{IsCallFrame};

use crate::few::{Few, Filler};
use crate::limits::SLOT_LIMIT;
use crate::slots::Slot;
use std::marker::Model;

impl Filler for Slot {
    ghost blank = { record { base = 0; password = 0 } };

    fn blank() -> Slot {
        Slot {
            base: 0,
            password: 0,
        }
    }
}

/// A frame of a thread: the address that its call returns to, and up to 8 slots that the thread runs under.
#[derive(Clone, Copy, PartialEq, Eq)]
pub struct Frame {
    /// The address that the call returns to, a multiple of 8.
    pub back: u64,
    /// The slots, in order.
    pub slots: Few<Slot, SLOT_LIMIT>,
}

impl Model for Frame {
    ghost use Rattle.mg_model.specs.State.{CallFrame};
    ghost use Rattle.mg_model.specs.Ranges.{IsCallFrame};

    ghost Value = { CallFrame };

    ghost view = { λ frame. record { back = frame.back; slots = frame.slots } };

    ghost invariant = { λ frame. IsCallFrame (record { back = frame.back; slots = frame.slots }) };

    ghost inverse = { λ frame. record { back = frame.back; slots = frame.slots } };
}

impl Frame {
    /// A frame without slots, for a call that returns to this address, a multiple of 8.
    pub fn new(back: u64) -> Frame
        requires { back % 8 ≡ 0 }
        ensures { result ≡ record { back = back; slots = [] } }
    {
        Frame {
            back,
            slots: Few::new(),
        }
    }

    /// The address that the call returns to, a multiple of 8.
    pub fn back(&self) -> u64
        ensures value { result ≡ self.now.back }
        ensures kept { IsCallFrame self.now }
    {
        self.back
    }

    /// Another address to return to, a multiple of 8.
    pub fn set_back(&mut self, back: u64)
        requires { back % 8 ≡ 0 }
        ensures { self.new ≡ record self.old { back = back } }
    {
        self.back = back;
    }

    /// The slots, in order.
    pub fn slots(&self) -> &[Slot]
        ensures { result.now ≡ self.now.slots }
    {
        self.slots.as_slice()
    }

    /// One slot more, the last.
    pub fn add(&mut self, slot: Slot)
        requires { length self.old.slots < 8 }
        ensures { self.new ≡ record self.old { slots = self.old.slots ++ slot ∷ [] } }
    {
        self.slots.add(slot);
    }

    /// Removes the slot at this place. The later ones close up.
    pub fn remove(&mut self, place: usize)
        requires { place < length self.old.slots }
        ensures { self.new ≡ record self.old { slots = take place self.old.slots ++ drop (suc place) self.old.slots } }
    {
        self.slots.remove(place);
    }
}
