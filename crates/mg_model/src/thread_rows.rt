// What is known of a thread.
ghost use Rattle.std.specs.Prelude.{◌≡◌, ◌≤◌, ◌<◌, ◌+◌, ◌-◌, ◌%◌, ◌^◌, ◌++◌, ◌∷◌, [], length, take, replicate, slice_get, slice_set};
ghost use Rattle.mg_model.specs.Domains.{last_back};
ghost use Rattle.mg_model.specs.Ranges.{IsThreadRow};

use crate::few::{Few, Filler};
use crate::frames::Frame;
use crate::limits::FRAME_LIMIT;
use crate::threads::ThrState;
use std::marker::Model;

impl Filler for Frame {
    ghost blank = { record { back = 0; slots = [] } };

    fn blank() -> Frame {
        Frame::new(0)
    }
}

/// What is known of a thread: its birth number and its creator's, its pc, its state, eight registers, and 1 to 16 frames
/// of which the last is the present one and the first returns to 0.
#[derive(Clone, Copy, PartialEq, Eq)]
pub struct ThrRow {
    /// Its birth number, which no other thread ever has.
    pub birth: u64,
    /// The birth number of the thread that created it; 0 of the first thread.
    pub creator: u64,
    /// The address of its next word, a multiple of 8.
    pub pc: u64,
    /// Whether it takes turns.
    pub state: ThrState,
    /// Its registers.
    pub regs: [u64; 8],
    /// Its frames, of which the last is the present one.
    pub frames: Few<Frame, FRAME_LIMIT>,
}

impl Model for ThrRow {
    ghost use Rattle.mg_model.specs.State.{ThreadRow};
    ghost use Rattle.mg_model.specs.Ranges.{IsThreadRow};

    ghost Value = { ThreadRow };

    ghost view = { λ row. record {
      birth = row.birth;
      creator = row.creator;
      pc = row.pc;
      state = row.state;
      regs = row.regs;
      frames = row.frames;
    } };

    ghost invariant = { λ row. IsThreadRow (record {
      birth = row.birth;
      creator = row.creator;
      pc = row.pc;
      state = row.state;
      regs = row.regs;
      frames = row.frames;
    }) };

    ghost inverse = { λ row. record {
      birth = row.birth;
      creator = row.creator;
      pc = row.pc;
      state = row.state;
      regs = row.regs;
      frames = row.frames;
    } };
}

impl ThrRow {
    /// A thread that is Ready, with registers 0 and this frame alone. The creator's birth number is below its own; the pc
    /// is a multiple of 8, and the frame returns to 0.
    pub fn new(birth: u64, creator: u64, pc: u64, first: Frame) -> ThrRow
        requires created { creator < birth }
        requires aligned { pc % 8 ≡ 0 }
        requires bottom { first.back ≡ 0 }
        ensures { result ≡ record { birth = birth; creator = creator; pc = pc; state = ThrState.Ready; regs = replicate 8 0; frames = first ∷ [] } }
    {
        let mut frames = Few::new();
        frames.add(first);
        ThrRow {
            birth,
            creator,
            pc,
            state: ThrState::Ready,
            regs: [0; 8],
            frames,
        }
    }

    /// Its birth number, which no other thread ever has.
    pub fn birth(&self) -> u64
        ensures value { result ≡ self.now.birth }
        ensures kept { IsThreadRow self.now }
    {
        self.birth
    }

    /// The birth number of the thread that created it; 0 of the first thread.
    pub fn creator(&self) -> u64
        ensures { result ≡ self.now.creator }
    {
        self.creator
    }

    /// The address of its next word, a multiple of 8.
    pub fn pc(&self) -> u64
        ensures { result ≡ self.now.pc }
    {
        self.pc
    }

    /// Whether it takes turns.
    pub fn state(&self) -> ThrState
        ensures { result ≡ self.now.state }
    {
        self.state
    }

    /// Its registers.
    pub fn regs(&self) -> [u64; 8]
        ensures { result ≡ self.now.regs }
    {
        self.regs
    }

    /// Its frames; the last is the present one.
    pub fn frames(&self) -> &[Frame]
        ensures { result.now ≡ self.now.frames }
    {
        self.frames.as_slice()
    }

    /// Its present frame.
    pub fn last(&self) -> Frame
        ensures { slice_get self.now.frames (length self.now.frames - 1) ≡ Some result }
    {
        self.frames.last()
    }

    /// Another pc, a multiple of 8.
    pub fn set_pc(&mut self, pc: u64)
        requires { pc % 8 ≡ 0 }
        ensures { self.new ≡ record self.old { pc = pc } }
    {
        self.pc = pc;
    }

    /// Another state.
    pub fn set_state(&mut self, state: ThrState)
        ensures { self.new ≡ record self.old { state = state } }
    {
        self.state = state;
    }

    /// Another value in the register with this number.
    pub fn set_register(&mut self, number: usize, value: u64)
        requires { number < 8 }
        ensures { self.new ≡ record self.old { regs = slice_set self.old.regs number value } }
    {
        self.regs[number] = value;
    }

    /// Other registers.
    pub fn set_regs(&mut self, regs: [u64; 8])
        ensures { self.new ≡ record self.old { regs = regs } }
    {
        self.regs = regs;
    }

    /// One frame more, which becomes the present one.
    pub fn push_frame(&mut self, frame: Frame)
        requires { length self.old.frames < 16 }
        ensures { self.new ≡ record self.old { frames = self.old.frames ++ frame ∷ [] } }
    {
        self.frames.add(frame);
    }

    /// Removes the present frame, and the frame below it becomes the present one. The thread has at least two frames.
    pub fn pop_frame(&mut self)
        requires { 2 ≤ length self.old.frames }
        ensures { self.new ≡ record self.old { frames = take (length self.old.frames - 1) self.old.frames } }
    {
        self.frames.pop();
    }

    /// Another present frame, which returns to the same address as the present one.
    pub fn set_last(&mut self, last: Frame)
        requires { last.back ≡ last_back self.old.frames }
        ensures row { self.new ≡ record self.old { frames = take (length self.old.frames - 1) self.old.frames ++ last ∷ [] } }
        ensures some_frame { 1 ≤ length self.old.frames }
    {
        self.frames.pop();
        self.frames.add(last);
    }
}
