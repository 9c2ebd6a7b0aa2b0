// The devices that are attached.
ghost use Rattle.std.specs.Prelude.{◌≡◌, ◌<◌, ◌≤◌, ◌⊎◌, ◌∷◌, ◌++◌, [], IfOk, MatchResult, false, length, true, vec_capacity};
ghost use Rattle.mg_window.specs.Attached.{are_apart, base_at, device_at, is_there, place_at, seen, with_device, without};
ghost use Rattle.mg_window.specs.Devices.{reading, stored};

use crate::device::{Device, TapeFull};
use std::alloc::{AllocError, Global};
use std::marker::Model;

/// How many devices may be attached.
pub const MOST_DEVICES: usize = 16;

/// Up to 16 devices, each at a base of its own, in the order in which they were attached. If they are of several types they
/// are boxed, which is what `Windows` alone means; `Windows<D>` has those of one type.
#[derive(Drop)]
pub struct Windows<D: Drop = Box<dyn Device>> {
    list: Vec<(u64, D)>,
}

impl<D: Drop> Model for Windows<D> {
    ghost use Rattle.std.specs.Prelude.{◌≡◌, ◌≤◌, length, true, vec_capacity};
    ghost use Rattle.mg_window.specs.Attached.{Listed, are_apart};

    ghost Value = { Listed D };

    ghost view = { λ w. w.list.items };

    ghost invariant = { λ w. (16 ≤ vec_capacity w.list) × (length w.list.items ≤ 16) × (are_apart w.list.items ≡ true) };
}

impl<D: Device> Windows<D> {
    /// No devices, with room for 16. All memory that the list will need is taken here.
    pub fn new(alloc: Global) -> Result<Windows<D>, AllocError>
        ensures { IfOk result (λ windows. windows ≡ []) }
    {
        Ok(Windows {
            list: Vec::with_capacity(alloc, MOST_DEVICES)?,
        })
    }

    /// How many devices are attached, 0 to 16, no two at one base.
    #[tactic(auto, using(crate::proofs::Seen::apart_seen))]
    pub fn len(&self) -> usize
        ensures count { result ≡ length self.now }
        ensures at_most_16 { result ≤ 16 }
        ensures apart { are_apart (seen D.held self.now) ≡ true }
    {
        self.list.len()
    }

    /// The place of the device at a base. None exactly if none is there.
    #[tactic(auto, using(crate::proofs::Seen::place_seen))]
    pub fn find(&self, base: u64) -> Option<usize>
        ensures { result ≡ place_at (seen D.held self.now) base }
    {
        self.place(base)
    }

    // As [`Windows::find`], on the list itself.
    fn place(&self, base: u64) -> Option<usize>
        ensures { result ≡ place_at self.now base }
    {
        self.list.iter().position(|window| window.0 == base)
    }

    // Whether a device is at a base.
    fn has(&self, base: u64) -> bool
        ensures { result ≡ is_there self.now base }
    {
        self.list.iter().any(|window| window.0 == base)
    }

    /// Attaches a device at a base, after the others. That very device is handed back, and nothing is changed, exactly if
    /// one is there or 16 are attached.
    #[tactic(auto, using(crate::proofs::Apart::apart_more))]
    pub fn attach(&mut self, base: u64, device: D) -> Result<(), D>
        ensures { MatchResult result
            (λ _. (is_there self.old base ≡ false) × (length self.old < 16) × (self.new ≡ self.old ++ (base, device) ∷ []))
            (λ back. ((is_there self.old base ≡ true) ⊎ (length self.old ≡ 16)) × (back ≡ device) × (self.new ≡ self.old)) }
    {
        if self.has(base) || self.list.len() == MOST_DEVICES {
            return Err(device);
        }
        if self.list.push((base, device)).is_err() {
            unreachable!()
        }
        Ok(())
    }

    /// The base of the i-th device.
    pub fn base_at(&self, i: usize) -> u64
        requires { i < length self.now }
        ensures { result ≡ base_at (seen D.held self.now) i }
    {
        self.list[i].0
    }

    /// The number of the kind of the i-th device.
    pub fn kind_at(&self, i: usize) -> u64
        requires { i < length self.now }
        ensures { result ≡ (device_at (seen D.held self.now) i).kind }
    {
        self.list[i].1.kind()
    }

    /// How many stores the tape of the i-th device holds.
    pub fn length_at(&self, i: usize) -> u64
        requires { i < length self.now }
        ensures { result ≡ length (device_at (seen D.held self.now) i).tape }
    {
        self.list[i].1.length()
    }

    /// What the i-th device answers a load with at a place, in bytes from its base. Nothing changes.
    pub fn load(&self, i: usize, off: u64) -> u64
        requires { i < length self.now }
        ensures { let device = device_at (seen D.held self.now) i in result ≡ reading device.kind device.tape off }
    {
        self.list[i].1.load(off)
    }

    /// Stores a value to the i-th device at a place, in bytes from its base. Its tape gets that entry at its end, and no
    /// other device changes. [`TapeFull`] comes exactly if the tape holds as many as it has room for, and changes
    /// nothing. It takes no memory.
    pub fn store(&mut self, i: usize, off: u64, value: u64) -> Result<(), TapeFull>
        requires { i < length self.old }
        ensures { let device = device_at (seen D.held self.old) i in MatchResult result
            (λ _. (length device.tape < device.room) × (seen D.held self.new ≡ with_device (seen D.held self.old) i (stored device off value)))
            (λ full. (length device.tape ≡ device.room) × (full.room ≡ device.room) × (seen D.held self.new ≡ seen D.held self.old)) }
    {
        self.list[i].1.store(off, value)
    }

    /// Drops the device at a base, and says whether one was there. The others stay as they are, in their order.
    #[tactic(auto, using(crate::proofs::Apart::apart_without, crate::proofs::Seen::there_seen, crate::proofs::Seen::without_seen))]
    pub fn drop_at(&mut self, base: u64) -> bool
        ensures there { result ≡ is_there (seen D.held self.old) base }
        ensures others { self.new ≡ without self.old base }
        ensures others_seen { seen D.held self.new ≡ without (seen D.held self.old) base }
    {
        let there = self.has(base);
        drop_from(&mut self.list, base);
        there
    }

    /// The devices, each with its base, in their order. It takes no memory.
    pub fn into_list(self) -> Vec<(u64, D)>
        ensures { result.items ≡ self }
    {
        self.list
    }
}

// Drops the device at a base.
fn drop_from<D: Drop>(list: &mut Vec<(u64, D)>, base: u64)
    ensures others { list.new.items ≡ without list.old.items base }
    ensures no_more_than_before { length list.new.items ≤ length list.old.items }
    ensures same_capacity { vec_capacity list.new ≡ vec_capacity list.old }
{
    list.retain(|window| window.0 != base);
}
