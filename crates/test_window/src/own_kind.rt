// A device of a kind that no crate below knows.
ghost use Rattle.std.specs.Prelude.{◌≡◌, [], IfOk};

use mg_window::{Device, TapeFull, Windows};
use std::alloc::{AllocError, Global};
use std::marker::Model;
use std::test::Fail;

/// A mailbox, of kind 9. It holds what is stored, and each load returns 0.
#[derive(Drop)]
struct Mailbox {
    room: usize,
    letters: Vec<(u64, u64)>,
}

impl Model for Mailbox {
    ghost use Rattle.std.specs.Prelude.{ℕ, ◌≤◌, length, vec_capacity};
    ghost use Rattle.mg_window.specs.Devices.{Tape};

    ghost Value = { ℕ × Tape };

    ghost view = { λ m. (m.room, m.letters.items) };

    ghost invariant = { λ m. (m.room ≤ vec_capacity m.letters) × (length m.letters.items ≤ m.room) };
}

impl Mailbox {
    fn new(alloc: Global, room: usize) -> Result<Mailbox, AllocError>
        ensures { IfOk result (λ device. ⟦<Mailbox as Device>⟧.held device ≡ record { kind = 9; room = room; tape = [] }) }
    {
        let letters = Vec::with_capacity(alloc, room)?;
        Ok(Mailbox { room, letters })
    }
}

impl Device for Mailbox {
    ghost held = { λ m. record { kind = 9; room = m.0; tape = m.1 } };

    fn kind(&self) -> u64 {
        9
    }

    fn length(&self) -> u64 {
        self.letters.len() as u64
    }

    fn load(&self, _off: u64) -> u64 {
        0
    }

    fn store(&mut self, off: u64, value: u64) -> Result<(), TapeFull> {
        if self.letters.len() == self.room {
            return Err(TapeFull {
                room: self.room as u64,
            });
        }
        if self.letters.push((off, value)).is_err() {
            unreachable!()
        }
        Ok(())
    }
}

/// Whether the one device that is attached takes two stores and no third, and each load of it returns 0.
fn takes_two_stores(windows: &mut Windows) -> bool {
    if windows.len() != 1 {
        return false;
    }
    let first = windows.store(0, 8, 5).is_ok();
    let second = windows.store(0, 16, 7).is_ok();
    let third = windows.store(0, 8, 6) == Err(TapeFull { room: 2 });
    first && second && third && windows.load(0, 8) == 0 && windows.length_at(0) == 2
}

/// Whether a list has one device, of kind 9, whose tape has two stores.
fn is_mailbox(list: &[(u64, Box<dyn Device>)]) -> bool {
    match list {
        [(base, device)] => *base == 0x1_0000_1000 && device.kind() == 9 && device.length() == 2,
        _ => false,
    }
}

#[test]
fn a_device_of_a_kind_of_its_own(rt: HostRuntime) -> Result<(), Fail> {
    let alloc = rt.alloc();
    let mut windows = Windows::new(alloc)?;
    let mailbox: Box<dyn Device> = Box::new(alloc, Mailbox::new(alloc, 2)?)?;
    let attached = windows.attach(0x1_0000_1000, mailbox).is_ok();
    let took = takes_two_stores(&mut windows);
    let other: Box<dyn Device> = Box::new(alloc, Mailbox::new(alloc, 1)?)?;
    let refused = match windows.attach(0x1_0000_1000, other) {
        Ok(()) => false,
        Err(back) => back.kind() == 9 && back.length() == 0,
    };
    assert!(rt; attached && took && refused && is_mailbox(windows.into_list().as_slice()));
    Ok(())
}
