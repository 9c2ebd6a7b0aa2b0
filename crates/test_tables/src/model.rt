// Settings and passwords, and rows that change: each call that no other crate makes yet, once.
ghost use Rattle.std.specs.Prelude.{◌≡◌, ◌≤◌, length};
ghost use Rattle.mg_model.specs.Limits.{never};

use mg_model::{
    Frame, Globals, ObjRow, Params, Pw, Right, Rights, Slot, Tariff, ThrRow, ThrState, draw,
};

// The key stream for the key 0, which RFC 8439 prints in its appendix A.1.
const DRAWN: [u64; 3] = [
    0x903d_f1a0_ade0_b876,
    0x28bd_8653_e56a_5d40,
    0x1aed_8da0_b819_d2bd,
];

fn passwords_are_drawn() -> bool {
    let zero = [0; 32];
    [draw(&zero, 0), draw(&zero, 1), draw(&zero, 2)] == DRAWN
}

/// The steps of the tariff of 64 frames.
const STEPS: [(u64, u64); 4] = [(0, 1), (16, 2), (32, 4), (48, 8)];

fn tariff_is_usual() -> bool {
    Tariff::new(STEPS) == Some(Tariff::usual(64))
}

fn settings_are_kept() -> bool {
    match Params::new(64, [7; 32], 1000, Tariff::usual(64)) {
        Some(p) => {
            let numbers = [p.frames(), p.credits()] == [64, 1000];
            numbers && p.seed() == [7; 32] && p.tariff().steps() == STEPS
        }
        None => false,
    }
}

fn rights_are_kept() -> bool {
    match Rights::new(33) {
        Some(r) => r.bits() == 33 && r.has(Right::O) && !r.has(Right::W),
        None => false,
    }
}

fn all_rights_are_most() -> bool {
    Rights::all().bits() == 63 && Rights::new(64).is_none()
}

fn password(password: u64, until: u64) -> Pw
    requires begins { 1 ≤ until }
    requires ends { until ≤ never }
{
    Pw::new(password, Rights::all(), until)
}

// An object whose first password has gone, with its other account.
fn changed_object() -> ObjRow {
    let mut row = ObjRow::new(0x1_0000_0000, 2, 1);
    row.add_password(password(5, 7));
    row.add_password(password(6, Pw::NEVER));
    row.remove_passwords(5);
    row.set_account(2);
    row
}

// Its account and how many passwords it has, whether it has the last address and the one after it, and whether its passwords
// hold at a period.
fn told_of_object(row: &ObjRow) -> (u64, usize, [bool; 4]) {
    let tests = [
        row.covers(0x1_0000_1fff),
        row.covers(0x1_0000_2000),
        row.holds(5, Right::W, 6),
        row.holds(6, Right::W, 7),
    ];
    (row.account(), row.passwords().len(), tests)
}

// Whether an object holds a password until period 7 at period 6, and at 7.
fn held_until() -> [bool; 2] {
    let mut row = ObjRow::new(0x1_0000_0000, 2, 1);
    row.add_password(password(5, 7));
    [row.holds(5, Right::X, 6), row.holds(5, Right::X, 7)]
}

fn object_is_changed() -> bool {
    let wanted = (2, 1, [true, false, false, true]);
    told_of_object(&changed_object()) == wanted && held_until() == [true, false]
}

// A frame whose first slot of two has gone.
fn changed_frame() -> Frame
    ensures { result.back ≡ 16 }
{
    let mut frame = Frame::new(8);
    frame.add(Slot {
        base: 1,
        password: 0,
    });
    frame.add(Slot {
        base: 2,
        password: 0,
    });
    frame.remove(0);
    frame.set_back(16);
    frame
}

// How many slots the last frame of a thread has, and where it goes back to.
fn last_of(row: &ThrRow) -> [u64; 2] {
    [row.last().slots().len() as u64, row.last().back()]
}

// A thread in a call, with the frame that it has there.
fn called() -> ThrRow
    ensures { length result.frames ≡ 2 }
{
    let mut row = ThrRow::new(3, 1, 8, Frame::new(0));
    row.push_frame(Frame::new(16));
    row.set_last(changed_frame());
    row
}

// The same once it has come back: how many frames it has, where it continues, and a register.
fn come_back() -> ([u64; 3], ThrState) {
    let mut row = called();
    row.pop_frame();
    row.set_pc(24);
    row.set_state(ThrState::Stopped);
    row.set_register(7, 5);
    let numbers = [row.frames().len() as u64, row.pc(), row.regs()[7]];
    (numbers, row.state())
}

fn thread_is_changed() -> bool {
    last_of(&called()) == [1, 16] && come_back() == ([1, 24, 5], ThrState::Stopped)
}

fn counters_are_changed() -> bool {
    let mut globals = Globals::new(2, 0, 0, 1);
    globals.set_draws(3);
    globals.set_period(4);
    globals.set_cursor(5);
    globals.set_births(6);
    globals == Globals::new(3, 4, 5, 6)
}

#[test]
fn settings_and_rows(rt: HostRuntime) {
    let right = [
        passwords_are_drawn(),
        tariff_is_usual(),
        settings_are_kept(),
        rights_are_kept(),
        all_rights_are_most(),
        object_is_changed(),
        thread_is_changed(),
        counters_are_changed(),
    ];
    assert_eq!(rt; right, [true; 8]);
}
