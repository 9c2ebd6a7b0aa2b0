// Instructions on a thread's row, worked out by hand.
ghost use Rattle.std.specs.Prelude.{◌≡◌, ◌%◌};
ghost use Rattle.mg_script.specs.Encoded.{HasRegisters};

use mg_model::{Frame, Instr, ThrRow, ThrState};
use mg_script::{Action, decode, encode, execute};

/// A thread that is to run the word at this pc, with 40 in register 1 and 0 in the others.
fn row_at(pc: u64) -> ThrRow
    requires { pc % 8 ≡ 0 }
{
    let mut row = ThrRow::new(2, 1, pc, Frame::new(0));
    row.set_register(1, 40);
    row
}

/// The row of a thread that stopped before the word at 0x1008.
fn stopped() -> ThrRow {
    let mut row = row_at(0x1008);
    row.set_state(ThrState::Stopped);
    row
}

/// The row after the sum of register 1 with itself was stored in register 3.
fn doubled() -> ThrRow {
    let mut row = row_at(0x1008);
    row.set_register(3, 80);
    row
}

fn does(instr: Instr, known: Action) -> bool
    requires { HasRegisters instr }
{
    execute(&instr, &row_at(0x1000)) == known
}

// A jump back by two words is taken since register 1 is not 0; a jump if it is 0 is not.
#[test]
fn instructions_are_executed(rt: HostRuntime) {
    let stops = does(Instr::Halt, Action::Next(stopped()));
    let adds = does(Instr::Add { a: 3, b: 1, c: 1 }, Action::Next(doubled()));
    let jumps = does(
        Instr::Jnz {
            a: 1,
            i: 0xffff_fffe,
        },
        Action::Next(row_at(0xff0)),
    );
    let stays = does(Instr::Jz { a: 1, i: 5 }, Action::Next(row_at(0x1008)));
    assert!(rt; stops && adds && jumps && stays);
}

#[test]
fn calls_are_left_to_the_machine(rt: HostRuntime) {
    let loads = does(
        Instr::Load { a: 7, b: 1, i: 16 },
        Action::Load { a: 56, to: 7 },
    );
    let stores = does(
        Instr::Store { a: 1, b: 0, i: 64 },
        Action::Store { a: 64, value: 40 },
    );
    let enters = does(Instr::Pdx { a: 0, b: 1 }, Action::Pdx { a: 0, mask: 40 });
    let returns = does(Instr::Ret, Action::Ret);
    let calls = does(Instr::Sys, Action::Sys);
    assert!(rt; loads && stores && enters && returns && calls);
}

// Whether a word is decoded to this instruction, and encoded from it.
fn spells(word: u64, instr: &Instr) -> bool {
    decode(word) == Some(*instr) && encode(instr) == word
}

// A word of each form.
const WORDS: &[(u64, Instr)] = &[
    (0, Instr::Halt),
    (0x0000_2008_0000_0101, Instr::Set { a: 1, i: 0x2008 }),
    (
        0xffff_ffff_0000_0702,
        Instr::High {
            a: 7,
            i: 0xffff_ffff,
        },
    ),
    (0x0302_0103, Instr::Add { a: 1, b: 2, c: 3 }),
    (0x0007_0004, Instr::Sub { a: 0, b: 7, c: 0 }),
    (0x0706_0505, Instr::Lt { a: 5, b: 6, c: 7 }),
    (0x0000_0010_0001_0706, Instr::Load { a: 7, b: 1, i: 16 }),
    (0x0000_0040_0000_0107, Instr::Store { a: 1, b: 0, i: 64 }),
    (0xffff_fffe_0000_0008, Instr::Jump { i: 0xffff_fffe }),
    (0x0000_0005_0000_0109, Instr::Jz { a: 1, i: 5 }),
    (
        0xffff_ffff_0000_010a,
        Instr::Jnz {
            a: 1,
            i: 0xffff_ffff,
        },
    ),
    (0x0004_030b, Instr::Pdx { a: 3, b: 4 }),
    (12, Instr::Ret),
    (13, Instr::Yield),
    (14, Instr::Sys),
];

fn all_spell() -> bool {
    for (word, instr) in WORDS {
        if !spells(*word, instr) {
            return false;
        }
    }
    true
}

// Words that are no instruction: a register 8, a register too many, an immediate too many, and an operation that there is not.
#[test]
fn words_are_instructions(rt: HostRuntime) {
    let none = decode(0x0801).is_none()
        && decode(0x0100_0100).is_none()
        && decode(0x1_0000_000c).is_none()
        && decode(15).is_none();
    assert!(rt; all_spell() && none);
}
