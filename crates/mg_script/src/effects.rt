// What an instruction does, with the parts of the thread's row that it may change.
ghost use Rattle.std.specs.Prelude.{◌≡◌, ◌<◌, ◌+◌, ◌*◌, ◌%◌, ◌^◌, ◌==◌, if◌then◌else◌, slice_index, slice_set, ℕ};
ghost use Rattle.mg_model.specs.Abbreviations.{advanced};
ghost use Rattle.mg_model.specs.Ranges.{IsThreadRow};
ghost use Rattle.mg_model.specs.Script.{jump_by, word_end};
ghost use Rattle.mg_model.specs.State.{State};
ghost use Rattle.mg_model.specs.Turn.{run_instruction};
ghost use Rattle.mg_script.specs.Actions.{call_of};
ghost use Rattle.mg_script.specs.Effects.{HasFrames, HasPlace, finished, made_by, standing};
ghost use Rattle.mg_script.specs.Encoded.{HasRegisters};

use mg_model::{Instr, ThrRow, ThrState};

/// The parts of a thread's row that an instruction may change by itself. The pc is an address, a multiple of 8.
#[derive(Clone, Copy)]
pub struct Standing {
    pub pc: u64,
    pub state: ThrState,
    pub regs: [u64; 8],
}

/// What an instruction requires of the machine. After every effect but `Next` the thread's row is the one with its pc advanced.
/// [`Action`](crate::Action) says the same with the whole row.
#[derive(Clone, Copy)]
pub enum Effect {
    /// Nothing. After the turn the thread's row has these parts; its frames stay.
    Next(Standing),
    /// Loads the word at address `a`, which requires R, into register `to`.
    Load { a: u64, to: u8 },
    /// Stores the value in the word at address `a`, which requires W.
    Store { a: u64, value: u64 },
    /// The call `pdx` with this address and mask. A mask above 255 is refused with Syntax.
    Pdx { a: u64, mask: u64 },
    /// The call `ret`.
    Ret,
    /// The call that the registers spell.
    Sys,
}

/// Moves the pc to the next word, by 8 bytes. The word after the last one is the first.
pub(crate) fn advance(row: &mut ThrRow)
    ensures { row.new ≡ advanced row.old }
{
    row.set_pc(row.pc.wrapping_add(8));
}

/// What the instruction at a thread's pc requires of the machine. The row is the thread's, and its pc is not yet advanced. The
/// instruction's registers are below 8, and so is the register that a `Load` names.
pub fn effect_of(instr: &Instr, row: &ThrRow) -> Effect
    requires { HasRegisters instr.now }
    ensures turn { (state : State) (t : ℕ) → run_instruction state t row.now.pc (advanced row.now) instr.now ≡ finished state t (advanced row.now) result }
    ensures place { HasPlace result }
    ensures frames { HasFrames row.now result }
    ensures call { made_by row.now result ≡ call_of row.now instr.now }
{
    let here = row.pc;
    let next = onward(row);
    match *instr {
        Instr::Halt => stop(next),
        Instr::Set { a, i } => put(next, a, i as u64),
        Instr::High { a, i } => put(next, a, with_high(value(&next, a), i)),
        Instr::Add { a, b, c } => put(next, a, value(&next, b).wrapping_add(value(&next, c))),
        Instr::Sub { a, b, c } => put(next, a, value(&next, b).wrapping_sub(value(&next, c))),
        Instr::Lt { a, b, c } => put(next, a, (value(&next, b) < value(&next, c)) as u64),
        Instr::Load { a, b, i } => Effect::Load {
            a: address(&next, b, i),
            to: a,
        },
        Instr::Store { a, b, i } => Effect::Store {
            a: address(&next, b, i),
            value: value(&next, a),
        },
        Instr::Jump { i } => jump(next, here, i),
        Instr::Jz { a, i } => jump_if_zero(next, a, here, i),
        Instr::Jnz { a, i } => jump_unless_zero(next, a, here, i),
        Instr::Pdx { a, b } => Effect::Pdx {
            a: value(&next, a),
            mask: value(&next, b),
        },
        Instr::Ret => Effect::Ret,
        Instr::Yield => Effect::Next(next),
        Instr::Sys => Effect::Sys,
    }
}

/// The parts of this row that an instruction may change.
pub(crate) fn here(row: &ThrRow) -> Standing
    ensures value { result ≡ standing row.now }
    ensures aligned { result.pc % 8 ≡ 0 }
{
    Standing {
        pc: row.pc,
        state: row.state,
        regs: row.regs,
    }
}

/// The same parts, with the pc at the next word.
pub(crate) fn onward(row: &ThrRow) -> Standing
    ensures value { result ≡ standing (advanced row.now) }
    ensures aligned { result.pc % 8 ≡ 0 }
{
    Standing {
        pc: row.pc.wrapping_add(8),
        state: row.state,
        regs: row.regs,
    }
}

/// The thread takes no more turns.
fn stop(mut row: Standing) -> Effect
    ensures { result ≡ Effect.Next (record row { state = ThrState.Stopped }) }
{
    row.state = ThrState::Stopped;
    Effect::Next(row)
}

/// The value of a register.
fn value(row: &Standing, number: u8) -> u64
    requires { number < 8 }
    ensures { result ≡ slice_index row.now.regs number }
{
    row.regs[number as usize]
}

/// The word with this upper half.
fn with_high(word: u64, high: u32) -> u64
    ensures { result ≡ word % 2 ^ 32 + high * 2 ^ 32 }
{
    word % (1 << 32) + (high as u64) * (1 << 32)
}

/// The address of a load or a store: a register's value and an offset in bytes, modulo `2^64`.
fn address(row: &Standing, number: u8, offset: u32) -> u64
    requires { number < 8 }
    ensures { result ≡ (slice_index row.now.regs number + offset) % word_end }
{
    value(row, number).wrapping_add(offset as u64)
}

/// Stores a value in a register.
fn put(mut row: Standing, number: u8, value: u64) -> Effect
    requires { number < 8 }
    ensures { result ≡ Effect.Next (record row { regs = slice_set row.regs number value }) }
{
    row.regs[number as usize] = value;
    Effect::Next(row)
}

/// Jumps by this distance from the word at `here`, a multiple of 8.
fn jump(mut row: Standing, here: u64, distance: u32) -> Effect
    requires { here % 8 ≡ 0 }
    ensures value { result ≡ Effect.Next (record row { pc = (here + jump_by distance) % word_end }) }
    ensures place { HasPlace result }
{
    row.pc = target(here, distance);
    Effect::Next(row)
}

/// Jumps if the register is 0. If it is not, the thread continues with the next word.
fn jump_if_zero(row: Standing, number: u8, here: u64, distance: u32) -> Effect
    requires place { number < 8 }
    requires aligned { here % 8 ≡ 0 }
    requires next_aligned { row.pc % 8 ≡ 0 }
    ensures value { result ≡ (if slice_index row.regs number == 0 then Effect.Next (record row { pc = (here + jump_by distance) % word_end }) else Effect.Next row) }
    ensures place { HasPlace result }
{
    if value(&row, number) == 0 {
        jump(row, here, distance)
    } else {
        Effect::Next(row)
    }
}

/// Jumps if the register is not 0. If it is, the thread continues with the next word.
fn jump_unless_zero(row: Standing, number: u8, here: u64, distance: u32) -> Effect
    requires place { number < 8 }
    requires aligned { here % 8 ≡ 0 }
    requires next_aligned { row.pc % 8 ≡ 0 }
    ensures value { result ≡ (if slice_index row.regs number == 0 then Effect.Next row else Effect.Next (record row { pc = (here + jump_by distance) % word_end })) }
    ensures place { HasPlace result }
{
    if value(&row, number) != 0 {
        jump(row, here, distance)
    } else {
        Effect::Next(row)
    }
}

/// The address of a jump from the word at `here`. The distance is in words, and signed: if its highest bit is set, the jump
/// goes back.
fn target(here: u64, distance: u32) -> u64
    requires { here % 8 ≡ 0 }
    ensures value { result ≡ (here + jump_by distance) % word_end }
    ensures aligned { result % 8 ≡ 0 }
{
    if distance < 1 << 31 {
        here.wrapping_add(8 * distance as u64)
    } else {
        here.wrapping_sub(8 * ((1 << 32) - distance as u64))
    }
}
