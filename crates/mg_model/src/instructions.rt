// The instructions of a thread's script.

/// An instruction. A register is a number below 8; an immediate is the upper half of its word, which the jumps read as
/// signed.
#[derive(Clone, Copy, PartialEq, Eq)]
pub enum Instr {
    Halt,
    Set { a: u8, i: u32 },
    High { a: u8, i: u32 },
    Add { a: u8, b: u8, c: u8 },
    Sub { a: u8, b: u8, c: u8 },
    Lt { a: u8, b: u8, c: u8 },
    Load { a: u8, b: u8, i: u32 },
    Store { a: u8, b: u8, i: u32 },
    Jump { i: u32 },
    Jz { a: u8, i: u32 },
    Jnz { a: u8, i: u32 },
    Pdx { a: u8, b: u8 },
    Ret,
    Yield,
    Sys,
}
