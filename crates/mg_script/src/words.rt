// Instructions as words.
ghost use Rattle.std.specs.Prelude.{◌≡◌, IfSome, Some};
ghost use Rattle.mg_model.specs.Script.{decoded, instruction_of, where_so};
ghost use Rattle.mg_script.specs.Encoded.{HasRegisters, encoded, word_of};

use mg_model::Instr;

/// The instruction that a word spells. None if its op is above 14, a register is not below 8, or a field that the op does not use
/// is not 0.
pub fn decode(word: u64) -> Option<Instr>
    ensures value { result ≡ decoded word }
    ensures registers { IfSome result HasRegisters }
    ensures back { IfSome result (λ instr. encoded instr ≡ word) }
{
    instruction(
        (word % 256) as u8,
        ((word >> 8) % 256) as u8,
        ((word >> 16) % 256) as u8,
        ((word >> 24) % 256) as u8,
        (word >> 32) as u32,
    )
}

/// The word that spells an instruction. If its registers are below 8, the word is decoded to it again.
pub fn encode(instr: &Instr) -> u64
    ensures value { result ≡ encoded instr.now }
    ensures back { HasRegisters instr.now → decoded result ≡ Some instr.now }
{
    match *instr {
        Instr::Halt => word(0, 0, 0, 0, 0),
        Instr::Set { a, i } => word(1, a, 0, 0, i),
        Instr::High { a, i } => word(2, a, 0, 0, i),
        Instr::Add { a, b, c } => word(3, a, b, c, 0),
        Instr::Sub { a, b, c } => word(4, a, b, c, 0),
        Instr::Lt { a, b, c } => word(5, a, b, c, 0),
        Instr::Load { a, b, i } => word(6, a, b, 0, i),
        Instr::Store { a, b, i } => word(7, a, b, 0, i),
        Instr::Jump { i } => word(8, 0, 0, 0, i),
        Instr::Jz { a, i } => word(9, a, 0, 0, i),
        Instr::Jnz { a, i } => word(10, a, 0, 0, i),
        Instr::Pdx { a, b } => word(11, a, b, 0, 0),
        Instr::Ret => word(12, 0, 0, 0, 0),
        Instr::Yield => word(13, 0, 0, 0, 0),
        Instr::Sys => word(14, 0, 0, 0, 0),
    }
}

/// The word with these fields.
fn word(op: u8, a: u8, b: u8, c: u8, i: u32) -> u64
    ensures { result ≡ word_of op a b c i }
{
    op as u64 + ((a as u64) << 8) + ((b as u64) << 16) + ((c as u64) << 24) + ((i as u64) << 32)
}

/// The instruction with these fields.
fn instruction(op: u8, a: u8, b: u8, c: u8, i: u32) -> Option<Instr>
    ensures { result ≡ instruction_of op a b c i }
{
    let none = a == 0 && b == 0 && c == 0;
    let one = a < 8 && b == 0 && c == 0;
    let two = a < 8 && b < 8 && c == 0;
    let three = a < 8 && b < 8 && c < 8 && i == 0;
    match op {
        0 => when(none && i == 0, Instr::Halt),
        1 => when(one, Instr::Set { a, i }),
        2 => when(one, Instr::High { a, i }),
        3 => when(three, Instr::Add { a, b, c }),
        4 => when(three, Instr::Sub { a, b, c }),
        5 => when(three, Instr::Lt { a, b, c }),
        6 => when(two, Instr::Load { a, b, i }),
        7 => when(two, Instr::Store { a, b, i }),
        8 => when(none, Instr::Jump { i }),
        9 => when(one, Instr::Jz { a, i }),
        10 => when(one, Instr::Jnz { a, i }),
        11 => when(two && i == 0, Instr::Pdx { a, b }),
        12 => when(none && i == 0, Instr::Ret),
        13 => when(none && i == 0, Instr::Yield),
        14 => when(none && i == 0, Instr::Sys),
        _ => None,
    }
}

/// The instruction, if its fields fit.
fn when(fits: bool, instr: Instr) -> Option<Instr>
    ensures { result ≡ where_so fits instr }
{
    if fits { Some(instr) } else { None }
}
