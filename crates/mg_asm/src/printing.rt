// From words to their text.
ghost use Rattle.std.specs.Prelude.{◌≡◌, ◌≤◌, ◌<◌, ◌++◌, ◌∷◌, [], IfOk, OnOk, Ok, length, map};
ghost use Rattle.std.specs.Fmt.{decimal};
ghost use Rattle.mg_asm.specs.Assembled.{assembled};
ghost use Rattle.mg_asm.specs.Printed.{instruction_words, line_of, operand_text, printed, word_line};
ghost use Rattle.mg_model.specs.Print.{hex_digit, hex_digits, hex_text, spaced};

use mg_script::{Instr, decode};
use std::alloc::{AllocError, Global};

/// An operand, as it is printed.
#[derive(Clone, Copy)]
pub(crate) enum Operand {
    /// A number.
    Plain(u64),
    /// An immediate that is read as signed.
    Signed(u32),
    /// A word, in hexadecimal.
    Word(u64),
}

/// The text of words, a line each: the instruction that a word spells, or `.word` and a number if it spells none. The text of up
/// to 524,288 words assembles to these words.
pub fn print(alloc: Global, words: &[u64]) -> Result<Vec<u8>, AllocError>
    ensures text { IfOk result (λ text. text.items ≡ printed words.now) }
    ensures back { length words.now ≤ 524288 → IfOk result (λ text. assembled text.items ≡ Ok words.now) }
{
    let mut out = Vec::new(alloc);
    for word in words {
        put_word(&mut out, *word)?;
    }
    Ok(out)
}

/// The line of a word.
fn put_word(out: &mut Vec<u8>, word: u64) -> Result<(), AllocError>
    ensures { OnOk result (out.new.items ≡ out.old.items ++ (word_line word ++ 10 ∷ [])) }
{
    match decode(word) {
        Some(instr) => put_instruction(out, instr),
        None => put_line(out, b".word", &[Operand::Word(word)]),
    }
}

/// The line of an instruction.
fn put_instruction(out: &mut Vec<u8>, instr: Instr) -> Result<(), AllocError>
    ensures { OnOk result (out.new.items ≡ out.old.items ++ (line_of (instruction_words instr) ++ 10 ∷ [])) }
{
    match instr {
        Instr::Halt => put_line(out, b"halt", &[]),
        Instr::Set { a, i } => put_line(out, b"set", &[number(a), immediate(i)]),
        Instr::High { a, i } => put_line(out, b"high", &[number(a), immediate(i)]),
        Instr::Add { a, b, c } => put_line(out, b"add", &[number(a), number(b), number(c)]),
        Instr::Sub { a, b, c } => put_line(out, b"sub", &[number(a), number(b), number(c)]),
        Instr::Lt { a, b, c } => put_line(out, b"lt", &[number(a), number(b), number(c)]),
        Instr::Load { a, b, i } => put_line(out, b"load", &[number(a), number(b), immediate(i)]),
        Instr::Store { a, b, i } => put_line(out, b"store", &[number(a), number(b), immediate(i)]),
        Instr::Jump { i } => put_line(out, b"jump", &[Operand::Signed(i)]),
        Instr::Jz { a, i } => put_line(out, b"jz", &[number(a), Operand::Signed(i)]),
        Instr::Jnz { a, i } => put_line(out, b"jnz", &[number(a), Operand::Signed(i)]),
        Instr::Pdx { a, b } => put_line(out, b"pdx", &[number(a), number(b)]),
        Instr::Ret => put_line(out, b"ret", &[]),
        Instr::Yield => put_line(out, b"yield", &[]),
        Instr::Sys => put_line(out, b"sys", &[]),
    }
}

fn number(register: u8) -> Operand
    ensures { result ≡ Operand.Plain register }
{
    Operand::Plain(register as u64)
}

fn immediate(value: u32) -> Operand
    ensures { result ≡ Operand.Plain value }
{
    Operand::Plain(value as u64)
}

/// A line of a first word and operands, with single spaces.
fn put_line(out: &mut Vec<u8>, first: &[u8], operands: &[Operand]) -> Result<(), AllocError>
    ensures { OnOk result (out.new.items ≡ out.old.items ++ (line_of (first.now, map operand_text operands.now) ++ 10 ∷ [])) }
{
    out.extend_from_slice(first)?;
    put_operands(out, operands)?;
    out.push(b'\n')?;
    Ok(())
}

/// Operands, each after a space.
#[tactic(auto, using(crate::proofs::Grown::operands_more))]
fn put_operands(out: &mut Vec<u8>, operands: &[Operand]) -> Result<(), AllocError>
    ensures { OnOk result (out.new.items ≡ out.old.items ++ spaced (map operand_text operands.now)) }
{
    for operand in operands {
        put_operand(out, *operand)?;
    }
    Ok(())
}

/// A space and an operand.
fn put_operand(out: &mut Vec<u8>, operand: Operand) -> Result<(), AllocError>
    ensures { OnOk result (out.new.items ≡ out.old.items ++ 32 ∷ operand_text operand) }
{
    match operand {
        Operand::Plain(n) => put_number(out, b" ", n),
        Operand::Signed(i) => {
            if i < 1 << 31 {
                put_number(out, b" ", i as u64)
            } else {
                put_number(out, b" -", (1 << 32) - i as u64)
            }
        }
        Operand::Word(word) => put_hex(out, word),
    }
}

/// A text and a number in decimal.
pub fn put_number(out: &mut Vec<u8>, front: &[u8], number: u64) -> Result<(), AllocError>
    ensures { OnOk result (out.new.items ≡ out.old.items ++ (front.now ++ decimal number)) }
{
    let mut digits = itoa::Buffer::new();
    out.extend_from_slice(front)?;
    out.extend_from_slice(digits.format(number).as_bytes())?;
    Ok(())
}

/// A space and a word in hexadecimal.
#[tactic(auto, using(crate::proofs::Grown::hex_after))]
pub fn put_hex(out: &mut Vec<u8>, word: u64) -> Result<(), AllocError>
    ensures { OnOk result (out.new.items ≡ out.old.items ++ 32 ∷ hex_text word) }
{
    out.extend_from_slice(b" 0x")?;
    put_digits(out, 16, word)?;
    Ok(())
}

/// The last `count` hexadecimal digits of a word.
#[tactic(auto, using(crate::proofs::Grown::hex_more))]
fn put_digits(out: &mut Vec<u8>, count: u8, word: u64) -> Result<(), AllocError>
    ensures { OnOk result (out.new.items ≡ out.old.items ++ hex_digits count word) }
{
    if count > 0 {
        put_digits(out, count - 1, word / 16)?;
        out.push(glyph((word % 16) as u8))?;
    }
    Ok(())
}

fn glyph(digit: u8) -> u8
    requires { digit < 16 }
    ensures { result ≡ hex_digit digit }
{
    if digit < 10 {
        b'0' + digit
    } else {
        b'a' + digit - 10
    }
}
