// From a line to its item.
ghost use Rattle.std.specs.Prelude.{◌≡◌, ◌<◌, ◌^◌, drop};
ghost use Rattle.mg_asm.specs.Reading.{alone, as_word, jump, jump_by_register, jump_to, label_alone, line_reading, plain_word, row_by, rows};
ghost use Rattle.mg_asm.specs.Tokens.{tokens};
ghost use Rattle.mg_model.specs.declared.instructions.Instr.TheVariants as op;

use crate::faults::AsmKind;
use crate::items::Item;
use crate::names::{Name, read_label, read_name};
use crate::operands::{
    distance, one, register, register_1_and_immediate, registers_2, registers_2_and_immediate,
    registers_3, two,
};
use crate::tokens::{cut, next_token};
use mg_script::{Instr, encode};
use mg_text::{is_word, read_number};

/// The item of a line, which is given without its newline.
pub fn read_line(line: &[u8]) -> Result<Item, AsmKind>
    ensures { result ≡ line_reading line.now }
{
    let (text, _) = cut(line, b'#');
    match next_token(text) {
        None => Ok(Item::Blank),
        Some((first, rest)) => match read_label(first) {
            Some(name) => label_alone(rest, name),
            None => instruction(first, rest),
        },
    }
}

/// A label, if no word follows it.
fn label_alone(rest: &[u8], name: Name) -> Result<Item, AsmKind>
    ensures { result ≡ label_alone (tokens rest.now) name }
{
    match next_token(rest) {
        None => Ok(Item::Label(name)),
        Some(_) => Err(AsmKind::Operands),
    }
}

/// An instruction or a plain word, by its first word and the bytes after it.
fn instruction(first: &[u8], rest: &[u8]) -> Result<Item, AsmKind>
    ensures { result ≡ row_by rows first.now (tokens rest.now) }
{
    if is_word(first, b"halt") {
        alone(Instr::Halt, rest)
    } else if is_word(first, b"set") {
        word(register_1_and_immediate(rest).map(|(a, i)| Instr::Set { a, i }))
    } else if is_word(first, b"high") {
        word(register_1_and_immediate(rest).map(|(a, i)| Instr::High { a, i }))
    } else if is_word(first, b"add") {
        word(registers_3(rest).map(|(a, b, c)| Instr::Add { a, b, c }))
    } else if is_word(first, b"sub") {
        word(registers_3(rest).map(|(a, b, c)| Instr::Sub { a, b, c }))
    } else if is_word(first, b"lt") {
        word(registers_3(rest).map(|(a, b, c)| Instr::Lt { a, b, c }))
    } else if is_word(first, b"load") {
        word(registers_2_and_immediate(rest).map(|(a, b, i)| Instr::Load { a, b, i }))
    } else if is_word(first, b"store") {
        word(registers_2_and_immediate(rest).map(|(a, b, i)| Instr::Store { a, b, i }))
    } else {
        going(first, rest)
    }
}

/// The item of an instruction or a plain word, by the rows of the table of instructions from `jump` on.
fn going(first: &[u8], rest: &[u8]) -> Result<Item, AsmKind>
    ensures { result ≡ row_by (drop 8 rows) first.now (tokens rest.now) }
{
    if is_word(first, b"jump") {
        jump(rest)
    } else if is_word(first, b"jz") {
        jump_if_zero(rest)
    } else if is_word(first, b"jnz") {
        jump_unless_zero(rest)
    } else if is_word(first, b"pdx") {
        word(registers_2(rest).map(|(a, b)| Instr::Pdx { a, b }))
    } else if is_word(first, b"ret") {
        alone(Instr::Ret, rest)
    } else if is_word(first, b"yield") {
        alone(Instr::Yield, rest)
    } else if is_word(first, b"sys") {
        alone(Instr::Sys, rest)
    } else if is_word(first, b".word") {
        plain_word(rest)
    } else {
        Err(AsmKind::Unknown)
    }
}

/// The word of an instruction.
fn word(read: Result<Instr, AsmKind>) -> Result<Item, AsmKind>
    ensures { result ≡ as_word read }
{
    match read {
        Ok(instr) => Ok(Item::Word(encode(&instr))),
        Err(kind) => Err(kind),
    }
}

/// An instruction without operands.
fn alone(instr: Instr, rest: &[u8]) -> Result<Item, AsmKind>
    ensures { result ≡ alone instr (tokens rest.now) }
{
    match next_token(rest) {
        None => Ok(Item::Word(encode(&instr))),
        Some(_) => Err(AsmKind::Operands),
    }
}

/// A jump by a number of words, or to a label.
fn jump(rest: &[u8]) -> Result<Item, AsmKind>
    ensures { result ≡ jump (tokens rest.now) }
{
    let target = one(rest).ok_or(AsmKind::Operands)?;
    jump_to(encode(&Instr::Jump { i: 0 }) as u32, target)
}

/// A jump if a register is 0.
fn jump_if_zero(rest: &[u8]) -> Result<Item, AsmKind>
    ensures { result ≡ jump_by_register (λ a. op.Jz a 0) (tokens rest.now) }
{
    let (a, target) = two(rest).ok_or(AsmKind::Operands)?;
    let a = register(a).ok_or(AsmKind::Register)?;
    jump_to(encode(&Instr::Jz { a, i: 0 }) as u32, target)
}

/// A jump if a register is not 0.
fn jump_unless_zero(rest: &[u8]) -> Result<Item, AsmKind>
    ensures { result ≡ jump_by_register (λ a. op.Jnz a 0) (tokens rest.now) }
{
    let (a, target) = two(rest).ok_or(AsmKind::Operands)?;
    let a = register(a).ok_or(AsmKind::Register)?;
    jump_to(encode(&Instr::Jnz { a, i: 0 }) as u32, target)
}

/// A jump by its word with the immediate 0, and its target.
fn jump_to(near: u32, target: &[u8]) -> Result<Item, AsmKind>
    ensures { result ≡ jump_to near target.now }
{
    match read_name(target) {
        Some(name) => Ok(Item::Jump(near, name)),
        None => match distance(target) {
            Some(i) => Ok(Item::Word(near as u64 + i as u64 * (1 << 32))),
            None => Err(AsmKind::Number),
        },
    }
}

/// A plain word, which need not be an instruction.
fn plain_word(rest: &[u8]) -> Result<Item, AsmKind>
    ensures { result ≡ plain_word (tokens rest.now) }
{
    let word = one(rest).ok_or(AsmKind::Operands)?;
    let word = read_number(word).ok_or(AsmKind::Number)?;
    Ok(Item::Word(word))
}
