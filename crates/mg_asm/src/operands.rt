// The operands of an instruction.
ghost use Rattle.std.specs.Prelude.{◌≡◌, ◌^◌, option_map};
ghost use Rattle.mg_asm.specs.Reading.{one, register_1_and_immediate, registers_2, registers_2_and_immediate, registers_3, three, two};
ghost use Rattle.mg_asm.specs.Tokens.{below, decimal_of, distance_of, immediate_of, register_of, tokens, turned_back};

use crate::faults::AsmKind;
use crate::tokens::next_token;
use mg_text::read_number;

/// One word and no more.
pub fn one(bytes: &[u8]) -> Option<&[u8]>
    ensures { option_map (λ a. a.now) result ≡ one (tokens bytes.now) }
{
    let (first, rest) = next_token(bytes)?;
    match next_token(rest) {
        None => Some(first),
        Some(_) => None,
    }
}

/// Two words and no more.
pub fn two(bytes: &[u8]) -> Option<(&[u8], &[u8])>
    ensures { option_map (λ p. (p.0.now, p.1.now)) result ≡ two (tokens bytes.now) }
{
    let (first, rest) = next_token(bytes)?;
    let second = one(rest)?;
    Some((first, second))
}

/// Three words and no more.
pub fn three(bytes: &[u8]) -> Option<(&[u8], &[u8], &[u8])>
    ensures { option_map (λ p. (p.0.now, p.1.now, p.2.now)) result ≡ three (tokens bytes.now) }
{
    let (first, rest) = next_token(bytes)?;
    let (second, third) = two(rest)?;
    Some((first, second, third))
}

/// Two registers.
pub fn registers_2(bytes: &[u8]) -> Result<(u8, u8), AsmKind>
    ensures { result ≡ registers_2 (tokens bytes.now) }
{
    let (a, b) = two(bytes).ok_or(AsmKind::Operands)?;
    let a = register(a).ok_or(AsmKind::Register)?;
    let b = register(b).ok_or(AsmKind::Register)?;
    Ok((a, b))
}

/// Three registers.
pub fn registers_3(bytes: &[u8]) -> Result<(u8, u8, u8), AsmKind>
    ensures { result ≡ registers_3 (tokens bytes.now) }
{
    let (a, b, c) = three(bytes).ok_or(AsmKind::Operands)?;
    let a = register(a).ok_or(AsmKind::Register)?;
    let b = register(b).ok_or(AsmKind::Register)?;
    let c = register(c).ok_or(AsmKind::Register)?;
    Ok((a, b, c))
}

/// A register and an immediate.
pub fn register_1_and_immediate(bytes: &[u8]) -> Result<(u8, u32), AsmKind>
    ensures { result ≡ register_1_and_immediate (tokens bytes.now) }
{
    let (a, i) = two(bytes).ok_or(AsmKind::Operands)?;
    let a = register(a).ok_or(AsmKind::Register)?;
    let i = immediate(i).ok_or(AsmKind::Number)?;
    Ok((a, i))
}

/// Two registers and an immediate.
pub fn registers_2_and_immediate(bytes: &[u8]) -> Result<(u8, u8, u32), AsmKind>
    ensures { result ≡ registers_2_and_immediate (tokens bytes.now) }
{
    let (a, b, i) = three(bytes).ok_or(AsmKind::Operands)?;
    let a = register(a).ok_or(AsmKind::Register)?;
    let b = register(b).ok_or(AsmKind::Register)?;
    let i = immediate(i).ok_or(AsmKind::Number)?;
    Ok((a, b, i))
}

/// A register: one digit 0 to 7.
pub fn register(word: &[u8]) -> Option<u8>
    ensures { result ≡ register_of word.now }
{
    match word {
        [b] if b'0' <= *b && *b <= b'7' => Some(*b - b'0'),
        _ => None,
    }
}

/// A number below `2^32`.
fn immediate(word: &[u8]) -> Option<u32>
    ensures { result ≡ immediate_of word.now }
{
    u32::try_from(read_number(word)?).ok()
}

/// The distance of a jump in words, from `-2^31` to `2^31 - 1`, in two's complement.
pub fn distance(word: &[u8]) -> Option<u32>
    ensures { result ≡ distance_of word.now }
{
    match word {
        [] => None,
        [b'-', digits @ ..] => turned_back(decimal(digits)?),
        digits => forwards(decimal(digits)?),
    }
}

fn forwards(words: u64) -> Option<u32>
    ensures { result ≡ below (2 ^ 31) words }
{
    if words < 1 << 31 {
        Some(words as u32)
    } else {
        None
    }
}

fn turned_back(words: u64) -> Option<u32>
    ensures { result ≡ turned_back words }
{
    if 1 <= words && words <= 1 << 31 {
        Some(((1 << 32) - words) as u32)
    } else {
        None
    }
}

/// The number of 1 to 20 decimal digits.
fn decimal(digits: &[u8]) -> Option<u64>
    ensures { result ≡ decimal_of digits.now }
{
    match digits {
        [b'0', b'x', ..] => None,
        digits => read_number(digits),
    }
}
