// From a word to the number that it spells.
ghost use Rattle.std.specs.Prelude.{◌≡◌, ◌≤◌, ◌<◌, ◌+◌, ◌*◌, ◌^◌, ◌⊎◌, ℕ, List, IfSome, Some, drop, is_some, length, nat_lt, option_map};
ghost use Rattle.std.specs.List.{prefix_len};
ghost use Rattle.mg_model.specs.Abbreviations.{below_word};
ghost use Rattle.mg_model.specs.Words.{digit_of, hex_part, number_of, value_of_digits, words};
ghost use Rattle.mg_text.specs.Fronts.{digits_front, first_number, number_before_blank};

use crate::words::{at_blank, blanks};

/// The value of a digit to base 10 or 16, a letter in either case; None for any other byte.
pub fn digit(base: u8, byte: u8) -> Option<u8>
    requires { (base ≡ 10) ⊎ (base ≡ 16) }
    ensures { result ≡ digit_of base byte }
{
    let d = byte.wrapping_sub(b'0');
    if d < 10 {
        return Some(d);
    }
    match byte {
        b'a'..=b'f' if base == 16 => Some(byte - b'a' + 10),
        b'A'..=b'F' if base == 16 => Some(byte - b'A' + 10),
        _ => None,
    }
}

/// The number that a word spells, below `2^64`: 1 to 20 decimal digits, or `0x` and 1 to 16 hexadecimal ones. None for any
/// other word.
#[inline(always)]
pub fn read_number(word: &[u8]) -> Option<u64>
    ensures { result ≡ number_of word.now }
{
    match after_prefix(word) {
        Some(digits) => value(16, 16, digits),
        None => value(10, 20, word),
    }
}

/// The bytes after `0x`, if the word begins so.
fn after_prefix(word: &[u8]) -> Option<&[u8]>
    ensures { option_map (λ s. s.now) result ≡ hex_part word.now }
{
    match word {
        [b'0', b'x', digits @ ..] => Some(digits),
        _ => None,
    }
}

/// The number that the first word of these bytes spells, and the bytes after that word; None if there is no word or it
/// spells no number.
#[inline(always)]
pub fn next_number(bytes: &[u8]) -> Option<(u64, &[u8])>
    ensures { option_map {U = ℕ × List (List ℕ)} (λ p. (p.0, words p.1.now)) result ≡ first_number (words bytes.now) }
{
    let (_, front) = bytes.split_at(blanks(bytes));
    match after_prefix(front) {
        Some(digits) => until_blank(16, 16, digits),
        None => until_blank(10, 20, front),
    }
}

/// The number that the bytes before the first blank spell in one to `most` digits, and the bytes from that blank on.
#[inline(always)]
fn until_blank(base: u8, most: usize, bytes: &[u8]) -> Option<(u64, &[u8])>
    requires base { (base ≡ 10) ⊎ (base ≡ 16) }
    requires most { base ≡ 16 → most ≤ 16 }
    ensures { option_map {U = ℕ × List ℕ} (λ p. (p.0, p.1.now)) result ≡ number_before_blank base most bytes.now }
{
    let (n, count) = leading(base, most, bytes)?;
    let (_, more) = bytes.split_at(count);
    if at_blank(more) {
        Some((n, more))
    } else {
        None
    }
}

/// The number of one to `most` digits.
#[inline(always)]
fn value(base: u8, most: usize, digits: &[u8]) -> Option<u64>
    requires base { (base ≡ 10) ⊎ (base ≡ 16) }
    requires most { base ≡ 16 → most ≤ 16 }
    ensures { result ≡ below_word (value_of_digits base most digits.now) }
{
    let (n, count) = leading(base, most, digits)?;
    if count == digits.len() { Some(n) } else { None }
}

/// The number of the digits that these bytes begin with, one to `most` of them, and how many they are.
#[inline(always)]
fn leading(base: u8, most: usize, bytes: &[u8]) -> Option<(u64, usize)>
    requires base { (base ≡ 10) ⊎ (base ≡ 16) }
    requires most { base ≡ 16 → most ≤ 16 }
    ensures number { option_map (λ p. p.0) result ≡ below_word (value_of_digits base most (digits_front base bytes.now)) }
    ensures count { IfSome result (λ p. p.1 ≡ prefix_len (λ b. is_some (digit_of base b)) bytes.now) }
    ensures within { IfSome result (λ p. p.1 ≤ length bytes.now) }
{
    let mut n = 0u64;
    let mut count = 0usize;
    for i in 0..bytes.len().min(most) {
        match digit(base, bytes[i]) {
            None => break,
            Some(d) => {
                n = with_digit(n, base, d)?;
                count = i + 1;
            }
        }
    }
    if count == 0 || digit_at(base, bytes, count) {
        None
    } else {
        Some((n, count))
    }
}

/// Whether a digit is at a place; past the last byte there is none.
fn digit_at(base: u8, bytes: &[u8], at: usize) -> bool
    requires base { (base ≡ 10) ⊎ (base ≡ 16) }
    requires within { at ≤ length bytes.now }
    ensures { result ≡ nat_lt 0 (prefix_len (λ b. is_some (digit_of base b)) (drop at bytes.now)) }
{
    at < bytes.len() && digit(base, bytes[at]).is_some()
}

/// A number with one digit more after it, if that is below `2^64`.
fn with_digit(number: u64, base: u8, digit: u8) -> Option<u64>
    requires base { (base ≡ 10) ⊎ (base ≡ 16) }
    requires digit { digit < 16 }
    requires hexadecimal { base ≡ 16 → number < 2 ^ 60 }
    ensures { result ≡ below_word (Some (number * base + digit)) }
{
    // A hexadecimal digit needs no test, since at most 16 of them are read.
    if base == 16 || number < 1 << 60 {
        return Some(number * base as u64 + digit as u64);
    }
    number.checked_mul(base as u64)?.checked_add(digit as u64)
}
