// Numbers after a call word.
ghost use Rattle.std.specs.Prelude.{◌≡◌, [], ◌∷◌, ℕ, option_map};
ghost use Rattle.mg_model.specs.Lines.{exactly};
ghost use Rattle.mg_model.specs.Words.{numbers_of, words};

use crate::numbers::next_number;
use crate::words::next_word;

/// One number and no more, if that is what these bytes spell.
pub fn one(args: &[u8]) -> Option<u64>
    ensures { option_map (λ a. a ∷ []) result ≡ exactly 1 (numbers_of (words args.now)) }
{
    let (first, rest) = next_number(args)?;
    match next_word(rest) {
        None => Some(first),
        Some(_) => None,
    }
}

/// Two numbers and no more.
pub fn two(args: &[u8]) -> Option<(u64, u64)>
    ensures { option_map (λ (a, b). a ∷ b ∷ []) result ≡ exactly 2 (numbers_of (words args.now)) }
{
    let (first, rest) = next_number(args)?;
    let second = one(rest)?;
    Some((first, second))
}

/// Three numbers and no more.
pub fn three(args: &[u8]) -> Option<(u64, u64, u64)>
    ensures { option_map (λ (a, b, c). a ∷ b ∷ c ∷ []) result ≡ exactly 3 (numbers_of (words args.now)) }
{
    let (first, rest) = next_number(args)?;
    let (second, third) = two(rest)?;
    Some((first, second, third))
}

/// Four numbers and no more.
pub fn four(args: &[u8]) -> Option<(u64, u64, u64, u64)>
    ensures { option_map (λ (a, b, c, d). a ∷ b ∷ c ∷ d ∷ []) result ≡ exactly 4 (numbers_of (words args.now)) }
{
    let (first, rest) = next_number(args)?;
    let (second, third, fourth) = three(rest)?;
    Some((first, second, third, fourth))
}
