// From letters to rights.
ghost use Rattle.std.specs.Prelude.{◌≡◌, ◌<◌, ◌/◌, ◌%◌, ◌==◌, IfSome};
ghost use Rattle.mg_model.specs.Words.{letter_weight, rights_of};
ghost use Rattle.mg_model.specs.StepwiseLemmas.{IsBit};

use mg_model::Rights;

/// The rights that a word of one to six letters out of `RWXDPO` spells, in any order; None for any other word, and if a
/// letter comes twice.
pub fn read_rights(word: &[u8]) -> Option<Rights>
    ensures { result ≡ rights_of word.now }
{
    let mut bits = 0u8;
    for b in word {
        let weight = letter_bit(*b)?;
        if has_bit(bits, weight) {
            return None;
        }
        bits += weight;
    }
    Rights::new(bits)
}

/// Whether the bits have this one.
fn has_bit(bits: u8, bit: u8) -> bool
    requires { 0 < bit }
    ensures { result ≡ (bits / bit % 2 == 1) }
{
    bits / bit % 2 == 1
}

/// The bit of a letter out of `RWXDPO`.
fn letter_bit(letter: u8) -> Option<u8>
    ensures value { result ≡ letter_weight letter }
    ensures bit { IfSome result (λ n. IsBit n) }
{
    match letter {
        b'R' => Some(1),
        b'W' => Some(2),
        b'X' => Some(4),
        b'D' => Some(8),
        b'P' => Some(16),
        b'O' => Some(32),
        _ => None,
    }
}
