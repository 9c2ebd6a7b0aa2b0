// Numbers in bytes.
ghost use Rattle.std.specs.Prelude.{◌≡◌, ◌≤◌, ◌+◌, ◌⊎◌, ℕ, length};
ghost use Rattle.std.specs.List.{splice};
ghost use Rattle.mg_model.specs.Abbreviations.{word_bytes};
ghost use Rattle.mg_model.specs.Bytes.{are_zeros, number_at};
ghost use Rattle.mg_model.specs.Layout.{block_size};

use mg_disk::Block;

/// The number in the 8 bytes at this place.
pub fn number_at(bytes: &[u8], at: usize) -> u64
    requires { at + 8 ≤ length bytes.now }
    ensures { result ≡ number_at bytes.now at }
{
    let mut word = [0; 8];
    word.copy_from_slice(&bytes[at..at + 8]);
    u64::from_le_bytes(word)
}

/// Writes a number into the 8 bytes at this place of a block.
pub fn put_number(out: &mut Block, at: usize, number: u64)
    requires { at + 8 ≤ block_size }
    ensures put { out.new ≡ splice out.old at (at + 8) (word_bytes number) }
    ensures whole { length out.old ≡ block_size }
    ensures number { number_at out.new at ≡ number }
    ensures others { (b : ℕ) → (b + 8 ≤ at) ⊎ (at + 8 ≤ b) → number_at out.new b ≡ number_at out.old b }
{
    out[at..at + 8].copy_from_slice(&number.to_le_bytes());
}

/// Whether they are all zeros.
pub fn are_zeros(bytes: &[u8]) -> bool
    ensures { result ≡ are_zeros bytes.now }
{
    bytes.iter().all(|byte| *byte == 0)
}
