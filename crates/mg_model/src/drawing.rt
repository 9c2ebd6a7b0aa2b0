// Passwords are drawn from the volume's seed.
ghost use Rattle.std.specs.Prelude.{◌≡◌, ◌<◌, ◌^◌};
ghost use Rattle.mg_model.specs.Draw.{password_drawn};

use rand_chacha::ChaCha20Rng;
use rand_core::SeedableRng;
use rand_core::utils::NextWord;

/// The k-th password of a seed, from 0: word 2k of the ChaCha20 key stream (RFC 8439, section 2.3) as its low half and
/// word 2k + 1 as its high half. The key is the seed, the nonce 0, and words count from block 0.
pub fn draw(seed: &[u8; 32], k: u64) -> u64
    requires { k < 2 ^ 32 }
    ensures { result ≡ password_drawn seed.now k }
{
    let mut stream = ChaCha20Rng::from_seed(*seed);
    stream.set_word_pos(2 * k as u128);
    let low = stream.next_word();
    let high = stream.next_word();
    low as u64 | (high as u64) << 32
}
