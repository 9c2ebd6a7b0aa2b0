// From a run's number to the words that its lines are drawn from.
ghost use Rattle.std.specs.Prelude.{◌≡◌, ◌^◌, ◌<◌, ◌≤◌};
ghost use Rattle.mg_gen.specs.Asked.{address_of, generator_state, kind_of, thread_of, value_of};
ghost use Rattle.mg_gen.specs.Generated.{drawn_word, run_object_base, shifted_in};

use mg_model::limits::{PAGE_SIZE, ROOT_BASE};

/// The word of line k in the run of a number: that of SplitMix64.
#[tactic(auto, unfolding(crate::specs::Generated::drawn_word))]
pub fn draw(number: u64, k: u64) -> u64
    ensures { result ≡ drawn_word number k }
{
    let y = state(number, k);
    let z = shifted(30, y).wrapping_mul(0xbf58_476d_1ce4_e5b9);
    let u = shifted(27, z).wrapping_mul(0x94d0_49bb_1331_11eb);
    shifted(31, u)
}

/// The generator's state for line k.
fn state(number: u64, k: u64) -> u64
    ensures { result ≡ generator_state number k }
{
    number.wrapping_add(k.wrapping_add(1).wrapping_mul(0x9e37_79b9_7f4a_7c15))
}

/// The exclusive or of a word and of the same word shifted to the right.
fn shifted(shift: u32, word: u64) -> u64
    requires { shift < 64 }
    ensures { result ≡ shifted_in shift word }
{
    word ^ (word >> shift)
}

/// The kind of the line that is drawn from a word, below 16.
pub fn kind(word: u64) -> u64
    ensures { result ≡ kind_of word }
{
    (word >> 5) % 16
}

/// Its thread, from 1 to 32.
pub fn thread(word: u64) -> u64
    ensures { result ≡ thread_of word }
{
    1 + word % 32
}

/// Its address: that of a word in one of the four objects.
pub fn address(word: u64) -> u64
    ensures { result ≡ address_of word }
{
    run_object_base(1 + (word >> 9) % 4) + 8 * ((word >> 11) % 8192)
}

/// Its value, below 65,536.
pub fn value(word: u64) -> u64
    ensures { result ≡ value_of word }
{
    (word >> 24) % 65536
}

/// The first address of object j.
pub fn run_object_base(j: u64) -> u64
    requires from { 1 ≤ j }
    requires to { j ≤ 4 }
    ensures value { result ≡ run_object_base j }
    ensures low { result < 2 ^ 33 }
{
    ROOT_BASE + PAGE_SIZE + (j - 1) * (16 * PAGE_SIZE)
}
