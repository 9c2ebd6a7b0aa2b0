// Bytes that are filled from the first on.
ghost use Rattle.std.specs.Prelude.{◌≡◌, ◌≤◌, ◌<◌, ◌+◌, ◌*◌, [], ◌∷◌, ◌++◌, length, replicate, All};
ghost use Rattle.std.specs.List.{splice};
ghost use Rattle.mg_model.specs.Bytes.{padded_to, words_bytes};
ghost use Rattle.mg_model.specs.Ranges.{IsWord};

use std::marker::Model;

/// The first bytes of `N`. After them there are zeros.
#[derive(Drop)]
pub struct Filling<const N: usize> {
    bytes: [u8; N],
    count: usize,
}

impl<const N: usize> Model for Filling<N> {
    ghost use Rattle.std.specs.Prelude.{ℕ, List, take};
    ghost use Rattle.mg_model.specs.Filled.{IsFilled};

    ghost Value = { List ℕ };

    ghost view = { λ filling. take filling.count filling.bytes };

    ghost invariant = { λ filling. IsFilled 0 N filling.bytes filling.count };
}

impl<const N: usize> Filling<N> {
    /// No bytes yet.
    pub fn new() -> Filling<N>
        ensures { result ≡ [] }
    {
        Filling {
            bytes: [0; N],
            count: 0,
        }
    }

    /// One byte more.
    pub fn add_byte(&mut self, byte: u8)
        requires { length self.old < N }
        ensures { self.new ≡ self.old ++ byte ∷ [] }
    {
        self.bytes[self.count] = byte;
        self.count += 1;
    }

    /// These bytes too.
    pub fn add(&mut self, bytes: &[u8])
        requires { length self.old + length bytes.now ≤ N }
        ensures value { self.new ≡ self.old ++ bytes.now }
        ensures long { length self.new ≡ length self.old + length bytes.now }
    {
        put_part(&mut self.bytes, self.count, bytes);
        self.count += bytes.len();
    }

    /// This word too, in 8 bytes.
    pub fn add_word(&mut self, word: u64)
        requires { length self.old + 8 ≤ N }
        ensures value { self.new ≡ self.old ++ words_bytes (word ∷ []) }
        ensures long { length self.new ≡ length self.old + 8 }
    {
        self.add(&word.to_le_bytes());
    }

    /// These words too, 8 bytes each.
    pub fn add_words(&mut self, words: &[u64])
        requires { length self.old + 8 * length words.now ≤ N }
        ensures value { self.new ≡ self.old ++ words_bytes words.now }
        ensures fit { All IsWord words.now }
        ensures long { length self.new ≡ length self.old + 8 * length words.now }
    {
        for word in words {
            self.add_word(*word);
        }
    }

    /// `count` zeros too.
    pub fn skip(&mut self, count: usize)
        requires { length self.old + count ≤ N }
        ensures value { self.new ≡ self.old ++ replicate count 0 }
        ensures long { length self.new ≡ length self.old + count }
    {
        self.count += count;
    }

    /// All the bytes.
    pub fn whole(self) -> [u8; N]
        ensures { result ≡ padded_to N self.entry }
    {
        self.bytes
    }
}

// Writes bytes over those from this place on.
fn put_part(all: &mut [u8], at: usize, bytes: &[u8])
    requires { at + length bytes.now ≤ length all.old }
    ensures { all.new ≡ splice all.old at (at + length bytes.now) bytes.now }
{
    all[at..at + bytes.len()].copy_from_slice(bytes);
}
