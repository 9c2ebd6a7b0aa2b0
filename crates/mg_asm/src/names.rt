// Names of labels.
ghost use Rattle.std.specs.Prelude.{◌≡◌, ◌&&◌, nat_le, length};
ghost use Rattle.std.specs.List.{list_all};
ghost use Rattle.mg_asm.specs.Tokens.{is_letter, is_name, is_name_byte, label_of, name_of};
ghost use Rattle.mg_model.specs.Bytes.{padded_to};

/// A name: a letter and up to 15 letters, digits or `_`, followed by zeros.
#[derive(Clone, Copy, PartialEq, Eq)]
pub struct Name {
    bytes: [u8; 16],
}

impl Name {
    /// The bytes of the name, followed by zeros.
    pub fn bytes(&self) -> &[u8; 16]
        ensures { result.now ≡ self.now.bytes }
    {
        &self.bytes
    }
}

/// The name that a word spells.
pub fn read_name(word: &[u8]) -> Option<Name>
    ensures { result ≡ name_of word.now }
{
    if !spells_name(word) {
        return None;
    }
    let mut bytes = [0; 16];
    bytes[..word.len()].copy_from_slice(word);
    Some(Name { bytes })
}

fn spells_name(word: &[u8]) -> bool
    ensures { result ≡ is_name word.now }
{
    match word {
        [] => false,
        [first, more @ ..] => letter(*first) && goes_on(more),
    }
}

/// Whether these are up to 15 bytes of a name.
fn goes_on(bytes: &[u8]) -> bool
    ensures { result ≡ (nat_le (length bytes.now) 15 && list_all is_name_byte bytes.now) }
{
    bytes.len() <= 15 && all_of_name(bytes)
}

fn all_of_name(bytes: &[u8]) -> bool
    ensures { result ≡ list_all is_name_byte bytes.now }
{
    bytes.iter().all(|b| name_byte(*b))
}

fn letter(byte: u8) -> bool
    ensures { result ≡ is_letter byte }
{
    b'A' <= byte && byte <= b'Z' || b'a' <= byte && byte <= b'z'
}

fn name_byte(byte: u8) -> bool
    ensures { result ≡ is_name_byte byte }
{
    letter(byte) || b'0' <= byte && byte <= b'9' || byte == b'_'
}

/// The name of the label that a word spells: a name and a colon.
pub fn read_label(word: &[u8]) -> Option<Name>
    ensures { result ≡ label_of word.now }
{
    if word.is_empty() || word[word.len() - 1] != b':' {
        return None;
    }
    read_name(&word[..word.len() - 1])
}
