// The words of a line.
ghost use Rattle.std.specs.Prelude.{◌≡◌, ◌==◌, ◌≤◌, ◌∷◌, [], length, not, IfNone, IfSome};
ghost use Rattle.std.specs.List.{prefix_len};
ghost use Rattle.mg_model.specs.Words.{is_blank, same_bytes, words};

/// The first word of these bytes and what comes after it; None if they have no word.
pub fn next_word(bytes: &[u8]) -> Option<(&[u8], &[u8])>
    ensures none { IfNone result (words bytes.now ≡ []) }
    ensures split { IfSome result (λ p. words bytes.now ≡ p.0.now ∷ words p.1.now) }
{
    let (_, rest) = bytes.split_at(blanks(bytes));
    let (word, more) = rest.split_at(letters(rest));
    if word.is_empty() {
        None
    } else {
        Some((word, more))
    }
}

/// How many blanks these bytes begin with.
pub(crate) fn blanks(bytes: &[u8]) -> usize
    ensures count { result ≡ prefix_len is_blank bytes.now }
    ensures within { result ≤ length bytes.now }
{
    bytes.iter().take_while(|b| blank(**b)).count()
}

/// How many bytes are before the first blank.
fn letters(bytes: &[u8]) -> usize
    ensures count { result ≡ prefix_len (λ b. not (is_blank b)) bytes.now }
    ensures within { result ≤ length bytes.now }
{
    bytes.iter().take_while(|b| !blank(**b)).count()
}

fn blank(byte: u8) -> bool
    ensures { result ≡ is_blank byte }
{
    byte == b' ' || byte == b'\t' || byte == b'\r'
}

/// Whether these bytes begin with a blank, or there are none.
pub(crate) fn at_blank(bytes: &[u8]) -> bool
    ensures { result ≡ (prefix_len (λ b. not (is_blank b)) bytes.now == 0) }
{
    match bytes {
        [] => true,
        [b, ..] => blank(*b),
    }
}

/// Whether two words are the same.
pub fn is_word(word: &[u8], known: &[u8]) -> bool
    ensures { result ≡ same_bytes word.now known.now }
{
    if word.len() != known.len() {
        return false;
    }
    for i in 0..known.len() {
        if word[i] != known[i] {
            return false;
        }
    }
    true
}
