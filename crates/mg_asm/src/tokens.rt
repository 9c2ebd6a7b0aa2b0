// The words of a line, and the lines of a text.
ghost use Rattle.std.specs.Prelude.{◌≡◌, ◌≤◌, ◌<◌, ◌==◌, ◌∷◌, [], length, not, IfNone, IfSome};
ghost use Rattle.std.specs.List.{prefix_len, slice_split};
ghost use Rattle.std.specs.Option.{option_map_or};
ghost use Rattle.mg_asm.specs.Tokens.{is_gap, tokens};

/// The first word of these bytes, and the bytes after it. None if they have no word.
pub fn next_token(bytes: &[u8]) -> Option<(&[u8], &[u8])>
    ensures none { IfNone result (tokens bytes.now ≡ []) }
    ensures split { IfSome result (λ p. tokens bytes.now ≡ p.0.now ∷ tokens p.1.now) }
{
    let (_, rest) = bytes.split_at(gaps(bytes));
    let (word, more) = rest.split_at(letters(rest));
    if word.is_empty() {
        None
    } else {
        Some((word, more))
    }
}

/// The number of spaces and tabs that these bytes begin with.
fn gaps(bytes: &[u8]) -> usize
    ensures count { result ≡ prefix_len is_gap bytes.now }
    ensures within { result ≤ length bytes.now }
{
    bytes.iter().take_while(|b| gap(**b)).count()
}

/// The number of bytes before the first space or tab.
fn letters(bytes: &[u8]) -> usize
    ensures count { result ≡ prefix_len (λ b. not (is_gap b)) bytes.now }
    ensures within { result ≤ length bytes.now }
{
    bytes.iter().take_while(|b| !gap(**b)).count()
}

fn gap(byte: u8) -> bool
    ensures { result ≡ is_gap byte }
{
    byte == b' ' || byte == b'\t'
}

/// The bytes before the first `end`, and those after it, or None if there is no `end`.
pub fn cut(bytes: &[u8], end: u8) -> (&[u8], Option<&[u8]>)
    ensures pieces { slice_split (λ b. b == end) bytes.now ≡ result.0.now ∷ option_map_or (λ rest. slice_split (λ b. b == end) rest.now) result.1 [] }
    ensures shorter { IfSome result.1 (λ rest. length rest.now < length bytes.now) }
{
    let (piece, rest) = bytes.split_at(before(bytes, end));
    if rest.is_empty() {
        (piece, None)
    } else {
        (piece, Some(&rest[1..]))
    }
}

/// The number of bytes before the first `end`.
fn before(bytes: &[u8], end: u8) -> usize
    ensures count { result ≡ prefix_len (λ b. not (b == end)) bytes.now }
    ensures within { result ≤ length bytes.now }
{
    bytes.iter().take_while(|b| **b != end).count()
}
