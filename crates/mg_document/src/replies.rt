// The replies of a text, and the word in a reply.
ghost use Rattle.std.specs.Prelude.{◌≡◌, ◌≤◌, ◌∷◌, [], length, not, is_some, option_map, IfNone, IfSome};
ghost use Rattle.std.specs.List.{prefix_len};
ghost use Rattle.mg_document.specs.Replies.{ended, ok_part, word_told};
ghost use Rattle.mg_model.specs.Words.{hex_part, is_newline};

use mg_text::read_number;

/// The first reply of these bytes, and the bytes after its newline. None if the bytes have no newline.
pub fn next_reply(bytes: &[u8]) -> Option<(&[u8], &[u8])>
    ensures none { IfNone result (ended bytes.now ≡ []) }
    ensures split { IfSome result (λ p. ended bytes.now ≡ p.0.now ∷ ended p.1.now) }
{
    let (reply, rest) = bytes.split_at(before_newline(bytes));
    if rest.is_empty() {
        None
    } else {
        Some((reply, &rest[1..]))
    }
}

/// The number of bytes before the first newline.
fn before_newline(bytes: &[u8]) -> usize
    ensures count { result ≡ prefix_len (λ b. not (is_newline b)) bytes.now }
    ensures within { result ≤ length bytes.now }
{
    bytes.iter().take_while(|b| **b != b'\n').count()
}

/// The word in a reply, which is given without its newline. Such a reply is `ok`, a space, `0x` and 1 to 16 hexadecimal digits. None
/// for any other reply.
pub fn word_told(reply: &[u8]) -> Option<u64>
    ensures { result ≡ word_told reply.now }
{
    let word = after_ok(reply)?;
    if is_hex(word) {
        read_number(word)
    } else {
        None
    }
}

/// The bytes after `ok` and a space, if the reply begins with these.
fn after_ok(reply: &[u8]) -> Option<&[u8]>
    ensures { option_map (λ s. s.now) result ≡ ok_part reply.now }
{
    match reply {
        [b'o', b'k', b' ', word @ ..] => Some(word),
        _ => None,
    }
}

/// Whether a word begins with `0x`.
fn is_hex(word: &[u8]) -> bool
    ensures { result ≡ is_some (hex_part word.now) }
{
    match word {
        [b'0', b'x', ..] => true,
        _ => false,
    }
}
