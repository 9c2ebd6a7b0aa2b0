// The words of the command line.
ghost use Rattle.std.specs.Prelude.{◌≡◌};
ghost use Rattle.mg_mirror_session.specs.Commands.{mirror_of, mirror_words, side_named};
ghost use Rattle.mg_io.specs.Arguments.{arguments};

use mg_mirror::Side;

/// The side that a mirror is to be opened from, if the words, which are those behind the program's name, are `LEFT mirror RIGHT
/// SIDE`. LEFT and RIGHT differ, and SIDE is `left` or `right`. None exactly where they are not.
pub(crate) fn read_words(words: &[String]) -> Option<Side>
    ensures { result ≡ mirror_of (arguments words.now) }
{
    match words {
        [left, word, right, side] => mirror(
            left.as_bytes(),
            word.as_bytes(),
            right.as_bytes(),
            side.as_bytes(),
        ),
        _ => None,
    }
}

fn mirror(left: &[u8], word: &[u8], right: &[u8], side: &[u8]) -> Option<Side>
    ensures { result ≡ mirror_words left.now word.now right.now side.now }
{
    if word == b"mirror".as_slice() && left != right {
        side_named(side)
    } else {
        None
    }
}

fn side_named(word: &[u8]) -> Option<Side>
    ensures { result ≡ side_named word.now }
{
    if word == b"left".as_slice() {
        Some(Side::Left)
    } else if word == b"right".as_slice() {
        Some(Side::Right)
    } else {
        None
    }
}
