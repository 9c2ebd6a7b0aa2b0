// The words of the command line.
ghost use Rattle.std.specs.Prelude.{◌≡◌};
ghost use Rattle.mg_io.specs.Arguments.{arguments};
ghost use Rattle.mg_show.specs.Commands.{named, part_from, part_named, spelled, within_steps};

use mg_text::{is_word, read_number};

/// The most steps of a part of the graph.
const STEP_LIMIT: u64 = 4096;

/// What is to be shown of a volume.
#[derive(Clone, Copy, PartialEq, Eq)]
pub enum Text {
    /// Its whole state.
    State,
    /// Which thread may reach which object now, and with which rights.
    Reach,
    /// Its threads, its objects and its capability lists, as a graph in Graphviz's language.
    Dot,
    /// The part of that graph that the thread with this number reaches in this many steps.
    DotThread(u64, u16),
    /// The part of that graph that the object with this base reaches in this many steps.
    DotObject(u64, u16),
}

/// The text that these words ask for, which are those after the program's name; None exactly if they ask for none. They are
/// `VOLUME`, `VOLUME state`, `VOLUME reach`, `VOLUME dot`, `VOLUME dot thread NUMBER STEPS` or `VOLUME dot object BASE STEPS`. STEPS is
/// 1 to 4,096, and numbers are spelled as in a line.
pub fn read_words(words: &[String]) -> Option<Text>
    ensures { result ≡ spelled (arguments words.now) }
{
    match words {
        [_] => Some(Text::State),
        [_, word] => by_name(word.as_bytes()),
        [_, word, start, number, steps] => part_named(
            word.as_bytes(),
            start.as_bytes(),
            number.as_bytes(),
            steps.as_bytes(),
        ),
        _ => None,
    }
}

// The text with this name.
fn by_name(word: &[u8]) -> Option<Text>
    ensures { result ≡ named word.now }
{
    if is_word(word, b"state") {
        Some(Text::State)
    } else if is_word(word, b"reach") {
        Some(Text::Reach)
    } else if is_word(word, b"dot") {
        Some(Text::Dot)
    } else {
        None
    }
}

// The part of the graph that these words name, if the first is `dot`.
fn part_named(word: &[u8], start: &[u8], number: &[u8], steps: &[u8]) -> Option<Text>
    ensures { result ≡ part_named word.now start.now number.now steps.now }
{
    if is_word(word, b"dot") {
        part_from(
            start,
            read_number(number)?,
            within_steps(read_number(steps)?)?,
        )
    } else {
        None
    }
}

// The part of the graph that begins at a thread or at an object.
fn part_from(start: &[u8], number: u64, steps: u16) -> Option<Text>
    ensures { result ≡ part_from start.now number steps }
{
    if is_word(start, b"thread") {
        Some(Text::DotThread(number, steps))
    } else if is_word(start, b"object") {
        Some(Text::DotObject(number, steps))
    } else {
        None
    }
}

// A number of steps, if it is 1 to 4,096.
fn within_steps(steps: u64) -> Option<u16>
    ensures { result ≡ within_steps steps }
{
    if 1 <= steps && steps <= STEP_LIMIT {
        Some(steps as u16)
    } else {
        None
    }
}
