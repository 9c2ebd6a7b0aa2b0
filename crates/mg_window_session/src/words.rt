// The words of the command line.
ghost use Rattle.std.specs.Prelude.{◌≡◌, ◌≤◌, ◌<◌, ◌++◌, ◌∷◌, [], IfSome, MatchOption, None, Some, length, map, option_map};
ghost use Rattle.std.specs.String.{string_bytes};
ghost use Rattle.mg_model.specs.Words.{same_bytes};
ghost use Rattle.mg_io.specs.Arguments.{arguments};
ghost use Rattle.mg_commands.specs.Commands.{before_colon};
ghost use Rattle.mg_window.specs.Attached.{seen, window_at};
ghost use Rattle.mg_window_session.specs.Commands.{are_those, asks_for, dev_of, dev_words, device_more, device_named, device_parts, devices_named, is_taken, is_that, kind_named};

use arrayvec::ArrayVec;
use mg_text::read_number;
use mg_window::{Device, Windows};

/// The devices that words name: the number of the kind of each, and the base that it is to be at, in bytes.
pub type Asked = ArrayVec<(u64, u64), 16>;

/// The device that a word `KIND:BASE` names: the number of its kind, and the base that it is to be at, in bytes. KIND is
/// `latch` (1), `console` (2) or `counter` (3), and BASE is a number as in a line. None exactly if the word is not of this form.
pub fn read_device(word: &String) -> Option<(u64, u64)>
    ensures { result ≡ device_named (string_bytes word.now) }
{
    device(word.as_bytes())
}

fn device(word: &[u8]) -> Option<(u64, u64)>
    ensures { result ≡ device_named word.now }
{
    let (kind, rest) = word.split_at(before_colon(word));
    device_parts(kind, rest)
}

/// The device of a kind and what follows it, which begins with a colon.
fn device_parts(kind: &[u8], rest: &[u8]) -> Option<(u64, u64)>
    ensures { result ≡ device_parts kind.now rest.now }
{
    match rest {
        [_, base @ ..] => Some((kind_named(kind)?, read_number(base)?)),
        [] => None,
    }
}

/// How many bytes are before the first colon.
fn before_colon(word: &[u8]) -> usize
    ensures count { result ≡ before_colon word.now }
    ensures within { result ≤ length word.now }
{
    word.iter().take_while(|b| **b != b':').count()
}

fn kind_named(word: &[u8]) -> Option<u64>
    ensures { result ≡ kind_named word.now }
{
    if is_word(word, b"latch") {
        Some(1)
    } else if is_word(word, b"console") {
        Some(2)
    } else if is_word(word, b"counter") {
        Some(3)
    } else {
        None
    }
}

/// Whether a word is this one.
fn is_word(word: &[u8], known: &[u8]) -> bool
    ensures { result ≡ same_bytes word.now known.now }
{
    word == known
}

/// The devices that are named, if the words, which are those after the program's name, are `VOLUME dev` and up to 16 words
/// `KIND:BASE`, all bases different. None exactly if they are not.
pub fn read_words(words: &[String]) -> Option<Asked>
    ensures { option_map (λ asked. asked.items) result ≡ dev_of (arguments words.now) }
{
    match words {
        [_, word, devices @ ..] => dev_words(word.as_bytes(), devices),
        _ => None,
    }
}

fn dev_words(word: &[u8], devices: &[String]) -> Option<Asked>
    ensures { option_map (λ asked. asked.items) result ≡ dev_words word.now (arguments devices.now) }
{
    if is_word(word, b"dev") {
        devices_named(devices)
    } else {
        None
    }
}

fn devices_named(words: &[String]) -> Option<Asked>
    ensures { option_map (λ asked. asked.items) result ≡ devices_named (arguments words.now) }
{
    if words.len() > 16 {
        return None;
    }
    let mut asked = ArrayVec::new();
    for word in words {
        let device = match read_device(word) {
            Some(device) => device,
            None => return None,
        };
        if is_taken(device.1, asked.as_slice()) {
            return None;
        }
        asked.push(device);
    }
    Some(asked)
}

/// Whether one of these is at the base.
fn is_taken(base: u64, devices: &[(u64, u64)]) -> bool
    ensures { result ≡ is_taken base devices.now }
{
    devices.iter().any(|device| device.1 == base)
}

/// Whether the words are those of a run with these windows.
pub(crate) fn ask_for<T: Device>(words: &[String], windows: &Windows<T>) -> bool
    ensures { result ≡ asks_for (arguments words.now) (seen T.held windows.now) }
{
    match read_words(words) {
        Some(asked) => are_those(windows, asked.as_slice()),
        None => false,
    }
}

/// Whether the windows are those that are named, in their order.
fn are_those<T: Device>(windows: &Windows<T>, asked: &[(u64, u64)]) -> bool
    ensures { result ≡ are_those (seen T.held windows.now) asked.now }
{
    if windows.len() != asked.len() {
        return false;
    }
    let mut i = 0;
    while i < asked.len() {
        if !is_that(windows, i, asked[i]) {
            return false;
        }
        i += 1;
    }
    true
}

fn is_that<T: Device>(windows: &Windows<T>, i: usize, asked: (u64, u64)) -> bool
    requires { i < length windows.now }
    ensures { result ≡ is_that (window_at (seen T.held windows.now) i) asked }
{
    windows.base_at(i) == asked.1 && windows.kind_at(i) == asked.0
}
