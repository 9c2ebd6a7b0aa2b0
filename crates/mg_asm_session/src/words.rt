// The words of the command line.
ghost use Rattle.std.specs.Prelude.{◌≡◌, IfSome};
ghost use Rattle.mg_asm_session.specs.Commands.{IsStored, command_of, print_of, store_of};
ghost use Rattle.mg_io.specs.Arguments.{arguments};

use mg_asm::may_store_at;
use mg_text::{is_word, read_number};

/// What the program is asked to do.
#[derive(Clone, Copy, PartialEq, Eq)]
pub enum Command {
    /// Write the calls by which this thread stores the words of a script's text, from this address on.
    Store(u64, u64),
    /// Write the text of words.
    Print,
}

/// The command that these words spell, which follow the program's name. None exactly if they spell none.
///
/// They are `THREAD ADDRESS` or `print`. THREAD and ADDRESS are numbers as in lines of calls. ADDRESS is a multiple of 8
/// below `2^52`, the end of all objects.
pub fn read_words(words: &[String]) -> Option<Command>
    ensures command { result ≡ command_of (arguments words.now) }
    ensures place { IfSome result IsStored }
{
    match words {
        [word] => print(word.as_bytes()),
        [thread, address] => store(thread.as_bytes(), address.as_bytes()),
        _ => None,
    }
}

fn print(word: &[u8]) -> Option<Command>
    ensures command { result ≡ print_of word.now }
    ensures place { IfSome result IsStored }
{
    if is_word(word, b"print") {
        Some(Command::Print)
    } else {
        None
    }
}

fn store(thread: &[u8], address: &[u8]) -> Option<Command>
    ensures command { result ≡ store_of thread.now address.now }
    ensures place { IfSome result IsStored }
{
    let thread = read_number(thread)?;
    let address = read_number(address)?;
    if may_store_at(address) {
        Some(Command::Store(thread, address))
    } else {
        None
    }
}
