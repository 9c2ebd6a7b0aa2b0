// The words of the command line.
ghost use Rattle.std.specs.Prelude.{◌≡◌};
ghost use Rattle.mg_console.specs.Words.{word_at};
ghost use Rattle.mg_io.specs.Arguments.{arguments};

use crate::endings::report_error;
use mg_io::standard_numbers;
use std::io::Eprint;
use std::rt::{Env, Files};
use std::{env, io};

/// The exit status of a program that can't have its words.
pub const NO_WORDS: u8 = 9;

/// The program's words after its name. The error is that a word is no text, or that memory runs out.
fn words_of<R: Env + AllocGlobal>(rt: &R) -> io::Result<Vec<String>> {
    Ok(env::args(rt)?.skip(1).collect(rt.alloc())?)
}

/// The program's words after its name. If a word is no text or memory runs out, it says so on standard error and returns None.
pub fn words_or_tell<R: Env + AllocGlobal + Eprint>(rt: &R, program: &str) -> Option<Vec<String>> {
    match words_of(rt) {
        Ok(words) => Some(words),
        Err(error) => {
            report_error(rt, program, "the words", Some(&error));
            None
        }
    }
}

/// The program's words, and files that reserve the numbers of the standard streams. While these files are held, no other file gets such
/// a number. If one of these can't be had, it says so on standard error and returns None.
pub fn begin<R: Env + AllocGlobal + Files + Eprint>(
    rt: &R,
    program: &str,
) -> Option<(Vec<String>, (R::File, R::File, R::File))> {
    let numbers = match standard_numbers(rt) {
        Ok(numbers) => numbers,
        Err(error) => {
            report_error(rt, program, "the standard streams", Some(&error));
            return None;
        }
    };
    Some((words_or_tell(rt, program)?, numbers))
}

/// The word at this place. Empty if there is none.
pub fn word(words: &[String], place: usize) -> &str
    ensures at { result.now ≡ word_at (arguments words.now) place }
{
    match words.get(place) {
        Some(word) => word.as_str(),
        None => "",
    }
}
