// From a list of words to the words.
ghost use Rattle.std.specs.Prelude.{◌≡◌, ◌≢◌, ◌≤◌, IfErr, IfOk, Ok, Err, length};
ghost use Rattle.mg_asm.specs.Listed.{listed, listed_word, with_room};
ghost use Rattle.mg_asm.specs.Tokens.{line_tokens};

use crate::assembling::{WORD_LIMIT, push};
use crate::faults::{AsmFault, AsmKind};
use crate::operands::one;
use crate::tokens::{cut, next_token};
use mg_text::read_number;
use std::alloc::Global;

/// The words of a list, at most 524,288, or its first fault. Each line has nothing or one number, spelled as in lines of calls.
/// Words are separated, and notes left out, as in the text of a script. A line is tested for the faults `Operands`, `Number` and
/// `TooLong`, in this order. Memory comes only if an allocation failed.
pub fn read_list(alloc: Global, text: &[u8]) -> Result<Vec<u64>, AsmFault>
    ensures words { IfOk result (λ words. listed text.now ≡ Ok words.items) }
    ensures at_most_524288_words { IfOk result (λ words. length words.items ≤ 524288) }
    ensures fault { IfErr result (λ fault. fault ≢ AsmFault.Memory → listed text.now ≡ Err fault) }
{
    let mut words = Vec::new(alloc);
    let mut rest = text;
    let mut number = 1u64;
    'lines: loop {
        let (line, more) = cut(rest, b'\n');
        let word = match placed(words.len() as u64, word_of(line)) {
            Ok(word) => word,
            Err(kind) => {
                return Err(AsmFault::At { line: number, kind });
            }
        };
        if push(&mut words, word).is_err() {
            return Err(AsmFault::Memory);
        }
        match more {
            None => return Ok(words),
            Some(more) => {
                rest = more;
                number += 1;
            }
        }
    }
}

/// The word of a line, if it has one.
fn word_of(line: &[u8]) -> Result<Option<u64>, AsmKind>
    ensures { result ≡ listed_word (line_tokens line.now) }
{
    let (text, _) = cut(line, b'#');
    match next_token(text) {
        None => Ok(None),
        Some(_) => {
            let word = one(text).ok_or(AsmKind::Operands)?;
            let n = read_number(word).ok_or(AsmKind::Number)?;
            Ok(Some(n))
        }
    }
}

/// The word of a line that follows `count` words, if there is room for it.
fn placed(count: u64, read: Result<Option<u64>, AsmKind>) -> Result<Option<u64>, AsmKind>
    ensures { result ≡ with_room count read }
{
    match read {
        Ok(None) => Ok(None),
        Ok(Some(word)) => {
            if count < WORD_LIMIT {
                Ok(Some(word))
            } else {
                Err(AsmKind::TooLong)
            }
        }
        Err(kind) => Err(kind),
    }
}
