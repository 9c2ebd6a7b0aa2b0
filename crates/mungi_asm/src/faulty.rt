// Which word of a text is wrong.
use crate::NAME;
use mg_asm::{AsmKind, cut, next_token};
use mg_asm_session::Faulty;
use mg_console::{Quote, line_of, quoted};
use std::io::Eprint;

/// The most words of a line: an instruction and three operands.
const WORDS: usize = 4;

/// Prints which word of the first faulty line is wrong, and why.
pub(crate) fn report_faulty<R: Eprint>(rt: &R, faulty: &Faulty) {
    let line = faulty.line;
    let (text, _) = cut(line_of(&faulty.text, line), b'#');
    let (first, last) = (quoted(first_of(text)), quoted(last_of(text)));
    match faulty.kind {
        AsmKind::Unknown => report_word(rt, line, first, "is no instruction"),
        AsmKind::Operands => report_word(
            rt,
            line,
            first,
            "is followed by too few or too many words",
        ),
        AsmKind::Register => {
            let register = quoted(no_register_of(text));
            report_word(
                rt,
                line,
                register,
                "is no register, which is one digit, 0 to 7",
            );
        }
        AsmKind::Number => report_word(rt, line, last, "is no number, or none that fits here"),
        AsmKind::Twice => report_word(rt, line, first, "is the label of an earlier line too"),
        AsmKind::TooLong => report_word(
            rt,
            line,
            first,
            "would be word 524289, and a text has at most 524288",
        ),
        AsmKind::NoLabel => report_word(rt, line, last, "is no label of this text"),
    }
}

/// Prints what is wrong with a word.
fn report_word<R: Eprint>(rt: &R, line: u64, word: Quote<'_>, what: &str) {
    let _ = eprintln!(rt; "{NAME}: line {line}: {word} {what}");
}

/// The first word of a line.
fn first_of(text: &[u8]) -> &[u8] {
    match next_token(text) {
        Some((word, _)) => word,
        None => text,
    }
}

/// The last word of a line whose words are not too many.
fn last_of(text: &[u8]) -> &[u8] {
    let mut last = text;
    let mut rest = text;
    for _ in 0..WORDS {
        if let Some((word, more)) = next_token(rest) {
            last = word;
            rest = more;
        }
    }
    last
}

/// The first word after the instruction that is no register. Registers come before all other operands.
fn no_register_of(text: &[u8]) -> &[u8] {
    let mut rest = match next_token(text) {
        Some((_, rest)) => rest,
        None => text,
    };
    for _ in 1..WORDS {
        match next_token(rest) {
            Some((word, more)) => {
                if !is_register(word) {
                    return word;
                }
                rest = more;
            }
            None => return rest,
        }
    }
    rest
}

/// Whether a word is one digit 0 to 7.
fn is_register(word: &[u8]) -> bool {
    match word {
        [digit] => *digit >= b'0' && *digit <= b'7',
        _ => false,
    }
}
