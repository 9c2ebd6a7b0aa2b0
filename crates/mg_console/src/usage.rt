// Says which word is wrong if the words spell no command.
use mg_model::limits::{PAGE_END, PAGE_SIZE};
use mg_text::read_number;
use std::io::Eprint;

/// The address at which objects end, in bytes.
const ADDRESS_END: u64 = PAGE_END * PAGE_SIZE;

/// Prints these lines, which show the commands of a program.
pub fn report_lines<R: Eprint>(rt: &R, lines: &[&str]) {
    for line in lines {
        let _ = eprintln!(rt; "{line}");
    }
}

/// Says if a word is no number, or a number below `least` or above `most`. False if nothing is wrong. `name` is the word's name.
pub fn is_told<R: Eprint>(
    rt: &R,
    program: &str,
    name: &str,
    word: &str,
    least: u64,
    most: u64,
) -> bool {
    match read_number(word.as_bytes()) {
        None => {
            report_no_number(rt, program, name, word);
            true
        }
        Some(number) if number < least || number > most => {
            let _ = eprintln!(rt;
                "{program}: {name} is {number}, and has to be from {least} to {most}"
            );
            true
        }
        Some(_) => false,
    }
}

/// Says if the word ADDRESS is no number, or not the address of a word of an object. False if nothing is wrong.
pub fn is_address_told<R: Eprint>(rt: &R, program: &str, word: &str) -> bool {
    match read_number(word.as_bytes()) {
        None => {
            report_no_number(rt, program, "ADDRESS", word);
            true
        }
        Some(address) if address % 8 != 0 || address >= ADDRESS_END => {
            let _ = eprintln!(rt;
                "{program}: ADDRESS is {address:#x}, and has to be a multiple of 8 below {ADDRESS_END:#x}"
            );
            true
        }
        Some(_) => false,
    }
}

/// Says that a word is no number, or that it is one of more than 64 bits or more than 20 digits.
fn report_no_number<R: Eprint>(rt: &R, program: &str, name: &str, word: &str) {
    if has_digits_alone(word) {
        let most = u64::MAX;
        let _ = eprintln!(rt;
            "{program}: {name} is too large: {word}; a number is at most {most}, and has at most 20 digits, or 16 after 0x"
        );
    } else {
        let _ = eprintln!(rt; "{program}: {name} is no number: {word}");
    }
}

/// Whether a word is digits alone, or `0x` and hexadecimal digits alone.
fn has_digits_alone(word: &str) -> bool {
    match word.as_bytes() {
        [] => false,
        [b'0', b'x'] => false,
        [b'0', b'x', digits @ ..] => digits.iter().all(|digit| digit.is_ascii_hexdigit()),
        digits => digits.iter().all(|digit| digit.is_ascii_digit()),
    }
}
