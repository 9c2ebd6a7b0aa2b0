// The words of the command line, form by form.
use mg_model::{Params, Tariff};
use mg_session::{Command, read_words};
use std::alloc::Global;
use std::test::Fail;
use test_helpers::words_of;

// A seed in both cases of its digits.
const SEED: &str = "000102030405060708090a0b0c0d0e0fF0E0D0C0B0A090807060504030201000";

const BYTES: [u8; 32] = [
    0, 1, 2, 3, 4, 5, 6, 7, 8, 9, 10, 11, 12, 13, 14, 15, 0xf0, 0xe0, 0xd0, 0xc0, 0xb0, 0xa0, 0x90,
    0x80, 0x70, 0x60, 0x50, 0x40, 0x30, 0x20, 0x10, 0,
];

// Lines that spell a command. S is the seed.
const COMMANDS: &str = "vol dry 64 S 1000
dry dry 0x10 S 0x3e8
vol dry 16 S 0
vol dry 65536 S 4611686018427387904
vol format 64 S 1000
vol format 64 S 1000 0:1 1:0 2:0 3:0
vol format 64 S 1000 0:1048576 1:2 2:4 1048576:8
vol check
vol run
vol run 1
vol run 0x40";

// Lines that spell no command. The tariffs have three steps, five steps, a first step that is not at 0, steps that do not rise, numbers
// above 2^20, and words that are no step.
const NO_COMMANDS: &str = "vol dry 15 S 0
vol dry 65537 S 0
vol dry 64 S 4611686018427387905
vol dry 64 S
vol dry 64 S 1000 1
dry 64 S 1000
vol Dry 64 S 1000
vol dry -1 S 1000
vol dry 64 S x
vol dry 64 0S 1000
vol dry 64 0g 1000
vol dry 64 0xS 1000
vol dry 64 S 1000 0:1 16:2 32:4 48:8
vol format 15 S 1000
vol Format 64 S 1000
vol format 64 S 1000 0:1 16:2 32:4
vol format 64 S 1000 0:1 16:2 32:4 48:8 64:9
vol format 64 S 1000 1:1 16:2 32:4 48:8
vol format 64 S 1000 0:1 16:2 16:4 48:8
vol format 64 S 1000 0:1 1:2 2:4 1048577:8
vol format 64 S 1000 0:1 1:2 2:4 3:1048577
vol format 64 S 1000 0:1 1:2 2:4 3
vol format 64 S 1000 0:1 1:2 2:4 3:4:5
vol format 64 S 1000 0:1 1:2 2:4 :8
vol format 15 S 1000 0:1 1:2 2:4 3:8
vol check 1
vol run 0
vol run 65
vol run 1 1
run";

// The command that a line spells.
fn read(alloc: Global, line: &str) -> Option<Command> {
    match words_of(alloc, line) {
        Ok(words) => read_words(&words),
        Err(_) => None,
    }
}

// The same, with the seed in place of the first S.
fn read_seeded(alloc: Global, line: &str) -> Option<Command> {
    let mut text = String::new(alloc);
    let parts = match line.split_once('S') {
        Some((before, after)) => [before, SEED, after],
        None => [line, "", ""],
    };
    for part in parts {
        let _ = text.push_str(part);
    }
    read(alloc, text.as_str())
}

// The first of these lines that spells a command if `is_spelled`, else the first that spells none.
fn first_spelled<'a>(alloc: Global, lines: &'a str, is_spelled: bool) -> Option<&'a str> {
    for line in lines.split('\n') {
        if read_seeded(alloc, line).is_some() == is_spelled {
            return Some(line);
        }
    }
    None
}

#[test]
fn reads_each_form(rt: HostRuntime) -> Result<(), Fail> {
    let not_read = first_spelled(rt.alloc(), COMMANDS, false);
    let read = first_spelled(rt.alloc(), NO_COMMANDS, true);
    assert_eq!(rt; (not_read, read), (None, None));
    Ok(())
}

fn is_dry(alloc: Global, line: &str) -> bool {
    match Params::new(0x40, BYTES, 1000, Tariff::usual(64)) {
        Some(params) => read_seeded(alloc, line) == Some(Command::Dry(params)),
        None => false,
    }
}

fn is_format(alloc: Global, line: &str, tariff: Option<Tariff>) -> bool {
    match tariff {
        Some(tariff) => match Params::new(64, BYTES, 0, tariff) {
            Some(params) => read_seeded(alloc, line) == Some(Command::Format(params)),
            None => false,
        },
        None => false,
    }
}

#[test]
fn reads_what_is_spelled(rt: HostRuntime) -> Result<(), Fail> {
    let is_dry = is_dry(rt.alloc(), "vol dry 0x40 S 1000");
    let tariff = Tariff::new([(0, 1), (16, 20), (32, 3), (48, 0)]);
    let line = "vol format 64 S 0 0:1 0x10:020 32:3 48:0";
    assert!(rt; is_dry && is_format(rt.alloc(), line, tariff));
    Ok(())
}
