// Lines of generated runs, worked out apart from the program, and the counts of some replies.
use arrayvec::ArrayVec;
use mg_gen::{Tally, draw, line};
use mg_model::{Refusal, Reply};

/// The numbers that other implementations of SplitMix64 give from 1,234,567 on.
const KNOWN: [u64; 5] = [
    6_457_827_717_110_365_317,
    3_203_168_211_198_807_973,
    9_817_491_932_198_370_423,
    4_593_380_528_125_082_431,
    16_408_922_859_458_223_821,
];

/// The numbers of runs and the places of lines in them, with the lines there: those that prepare, and then drawn ones.
const LINES: [(u64, u64, &[u8]); 19] = [
    (7, 0, b"1 thread 0x0000000100000000\n"),
    (7, 30, b"1 thread 0x0000000100000000\n"),
    (7, 31, b"1 create 16 1 0x28bd8653e56a5d40\n"),
    (7, 34, b"1 create 16 1 0x28bd8653e56a5d40\n"),
    (7, 35, b"1 store 0x0000000100000020 0x0000000100001000\n"),
    (7, 36, b"1 store 0x0000000100000028 0x1aed8da0b819d2bd\n"),
    (7, 37, b"1 store 0x0000000100000030 0x0000000100011000\n"),
    (7, 40, b"1 store 0x0000000100000048 0x8d4857517c5941da\n"),
    (7, 42, b"1 store 0x0000000100000058 0x374ad8b83fe02477\n"),
    (7, 43, b"1 store 0x0000000100000000 0x0000000000000005\n"),
    (7, 44, b"3 balance 1 0x28bd8653e56a5d40\n"),
    (7, 45, b"23 store 0x0000000100003240 6198\n"),
    (7, 46, b"16 load 0x000000010003b9a0\n"),
    (7, 60, b"7 pwadd 0x00000001000210f8 R\n"),
    (7, 63, b"rent\n"),
    (7, 65, b"12 info 0x000000010003b440\n"),
    (7, 81, b"next\n"),
    (7, 999_999, b"10 load 0x0000000100034848\n"),
    (u64::MAX, u64::MAX, b"28 info 0x000000010002dbb8\n"),
];

/// The replies that are counted, and the text of the counts.
const REPLIES: [Reply; 6] = [
    Reply::Done,
    Reply::No(Refusal::Idle),
    Reply::Value(0),
    Reply::No(Refusal::Past),
    Reply::Count(1),
    Reply::No(Refusal::Idle),
];

const COUNTS: &[u8] =
    b"ok 3\nSyntax 0\nNoThread 0\nAlign 0\nDenied 0\nSize 0\nAccount 0\nDebt 0\nLimit 0\nFull 0\nNoPassword 0\nRange 0\nSlotFull 0\nNoSlot 0\nNoEntry 0\nDepth 0\nNoFrame 0\nNotYours 0\nNotReady 0\nIdle 2\nCredit 0\nCalendar 0\nPast 1\n";

fn is_line(number: u64, k: u64, text: &[u8]) -> bool {
    let mut out = ArrayVec::new();
    line(number, k, &mut out);
    out.as_slice() == text
}

fn all_are_lines() -> bool {
    LINES
        .iter()
        .all(|(number, k, text)| is_line(*number, *k, text))
}

fn are_counted() -> bool {
    let mut tally = Tally::new();
    for reply in REPLIES.iter() {
        tally.count(reply);
    }
    let mut out = ArrayVec::new();
    tally.print(&mut out);
    out.as_slice() == COUNTS
}

#[test]
fn known_numbers(rt: HostRuntime) {
    let drawn = [0, 1, 2, 3, 4].map(|k| draw(1_234_567, k));
    assert_eq!(rt; drawn, KNOWN);
}

#[test]
fn lines_of_runs(rt: HostRuntime) {
    assert!(rt; all_are_lines());
}

#[test]
fn counts(rt: HostRuntime) {
    assert!(rt; are_counted());
}
