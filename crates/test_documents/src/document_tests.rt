// Words, lines and replies, worked out by hand.
ghost use Rattle.std.specs.Prelude.{◌≤◌};

use mg_document::{ReplyFault, ReplyKind, get_lines, put_lines, read_document, words_of};
use std::alloc::Global;

fn packs(alloc: Global, bytes: &[u8], known: &[u64]) -> bool {
    match words_of(alloc, bytes) {
        Ok(words) => words.as_slice() == known,
        Err(_) => false,
    }
}

// No byte, a word that is full, and one byte more. The first byte is the lowest.
#[test]
fn bytes_are_packed(rt: HostRuntime) {
    let alloc = rt.alloc();
    let full = packs(alloc, b"Mailbox\xff", &[8, 0xff78_6f62_6c69_614d]);
    let more = packs(alloc, b"Mailbox\xff\x01", &[9, 0xff78_6f62_6c69_614d, 1]);
    assert!(rt; packs(alloc, b"", &[0]) && full && more);
}

fn puts(alloc: Global, bytes: &[u8], known: &[u8]) -> bool {
    match put_lines(alloc, 256, 0xf_ffff_ffff_fff8, bytes) {
        Ok(text) => text.as_slice() == known,
        Err(_) => false,
    }
}

fn gets(alloc: Global, bytes: u64, known: &[u8]) -> bool
    requires { bytes ≤ 4194296 }
{
    match get_lines(alloc, 1, 0x1_0000_0000, bytes) {
        Ok(text) => text.as_slice() == known,
        Err(_) => false,
    }
}

#[test]
fn calls_are_asked_for(rt: HostRuntime) {
    let alloc = rt.alloc();
    let known =
        b"256 store 0x000ffffffffffff8 0x0000000000000002\n256 store 0x0010000000000000 0x0000000000004241\n";
    let loads =
        b"1 load 0x0000000100000000\n1 load 0x0000000100000008\n1 load 0x0000000100000010\n";
    assert!(rt; puts(alloc, b"AB", known) && gets(alloc, 9, loads) && gets(alloc, 0, &loads[..26]));
}

fn reads(alloc: Global, replies: &[u8], known: &[u8]) -> bool {
    match read_document(alloc, replies) {
        Ok(bytes) => bytes.as_slice() == known,
        Err(_) => false,
    }
}

// A word of which three bytes count, capital digits, and replies that are ignored.
#[test]
fn replies_are_read(rt: HostRuntime) {
    let alloc = rt.alloc();
    let replies = b"ok 0x0000000000000003\nok 0xFF434241\nno Denied\nok";
    assert!(rt; reads(alloc, replies, b"ABC") && reads(alloc, b"ok 0x0\n", b""));
}

fn faults(alloc: Global, replies: &[u8], reply: u64, kind: ReplyKind) -> bool {
    read_document(alloc, replies).err() == Some(ReplyFault::At { reply, kind })
}

// A reply without a newline is missing, and one with a number in decimal has no word.
#[test]
fn first_faults_are_told(rt: HostRuntime) {
    let alloc = rt.alloc();
    let one = faults(alloc, b"", 1, ReplyKind::Missing);
    let two = faults(alloc, b"no Denied\nok 0x0\n", 1, ReplyKind::NoWord);
    let three = faults(alloc, b"ok 0x9\nok 0x1\nok 0x2", 3, ReplyKind::Missing);
    let four = faults(alloc, b"ok 0x8\nok 1\n", 2, ReplyKind::NoWord);
    let five = faults(
        alloc,
        b"ok 0xffffffffffffffff\nok 0x1\n",
        3,
        ReplyKind::Missing,
    );
    assert!(rt; one && two && three && four && five);
}
