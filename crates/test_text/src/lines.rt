// Lines, with the calls that they spell.
use mg_model::{Call, Line};
use mg_text::read_line;

const STORE: Call = Call::Store { a: 8, value: 15 };

const INFO: Call = Call::Info {
    base: 4_294_967_296,
};

/// Lines that spell a call of a thread, or none.
const LINES: [(&[u8], u64, Call); 6] = [
    (b"\t0x2  store\r8 0xF \r", 2, STORE),
    (b"3 info 0x0000000100000000", 3, INFO),
    (b"1 load 8 8", 0, Call::Bad),
    (b"1 load\0 8", 0, Call::Bad),
    (b"18446744073709551616 load 8", 0, Call::Bad),
    (b"1 rent", 0, Call::Bad),
];

fn is_read(bytes: &[u8], thread: u64, call: Call) -> bool {
    read_line(bytes) == Some(Line { thread, call })
}

fn all_are_read() -> bool {
    LINES
        .iter()
        .all(|(bytes, thread, call)| is_read(bytes, *thread, *call))
}

/// Whether a line of 256 bytes is read, and one of 257 is bad.
fn ends_at_256_bytes() -> bool {
    let mut long = [b' '; 257];
    long[..12].copy_from_slice(b"2 store 8 15");
    is_read(&long[..256], 2, STORE) && is_read(&long, 0, Call::Bad)
}

#[test]
fn lines(rt: HostRuntime) {
    assert!(rt; all_are_read());
    assert!(rt; ends_at_256_bytes());
    assert!(rt; read_line(b" # 1 load 8").is_none());
    assert!(rt; read_line(b" \t\r").is_none());
}
