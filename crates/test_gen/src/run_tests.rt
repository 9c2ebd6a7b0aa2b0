// What `gen` prints of a run.
use arrayvec::ArrayVec;
use mg_disk::ScratchDisk;
use mg_gen::line;
use std::alloc::{AllocError, Global};
use std::test::Fail;
use test_helpers::{Streams, command, ends};

/// Whether this command line prints these bytes.
fn prints(alloc: Global, line: &str, wanted: &[u8]) -> bool {
    match ScratchDisk::new(alloc, 0) {
        Ok(mut disk) => ends(alloc, line, &mut disk, &Streams::of(b""), 0, wanted),
        Err(_) => false,
    }
}

/// The text for these numbers of replies that are ok, refused with `Limit`, and refused with `Idle`, and for no others.
fn text_of(alloc: Global, ok: usize, limit: usize, idle: usize) -> Result<String, AllocError> {
    format!(in alloc;
        "ok {ok}\nSyntax 0\nNoThread 0\nAlign 0\nDenied 0\nSize 0\nAccount 0\nDebt 0\nLimit {limit}\nFull 0\nNoPassword 0\nRange 0\nSlotFull 0\nNoSlot 0\nNoEntry 0\nDepth 0\nNoFrame 0\nNotYours 0\nNotReady 0\nIdle {idle}\nCredit 0\nCalendar 0\nPast 0\n"
    )
}

/// Whether this command line prints that text.
fn prints_counts(alloc: Global, line: &str, ok: usize, limit: usize, idle: usize) -> bool {
    match text_of(alloc, ok, limit, idle) {
        Ok(wanted) => prints(alloc, line, wanted.as_bytes()),
        Err(_) => false,
    }
}

/// Whether a line of a run is `next`, and whether it is a `pwadd`. No other line has the letter `p`.
fn kind(number: u64, k: u64) -> (bool, bool) {
    let mut out = ArrayVec::new();
    line(number, k, &mut out);
    let bytes = out.as_slice();
    (bytes == b"next\n".as_slice(), bytes.contains(&b'p'))
}

/// The numbers of both among the first 20,000 lines of a run.
fn kinds(number: u64) -> (usize, usize) {
    let mut nexts: usize = 0;
    let mut pwadds: usize = 0;
    for k in 0..20_000 {
        let (is_next, is_pwadd) = kind(number, k);
        nexts = nexts.wrapping_add(is_next as usize);
        pwadds = pwadds.wrapping_add(is_pwadd as usize);
    }
    (nexts, pwadds)
}

/// The first of these command lines that does not print its number of `ok`, and nothing refused.
fn wrong(alloc: Global, rows: &[(&'static str, usize)]) -> Option<&'static str> {
    for (line, ok) in rows {
        if !prints_counts(alloc, line, *ok, 0, 0) {
            return Some(*line);
        }
    }
    None
}

const FEW: [(&str, usize); 5] = [
    ("vol gen 7 0", 0),
    ("vol gen 7 1", 1),
    ("vol gen 7 10", 10),
    ("vol gen 0x7 0x2c", 44),
    ("vol gen 18446744073709551615 100", 100),
];

#[test]
fn few_lines(rt: HostRuntime) -> Result<(), Fail> {
    assert_eq!(rt; wrong(rt.alloc(), &FEW), None);
    Ok(())
}

// The 31 new threads run two turns each, and each of the four objects takes 31 passwords more. All other lines are allowed.
#[test]
fn many_lines(rt: HostRuntime) -> Result<(), Fail> {
    assert_eq!(rt; kinds(7), (1217 + 62, 1144 + 124));
    assert_eq!(rt; kinds(u64::MAX), (1170 + 62, 1134 + 124));
    assert!(rt; prints_counts(rt.alloc(), "vol gen 7 20000", 17_639, 1144, 1217));
    let last = "vol gen 18446744073709551615 20000";
    assert!(rt; prints_counts(rt.alloc(), last, 17_696, 1134, 1170));
    Ok(())
}

/// Whether a command prints the same twice.
fn is_repeated(alloc: Global, line: &str) -> bool {
    match ScratchDisk::new(alloc, 0) {
        Ok(mut disk) => is_repeated_on(alloc, line, &mut disk),
        Err(_) => false,
    }
}

fn is_repeated_on(alloc: Global, line: &str, disk: &mut ScratchDisk) -> bool {
    match command(alloc, line, disk, &Streams::of(b"")) {
        Ok(first) => prints(alloc, line, &first.printed),
        Err(_) => false,
    }
}

#[test]
fn a_run_is_repeated(rt: HostRuntime) -> Result<(), Fail> {
    assert!(rt; is_repeated(rt.alloc(), "vol gen 7 20000"));
    Ok(())
}
