// The statuses of the command `gen`.
use mg_disk::{Counts, Disk, MemDisk};
use mg_session::Status;
use std::alloc::Global;
use std::test::Fail;
use test_helpers::{Outcome, Streams, command};

/// A command line, the numbers of the `put` calls that fail, the room of the sink, the status, and what is printed.
type Row = (&'static str, &'static [u64], usize, Status, &'static [u8]);

/// What is printed of a run of one line, which is `ok`.
const ONE_OK: &[u8] =
    b"ok 1\nSyntax 0\nNoThread 0\nAlign 0\nDenied 0\nSize 0\nAccount 0\nDebt 0\nLimit 0\nFull 0\nNoPassword 0\nRange 0\nSlotFull 0\nNoSlot 0\nNoEntry 0\nDepth 0\nNoFrame 0\nNotYours 0\nNotReady 0\nIdle 0\nCredit 0\nCalendar 0\nPast 0\n";

const ROWS: [Row; 13] = [
    ("vol gen 7 1", &[], 65536, Status::Done, ONE_OK),
    ("vol gen 7 1", &[], 3, Status::Sink, b"ok "),
    ("vol gen 7 1", &[0], 65536, Status::Sink, b""),
    ("vol gen 7 1000001", &[], 65536, Status::Usage, b"usage\n"),
    ("vol gen 7 1000001", &[0], 65536, Status::Sink, b""),
    (
        "vol gen 18446744073709551616 1",
        &[],
        65536,
        Status::Usage,
        b"usage\n",
    ),
    (
        "vol gen 7 18446744073709551616",
        &[],
        65536,
        Status::Usage,
        b"usage\n",
    ),
    ("vol gen 7", &[], 65536, Status::Usage, b"usage\n"),
    ("vol gen 7 1 1", &[], 65536, Status::Usage, b"usage\n"),
    ("vol gen -7 1", &[], 65536, Status::Usage, b"usage\n"),
    ("vol gen 7 x", &[], 65536, Status::Usage, b"usage\n"),
    ("vol Gen 7 1", &[], 65536, Status::Usage, b"usage\n"),
    ("gen 7 1", &[], 65536, Status::Usage, b"usage\n"),
];

/// The outcome of this command line on a disk, with a source whose first take fails.
fn outcome<D: Disk>(
    alloc: Global,
    disk: &mut D,
    line: &str,
    puts: &[u64],
    room: usize,
) -> Option<Outcome> {
    let streams = Streams {
        input: b"1 load 0x100000000\n",
        piece: 4096,
        takes: &[0],
        puts,
        room,
    };
    command(alloc, line, disk, &streams).ok()
}

/// Whether a row has its outcome.
fn ends_on<D: Disk>(alloc: Global, disk: &mut D, row: &Row) -> bool {
    let (line, puts, room, status, printed) = row;
    match outcome(alloc, disk, line, puts, *room) {
        Some(outcome) => outcome.status == *status && outcome.printed.as_slice() == *printed,
        None => false,
    }
}

/// The same on a disk of one block, of which no call is made.
fn ends(alloc: Global, row: &Row) -> bool {
    match MemDisk::new(alloc, 1, 16, Vec::new(alloc)) {
        Ok(mut disk) => ends_on(alloc, &mut disk, row) && disk.counts() == Counts::default(),
        Err(_) => false,
    }
}

/// The words of the first of these rows with another outcome.
fn wrong(alloc: Global, rows: &[Row]) -> Option<&'static str> {
    for row in rows {
        if !ends(alloc, row) {
            return Some(row.0);
        }
    }
    None
}

// The source would fail, and is not called. Neither is the disk.
#[test]
fn each_status_comes(rt: HostRuntime) -> Result<(), Fail> {
    assert_eq!(rt; wrong(rt.alloc(), &ROWS), None);
    Ok(())
}
