// Sessions that reach the limit on their bytes.
ghost use Rattle.std.specs.Prelude.{◌≡◌, ◌<◌};

use mg_disk::Disk;
use mg_io::{MemSink, MemSource};
use mg_kernel::Kernel;
use mg_model::Steps;
use mg_session::{Buffers, Ended, serve};
use std::alloc::{AllocError, Global};
use std::marker::Brand;
use std::sync::ledger::{Blank, Ledger};
use test_helpers::fresh;

// The source, the sink and the buffers of the replies.
#[derive(Drop)]
struct Channels {
    source: MemSource,
    sink: MemSink,
    replies: Buffers,
}

// Those of a session that reads this input.
fn channels_of(alloc: Global, input: &[u8]) -> Result<Channels, AllocError> {
    let source = MemSource::new(input.to_vec(alloc)?, 4, Vec::new(alloc));
    let sink = MemSink::new(alloc, 256, Vec::new(alloc))?;
    match Buffers::new(alloc) {
        Ok(replies) => Ok(Channels {
            source,
            sink,
            replies,
        }),
        Err(e) => Err(e),
    }
}

// What a session reads with a limit of 16 bytes, its status, and its output.
type Row = (&'static [u8], u8, &'static [u8]);

// A byte past the limit is in no line. A line that ended before it is answered.
const ROWS: &[Row] = &[
    (b"                ", 0, b""),
    (b"                 ", 7, b""),
    (b"1 ret\n          ", 0, b"no NoFrame\n"),
    (b"1 ret\n           ", 7, b"no NoFrame\n"),
    (
        b"1 ret\n1 ret\n1 re",
        0,
        b"no NoFrame\nno NoFrame\nno Syntax\n",
    ),
    (b"1 ret\n1 ret\n1 ret", 7, b"no NoFrame\nno NoFrame\n"),
];

// The number of rows, from the first on, whose session ends as the row says.
fn served<L: Ledger>(alloc: Global, blank: Blank) -> usize
    requires name { blank.name ≡ L.name }
    requires parts { blank.parts ≡ L.parts }
    requires has_parts { 0 < blank.parts }
{
    let mut steps = Steps::<L>::new(blank);
    count_served(alloc, &mut steps)
}

fn count_served<L: Ledger>(alloc: Global, steps: &mut Steps<L>) -> usize {
    let mut served: usize = 0;
    for row in ROWS {
        if !is_served(alloc, row, steps) {
            break;
        }
        served = served.saturating_add(1);
    }
    served
}

// Whether a session has the status and the output of its row.
fn is_served<L: Ledger>(alloc: Global, row: &Row, steps: &mut Steps<L>) -> bool {
    match channels_of(alloc, row.0) {
        Ok(mut channels) => is_served_with(alloc, row, &mut channels, steps),
        Err(_) => false,
    }
}

// The same with these streams.
fn is_served_with<L: Ledger>(
    alloc: Global,
    row: &Row,
    channels: &mut Channels,
    steps: &mut Steps<L>,
) -> bool {
    serve_channels(alloc, channels, steps) == Some(row.1) && are_same(channels.sink.bytes(), row.2)
}

fn are_same(printed: &[u8], wanted: &[u8]) -> bool {
    printed == wanted
}

// The status of a session with these streams. None if out of memory or if a call fails.
fn serve_channels<L: Ledger>(
    alloc: Global,
    channels: &mut Channels,
    steps: &mut Steps<L>,
) -> Option<u8> {
    match fresh(alloc) {
        Ok(mut disk) => serve_disk(alloc, &mut disk, channels, steps),
        Err(_) => None,
    }
}

// The same on this disk.
fn serve_disk<D: Disk, L: Ledger>(
    alloc: Global,
    disk: &mut D,
    channels: &mut Channels,
    steps: &mut Steps<L>,
) -> Option<u8> {
    match Kernel::open(alloc, disk) {
        Ok(mut kernel) => code(serve(
            &mut kernel,
            disk,
            &mut channels.source,
            &mut channels.sink,
            &mut channels.replies,
            1,
            16,
            steps,
        )),
        Err(_) => None,
    }
}

fn code(ended: Result<(), Ended>) -> Option<u8> {
    match ended {
        Ok(()) => Some(0),
        Err(Ended::TooLong) => Some(7),
        Err(_) => None,
    }
}

#[test]
fn a_limit_of_16_bytes(rt: HostRuntime) {
    assert!(rt; served::<Brand>(rt.alloc(), Blank::new(1)) == ROWS.len());
}
