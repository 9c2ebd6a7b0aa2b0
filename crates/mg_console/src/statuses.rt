// Says what a status means.
use crate::endings::{report, report_input, report_output};
use mg_serve::Status;
use std::io::{self, Eprint};

/// Says why a command on a volume ended with this status, unless its words or one of its disks is the cause. The errors are those of
/// standard input and of standard output.
pub fn report_status<R: Eprint>(
    rt: &R,
    program: &str,
    status: Status,
    read: Option<&io::Error>,
    written: Option<&io::Error>,
) {
    match status {
        Status::Done => {}
        Status::Usage => {}
        Status::NoVolume => {}
        Status::Memory => report(rt, program, "not enough memory"),
        Status::Disk => {}
        Status::Source => report_input(rt, program, read),
        Status::Sink => report_output(rt, program, written),
        Status::TooLong => report(rt, program, "standard input has more than 4294967296 bytes"),
        Status::TooSmall => report(rt, program, "the disk has too few blocks for the volume"),
    }
}

/// Says why a program that turns an input into a text ended with this status, unless its words or a fault in the input, which it has
/// reported, is the cause. The input can have at most `limit` bytes.
pub fn report_filter_status<R: Eprint>(
    rt: &R,
    program: &str,
    status: mg_filter::Status,
    limit: u64,
    read: Option<&io::Error>,
    written: Option<&io::Error>,
) {
    match status {
        mg_filter::Status::Done => {}
        mg_filter::Status::Fault => {}
        mg_filter::Status::Usage => {}
        mg_filter::Status::Memory => report(rt, program, "not enough memory"),
        mg_filter::Status::Source => report_input(rt, program, read),
        mg_filter::Status::Sink => report_output(rt, program, written),
        mg_filter::Status::TooLong => {
            let _ = eprintln!(rt; "{program}: standard input has more than {limit} bytes");
        }
    }
}
