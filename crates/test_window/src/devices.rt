// The devices that a run can have.
use crate::runs::{Run, count_expected, count_words_expected};
use mg_session::Status;
use std::test::Fail;

const LOAD: &[&str] = &["1 load 0x100000000\n"];

const USAGE: &[&str] = &["usage\n"];

const SIXTEEN: &[&str] = &[
    "v", "dev", "latch:1", "latch:2", "latch:3", "latch:4", "latch:5", "latch:6", "latch:7",
    "latch:8", "latch:9", "latch:10", "latch:11", "latch:12", "latch:13", "latch:14", "latch:15",
    "latch:16",
];

const SEVENTEEN: &[&str] = &[
    "v", "dev", "latch:1", "latch:2", "latch:3", "latch:4", "latch:5", "latch:6", "latch:7",
    "latch:8", "latch:9", "latch:10", "latch:11", "latch:12", "latch:13", "latch:14", "latch:15",
    "latch:16", "latch:17",
];

/// What the run prints: the answer of the line, and then a line for each device.
const SIXTEEN_LEFT: &[&str] = &[
    "ok 0x0000000000000001\n",
    "dev 0x0000000000000001 1 0\n",
    "dev 0x0000000000000002 1 0\n",
    "dev 0x0000000000000003 1 0\n",
    "dev 0x0000000000000004 1 0\n",
    "dev 0x0000000000000005 1 0\n",
    "dev 0x0000000000000006 1 0\n",
    "dev 0x0000000000000007 1 0\n",
    "dev 0x0000000000000008 1 0\n",
    "dev 0x0000000000000009 1 0\n",
    "dev 0x000000000000000a 1 0\n",
    "dev 0x000000000000000b 1 0\n",
    "dev 0x000000000000000c 1 0\n",
    "dev 0x000000000000000d 1 0\n",
    "dev 0x000000000000000e 1 0\n",
    "dev 0x000000000000000f 1 0\n",
    "dev 0x0000000000000010 1 0\n",
];

const MOST_DEVICES: [Run; 2] = [
    Run {
        line: SIXTEEN,
        devices: None,
        room: 0,
        input: LOAD,
        status: Status::Done,
        printed: SIXTEEN_LEFT,
        left: 16,
        tapes: &[],
    },
    Run {
        line: SEVENTEEN,
        devices: None,
        room: 0,
        input: LOAD,
        status: Status::Usage,
        printed: USAGE,
        left: 0,
        tapes: &[],
    },
];

#[test]
fn sixteen_devices_and_no_more(rt: HostRuntime) -> Result<(), Fail> {
    assert_eq!(rt; count_expected(rt.alloc(), &MOST_DEVICES), 2);
    Ok(())
}

/// The outcome of words that spell no run.
const NO_RUN: Run = Run {
    line: &[],
    devices: None,
    room: 1,
    input: LOAD,
    status: Status::Usage,
    printed: USAGE,
    left: 0,
    tapes: &[],
};

const NO_RUNS: [&[&str]; 10] = [
    &["v", "dev", "latch:1", "console:1"],
    &["v", "dev", "latch:0x10", "latch:16"],
    &["v", "dev", "latch"],
    &["v", "dev", "latch:"],
    &["v", "dev", "tape:1"],
    &["v", "dev", "Latch:1"],
    &["v", "dev", "latch:18446744073709551616"],
    &["v", "devs", "latch:1"],
    &["v"],
    &[],
];

#[test]
fn words_that_ask_for_no_run(rt: HostRuntime) -> Result<(), Fail> {
    assert_eq!(rt; count_words_expected(rt.alloc(), &NO_RUN, &NO_RUNS), 10);
    Ok(())
}

/// The outcome of a run whose words name other devices than it is given.
const OTHER_RUN: Run = Run {
    devices: Some(&["v", "dev", "latch:1"]),
    left: 1,
    ..NO_RUN
};

const OTHER_RUNS: [&[&str]; 4] = [
    &["v", "dev", "latch:2"],
    &["v", "dev", "console:1"],
    &["v", "dev", "latch:1", "latch:2"],
    &["v", "dev"],
];

#[test]
fn other_devices_than_asked_for(rt: HostRuntime) -> Result<(), Fail> {
    assert_eq!(rt;
        count_words_expected(rt.alloc(), &OTHER_RUN, &OTHER_RUNS),
        4
    );
    Ok(())
}

const FEW_DEVICES: [Run; 2] = [
    Run {
        line: &["v", "dev"],
        devices: None,
        room: 1,
        input: LOAD,
        status: Status::Done,
        printed: &["ok 0x0000000000000001\n"],
        left: 0,
        tapes: &[],
    },
    Run {
        line: &["v", "dev", "console:0x100200000"],
        devices: None,
        room: 1,
        input: &["1 store 0x100200000 1\n1 load 0x100000000\n"],
        status: Status::Done,
        printed: &["no Denied\nok 0x0000000000000001\ndev 0x0000000100200000 2 0\n"],
        left: 1,
        tapes: &[],
    },
];

#[test]
fn no_device_and_one_at_no_object(rt: HostRuntime) -> Result<(), Fail> {
    assert_eq!(rt; count_expected(rt.alloc(), &FEW_DEVICES), 2);
    Ok(())
}
