// Lines that reach devices, and lines that do not.
use crate::runs::{Alone, Left, Run, are_expected, count_expected};
use mg_session::Status;
use std::test::Fail;

/// Makes an object of two pages, gives thread 1 access to it, and loads a word of it.
const TWO_PAGES: &str =
    "1 create 2 1 0x28bd8653e56a5d40\n1 load 0x100001000\n1 store 0x100000020 0x100001000\n1 store 0x100000028 0x1aed8da0b819d2bd\n1 store 0x100000000 2\n1 load 0x100001000\n";

const MADE: &str =
    "ok 0x0000000100001000 0x1aed8da0b819d2bd\nno Denied\nok\nok\nok\nok 0x0000000000000000\n";

/// A run with a latch at that object.
const LATCHED: Run = Run {
    line: &["vol", "dev", "latch:0x100001000"],
    devices: None,
    room: 1024,
    input: &[TWO_PAGES],
    status: Status::Done,
    printed: &[MADE, "dev 0x0000000100001000 1 0\n"],
    left: 1,
    tapes: &[],
};

/// The latch's tape is one store of 9, at 8.
const LATCH_LEFT: &[Left] = &[Left {
    base: 0x1_0000_1000,
    kind: 1,
    length: 1,
    off: 8,
    value: 9,
}];

const TAKES_STORES: Run = Run {
    input: &[
        TWO_PAGES,
        "1 store 0x100001008 9\n1 load 0x100001008\n1 pwdel 0x100001000 5\n1 store 0x100001004 1\n",
    ],
    printed: &[
        MADE,
        "ok\nok 0x0000000000000009\nno NoPassword\nno Align\n",
        "dev 0x0000000100001000 1 1\n",
    ],
    tapes: LATCH_LEFT,
    ..LATCHED
};

/// The volume has only the object's words.
const NO_STORE: Alone = Alone {
    input: "1 load 0x100001008\n",
    printed: "ok 0x0000000000000000\n",
};

#[test]
fn a_latch_takes_stores_in_place_of_words(rt: HostRuntime) -> Result<(), Fail> {
    assert!(rt; are_expected(rt.alloc(), &TAKES_STORES, &NO_STORE));
    Ok(())
}

const FULL_TAPE: Run = Run {
    room: 1,
    input: &[
        TWO_PAGES,
        "1 store 0x100001008 9\n1 store 0x100001008 8\n1 load 0x100001008\n1 pwdel 0x100001000 0x1aed8da0b819d2bd\n1 store 0x100001008 7\n",
    ],
    printed: &[
        MADE,
        "ok\nno Limit\nok 0x0000000000000009\nok\nno Denied\n",
        "dev 0x0000000100001000 1 1\n",
    ],
    tapes: LATCH_LEFT,
    ..LATCHED
};

#[test]
fn a_full_tape_and_a_right_that_is_gone(rt: HostRuntime) -> Result<(), Fail> {
    assert_eq!(rt; count_expected(rt.alloc(), &[FULL_TAPE]), 1);
    Ok(())
}

/// Two devices of other kinds. One adds up five and seven, and the other counts one store. Then the first object is deleted.
const COUNTED: &str =
    "1 create 1 1 0x28bd8653e56a5d40\n1 store 0x100000030 0x100003000\n1 store 0x100000038 0xc70d778bccef36a8\n1 store 0x100000000 3\n1 store 0x100001000 5\n1 store 0x100001000 7\n1 load 0x100001000\n1 store 0x100003008 1\n1 load 0x100003000\n1 delete 0x100001000\n1 load 0x100001000\n";

const COUNTED_ANSWERS: &str =
    "ok 0x0000000100003000 0xc70d778bccef36a8\nok\nok\nok\nok\nok\nok 0x000000000000000c\nok\nok 0x0000000000000001\nok\nno Denied\n";

/// The console took one store. It counts a store at any place.
const CONSOLE_LEFT: &[Left] = &[Left {
    base: 0x1_0000_3000,
    kind: 2,
    length: 1,
    off: 16,
    value: 1,
}];

const DELETED: Run = Run {
    line: &["vol", "dev", "counter:0x100001000", "console:0x100003000"],
    input: &[TWO_PAGES, COUNTED],
    printed: &[MADE, COUNTED_ANSWERS, "dev 0x0000000100003000 2 1\n"],
    tapes: CONSOLE_LEFT,
    ..LATCHED
};

#[test]
fn a_deleted_object_takes_its_device_along(rt: HostRuntime) -> Result<(), Fail> {
    assert_eq!(rt; count_expected(rt.alloc(), &[DELETED]), 1);
    Ok(())
}

const MADE_AGAIN: Run = Run {
    line: &["vol", "dev", "counter:0x100001000", "console:0x100003000"],
    input: &[
        TWO_PAGES,
        COUNTED,
        "1 create 2 1 0x28bd8653e56a5d40\n1 store 0x100000028 0x8d4857517c5941da\n1 load 0x100001000\n",
    ],
    printed: &[
        MADE,
        COUNTED_ANSWERS,
        "ok 0x0000000100001000 0x8d4857517c5941da\nok\nok 0x0000000000000000\n",
        "dev 0x0000000100003000 2 1\n",
    ],
    tapes: CONSOLE_LEFT,
    ..LATCHED
};

#[test]
fn a_new_object_at_that_base_has_words(rt: HostRuntime) -> Result<(), Fail> {
    assert_eq!(rt; count_expected(rt.alloc(), &[MADE_AGAIN]), 1);
    Ok(())
}

const SCRIPT_DELETES: Run = Run {
    input: &[
        TWO_PAGES,
        // The script is: set 0 4, set 1 0x1000, high 1 1, sys, which deletes the object at 0x100001000.
        "1 store 0x100000100 0x0000000400000001\n1 store 0x100000108 0x0000100000000101\n1 store 0x100000110 0x0000000100000102\n1 store 0x100000118 0xe\n1 thread 0x100000100\n2 turn\n2 turn\n2 turn\n1 store 0x100001000 3\n2 turn\n1 load 0x100001000\n",
        "1 create 2 1 0x28bd8653e56a5d40\n1 store 0x100000028 0xc70d778bccef36a8\n1 load 0x100001000\n",
    ],
    printed: &[
        MADE,
        "ok\nok\nok\nok\nok 2\nok Ready\nok Ready\nok Ready\nok\nok Ready\nno Denied\n",
        "ok 0x0000000100001000 0xc70d778bccef36a8\nok\nok 0x0000000000000000\n",
    ],
    left: 0,
    ..LATCHED
};

#[test]
fn a_script_that_deletes_takes_the_device_along(rt: HostRuntime) -> Result<(), Fail> {
    assert_eq!(rt; count_expected(rt.alloc(), &[SCRIPT_DELETES]), 1);
    Ok(())
}

const SCRIPT_STORES: Run = Run {
    input: &[
        TWO_PAGES,
        // The script is: set 1 0x1000, high 1 1, set 2 7, store 2 1 0, load 3 1 0, store 3 1 8, halt.
        "1 store 0x100000100 0x0000100000000101\n1 store 0x100000108 0x0000000100000102\n1 store 0x100000110 0x0000000700000201\n1 store 0x100000118 0x10207\n1 store 0x100000120 0x10306\n1 store 0x100000128 0x0000000800010307\n1 thread 0x100000100\n1 store 0x100001000 9\n2 turn\n2 turn\n2 turn\n2 turn\n2 turn\n2 turn\n2 turn\n1 load 0x100001000\n1 load 0x100001008\n",
    ],
    printed: &[
        MADE,
        "ok\nok\nok\nok\nok\nok\nok 2\nok\n",
        "ok Ready\nok Ready\nok Ready\nok Ready\nok Ready\nok Ready\nok Stopped\n",
        "ok 0x0000000000000009\nok 0x0000000000000000\n",
        "dev 0x0000000100001000 1 1\n",
    ],
    ..LATCHED
};

const WORDS_STORED: Alone = Alone {
    input: "1 load 0x100001000\n1 load 0x100001008\n",
    printed: "ok 0x0000000000000007\nok 0x0000000000000007\n",
};

#[test]
fn a_script_reaches_words(rt: HostRuntime) -> Result<(), Fail> {
    assert!(rt; are_expected(rt.alloc(), &SCRIPT_STORES, &WORDS_STORED));
    Ok(())
}

/// The lines of docs/devices.calls.
const EACH_KIND: Run = Run {
    line: &[
        "v",
        "dev",
        "latch:0x100001000",
        "console:0x100002000",
        "counter:0x100003000",
    ],
    input: &[
        "1 create 1 1 0x28bd8653e56a5d40\n1 create 1 1 0x28bd8653e56a5d40\n1 create 1 1 0x28bd8653e56a5d40\n",
        "1 store 0x100000020 0x100001000\n1 store 0x100000028 0x1aed8da0b819d2bd\n1 store 0x100000030 0x100002000\n1 store 0x100000038 0xc70d778bccef36a8\n1 store 0x100000040 0x100003000\n1 store 0x100000048 0x8d4857517c5941da\n1 store 0x100000000 4\n",
        "1 store 0x100001000 5\n1 store 0x100001000 7\n1 store 0x100002000 5\n1 store 0x100002000 7\n1 store 0x100003000 5\n1 store 0x100003000 7\n1 load 0x100001000\n1 load 0x100002000\n1 load 0x100003000\n",
    ],
    printed: &[
        "ok 0x0000000100001000 0x1aed8da0b819d2bd\nok 0x0000000100002000 0xc70d778bccef36a8\nok 0x0000000100003000 0x8d4857517c5941da\n",
        "ok\nok\nok\nok\nok\nok\nok\n",
        "ok\nok\nok\nok\nok\nok\nok 0x0000000000000007\nok 0x0000000000000002\nok 0x000000000000000c\n",
        "dev 0x0000000100001000 1 2\ndev 0x0000000100002000 2 2\ndev 0x0000000100003000 3 2\n",
    ],
    left: 3,
    tapes: &[
        Left {
            base: 0x1_0000_1000,
            kind: 1,
            length: 2,
            off: 0,
            value: 7,
        },
        Left {
            base: 0x1_0000_2000,
            kind: 2,
            length: 2,
            off: 0,
            value: 2,
        },
        Left {
            base: 0x1_0000_3000,
            kind: 3,
            length: 2,
            off: 0,
            value: 12,
        },
    ],
    ..LATCHED
};

#[test]
fn a_device_of_each_kind(rt: HostRuntime) -> Result<(), Fail> {
    assert_eq!(rt; count_expected(rt.alloc(), &[EACH_KIND]), 1);
    Ok(())
}
