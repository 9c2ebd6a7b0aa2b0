// Counters of a volume at their ends, which no session reaches: the passwords drawn, the period, and the births.
use std::alloc::Global;
use std::test::Fail;
use test_helpers::{answers, fresh, write_bytes};

/// One password is left to draw.
const DRAWS: [&str; 2] = [
    "1298 0 0xff, 1298 1 0xff, 1298 2 0xff, 1298 3 0xff",
    "1 pwadd 0x100000000 R 0
#= no Past
1 create 64 1 0x28bd8653e56a5d40
#= no Full
1 pwadd 0x100000000 R
#= ok 0x238c84e8061ed4c7
1 pwadd 0x100000000 R
#= no Limit
1 pwadd 0x100000000 R 0
#= no Past
1 create 1 1 0x28bd8653e56a5d40
#= no Limit
1 create 64 1 0x28bd8653e56a5d40
#= no Limit
1 create 1 1 0
#= no Account
1 pwdel 0x100000000 0x238c84e8061ed4c7
#= ok
1 pwadd 0x100000000 R
#= no Limit
1 info 0x100000000
#= ok 0x0000000100000000 1 1 1 0 0
",
];

/// No password is left for an account.
const LAST_DRAW: [&str; 2] = [
    "1298 0 0, 1298 4 1",
    "1 account 1 0x28bd8653e56a5d40 1001
#= no Credit
1 account 1 0x28bd8653e56a5d40 1
#= no Limit
1 balance 1 0x28bd8653e56a5d40
#= ok 1000 0 1
",
];

/// The last period but one.
const PERIODS: [&str; 2] = [
    "1298 8 0xfe, 1298 9 0xff, 1298 10 0xff",
    "1 pwadd 0x100000000 R 16777214
#= no Past
1 pwadd 0x100000000 R 16777215
#= ok 0x1aed8da0b819d2bd
rent
#= ok 16777215 1 1
1 pwadd 0x100000000 R 16777215
#= no Past
rent
#= no Calendar
1 balance 1 0x28bd8653e56a5d40
#= ok 1000 0 1
",
];

/// The last birth but one.
const BIRTHS: [&str; 2] = [
    "1298 24 0xfe, 1298 25 0xff, 1298 26 0xff, 1298 27 0xff",
    "1 thread 0x100000000
#= ok 2
1 thread 0x100000000
#= no Limit
1 thread 0x100000004
#= no Align
1 thread 0x100001000
#= no Denied
1 end 2
#= ok
1 thread 0x100000000
#= no Limit
2 apdlist
#= no NoThread
",
];

/// Whether a run with this command line gives the answers of the session, on a fresh volume with these bytes.
fn is_answered(alloc: Global, line: &str, bytes: &str, session: &str) -> bool {
    match fresh(alloc) {
        Ok(mut disk) => {
            write_bytes(&mut disk, bytes) && answers(alloc, line, &mut disk, session)
        }
        Err(_) => false,
    }
}

/// Whether runs with batches of 1 and of 64 lines do, with the bytes of the first text and the session of the second.
fn are_answered(alloc: Global, texts: [&str; 2]) -> bool {
    let [bytes, session] = texts;
    is_answered(alloc, "vol run", bytes, session)
        && is_answered(alloc, "vol run 64", bytes, session)
}

#[test]
fn counters_at_their_ends(rt: HostRuntime) -> Result<(), Fail> {
    let alloc = rt.alloc();
    assert!(rt; are_answered(alloc, DRAWS));
    assert!(rt; are_answered(alloc, LAST_DRAW));
    assert!(rt; are_answered(alloc, PERIODS));
    assert!(rt; are_answered(alloc, BIRTHS));
    Ok(())
}
