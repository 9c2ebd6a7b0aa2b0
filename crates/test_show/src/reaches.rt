// Who may reach what.
use crate::outcomes::{made, tells};
use std::alloc::Global;
use std::process::Abort;

// An object is made whose password goes out of the list. Two others come in: one with R and X that ends with the first period, and one
// with R and P that never ends. The object has an entry.
const LINES: &str = "\
1 create 1 1 0x28bd8653e56a5d40\n\
1 store 0x100000000 2\n\
1 store 0x100000020 0x100001000\n\
1 store 0x100000028 0x1aed8da0b819d2bd\n\
1 entry 0x100001000 8\n\
1 pwadd 0x100001000 RX 1\n\
1 pwadd 0x100001000 RP\n\
1 store 0x100000000 3\n\
1 store 0x100000028 0xc70d778bccef36a8\n\
1 store 0x100000030 0x100001000\n\
1 store 0x100000038 0x8d4857517c5941da\n";

const REACH: &str = "\
reach 1 0x0000000100000000 RWXDPO\n\
reach 1 0x0000000100001000 RXP\n\
enter 1 0x0000000100001008\n";

// The same once the period is over.
const LATER: &str = "\
reach 1 0x0000000100000000 RWXDPO\n\
reach 1 0x0000000100001000 RP\n\
enter 1 0x0000000100001008\n";

// And once the list has one entry.
const REVOKED: &str = "reach 1 0x0000000100000000 RWXDPO\n";

fn reaches(rt: &impl Abort, alloc: Global, more: &str, wanted: &'static str) -> bool {
    let mut lines = String::from_str(alloc, LINES).expect(rt, "memory");
    lines.push_str(more).expect(rt, "memory");
    let mut disk = made(rt, alloc, lines.as_str());
    tells(rt, alloc, "vol reach", &mut disk, (0, wanted))
}

#[test]
fn what_each_thread_reaches_is_told(rt: HostRuntime) {
    let alloc = rt.alloc();
    assert!(rt; reaches(&rt, alloc, "", REACH));
    assert!(rt; reaches(&rt, alloc, "rent\n", LATER));
    assert!(rt; reaches(&rt, alloc, "1 store 0x100000000 1\n", REVOKED));
}
