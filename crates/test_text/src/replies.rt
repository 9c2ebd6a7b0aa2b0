// Replies, with the lines that are printed of them.
ghost use Rattle.mg_model.specs.FewSlots.{HasFewSlots};

use arrayvec::ArrayVec;
use mg_model::{After, Fault, Refusal, Reply};
use mg_text::print_reply;

const ABOUT: Reply = Reply::About {
    base: 1 << 32,
    pages: 2,
    account: 3,
    passwords: 4,
    entries: 5,
    ext: 1,
};

const SLOTS: Reply = Reply::Slots {
    count: 2,
    bases: [1 << 32, 0, 0, 0, 0, 0, 0, 0],
};

fn is_printed(reply: Reply, line: &[u8]) -> bool
    requires { HasFewSlots reply }
{
    let mut out = ArrayVec::new();
    print_reply(&reply, &mut out);
    out.as_slice() == line
}

#[test]
fn replies(rt: HostRuntime) {
    let printed = [
        is_printed(Reply::No(Refusal::NoThread), b"no NoThread\n"),
        is_printed(Reply::Done, b"ok\n"),
        is_printed(
            Reply::Value(0x0123_4567_89ab_cdef),
            b"ok 0x0123456789abcdef\n",
        ),
        is_printed(Reply::Opened(1024, 10), b"ok 1024 0x000000000000000a\n"),
        is_printed(ABOUT, b"ok 0x0000000100000000 2 3 4 5 1\n"),
        is_printed(SLOTS, b"ok 2 0x0000000100000000 0x0000000000000000\n"),
        is_printed(
            Reply::Ran(255, After::Faulted(Fault::Opcode)),
            b"ok 255 Faulted Opcode\n",
        ),
        is_printed(
            Reply::Funds(u64::MAX, 0, 7),
            b"ok 18446744073709551615 0 7\n",
        ),
    ];
    assert_eq!(rt; printed, [true; 8]);
}
