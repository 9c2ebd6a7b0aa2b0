// The text of a volume's state.
use crate::outcomes::{Told, made, tells, tells_through, zeros};
use mg_disk::MemDisk;
use std::alloc::Global;
use std::process::Abort;

// An object is made, named in the list and given an entry, an extension, and a password that ends with the first period; an account
// and a thread are made; rent is collected; the thread stops at a word that is 0, and thread 1 enters. A word is stored to and is 0 again.
const LINES: &str = "\
1 create 2 1 0x28bd8653e56a5d40\n\
1 store 0x100000000 2\n\
1 store 0x100000020 0x100001000\n\
1 store 0x100000028 0x1aed8da0b819d2bd\n\
1 pwadd 0x100001000 RP 1\n\
1 entry 0x100001000 8\n\
1 ext 0x100001000 0x100000000 0x903df1a0ade0b876\n\
1 account 1 0x28bd8653e56a5d40 400\n\
1 store 0x100002ff8 0xffffffffffffffff\n\
1 thread 0x100001008\n\
rent\n\
2 turn\n\
1 pdx 0x100001008 1\n\
1 store 0x100001010 7\n\
1 store 0x100001010 0\n";

const STATE: &str = "\
frames 64\n\
seed 0000000000000000000000000000000000000000000000000000000000000000\n\
credits 1000\n\
tariff 0:1 16:2 32:4 48:8\n\
draws 5\n\
period 1\n\
cursor 0\n\
births 2\n\
account 1 0x28bd8653e56a5d40 600 0 3\n\
account 2 0x8d4857517c5941da 400 0 0\n\
object 0x0000000100000000 1 1\n\
password 0x903df1a0ade0b876 RWXDPO never\n\
object 0x0000000100001000 2 1\n\
password 0x1aed8da0b819d2bd RWXDPO never\n\
password 0xc70d778bccef36a8 RP 1\n\
entry 0x0000000100001008\n\
extension 0x0000000100000000 0x903df1a0ade0b876\n\
thread 1 1 0 0x0000000100001008 Stopped 0x0000000000000000 0x0000000000000000 0x0000000000000000 0x0000000000000000 0x0000000000000000 0x0000000000000000 0x0000000000000000 0x0000000000000000\n\
frame 0x0000000000000000\n\
slot 0x0000000100000000 0x903df1a0ade0b876\n\
frame 0x0000000000000000\n\
slot 0x0000000100000000 0x903df1a0ade0b876\n\
slot 0x0000000100000000 0x903df1a0ade0b876\n\
thread 2 2 1 0x0000000100001010 Stopped 0x0000000000000000 0x0000000000000000 0x0000000000000000 0x0000000000000000 0x0000000000000000 0x0000000000000000 0x0000000000000000 0x0000000000000000\n\
frame 0x0000000000000000\n\
slot 0x0000000100000000 0x903df1a0ade0b876\n\
word 0x0000000100000000 0x0000000000000002\n\
word 0x0000000100000010 0x0000000100000000\n\
word 0x0000000100000018 0x903df1a0ade0b876\n\
word 0x0000000100000020 0x0000000100001000\n\
word 0x0000000100000028 0x1aed8da0b819d2bd\n\
word 0x0000000100002ff8 0xffffffffffffffff\n";

fn is_shown(rt: &impl Abort, alloc: Global, disk: &mut MemDisk) -> bool {
    let before = disk.counts();
    let shown = tells(rt, alloc, "vol", disk, (0, STATE))
        && tells(rt, alloc, "vol state", disk, (0, STATE));
    let after = disk.counts();
    shown && after.writes == before.writes && after.syncs == before.syncs
}

#[test]
fn a_state_is_shown_whole(rt: HostRuntime) {
    assert!(rt; is_shown(&rt, rt.alloc(), &mut made(&rt, rt.alloc(), LINES)));
}

// What is printed for a disk that holds no volume, or for words that spell no command.
const OTHERS: &[(&str, Told<'static>)] = &[
    ("vol", (2, "open not\n")),
    ("vol state", (2, "open not\n")),
    ("vol State", (1, "usage\n")),
    ("vol state now", (1, "usage\n")),
    ("vol dot thread 1 1", (2, "open not\n")),
    ("vol dot object 0x100000000 4096", (2, "open not\n")),
    ("vol dot thread 1 0", (1, "usage\n")),
    ("vol dot thread 1 4097", (1, "usage\n")),
    (
        "vol dot object 0x100000000 18446744073709551616",
        (1, "usage\n"),
    ),
    ("vol dot thread one 1", (1, "usage\n")),
    ("vol dot threads 1 1", (1, "usage\n")),
    ("vol reach thread 1 1", (1, "usage\n")),
    ("vol dot thread 1", (1, "usage\n")),
    ("vol dot thread 1 1 1", (1, "usage\n")),
    ("", (1, "usage\n")),
];

#[test]
fn what_is_no_volume_is_not_shown(rt: HostRuntime) {
    for (line, told) in OTHERS {
        assert!(rt;
            tells(
                &rt,
                rt.alloc(),
                line,
                &mut zeros(&rt, rt.alloc(), 2660, &[]),
                *told
            ),
            "{line}"
        );
    }
}

fn fails(rt: &impl Abort, alloc: Global, disk: &mut MemDisk) -> bool {
    tells_through(rt, alloc, "vol", disk, &[0], (6, ""))
}

#[test]
fn a_call_that_fails_is_told(rt: HostRuntime) {
    assert!(rt;
        tells(
            &rt,
            rt.alloc(),
            "vol",
            &mut zeros(&rt, rt.alloc(), 2660, &[0]),
            (4, "")
        )
    );
    assert!(rt; fails(&rt, rt.alloc(), &mut made(&rt, rt.alloc(), LINES)));
}
