// Parts of the graph of a volume.
use crate::outcomes::{made, tells};
use mg_disk::MemDisk;
use std::alloc::Global;
use std::process::Abort;

// Three objects are made. The list of thread 1 names the first of them, and that names the second: its first place is empty, and its
// last entry names nothing. Thread 2 reads the first one as a list. The third one is in no list.
const LINES: &str = "\
1 create 1 1 0x28bd8653e56a5d40\n\
1 create 1 1 0x28bd8653e56a5d40\n\
1 create 1 1 0x28bd8653e56a5d40\n\
1 store 0x100000000 2\n\
1 store 0x100000020 0x100001000\n\
1 store 0x100000028 0x1aed8da0b819d2bd\n\
1 store 0x100001000 3\n\
1 store 0x100001020 0x100002000\n\
1 store 0x100001028 0xc70d778bccef36a8\n\
1 store 0x100001030 0x200000000\n\
1 entry 0x100001000 8\n\
1 thread 0x100001008\n\
2 apdadd 0x100001000 0x1aed8da0b819d2bd\n";

const HEAD: &str = "\
digraph volume {\n\
\x20 rankdir=LR\n\
\x20 node [shape=box style=dashed]\n";

// The nodes of the objects and of the threads, and their arrows.
const LIST: &str =
    "\x20 \"0x0000000100000000\" [shape=folder style=solid label=\"0x0000000100000000\\n1 pages\\naccount 1\"]\n";

const FIRST: &str =
    "\x20 \"0x0000000100001000\" [shape=folder style=solid label=\"0x0000000100001000\\n1 pages\\naccount 1\"]\n";

const SECOND: &str =
    "\x20 \"0x0000000100002000\" [shape=box style=solid label=\"0x0000000100002000\\n1 pages\\naccount 1\"]\n";

const THREAD_1: &str = "\x20 \"thread 1\" [shape=ellipse style=solid]\n";

const THREAD_2: &str = "\x20 \"thread 2\" [shape=ellipse style=solid]\n";

const SLOT_OF_1: &str = "\x20 \"thread 1\" -> \"0x0000000100000000\" [label=\"RWXDPO\"]\n";

const SLOTS_OF_2: &str = "\
\x20 \"thread 2\" -> \"0x0000000100000000\" [label=\"RWXDPO\"]\n\
\x20 \"thread 2\" -> \"0x0000000100001000\" [label=\"RWXDPO\"]\n";

const FROM_LIST: &str = "\
\x20 \"0x0000000100000000\" -> \"0x0000000100000000\" [label=\"RWXDPO\"]\n\
\x20 \"0x0000000100000000\" -> \"0x0000000100001000\" [label=\"RWXDPO\"]\n";

const FROM_FIRST: &str = "\
\x20 \"0x0000000100001000\" -> \"0x0000000100002000\" [label=\"RWXDPO\"]\n\
\x20 \"0x0000000100001000\" -> \"0x0000000200000000\" [label=\"\" style=dashed]\n";

const END: &str = "}\n";

// A part of the graph, and the lines between its head and its end.
type Part = (&'static str, &'static [&'static str]);

const OF_A_THREAD: [Part; 3] = [
    ("thread 1 1", &[THREAD_1, LIST, SLOT_OF_1]),
    ("thread 1 2", &[THREAD_1, LIST, FIRST, SLOT_OF_1, FROM_LIST]),
    (
        "thread 0x1 3",
        &[
            THREAD_1, LIST, FIRST, SECOND, SLOT_OF_1, FROM_LIST, FROM_FIRST,
        ],
    ),
];

const OF_ANOTHER: [Part; 3] = [
    ("thread 2 1", &[THREAD_2, LIST, FIRST, SLOTS_OF_2]),
    ("thread 3 3", &[]),
    ("thread 0 3", &[]),
];

const OF_OBJECTS: [Part; 4] = [
    ("object 0x100000000 1", &[LIST, FIRST, FROM_LIST]),
    ("object 4294971392 0x1", &[FIRST, SECOND, FROM_FIRST]),
    ("object 0x100002000 9", &[SECOND]),
    ("object 0x100001008 1", &[]),
];

fn push(rt: &impl Abort, text: &mut String, more: &str) {
    text.push_str(more).expect(rt, "memory");
}

fn whole(rt: &impl Abort, alloc: Global, lines: &[&str]) -> String {
    let mut text = String::from_str(alloc, HEAD).expect(rt, "memory");
    for line in lines {
        push(rt, &mut text, line);
    }
    push(rt, &mut text, END);
    text
}

fn draws(rt: &impl Abort, alloc: Global, disk: &mut MemDisk, part: &str, lines: &[&str]) -> bool {
    let mut line = String::from_str(alloc, "vol dot ").expect(rt, "memory");
    push(rt, &mut line, part);
    let text = whole(rt, alloc, lines);
    tells(rt, alloc, line.as_str(), disk, (0, text.as_str()))
}

fn draws_all(rt: &impl Abort, alloc: Global, parts: &[Part]) -> bool {
    let mut disk = made(rt, alloc, LINES);
    for (part, lines) in parts {
        if !draws(rt, alloc, &mut disk, part, lines) {
            return false;
        }
    }
    true
}

#[test]
fn what_a_thread_reaches_is_drawn_step_by_step(rt: HostRuntime) {
    assert!(rt; draws_all(&rt, rt.alloc(), &OF_A_THREAD));
}

#[test]
fn of_a_thread_that_is_not_there_nothing_is_drawn(rt: HostRuntime) {
    assert!(rt; draws_all(&rt, rt.alloc(), &OF_ANOTHER));
}

#[test]
fn what_an_object_reaches_is_drawn(rt: HostRuntime) {
    assert!(rt; draws_all(&rt, rt.alloc(), &OF_OBJECTS));
}
