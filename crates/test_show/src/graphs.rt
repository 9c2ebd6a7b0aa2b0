// The graph of a volume.
use crate::outcomes::{made, tells};
use std::alloc::Global;
use std::process::Abort;

// An object is made and goes into the list. A password of it that gives R and ends with the first period goes into the list too, and into a
// slot. The last entry names nothing.
const LINES: &str = "\
1 create 1 1 0x28bd8653e56a5d40\n\
1 store 0x100000000 4\n\
1 store 0x100000020 0x100001000\n\
1 store 0x100000028 0x1aed8da0b819d2bd\n\
1 pwadd 0x100001000 R 1\n\
1 store 0x100000030 0x100001000\n\
1 store 0x100000038 0xc70d778bccef36a8\n\
1 store 0x100000040 0x200000000\n\
1 store 0x100000048 0x903df1a0ade0b876\n\
1 apdadd 0x100001000 0xc70d778bccef36a8\n";

const DRAWN: &str = "\
digraph volume {\n\
\x20 rankdir=LR\n\
\x20 node [shape=box style=dashed]\n\
\x20 \"thread 1\" [shape=ellipse style=solid]\n\
\x20 \"0x0000000100000000\" [shape=folder style=solid label=\"0x0000000100000000\\n1 pages\\naccount 1\"]\n\
\x20 \"0x0000000100001000\" [shape=folder style=solid label=\"0x0000000100001000\\n1 pages\\naccount 1\"]\n\
\x20 \"thread 1\" -> \"0x0000000100000000\" [label=\"RWXDPO\"]\n\
\x20 \"thread 1\" -> \"0x0000000100001000\" [label=\"R\"]\n\
\x20 \"0x0000000100000000\" -> \"0x0000000100000000\" [label=\"RWXDPO\"]\n\
\x20 \"0x0000000100000000\" -> \"0x0000000100001000\" [label=\"RWXDPO\"]\n\
\x20 \"0x0000000100000000\" -> \"0x0000000100001000\" [label=\"R\"]\n\
\x20 \"0x0000000100000000\" -> \"0x0000000200000000\" [label=\"\" style=dashed]\n\
}\n";

// The same once the period is over.
const LATER: &str = "\
digraph volume {\n\
\x20 rankdir=LR\n\
\x20 node [shape=box style=dashed]\n\
\x20 \"thread 1\" [shape=ellipse style=solid]\n\
\x20 \"0x0000000100000000\" [shape=folder style=solid label=\"0x0000000100000000\\n1 pages\\naccount 1\"]\n\
\x20 \"0x0000000100001000\" [shape=box style=solid label=\"0x0000000100001000\\n1 pages\\naccount 1\"]\n\
\x20 \"thread 1\" -> \"0x0000000100000000\" [label=\"RWXDPO\"]\n\
\x20 \"thread 1\" -> \"0x0000000100001000\" [label=\"\" style=dashed]\n\
\x20 \"0x0000000100000000\" -> \"0x0000000100000000\" [label=\"RWXDPO\"]\n\
\x20 \"0x0000000100000000\" -> \"0x0000000100001000\" [label=\"RWXDPO\"]\n\
\x20 \"0x0000000100000000\" -> \"0x0000000100001000\" [label=\"\" style=dashed]\n\
\x20 \"0x0000000100000000\" -> \"0x0000000200000000\" [label=\"\" style=dashed]\n\
}\n";

fn draws(rt: &impl Abort, alloc: Global, more: &str, wanted: &'static str) -> bool {
    let mut lines = String::from_str(alloc, LINES).expect(rt, "memory");
    lines.push_str(more).expect(rt, "memory");
    let mut disk = made(rt, alloc, lines.as_str());
    tells(rt, alloc, "vol dot", &mut disk, (0, wanted))
}

#[test]
fn what_counts_now_is_drawn(rt: HostRuntime) {
    let alloc = rt.alloc();
    assert!(rt; draws(&rt, alloc, "", DRAWN));
    assert!(rt; draws(&rt, alloc, "rent\n", LATER));
}
