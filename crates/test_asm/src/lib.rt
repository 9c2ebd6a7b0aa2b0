//! Tests of scripts: what instructions do to a thread's row; texts whose words were worked out by hand from the table of
//! instructions; and each fault that a short text can have, with its line. Of the program's call they show how each status comes.
//!
//! They are in a crate above `mg_script`, `mg_asm` and `mg_asm_session`, so that these are proved once.
#![tactic(auto)]

#[cfg(test)]
mod execute_tests;
#[cfg(test)]
mod session_tests;

#[cfg(test)]
mod tests {
    use mg_asm::{AsmFault, AsmKind, assemble, print, read_list, store_lines};
    use std::alloc::Global;
    use std::process::Abort;

    fn assembles(alloc: Global, text: &[u8], known: &[u64]) -> bool {
        match assemble(alloc, text) {
            Ok(words) => words.as_slice() == known,
            Err(_) => false,
        }
    }

    // Notes, tabs, an empty line, both spellings of numbers, and a last line that does not end.
    #[test]
    fn a_script_is_assembled(rt: HostRuntime) {
        let text = b"set 1 0x2008 # the second word\nhigh 1 1\n\n\tset 2 7\nstore  2 1 0\nret";
        let known = [
            0x0000_2008_0000_0101,
            0x0000_0001_0000_0102,
            0x0000_0007_0000_0201,
            0x0001_0207,
            0xc,
        ];
        assert!(rt; assembles(rt.alloc(), text, &known));
    }

    #[test]
    fn a_store_by_register_0(rt: HostRuntime) {
        assert!(rt; assembles(rt.alloc(), b"store 0 1 0", &[0x0001_0007]));
    }

    // Forward to a label at the end, back to one, and back by a number.
    #[test]
    fn jumps_go_to_labels(rt: HostRuntime) {
        let text = b"top:\njump end\njz 3 top\njnz 1 -1\n.word 0xff\nend:\n";
        let known = [
            0x0000_0004_0000_0008,
            0xffff_ffff_0000_0309,
            0xffff_ffff_0000_010a,
            0xff,
        ];
        assert!(rt; assembles(rt.alloc(), text, &known));
    }

    fn prints(alloc: Global, words: &[u64], known: &[u8]) -> bool {
        match print(alloc, words) {
            Ok(text) => text.as_slice() == known,
            Err(_) => false,
        }
    }

    // Instructions, a jump back, and a word that is none.
    #[test]
    fn words_are_printed(rt: HostRuntime) {
        let words = [
            0x0000_6100_0000_0301,
            0x0004_030b,
            0xffff_fffe_0000_0008,
            0x0801,
            0,
            0x0000_0001_0000_0102,
            0x0001_0007,
        ];
        let known =
            b"set 3 24832\npdx 3 4\njump -2\n.word 0x0000000000000801\nhalt\nhigh 1 1\nstore 0 1 0\n";
        assert!(rt; prints(rt.alloc(), &words, known));
    }

    fn faults(rt: &impl Abort, alloc: Global, text: &[u8], line: u64, kind: AsmKind) {
        let fault = assemble(alloc, text).err();
        assert!(rt; fault == Some(AsmFault::At { line, kind }));
    }

    // The first faulty line is named. A label that no line has is a fault only if nothing else is wrong.
    #[test]
    fn faults_name_their_lines(rt: HostRuntime) {
        let alloc = rt.alloc();
        faults(&rt, alloc, b"halt\nstop", 2, AsmKind::Unknown);
        faults(&rt, alloc, b"halt\r\n", 1, AsmKind::Unknown);
        faults(&rt, alloc, b"halt\n\nadd 1 2", 3, AsmKind::Operands);
        faults(&rt, alloc, b"a: halt", 1, AsmKind::Operands);
        faults(&rt, alloc, b"set 8 x", 1, AsmKind::Register);
        faults(&rt, alloc, b"jump 0x1", 1, AsmKind::Number);
        faults(&rt, alloc, b"a:\njump b\na:", 3, AsmKind::Twice);
        faults(&rt, alloc, b"a:\njump b\njump c", 2, AsmKind::NoLabel);
    }

    fn reads(alloc: Global, text: &[u8], known: &[u64]) -> bool {
        match read_list(alloc, text) {
            Ok(words) => words.as_slice() == known,
            Err(_) => false,
        }
    }

    // Both spellings, a note, an empty line and a tab.
    #[test]
    fn a_list_is_read(rt: HostRuntime) {
        let text = b"0x101 # set 1 0\n\n\t18446744073709551615\n0";
        assert!(rt; reads(rt.alloc(), text, &[0x101, 0xffff_ffff_ffff_ffff, 0]));
    }

    fn list_faults(rt: &impl Abort, alloc: Global, text: &[u8], line: u64, kind: AsmKind) {
        let fault = read_list(alloc, text).err();
        assert!(rt; fault == Some(AsmFault::At { line, kind }));
    }

    #[test]
    fn faults_of_lists_name_their_lines(rt: HostRuntime) {
        let alloc = rt.alloc();
        list_faults(&rt, alloc, b"1\nx 2", 2, AsmKind::Operands);
        list_faults(&rt, alloc, b"1\n\n0x", 3, AsmKind::Number);
        list_faults(&rt, alloc, b"1\r\n", 1, AsmKind::Number);
    }

    fn stores(alloc: Global, words: &[u64], known: &[u8]) -> bool {
        match store_lines(alloc, 256, 0xf_ffff_ffff_fff8, words) {
            Ok(text) => text.as_slice() == known,
            Err(_) => false,
        }
    }

    #[test]
    fn words_are_stored_by_lines(rt: HostRuntime) {
        let known =
            b"256 store 0x000ffffffffffff8 0x000000000000000c\n256 store 0x0010000000000000 0xff00000000000000\n";
        assert!(rt; stores(rt.alloc(), &[0xc, 0xff00_0000_0000_0000], known));
    }
}
