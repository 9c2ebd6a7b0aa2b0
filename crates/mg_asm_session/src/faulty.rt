// A text that has a fault.
use mg_asm::AsmKind;

/// A text that has a fault: its bytes, the first faulty line, from 1, and what is wrong with it.
#[derive(Drop)]
pub struct Faulty {
    pub text: Vec<u8>,
    pub line: u64,
    pub kind: AsmKind,
}
