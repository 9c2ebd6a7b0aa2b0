// Why a text does not assemble.
ghost use Rattle.std.specs.Prelude.{◌≡◌, ◌≤◌, length};
ghost use Rattle.mg_asm.specs.FaultText.{kind_name};

use thiserror::Error;

/// What is wrong with a line. A line is tested for the kinds in this order. `NoLabel` comes only if no line has another fault.
#[derive(Clone, Copy, Debug, Drop, PartialEq, Eq, Error)]
pub enum AsmKind {
    /// The first word is no label, no instruction and not `.word`.
    #[error("Unknown")]
    Unknown,
    /// There are more or fewer operands, or words follow a label.
    #[error("Operands")]
    Operands,
    /// A register is not one digit 0 to 7.
    #[error("Register")]
    Register,
    /// An immediate is no number in its range nor, for a jump, a name.
    #[error("Number")]
    Number,
    /// An earlier line has the same label.
    #[error("Twice")]
    Twice,
    /// The word would be number 524,289.
    #[error("TooLong")]
    TooLong,
    /// No line has the label that is used.
    #[error("NoLabel")]
    NoLabel,
}

impl AsmKind {
    /// The word of a kind, as users see it, of at most 8 letters.
    pub fn name(self) -> &'static [u8]
        ensures text { result.now ≡ kind_name self }
        ensures short { length result.now ≤ 8 }
    {
        match self {
            AsmKind::Unknown => b"Unknown",
            AsmKind::Operands => b"Operands",
            AsmKind::Register => b"Register",
            AsmKind::Number => b"Number",
            AsmKind::Twice => b"Twice",
            AsmKind::TooLong => b"TooLong",
            AsmKind::NoLabel => b"NoLabel",
        }
    }
}

/// Why there are no words.
#[derive(Clone, Copy, Debug, Drop, PartialEq, Eq, Error)]
pub enum AsmFault {
    /// There was not enough memory.
    #[error("there was not enough memory")]
    Memory,
    /// The first faulty line, from 1, and its fault.
    #[error("line {line}: {kind}")]
    At { line: u64, kind: AsmKind },
}
