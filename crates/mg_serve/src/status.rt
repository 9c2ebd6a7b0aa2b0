// How the program ends.
ghost use Rattle.std.specs.Prelude.{◌≡◌};
ghost use Rattle.mg_serve.specs.Sessions.{code_of};

/// How the program ends.
#[derive(Clone, Copy, PartialEq, Eq)]
pub enum Status {
    /// The command was carried out.
    Done,
    /// The words spell no command.
    Usage,
    /// The disk holds no volume.
    NoVolume,
    /// There was not enough memory.
    Memory,
    /// A call of the disk failed.
    Disk,
    /// A call of the source failed.
    Source,
    /// A call of the sink failed.
    Sink,
    /// More bytes came than a session may take.
    TooLong,
    /// The disk is too small for the volume.
    TooSmall,
}

impl Status {
    /// The exit status, 0 to 8.
    pub fn code(self) -> u8
        ensures { result ≡ code_of self }
    {
        self as u8
    }
}
