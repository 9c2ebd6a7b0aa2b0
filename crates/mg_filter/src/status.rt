// How a filter ends.
ghost use Rattle.std.specs.Prelude.{◌≡◌};
ghost use Rattle.mg_filter.specs.Statuses.{code_of};

/// How a filter ends.
#[derive(Clone, Copy, PartialEq, Eq)]
pub enum Status {
    /// What the input became was written.
    Done,
    /// The input has a fault, whose line was written.
    Fault,
    /// The words spell no command.
    Usage,
    /// There was not enough memory.
    Memory,
    /// A call of the source failed.
    Source,
    /// A call of a sink failed.
    Sink,
    /// The input is too long.
    TooLong,
}

impl Status {
    /// The exit status: 0, 1, 3, 5, 6 or 7.
    pub fn code(self) -> u8
        ensures { result ≡ code_of self }
    {
        match self {
            Status::Done => 0,
            Status::Fault | Status::Usage => 1,
            Status::Memory => 3,
            Status::Source => 5,
            Status::Sink => 6,
            Status::TooLong => 7,
        }
    }
}
