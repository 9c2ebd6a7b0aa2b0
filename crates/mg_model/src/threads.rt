// The state of a thread.

/// Why a turn faulted.
#[derive(Clone, Copy, PartialEq, Eq)]
pub enum Fault {
    /// A load or a store at an address that is no multiple of 8.
    Align,
    /// A fetch, a load or a store that the thread's domain does not allow.
    Denied,
    /// A word that is no instruction.
    Opcode,
}

/// Whether a thread takes turns.
#[derive(Clone, Copy, PartialEq, Eq)]
pub enum ThrState {
    Ready,
    Stopped,
    Faulted(Fault),
}

/// What a thread is after its turn: as its state says, or no more there.
#[derive(Clone, Copy, PartialEq, Eq)]
pub enum After {
    Ready,
    Stopped,
    Faulted(Fault),
    /// The thread ended itself.
    Ended,
}
