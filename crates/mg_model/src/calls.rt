// The system calls, one in each line.
use crate::rights::Rights;

/// A system call with its arguments, in the order of the table of calls. Addresses, passwords and words are 64 bits.
#[derive(Clone, Copy, PartialEq, Eq)]
#[rattlefmt::skip]
pub enum Call {
    Load { a: u64 },
    Store { a: u64, value: u64 },
    Create { pages: u64, account: u64, password: u64 },
    Delete { base: u64 },
    Info { base: u64 },
    Pwadd { base: u64, rights: Rights, until: Option<u64> },
    Pwdel { base: u64, password: u64 },
    Entry { base: u64, off: u64 },
    Ext { base: u64, clist: u64, password: u64 },
    Recharge { base: u64, account: u64, password: u64 },
    Apdadd { clist: u64, password: u64 },
    Apddel { index: u64 },
    Apdlist,
    Pdx { a: u64, mask: u8 },
    Ret,
    Thread { pc: u64 },
    End { thread: u64 },
    Resume { thread: u64 },
    Turn,
    Next,
    Account { account: u64, password: u64, amount: u64 },
    Pay { account: u64, password: u64, to: u64, amount: u64 },
    Balance { account: u64, password: u64 },
    Rent,
    /// A line that is no known call.
    Bad,
}

/// One line of a call file: a call, and the thread that makes it.
#[derive(Clone, Copy, PartialEq, Eq)]
pub struct Line {
    /// The thread's number; 0 for `Next`, `Rent` and `Bad`, which name none.
    pub thread: u64,
    pub call: Call,
}
