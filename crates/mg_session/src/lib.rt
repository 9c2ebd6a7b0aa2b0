//! The calls of the program `mungi`: the commands that run lines, and the top call, from the words of the command line to the exit
//! status.
//!
//! [`top`] reads a command's words, and makes a volume on the disk, reports what the disk holds, counts the replies to a generated
//! run, or runs the source's lines on a volume. What the layer above learns is in the contracts of [`top`] and [`serve`], for every disk,
//! source and sink, those that fail at any call among them: what the sink took, how much the source gave, what the disk holds and
//! what a stop may leave of it at each moment, and when each status comes.
//!
//! The words, what each command keeps, and the commands that need no machine are those of `mg_commands`; the command `migrate` is
//! [`top_migrate`], of `mg_migrate_session`. The loop from bytes to replies is that of `mg_serve`; here a kernel is one of its machines, and
//! [`serve`] is that loop over it.
//!
//! The definitions in `specs/` are of parts of a session: `Generating` (a generated run) and `Serving` (what [`serve`] keeps).
#![tactic(auto)]

mod dry;
mod generating;
mod running;
mod serving;
mod top_call;

pub use mg_commands::{Command, put_fault, put_small, put_summary, put_usage, read_words};
pub use mg_migrate_session::{is_migrate, top_migrate};
pub use mg_serve::{Buffers, Ended, Status};
pub use running::run;
pub use serving::serve;
pub use top_call::top;
